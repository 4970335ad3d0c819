//! Degenerate and largest problems and graphs. The largest file here has about 1.1 million bytes.

use crate::inputs::STAR;
use crate::rows::{assert_rows, lines};
use crate::solved::{assert_begins, assert_solved};
use std::alloc::{AllocError, Global};
use std::process::Abort;
use std::test::Fail;

/// Problems whose sets are small, and how the answer begins.
const DEGENERATE: &str =
    "parity 1 / field 2 / dimension 0 / lines 3 / line | / line | / line | => answer 1 / size 0 / set / kernel 0
parity 1 / field 5 / dimension 1 / lines 2 / line 1 | 2 / line 0 | 3 => answer 1 / size 0 / set / kernel 0
parity 1 / field 3 / dimension 3 / lines 5 / line 1 0 0 | 0 1 0 / line 1 0 0 | 0 1 0 \
/ line 1 0 0 | 0 1 0 / line 1 0 0 | 0 1 0 / line 1 0 0 | 0 1 0 => answer 1 / size 1
parity 1 / field 251 / dimension 2 / lines 1 / line 250 250 | 1 1 => answer 1 / size 0 / set / kernel 0";

#[test]
fn degenerate_problems_are_solved(rt: HostRuntime) -> Result<(), Fail> {
    for row in DEGENERATE.split('\n') {
        let mut parts = row.split(" => ");
        let text = parts.next().unwrap_or("");
        let begins = parts.next().unwrap_or("");
        assert_solved(&rt, rt.alloc(), text, begins)?;
    }
    Ok(())
}

/// Puts a space and one or zero last, for each of 128 entries, of which one is one.
fn put_entries(out: &mut Vec<u8>, one: usize) -> Result<(), AllocError> {
    for i in 0..128 {
        out.extend_from_slice(if i == one { b" 1" } else { b" 0" })?;
    }
    Ok(())
}

/// A line with one or no entry of one in each of its vectors: none where the position is 128 or more.
fn line(alloc: Global, first: usize, second: usize) -> Result<Vec<u8>, AllocError> {
    let mut out = Vec::new(alloc);
    out.extend_from_slice(b"line")?;
    put_entries(&mut out, first)?;
    out.extend_from_slice(b" |")?;
    put_entries(&mut out, second)?;
    out.push(b'\n')?;
    Ok(out)
}

/// Puts so many zero lines last.
fn put_zero_lines(out: &mut Vec<u8>, alloc: Global, count: usize) -> Result<(), AllocError> {
    let zero = line(alloc, 128, 128)?;
    for _ in 0..count {
        out.extend_from_slice(&zero)?;
    }
    Ok(())
}

/// A problem of 2,048 lines in dimension 128: 64 lines of two unit vectors each, or none, and then zero lines.
fn most_lines(alloc: Global, units: usize) -> Result<Vec<u8>, AllocError> {
    let mut out = lines(alloc, "parity 1 / field 2 / dimension 128 / lines 2048", "")?;
    for i in 0..units.min(64) {
        out.extend_from_slice(&line(alloc, 2 * i, 2 * i + 1)?)?;
    }
    put_zero_lines(&mut out, alloc, 2048 - units.min(64))?;
    Ok(out)
}

/// The problem's answer begins so, and `check` says yes to it.
fn assert_most_lines(
    rt: &impl Abort,
    alloc: Global,
    units: usize,
    begins: &str,
) -> Result<(), AllocError> {
    let mut bytes = most_lines(alloc, units)?;
    let answer = assert_begins(rt, alloc, "solve", &bytes, begins)?;
    bytes.extend_from_slice(&answer)?;
    assert_begins(rt, alloc, "check", &bytes, "yes")?;
    Ok(())
}

#[test]
fn most_zero_lines_are_solved(rt: HostRuntime) -> Result<(), Fail> {
    let begins = "answer 1 / size 0 / set / kernel 0";
    assert_most_lines(&rt, rt.alloc(), 0, begins)?;
    Ok(())
}

#[test]
fn most_lines_are_solved(rt: HostRuntime) -> Result<(), Fail> {
    let begins =
        "answer 1 / size 64 / set 1 2 3 4 5 6 7 8 9 10 11 12 13 14 15 16 17 18 19 20 21 22 23 24 25 26 27 28 29 \
        30 31 32 33 34 35 36 37 38 39 40 41 42 43 44 45 46 47 48 49 50 51 52 53 54 55 56 57 58 59 60 61 62 63 64";
    assert_most_lines(&rt, rt.alloc(), 64, begins)?;
    Ok(())
}

/// A graph of so many parallel edges.
fn parallel(alloc: Global, count: usize) -> Result<Vec<u8>, AllocError> {
    let mut out = lines(alloc, "graph 1", "")?;
    for _ in 0..count {
        out.extend_from_slice(b"edge a b\n")?;
    }
    Ok(out)
}

#[test]
fn one_more_is_too_many(rt: HostRuntime) -> Result<(), Fail> {
    let alloc = rt.alloc();
    let problem = lines(alloc, "parity 1 / field 2 / dimension 128", "")?;
    assert_rows(
        &rt,
        alloc,
        "solve",
        &problem,
        "lines 2049 => limit: lines 2049",
    )?;
    let answer = lines(alloc, STAR, "answer 1 / size 0 / set")?;
    assert_rows(
        &rt,
        alloc,
        "check",
        &answer,
        "kernel 129 => limit: kernel 129",
    )?;
    let graph = lines(alloc, "graph 1", "")?;
    let long = "edge a 123456789012345678901234567890123 => limit: name bytes 33";
    assert_rows(&rt, alloc, "matching", &graph, long)?;
    let many = parallel(alloc, 513)?;
    assert_rows(&rt, alloc, "matching", &many, " => limit: edges 513")?;
    let most = parallel(alloc, 512)?;
    assert_begins(&rt, alloc, "matching", &most, "matching 1 / size 1")?;
    Ok(())
}
