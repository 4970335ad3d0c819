//! Inputs that more than one table starts with, and those that are made.

use crate::rows::lines;
use std::alloc::{AllocError, Global};

/// Two lines that need no kernel.
pub const TWO_LINES: &str =
    "parity 1 / field 2 / dimension 4 / lines 2 / line 1 0 0 0 | 0 1 0 0 / line 0 0 1 0 | 0 0 0 1";

/// Three lines through one point.
pub const STAR: &str =
    "parity 1 / field 2 / dimension 4 / lines 3 / line 1 0 0 0 | 0 1 0 0 / line 1 0 0 0 | 0 0 1 0 / line 1 0 0 0 | 0 0 0 1";

/// For each of three triangles the lines (x, y), (y, z) and (x + p, z), where p is common.
pub const HUB: &str =
    "parity 1 / field 2 / dimension 10 / lines 9 / line 0 1 0 0 0 0 0 0 0 0 | 0 0 1 0 0 0 0 0 0 0 / line 0 0 1 0 0 0 0 0 0 0 | 0 0 0 1 0 0 0 0 0 0 / line 1 1 0 0 0 0 0 0 0 0 | 0 0 0 1 0 0 0 0 0 0 / line 0 0 0 0 1 0 0 0 0 0 | 0 0 0 0 0 1 0 0 0 0 / line 0 0 0 0 0 1 0 0 0 0 | 0 0 0 0 0 0 1 0 0 0 / line 1 0 0 0 1 0 0 0 0 0 | 0 0 0 0 0 0 1 0 0 0 / line 0 0 0 0 0 0 0 1 0 0 | 0 0 0 0 0 0 0 0 1 0 / line 0 0 0 0 0 0 0 0 1 0 | 0 0 0 0 0 0 0 0 0 1 / line 1 0 0 0 0 0 0 1 0 0 | 0 0 0 0 0 0 0 0 0 1";

/// The answer to the two lines.
pub const FULL: &str = "answer 1 / size 2 / set 1 2 / kernel 0 / parts 1 / part 1 2 / end";

/// One vertex between three terminals of different classes, and a component without a terminal.
pub const THREE_CLASSES: &str =
    "graph 1 / edge a c / edge b c / edge d c / edge x y / class a / class b / class d";

/// Puts a space and a unit vector of dimension 16 last.
fn put_unit(out: &mut Vec<u8>, at: usize) -> Result<(), AllocError> {
    for i in 0..16 {
        out.extend_from_slice(if i == at { b" 1" } else { b" 0" })?;
    }
    Ok(())
}

/// The path of 16 vertices, of which one perfect matching covers all: more than 500 words.
pub fn path(alloc: Global, count: &str) -> Result<Vec<u8>, AllocError> {
    let mut out = lines(alloc, "parity 1 / field 2 / dimension 16", "")?;
    out.extend_from_slice(b"lines ")?;
    out.extend_from_slice(count.as_bytes())?;
    for i in 0..15 {
        out.extend_from_slice(b"\nline")?;
        put_unit(&mut out, i)?;
        out.extend_from_slice(b" |")?;
        put_unit(&mut out, i + 1)?;
    }
    out.push(b'\n')?;
    Ok(out)
}

/// A vertex for each two of these letters.
pub fn isolated(alloc: Global, letters: &[u8]) -> Result<Vec<u8>, AllocError> {
    let mut out = lines(alloc, "graph 1", "")?;
    for first in letters {
        for second in letters {
            out.extend_from_slice(b"vertex ")?;
            out.push(*first)?;
            out.push(*second)?;
            out.push(b'\n')?;
        }
    }
    Ok(out)
}

/// A vertex with an edge to a vertex for each two of these letters.
pub fn star(alloc: Global, letters: &[u8]) -> Result<Vec<u8>, AllocError> {
    let mut out = lines(alloc, "graph 1", "")?;
    for first in letters {
        for second in letters {
            out.extend_from_slice(b"edge 0 ")?;
            out.push(*first)?;
            out.push(*second)?;
            out.push(b'\n')?;
        }
    }
    Ok(out)
}

/// 128 vertices in a circle, each with an edge to the next and to the one after that.
pub fn circle(alloc: Global) -> Result<Vec<u8>, AllocError> {
    let mut out = lines(alloc, "graph 1", "")?;
    for v in 0..128 {
        let edges = format!(in alloc;
            "edge {} {}\nedge {} {}\n",
            v,
            (v + 1) % 128,
            v,
            (v + 2) % 128
        )?;
        out.extend_from_slice(edges.as_bytes())?;
    }
    Ok(out)
}

/// The graph of which each two vertices are adjacent.
pub fn complete(alloc: Global, names: &[u8]) -> Result<Vec<u8>, AllocError> {
    let mut out = lines(alloc, "graph 1", "")?;
    for first in names {
        for second in names {
            if first < second {
                out.extend_from_slice(b"edge ")?;
                out.push(*first)?;
                out.push(b' ')?;
                out.push(*second)?;
                out.push(b'\n')?;
            }
        }
    }
    Ok(out)
}
