//! What `convert` replies, and which graphs are refused.

use crate::inputs::{THREE_CLASSES, circle, complete, isolated, star};
use crate::rows::{assert_rows, lines, ran, words};
use line_lexer::Counted;
use parity_program::{Status, run};
use std::test::Fail;
use text_io::{MemorySink, SteadySource};

/// Problems that aren't solved.
const UNSOLVED: &str = " => bad text: line 1: missing
parity 1 / field 4 => bad text: line 2: field
parity 1 / field 2 / dimension 129 / lines 0 => limit: dimension 129
parity 1 / field 2 / dimension 0 / lines 0 / line | => bad text: line 5: extra
parity 1 / field 251 / dimension 2 / lines 1 / line 25 => bad text: line 5: count
parity 1 / field 251 / dimension 2 / lines 1 / line 250 0 | 0 251 => bad text: line 5: range
parity 1 / field 2 / dimension 0 / lines 0 / answer 1 => bad text: line 5: extra";

/// Graphs that aren't read.
const REFUSED_GRAPHS: &str = " => bad text: line 1: missing
graph 2 => bad text: line 1: version
parity 1 => bad text: line 1: word
graph 1 / edge a => bad text: line 2: count
graph 1 / edges a b => bad text: line 2: word
graph 1 / edge a b c => bad text: line 2: count
graph 1 / class a / class b a => bad text: line 3: classed
graph 1 / vertex abcdefghijklmnopqrstuvwxyzabcdefg => limit: name bytes 33";

/// Graphs, with the problems of their matchings.
const PROBLEMS_OF_MATCHINGS: &str =
    "graph 1 => done => # offset 0 / parity 1 / field 2 / dimension 0 / lines 0
graph 1 / vertex a => done => # offset 0 / parity 1 / field 2 / dimension 1 / lines 0
graph 1 / edge a b / edge b b => done => # offset 0 / parity 1 / field 2 / dimension 2 / lines 2 / line 1 0 | 0 1 / line 0 1 | 0 1
graph 1 / edge a b / class c b => done => # offset 0 / parity 1 / field 2 / dimension 3 / lines 1 / line 1 0 0 | 0 1 0";

/// And with those of their triangles.
const PROBLEMS_OF_TRIANGLES: &str =
    "graph 1 / edge a b / edge b c => done => # offset 0 / parity 1 / field 2 / dimension 3 / lines 0
graph 1 / edge a b / edge b c / edge c a => done => # offset 0 / parity 1 / field 2 / dimension 3 / lines 1 / line 1 1 0 | 0 1 1
graph 1 / edge c d / edge d a / edge a c / edge a b / edge b c => done => # offset 0 / parity 1 / field 2 / dimension 4 / lines 2 / line 1 1 0 0 | 0 1 1 0 / line 1 0 1 0 | 0 0 1 1";

/// The problem of its paths.
const PROBLEMS_OF_PATHS: &str =
    " => done => # offset 2 / parity 1 / field 251 / dimension 9 / lines 4 / line 0 250 0 0 0 0 0 0 0 | 1 0 250 0 0 0 0 0 0 / line 0 250 0 250 0 0 0 0 0 | 0 0 250 1 0 0 0 0 0 / line 0 250 0 0 249 0 0 0 0 | 0 0 250 0 1 0 0 0 0 / line 0 0 0 0 0 1 0 250 0 | 0 0 0 0 0 0 1 0 250";

/// Graphs in which no rotation is looked for.
const APART: &str = "graph 1 / edge a b / vertex c => not connected: vertex 3
graph 1 / vertex b a => not connected: vertex 2
graph 1 / edge a b / edge c c / edge c a / edge e d => not connected: vertex 4";

/// And others, with the problems of their pairs of edges.
const PROBLEMS_OF_PAIRS: &str =
    "graph 1 => done => # offset 0 / parity 1 / field 2 / dimension 0 / lines 0
graph 1 / edge a a / edge a a => done => # offset 0 / parity 1 / field 2 / dimension 2 / lines 1 / line 1 0 | 0 1
graph 1 / edge a b / edge b c / edge c a => done => # offset 0 / parity 1 / field 2 / dimension 1 / lines 3 / line 1 | 1 / line 1 | 1 / line 1 | 1";

#[test]
fn graphs_are_converted(rt: HostRuntime) -> Result<(), Fail> {
    let alloc = rt.alloc();
    assert_rows(&rt, alloc, "solve", &[], UNSOLVED)?;
    for command in ["matching", "cactus", "convert matching", "convert cactus"] {
        assert_rows(&rt, alloc, command, &[], REFUSED_GRAPHS)?;
        let (status, written) = ran(alloc, command, &isolated(alloc, b"abcdefghijklm")?)?;
        assert_eq!(rt;
            status,
            Status::Limit {
                what: Counted::Vertices,
                found: 129
            }
        );
        assert_eq!(rt; written.len(), 0);
    }
    assert_rows(&rt, alloc, "convert matching", &[], PROBLEMS_OF_MATCHINGS)?;
    assert_rows(&rt, alloc, "convert cactus", &[], PROBLEMS_OF_TRIANGLES)?;
    Ok(())
}

#[test]
fn paths_are_converted(rt: HostRuntime) -> Result<(), Fail> {
    let alloc = rt.alloc();
    let graph = lines(alloc, THREE_CLASSES, "")?;
    assert_rows(&rt, alloc, "convert spaths", &graph, PROBLEMS_OF_PATHS)?;
    let most = isolated(alloc, b"abcdefgh")?;
    assert_rows(
        &rt,
        alloc,
        "spaths",
        &most,
        " => done => paths 1 / count 0 / end",
    )?;
    let more = "vertex x => limit: vertices 65";
    for command in ["spaths", "convert spaths"] {
        assert_rows(&rt, alloc, command, &[], REFUSED_GRAPHS)?;
        assert_rows(&rt, alloc, command, &most, more)?;
    }
    Ok(())
}

#[test]
fn rotations_are_converted(rt: HostRuntime) -> Result<(), Fail> {
    let alloc = rt.alloc();
    assert_rows(&rt, alloc, "convert genus", &[], PROBLEMS_OF_PAIRS)?;
    let most = star(alloc, b"abcdefgh")?;
    let (status, written) = ran(alloc, "convert genus", &most)?;
    let begins = "# offset 0 / parity 1 / field 2 / dimension 0 / lines 2016";
    assert_eq!(rt; status, Status::Done);
    assert!(rt; written.starts_with(&lines(alloc, begins, "")?));
    let circle = circle(alloc)?;
    for command in ["genus", "convert genus"] {
        assert_rows(&rt, alloc, command, &[], REFUSED_GRAPHS)?;
        assert_rows(&rt, alloc, command, &[], APART)?;
        assert_rows(&rt, alloc, command, &most, "edge 0 x => limit: pairs 2080")?;
        assert_rows(&rt, alloc, command, &circle, " => limit: cycle rank 129")?;
    }
    Ok(())
}

#[test]
fn triangles_are_limited(rt: HostRuntime) -> Result<(), Fail> {
    let alloc = rt.alloc();
    let most = complete(alloc, b"abcdefghijklmnopqrstuvwx")?;
    let words = words(alloc, "convert cactus")?;
    let mut input = SteadySource::new(&most);
    let mut output = MemorySink::new(alloc, 300_000, 1000, &[])?;
    assert_eq!(rt; run(alloc, &words, &mut input, &mut output), Status::Done);
    let begins = lines(
        alloc,
        "# offset 0 / parity 1 / field 2 / dimension 24 / lines 2024",
        "",
    )?;
    assert!(rt; output.bytes().starts_with(&begins));
    let more = complete(alloc, b"abcdefghijklmnopqrstuvwxy")?;
    for command in ["cactus", "convert cactus"] {
        let (status, written) = ran(alloc, command, &more)?;
        assert_eq!(rt;
            status,
            Status::Limit {
                what: Counted::Triangles,
                found: 2300
            }
        );
        assert_eq!(rt; written.len(), 0);
    }
    Ok(())
}
