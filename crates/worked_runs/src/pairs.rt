//! What `forestpairs` and `sparepairs` reply.

use crate::inputs::complete;
use crate::rows::{assert_rows, lines, ran};
use parity_program::Status;
use std::alloc::{AllocError, Global};
use std::test::Fail;

/// Graphs with one longest list only of pairs that have no cycle.
const FORESTS: &str = "graph 1 => done => pairs 1 / size 0 / end
graph 1 / edge a b => done => pairs 1 / size 0 / end
graph 1 / edge a b / edge b c / edge c d / edge d e => done => pairs 1 / size 2 / pair 1 1 2 / pair 2 3 4 / end
graph 1 / edge a b / edge a b / edge a b => done => pairs 1 / size 0 / end
graph 1 / edge a b / edge a a / edge c d / edge d e / edge x y => done => pairs 1 / size 1 / pair 2 3 4 / end
graph 1 / edge a b / edge b c / edge c a / edge c a / edge d e / edge x y => done => pairs 1 / size 2 / pair 1 1 2 / pair 3 5 6 / end";

/// Graphs with one longest list only of pairs without which they are connected.
const SPARES: &str = "graph 1 => done => pairs 1 / size 0 / end
graph 1 / vertex a => done => pairs 1 / size 0 / end
graph 1 / edge a b / edge b c / edge c d / edge d e => done => pairs 1 / size 0 / end
graph 1 / edge a b / edge a b / edge a b => done => pairs 1 / size 1 / pair 1 1 2 / end
graph 1 / edge a a / edge a a / edge b b / edge b a / edge b b / edge a a => done => pairs 1 / size 2 / pair 1 1 2 / pair 3 5 6 / end";

/// Graphs in which neither is looked for.
const REFUSED: &str = "graph 1 / edge a => bad text: line 2: count
graph 1 / class a / class b a => bad text: line 3: classed";

/// Graphs that aren't connected.
const APART: &str = "graph 1 / edge a b / vertex c => not connected: vertex 3
graph 1 / vertex b a => not connected: vertex 2";

#[test]
fn pairs_are_found(rt: HostRuntime) -> Result<(), Fail> {
    let alloc = rt.alloc();
    assert_rows(&rt, alloc, "forestpairs", &[], FORESTS)?;
    assert_rows(&rt, alloc, "sparepairs", &[], SPARES)?;
    assert_rows(&rt, alloc, "sparepairs", &[], APART)?;
    for command in ["forestpairs", "sparepairs"] {
        assert_rows(&rt, alloc, command, &[], REFUSED)?;
    }
    Ok(())
}

// Each of the three pairs has no cycle, and without each of them the graph is connected.
#[test]
fn one_pair_of_the_tetrahedron_is_found(rt: HostRuntime) -> Result<(), Fail> {
    let alloc = rt.alloc();
    let graph = complete(alloc, b"abcd")?;
    for command in ["forestpairs", "sparepairs"] {
        let (status, written) = ran(alloc, command, &graph)?;
        assert_eq!(rt; status, Status::Done);
        let mut found = false;
        for pair in ["pair 1 1 2", "pair 2 3 4", "pair 3 5 6"] {
            let mut want = lines(alloc, "pairs 1 / size 1", pair)?;
            want.extend_from_slice(b"end\n")?;
            if written.as_slice() == want.as_slice() {
                found = true;
            }
        }
        assert!(rt; found, "of {command}");
    }
    Ok(())
}

/// A vertex with so many loops.
fn loops(alloc: Global, count: usize) -> Result<Vec<u8>, AllocError> {
    let mut out = lines(alloc, "graph 1", "")?;
    for _ in 0..count {
        out.extend_from_slice(b"edge a a\n")?;
    }
    Ok(out)
}

// The cycle rank comes before the vertex that isn't connected with the first, and only where spare pairs are looked for.
#[test]
fn ranks_of_spare_pairs_are_limited(rt: HostRuntime) -> Result<(), Fail> {
    let alloc = rt.alloc();
    let most = loops(alloc, 128)?;
    assert_rows(
        &rt,
        alloc,
        "sparepairs",
        &most,
        "edge a b / edge b a / vertex c => limit: cycle rank 129",
    )?;
    assert_rows(
        &rt,
        alloc,
        "sparepairs",
        &most,
        "vertex b c => not connected: vertex 2",
    )?;
    assert_rows(
        &rt,
        alloc,
        "sparepairs",
        &most,
        "edge a a / edge a a => limit: cycle rank 130",
    )?;
    assert_rows(
        &rt,
        alloc,
        "forestpairs",
        &most,
        "edge a a / edge b c / edge c d => done => pairs 1 / size 0 / end",
    )?;
    let (status, written) = ran(alloc, "sparepairs", &loops(alloc, 16)?)?;
    assert_eq!(rt; status, Status::Done);
    assert!(rt; written.starts_with(&lines(alloc, "pairs 1 / size 8 / pair 1 1 2", "")?));
    Ok(())
}

#[test]
fn pairs_are_not_converted(rt: HostRuntime) -> Result<(), Fail> {
    let alloc = rt.alloc();
    for command in [
        "convert forestpairs",
        "convert sparepairs",
        "forestpairs 1",
        "forest pairs",
    ] {
        assert_rows(&rt, alloc, command, &[], "graph 1 => usage")?;
    }
    Ok(())
}
