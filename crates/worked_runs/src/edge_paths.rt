//! What `epaths` replies.

use crate::inputs::{THREE_CLASSES, complete};
use crate::rows::{assert_rows, lines, ran};
use parity_program::Status;
use std::alloc::{AllocError, Global};
use std::test::Fail;

/// Graphs with one largest family only of edge-disjoint paths.
const FAMILIES: &str = "graph 1 => done => edgepaths 1 / count 0 / end
graph 1 / edge a b / edge a a => done => edgepaths 1 / count 0 / end
graph 1 / edge a b / class a b => done => edgepaths 1 / count 0 / end
graph 1 / edge a b / edge a b / class a / class b => done => edgepaths 1 / count 2 / path 1+ / path 2+ / end
graph 1 / edge a x / edge x x / edge b x / class a / class b => done => edgepaths 1 / count 1 / path 1+ 3- / end
graph 1 / vertex a b c / edge c b / edge b a / class c / class b / class a => done => edgepaths 1 / count 2 / path 2- / path 1- / end";

/// Graphs that aren't read.
const REFUSED: &str = "graph 1 / edge a => bad text: line 2: count
graph 1 / class a / class b a => bad text: line 3: classed";

/// Two paths that cross at a vertex: two ways to join the same four ends.
const CROSSING: &str =
    "graph 1 / edge a x / edge x b / edge c x / edge x d / class a c / class b d";

#[test]
fn edge_paths_are_found(rt: HostRuntime) -> Result<(), Fail> {
    let alloc = rt.alloc();
    assert_rows(&rt, alloc, "epaths", &[], FAMILIES)?;
    assert_rows(&rt, alloc, "epaths", &[], REFUSED)?;
    let mut graph = complete(alloc, b"abcd")?;
    graph.extend_from_slice(&lines(alloc, "class a / class b / class c / class d", "")?)?;
    let edges =
        " => done => edgepaths 1 / count 6 / path 1+ / path 2+ / path 3+ / path 4+ / path 5+ / path 6+ / end";
    assert_rows(&rt, alloc, "epaths", &graph, edges)?;
    let (status, written) = ran(alloc, "epaths", &lines(alloc, THREE_CLASSES, "")?)?;
    assert_eq!(rt; status, Status::Done);
    assert!(rt; written.starts_with(&lines(alloc, "edgepaths 1 / count 1", "")?));
    Ok(())
}

#[test]
fn edge_paths_may_share_vertices(rt: HostRuntime) -> Result<(), Fail> {
    let alloc = rt.alloc();
    let graph = lines(alloc, CROSSING, "")?;
    let (status, written) = ran(alloc, "epaths", &graph)?;
    assert_eq!(rt; status, Status::Done);
    let straight = lines(
        alloc,
        "edgepaths 1 / count 2 / path 1+ 2+ / path 3+ 4+ / end",
        "",
    )?;
    let across = lines(
        alloc,
        "edgepaths 1 / count 2 / path 1+ 4+ / path 2- 3- / end",
        "",
    )?;
    assert!(rt;
        written.as_slice() == straight.as_slice() || written.as_slice() == across.as_slice()
    );
    let (status, written) = ran(alloc, "spaths", &graph)?;
    assert_eq!(rt; status, Status::Done);
    assert!(rt; written.starts_with(&lines(alloc, "paths 1 / count 1", "")?));
    Ok(())
}

/// So many edges between two vertices.
fn parallel(alloc: Global, count: usize) -> Result<Vec<u8>, AllocError> {
    let mut out = lines(alloc, "graph 1", "")?;
    for _ in 0..count {
        out.extend_from_slice(b"edge a b\n")?;
    }
    Ok(out)
}

#[test]
fn edges_of_edge_paths_are_limited(rt: HostRuntime) -> Result<(), Fail> {
    let alloc = rt.alloc();
    let mut most = parallel(alloc, 32)?;
    assert_rows(&rt, alloc, "epaths", &most, "edge a b => limit: edges 33")?;
    assert_rows(
        &rt,
        alloc,
        "epaths",
        &parallel(alloc, 40)?,
        " => limit: edges 40",
    )?;
    assert_rows(
        &rt,
        alloc,
        "epaths",
        &parallel(alloc, 40)?,
        "edge a => bad text: line 42: count",
    )?;
    most.extend_from_slice(b"class a\nclass b\n")?;
    let (status, written) = ran(alloc, "epaths", &most)?;
    assert_eq!(rt; status, Status::Done);
    assert!(rt;
        written.starts_with(&lines(alloc, "edgepaths 1 / count 32 / path 1+ / path 2+", "")?)
    );
    for command in ["convert epaths", "epaths 1", "epath"] {
        assert_rows(&rt, alloc, command, &[], "graph 1 => usage")?;
    }
    Ok(())
}
