//! Small graphs, with their components, forests, paths, triangles and pairs of edges.

use graph_core::{EdgeList, EdgePairs, Graph, VertexList};
use std::alloc::{AllocError, Global};
use std::test::Fail;

/// The graph of these edges, each between two vertices with names of one letter.
fn graph(alloc: Global, edges: &[[u8; 2]]) -> Result<Graph, AllocError> {
    let mut graph = Graph::new(alloc);
    for edge in edges {
        let first = graph.vertex(&edge[..1])?;
        let second = graph.vertex(&edge[1..])?;
        graph.edge(first, second)?;
    }
    Ok(graph)
}

fn vertices(alloc: Global, list: &VertexList) -> Result<Vec<usize>, AllocError> {
    let mut vertices = Vec::new(alloc);
    for i in 0..list.len() {
        vertices.push(list.at(i))?;
    }
    Ok(vertices)
}

fn edges(alloc: Global, list: &EdgeList) -> Result<Vec<usize>, AllocError> {
    let mut edges = Vec::new(alloc);
    for i in 0..list.len() {
        edges.push(list.at(i))?;
    }
    Ok(edges)
}

fn pairs(alloc: Global, list: &EdgePairs) -> Result<Vec<(usize, usize)>, AllocError> {
    let mut pairs = Vec::new(alloc);
    for i in 0..list.len() {
        pairs.push(list.at(i))?;
    }
    Ok(pairs)
}

#[test]
fn all_components_are_the_first_vertex(rt: HostRuntime) -> Result<(), Fail> {
    let alloc = rt.alloc();
    let graph = graph(
        alloc,
        &[*b"ab", *b"bc", *b"ca", *b"cd", *b"de", *b"ef", *b"fd"],
    )?;
    let least = vertices(alloc, &graph.components(alloc)?)?;
    assert_eq!(rt; least.as_slice(), [0, 0, 0, 0, 0, 0].as_slice());
    Ok(())
}

#[test]
fn the_path_goes_over_the_whole_forest(rt: HostRuntime) -> Result<(), Fail> {
    let alloc = rt.alloc();
    let graph = graph(
        alloc,
        &[*b"ab", *b"bc", *b"ca", *b"cd", *b"de", *b"ef", *b"fd"],
    )?;
    let forest = graph.spanning_forest(alloc)?;
    assert!(rt; 5 < graph.vertices());
    let path = graph
        .path_in_tree(alloc, &forest, 0, 5)?
        .expect(&rt, "the forest joins a and f");
    assert_eq!(rt;
        edges(alloc, &forest)?.as_slice(),
        [0, 1, 3, 4, 5].as_slice()
    );
    assert_eq!(rt; edges(alloc, &path)?.as_slice(), [0, 1, 3, 4, 5].as_slice());
    Ok(())
}

#[test]
fn two_triangles_have_a_common_vertex(rt: HostRuntime) -> Result<(), Fail> {
    let alloc = rt.alloc();
    let graph = graph(alloc, &[*b"ab", *b"bc", *b"ca", *b"cd", *b"de", *b"ec"])?;
    let triangles = graph.triangles(alloc)?;
    assert!(rt; triangles.len() == 2);
    assert_eq!(rt;
        vertices(alloc, triangles.at(0))?.as_slice(),
        [0, 1, 2].as_slice()
    );
    assert_eq!(rt;
        vertices(alloc, triangles.at(1))?.as_slice(),
        [2, 3, 4].as_slice()
    );
    Ok(())
}

#[test]
fn loops_and_parallel_edges_are_in_pairs(rt: HostRuntime) -> Result<(), Fail> {
    let alloc = rt.alloc();
    let graph = graph(alloc, &[*b"ax", *b"xb", *b"bx", *b"cc", *b"cd"])?;
    let found = pairs(alloc, &graph.adjacent_pairs(alloc)?)?;
    assert_eq!(rt;
        found.as_slice(),
        [(0, 1), (0, 2), (1, 2), (3, 4)].as_slice()
    );
    assert_eq!(rt; graph.triangles(alloc)?.len(), 0);
    Ok(())
}

#[test]
fn a_vertex_has_a_name_and_a_class(rt: HostRuntime) -> Result<(), Fail> {
    let alloc = rt.alloc();
    let mut graph = graph(alloc, &[*b"ab", *b"ba"])?;
    assert!(rt; graph.vertices() == 2);
    assert!(rt; graph.class(1).is_none());
    graph.put_class(1, 7);
    assert!(rt; graph.class(1) == Some(7));
    assert_eq!(rt; graph.name(1), b"b".as_slice());
    Ok(())
}
