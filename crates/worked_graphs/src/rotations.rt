//! Rotations of the smallest graphs: no vertex, and one vertex with one loop or two.

ghost use Rattle.std.specs.Prelude.{◌≡◌, ◌≤◌, ◌<◌, ◌^◌, ◌++◌, ◌∷◌, ℕ, [], IfOk, OnOk, length};
ghost use Rattle.edge_lists.specs.Connections.{one_component};
ghost use Rattle.edge_lists.specs.Occurrences.{count};
ghost use Rattle.rotation_theory.specs.Genus.{HasFaces};
ghost use Rattle.rotation_system.specs.RotationSystems.{held};

use cographic::represent;
use field_core::{Field, Rows};
use graph_core::{EdgeList, Graph};
use rotation_system::Rotation;
use small_fields::F2;
use std::alloc::{AllocError, Global};
use std::process::Abort;
use std::test::Fail;

/// The graph with one vertex and no edge.
fn one_vertex(alloc: Global) -> Result<Graph, AllocError>
    ensures vertex { IfOk result (λ g. length g.names ≡ 1) }
    ensures edges { IfOk result (λ g. g.ends ≡ []) }
{
    let mut graph = Graph::new(alloc);
    graph.vertex(b"a")?;
    Ok(graph)
}

/// Puts a loop at the vertex last.
fn add_loop(graph: &mut Graph) -> Result<(), AllocError>
    requires { length graph.old.names ≡ 1 }
    ensures vertex { OnOk result (length graph.new.names ≡ 1) }
    ensures last { OnOk result (graph.new.ends ≡ graph.old.ends ++ (0, 0) ∷ []) }
{
    graph.edge(0, 0)
}

/// The rotation of a graph with at most one vertex that holds no edge.
fn without_edges(alloc: Global, graph: &Graph) -> Result<Rotation, AllocError>
    requires few { length graph.now.ends < 2 ^ 31 }
    requires vertex { length graph.now.names ≤ 1 }
    ensures ends { IfOk result (λ r. r.ends ≡ graph.now.ends) }
    ensures vertices { IfOk result (λ r. length r.lists ≡ length graph.now.names) }
    ensures held { IfOk result (λ r. (e : ℕ) → count e (held r) ≡ 0) }
    ensures faces { IfOk result (λ r. HasFaces r.lists (one_component (length graph.now.names))) }
{
    let tree = EdgeList::new(alloc);
    let rotation = Rotation::of_tree(alloc, graph, &tree)?;
    Ok(rotation)
}

/// Asserts how many faces a rotation has, and its genus.
fn assert_shape(
    rt: &impl Abort,
    alloc: Global,
    rotation: &Rotation,
    faces: usize,
    genus: usize,
) -> Result<(), AllocError> {
    assert_eq!(rt; rotation.faces(alloc)?, faces);
    assert_eq!(rt; rotation.genus(alloc)?, genus);
    Ok(())
}

/// Asserts the numbers of two rows of two entries.
fn assert_rows(rt: &impl Abort, rows: &Rows<F2>, first: [u16; 2], second: [u16; 2]) {
    assert!(rt; rows.len() == 2 && rows.width() == 2);
    assert_row(rt, rows.row(0), first);
    assert_row(rt, rows.row(1), second);
}

/// Asserts the numbers of a row.
fn assert_row(rt: &impl Abort, row: &[F2], want: [u16; 2])
    requires { length row.now ≡ 2 }
{
    assert_eq!(rt; row[0].number(), want[0]);
    assert_eq!(rt; row[1].number(), want[1]);
}

#[test]
fn two_loops(rt: HostRuntime) -> Result<(), Fail> {
    let alloc = rt.alloc();
    let mut graph = one_vertex(alloc)?;
    add_loop(&mut graph)?;
    add_loop(&mut graph)?;
    assert_rows(&rt, &represent(alloc, &graph)?, [1, 0], [0, 1]);
    let mut rotation = without_edges(alloc, &graph)?;
    assert_shape(&rt, alloc, &rotation, 1, 0)?;
    rotation.insert_pair(0, 1)?;
    assert_shape(&rt, alloc, &rotation, 1, 1)?;
    Ok(())
}

#[test]
fn one_loop(rt: HostRuntime) -> Result<(), Fail> {
    let alloc = rt.alloc();
    let mut graph = one_vertex(alloc)?;
    add_loop(&mut graph)?;
    let mut rotation = without_edges(alloc, &graph)?;
    let _vertex = rotation.vertices();
    rotation.insert_edge(0, None, None)?;
    assert!(rt; rotation.vertices() == 1);
    assert_eq!(rt; rotation.darts(0), [0, 1].as_slice());
    assert_shape(&rt, alloc, &rotation, 2, 0)?;
    Ok(())
}

#[test]
fn no_vertex(rt: HostRuntime) -> Result<(), Fail> {
    let alloc = rt.alloc();
    let rotation = without_edges(alloc, &Graph::new(alloc))?;
    assert_shape(&rt, alloc, &rotation, 0, 0)?;
    Ok(())
}
