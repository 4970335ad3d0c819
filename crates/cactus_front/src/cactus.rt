//! From an independent set of lines to a triangle cactus.

ghost use Rattle.std.specs.Prelude.{◌≡◌, ◌<◌, [], All, IfOk, length, map, slice_index_or};
ghost use Rattle.cactus_front.specs.CactusLists.{AreCorners, OfCactusProblem};
ghost use Rattle.graph_theory.specs.Cacti.{IsCactus, IsLargestCactus};
ghost use Rattle.parity_lines.specs.LineSets.{IsIndependentSet, IsLargest};
ghost use Rattle.small_fields.specs.ScalarsOf.{scalars_of};

use graph_core::{Graph, VertexList, VertexLists};
use parity_lines::LineSet;
use std::alloc::{AllocError, Global};

/// The cactus of an independent set of the problem of a graph: the triangles of its lines, in lexicographic order. Where the set is
/// largest, so is the cactus.
pub fn from_set(alloc: Global, graph: &Graph, set: &LineSet) -> Result<VertexLists, AllocError>
    requires { OfCactusProblem (scalars_of 2) (length graph.now.names) graph.now.ends (λ p. IsIndependentSet (scalars_of 2) p set.now) }
    ensures as_many { IfOk result (λ lists. length lists ≡ length set.now) }
    ensures cactus { IfOk result (AreCorners (IsCactus graph.now.ends)) }
    ensures largest { OfCactusProblem (scalars_of 2) (length graph.now.names) graph.now.ends (λ p. IsLargest (scalars_of 2) p set.now)
        → IfOk result (AreCorners (IsLargestCactus graph.now.ends)) }
{
    let _edges = graph.edges();
    let triangles = graph.triangles(alloc)?;
    chosen(alloc, &triangles, set)
}

/// The lists at the positions of the set.
fn chosen(alloc: Global, lists: &VertexLists, set: &LineSet) -> Result<VertexLists, AllocError>
    requires { All (λ i. i < length lists.now) set.now }
    ensures { IfOk result (λ found. found ≡ map (λ i. slice_index_or lists.now i []) set.now) }
{
    let mut found = VertexLists::new(alloc);
    for i in 0..set.len() {
        found.push(copy_of(alloc, lists.at(set.at(i)))?)?;
    }
    Ok(found)
}

/// The same list.
fn copy_of(alloc: Global, list: &VertexList) -> Result<VertexList, AllocError>
    ensures { IfOk result (λ copy. copy ≡ list.now) }
{
    let mut copy = VertexList::new(alloc);
    for i in 0..list.len() {
        copy.push(list.at(i))?;
    }
    Ok(copy)
}
