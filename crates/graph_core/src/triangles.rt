//! The triangles of a graph.

ghost use Rattle.std.specs.Prelude.{◌≡◌, ◌<◌, [], ◌∷◌, ◌++◌, IfOk, OnOk, All, length};
ghost use Rattle.graph_core.specs.Adjacency.{AreTriangleLists};
ghost use Rattle.graph_core.specs.Gathered.{triangle_by, triangles_on, triangles_at};

use crate::neighbours::Neighbours;
use crate::{Graph, VertexList, VertexLists};
use std::alloc::{AllocError, Global};

impl Graph {
    /// All triples of vertices that are pairwise adjacent, each increasing, in lexicographic order.
    pub fn triangles(&self, alloc: Global) -> Result<VertexLists, AllocError>
        ensures { IfOk result (AreTriangleLists self.now.ends) }
    {
        let neighbours = Neighbours::of(alloc, self)?;
        let mut found = VertexLists::new(alloc);
        for first in 0..self.vertices() {
            push_triangles_at(alloc, &neighbours, first, &mut found)?;
        }
        Ok(found)
    }
}

/// Puts the triangles whose least vertex is the first last.
fn push_triangles_at(
    alloc: Global,
    neighbours: &Neighbours,
    first: usize,
    found: &mut VertexLists,
) -> Result<(), AllocError>
    requires first_vertex { first < length neighbours.now }
    requires square { All (λ row. length row ≡ length neighbours.now) neighbours.now }
    ensures { OnOk result (found.new ≡ found.old ++ triangles_at neighbours.now (length neighbours.now) first) }
{
    for second in 0..neighbours.len() {
        push_triangles_on(alloc, neighbours, first, second, found)?;
    }
    Ok(())
}

/// Puts the triangles with these two vertices and a larger one last, where the first is smaller than the second.
fn push_triangles_on(
    alloc: Global,
    neighbours: &Neighbours,
    first: usize,
    second: usize,
    found: &mut VertexLists,
) -> Result<(), AllocError>
    requires first_vertex { first < length neighbours.now }
    requires second_vertex { second < length neighbours.now }
    requires square { All (λ row. length row ≡ length neighbours.now) neighbours.now }
    ensures { OnOk result (found.new ≡ found.old ++ triangles_on neighbours.now (length neighbours.now) first second) }
{
    if first >= second || !neighbours.adjacent(first, second) {
        return Ok(());
    }
    for third in 0..neighbours.len() {
        push_triangle(alloc, neighbours, first, second, third, found)?;
    }
    Ok(())
}

/// Puts the triangle of three vertices last, where it is one, of which the first two are adjacent, and the third is the largest.
fn push_triangle(
    alloc: Global,
    neighbours: &Neighbours,
    first: usize,
    second: usize,
    third: usize,
    found: &mut VertexLists,
) -> Result<(), AllocError>
    requires first_vertex { first < length neighbours.now }
    requires second_vertex { second < length neighbours.now }
    requires third_vertex { third < length neighbours.now }
    requires square { All (λ row. length row ≡ length neighbours.now) neighbours.now }
    ensures { OnOk result (found.new ≡ found.old ++ triangle_by neighbours.now first second third) }
{
    if second < third && neighbours.adjacent(first, third) && neighbours.adjacent(second, third) {
        found.push(three(alloc, first, second, third)?)?;
    }
    Ok(())
}

/// The list of three vertices.
fn three(alloc: Global, first: usize, second: usize, third: usize) -> Result<VertexList, AllocError>
    ensures { IfOk result (λ list. list ≡ first ∷ second ∷ third ∷ []) }
{
    let mut list = VertexList::new(alloc);
    list.push(first)?;
    list.push(second)?;
    list.push(third)?;
    Ok(list)
}
