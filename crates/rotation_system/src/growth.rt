//! Rotations grown edge by edge.

ghost use Rattle.std.specs.Prelude.{◌≡◌, ◌≢◌, ◌<◌, ◌≤◌, ◌+◌, ◌^◌, ℕ, [], ◌∷◌, All, IfOk, OnErr, OnOk, length, slice_index_or};
ghost use Rattle.graph_theory.specs.Walks.{edge_at};
ghost use Rattle.edge_lists.specs.Connections.{one_component};
ghost use Rattle.edge_lists.specs.EdgePairs.{HaveCommonEnd};
ghost use Rattle.edge_lists.specs.Occurrences.{count};
ghost use Rattle.rotation_theory.specs.Darts.{dart};
ghost use Rattle.rotation_theory.specs.Genus.{HasFaces, HasGenus};
ghost use Rattle.rotation_system.specs.RotationSystems.{BeginsWithLeast, RotationSystem, darts_at, held};
ghost use Rattle.rotation_system.specs.DartPlaces.{IsPlace};
ghost use Rattle.rotation_system.specs.InsertedEdges.{HoldsMore, IsSpanningTree, ListsInserted};
ghost use Rattle.rotation_system.specs.PlacedDarts.{ArePut, ArePutSomewhere};
ghost use Rattle.rotation_system.specs.GrownTrees.{IsGrown};

use crate::Rotation;
use crate::lists::Lists;
use crate::walks::first_dart;
use graph_core::{EdgeList, Graph};
use std::alloc::{AllocError, Global};

impl Rotation {
    /// A rotation that holds the edges of a spanning tree. It has one face where there is a vertex.
    pub fn of_tree(alloc: Global, graph: &Graph, tree: &EdgeList) -> Result<Rotation, AllocError>
        requires few { length graph.now.ends < 2 ^ 31 }
        requires edges { All (λ e. e < length graph.now.ends) tree.now }
        requires tree { IsSpanningTree (edge_at graph.now.ends) (length graph.now.names) tree.now }
        ensures ends { IfOk result (λ r. r.ends ≡ graph.now.ends) }
        ensures vertices { IfOk result (λ r. length r.lists ≡ length graph.now.names) }
        ensures held { IfOk result (λ r. (e : ℕ) → count e (held r) ≡ count e tree.now) }
        ensures faces { IfOk result (λ r. HasFaces r.lists (one_component (length graph.now.names))) }
    {
        let _vertices = graph.vertices();
        let ends = ends_of(alloc, graph)?;
        let lists = grown(alloc, graph, tree)?;
        Ok(Rotation { ends, lists })
    }

    /// Puts in an edge that isn't held: its first dart directly after `first_after`, its second after `second_after`; None for a vertex
    /// without darts. Both places of a loop are named before either dart is put in, and where they are equal the second dart comes directly
    /// after the first. The genus doesn't fall. After want of memory the rotation is unchanged.
    pub fn insert_edge(
        &mut self,
        edge: usize,
        first_after: Option<u32>,
        second_after: Option<u32>,
    ) -> Result<(), AllocError>
        requires edge { edge < length self.old.ends }
        requires new { count edge (held self.old) ≡ 0 }
        requires first_place { IsPlace (darts_at self.old (edge_at self.old.ends edge).0) first_after }
        requires second_place { IsPlace (darts_at self.old (edge_at self.old.ends edge).1) second_after }
        ensures held { OnOk result (HoldsMore self.old (edge ∷ []) self.new) }
        ensures placed { OnOk result (ListsInserted self.old.lists (edge_at self.old.ends edge) first_after second_after (dart edge)
            self.new.lists) }
        ensures genus { OnOk result ((g g' : ℕ) → HasGenus (length self.old.lists) (held self.old) self.old.lists g
            → HasGenus (length self.new.lists) (held self.new) self.new.lists g' → g ≤ g') }
        ensures err { OnErr result (self.new ≡ self.old) }
    {
        let _vertices = self.vertices();
        self.put_edge(edge, first_after, second_after)?;
        Ok(())
    }

    /// Puts in an edge, and says how the new lists are written.
    pub(crate) fn put_edge(
        &mut self,
        edge: usize,
        first_after: Option<u32>,
        second_after: Option<u32>,
    ) -> Result<(), AllocError>
        requires edge { edge < length self.old.ends }
        requires new { count edge (held self.old) ≡ 0 }
        requires first_place { IsPlace (darts_at self.old (edge_at self.old.ends edge).0) first_after }
        requires second_place { IsPlace (darts_at self.old (edge_at self.old.ends edge).1) second_after }
        ensures held { OnOk result (HoldsMore self.old (edge ∷ []) self.new) }
        ensures put { OnOk result (ArePut self.old.lists (edge_at self.old.ends edge) first_after second_after (dart edge) self.new.lists) }
        ensures err { OnErr result (self.new ≡ self.old) }
    {
        let _vertices = self.vertices();
        let ends = self.ends(edge);
        self.lists
            .insert(ends, first_after, second_after, first_dart(edge))?;
        Ok(())
    }
}

/// The ends of all edges.
fn ends_of(alloc: Global, graph: &Graph) -> Result<Vec<(usize, usize)>, AllocError>
    ensures { IfOk result (λ ends. ends.items ≡ graph.now.ends) }
{
    let mut ends = Vec::new(alloc);
    for edge in 0..graph.edges() {
        ends.push(graph.ends(edge))?;
    }
    Ok(ends)
}

/// The lists of the darts of a tree.
fn grown(alloc: Global, graph: &Graph, tree: &EdgeList) -> Result<Lists, AllocError>
    requires few { length graph.now.ends < 2 ^ 31 }
    requires edges { All (λ e. e < length graph.now.ends) tree.now }
    requires tree { IsSpanningTree (edge_at graph.now.ends) (length graph.now.names) tree.now }
    ensures grown { IfOk result (IsGrown (edge_at graph.now.ends) (length graph.now.names) tree.now) }
    ensures least { IfOk result (All BeginsWithLeast) }
{
    let mut lists = Lists::new(alloc, graph.vertices())?;
    grow(graph, tree, &mut lists)?;
    Ok(lists)
}

/// Puts in the edges of a tree, the last one first.
fn grow(graph: &Graph, tree: &EdgeList, lists: &mut Lists) -> Result<(), AllocError>
    requires few { length graph.now.ends < 2 ^ 31 }
    requires edges { All (λ e. e < length graph.now.ends) tree.now }
    requires tree { IsSpanningTree (edge_at graph.now.ends) (length graph.now.names) tree.now }
    requires none { IsGrown (edge_at graph.now.ends) (length graph.now.names) [] lists.old }
    requires least { All BeginsWithLeast lists.old }
    ensures grown { OnOk result (IsGrown (edge_at graph.now.ends) (length graph.now.names) tree.now lists.new) }
    ensures least { All BeginsWithLeast lists.new }
{
    let mut left = tree.len();
    'tree: while left > 0 {
        left -= 1;
        let edge = tree.at(left);
        let ends = graph.ends(edge);
        put_last(lists, ends, edge)?;
    }
    Ok(())
}

/// The last dart of a vertex, None where it has none.
pub(crate) fn last_at(lists: &Lists, vertex: usize) -> Option<u32>
    requires { vertex < length lists.now }
    ensures { IsPlace (slice_index_or lists.now vertex []) result }
{
    lists.at(vertex).last()
}

/// Puts the darts of an edge last at its ends.
fn put_last(lists: &mut Lists, ends: (usize, usize), edge: usize) -> Result<(), AllocError>
    requires edge { edge < 2 ^ 31 }
    requires first_vertex { ends.0 < length lists.old }
    requires second_vertex { ends.1 < length lists.old }
    requires least { All BeginsWithLeast lists.old }
    ensures put { OnOk result (ArePutSomewhere lists.old ends (dart edge) lists.new) }
    ensures least { All BeginsWithLeast lists.new }
{
    let first = last_at(lists, ends.0);
    let second = last_at(lists, ends.1);
    let dart = first_dart(edge);
    lists.insert(ends, first, second, dart)?;
    Ok(())
}
