//! From an independent set of lines to a rotation.

ghost use Rattle.std.specs.Prelude.{◌≡◌, ◌<◌, ◌≤◌, ◌^◌, ℕ, All, IfOk, length};
ghost use Rattle.small_fields.specs.ScalarsOf.{scalars_of};
ghost use Rattle.parity_lines.specs.LineSets.{IsIndependentSet, IsLargest};
ghost use Rattle.graph_theory.specs.Walks.{edge_at};
ghost use Rattle.graph_core.specs.Adjacency.{AreAdjacentPairs};
ghost use Rattle.edge_lists.specs.Connections.{IsConnected};
ghost use Rattle.edge_lists.specs.EdgeNumbers.{edge_numbers};
ghost use Rattle.rotation_theory.specs.Genus.{HasGenus};
ghost use Rattle.rotation_theory.specs.MaximumGenus.{IsMaximumGenus};
ghost use Rattle.rotation_theory.specs.Rotations.{IsRotation};
ghost use Rattle.rotation_system.specs.RotationSystems.{held};
ghost use Rattle.genus_front.specs.EdgeParts.{AreParts};
ghost use Rattle.genus_front.specs.GenusProblems.{OfGenusProblem, edges_of};

use crate::forests::spanning_forest;
use crate::growth::{insert_edges, insert_pairs};
use crate::lists::{all_edges, edges_of, outside};
use graph_core::{EdgeList, EdgePairs, Graph};
use parity_lines::LineSet;
use rotation_system::Rotation;
use std::alloc::{AllocError, Global};

/// A rotation that holds all edges of a connected graph, of a genus no smaller than an independent set of its problem is long: a spanning
/// tree of the edges outside the set's pairs, with the pairs put in, each of which makes the genus one larger, and then the other edges,
/// which don't make it smaller. Where the set is largest, the genus is the maximum genus.
pub fn from_set(alloc: Global, graph: &Graph, set: &LineSet) -> Result<Rotation, AllocError>
    requires connected { IsConnected (edge_at graph.now.ends) (length graph.now.names) (edge_numbers graph.now.ends) }
    requires few { length graph.now.ends < 2 ^ 31 }
    requires set { OfGenusProblem (scalars_of 2) graph.now.ends (λ p. IsIndependentSet (scalars_of 2) p set.now) }
    ensures ends { IfOk result (λ r. r.ends ≡ graph.now.ends) }
    ensures vertices { IfOk result (λ r. length r.lists ≡ length graph.now.names) }
    ensures held { IfOk result (λ r. held r ≡ edge_numbers r.ends) }
    ensures rotation { IfOk result (λ r.
        IsRotation (edge_at graph.now.ends) (length graph.now.names) (edge_numbers graph.now.ends) r.lists) }
    ensures genus { IfOk result (λ r. (g : ℕ) → HasGenus (length graph.now.names) (edge_numbers graph.now.ends) r.lists g
        → length set.now ≤ g) }
    ensures largest { OfGenusProblem (scalars_of 2) graph.now.ends (λ p. IsLargest (scalars_of 2) p set.now) → IfOk result (λ r. (g : ℕ)
        → HasGenus (length graph.now.names) (edge_numbers graph.now.ends) r.lists g
        → IsMaximumGenus (edge_at graph.now.ends) (length graph.now.names) (edge_numbers graph.now.ends) g) }
{
    let _edges = graph.edges();
    let pairs = graph.adjacent_pairs(alloc)?;
    let taken = edges_of(alloc, &pairs, set)?;
    let others = outside(alloc, &all_edges(alloc, graph)?, &taken)?;
    let tree = spanning_forest(alloc, graph, &others)?;
    let rest = outside(alloc, &others, &tree)?;
    let rotation = grown(alloc, graph, &tree, &pairs, set, &rest)?;
    Ok(rotation)
}

/// The rotation of a spanning tree, with the pairs at the positions of a set put in, and then the rest of the edges.
fn grown(
    alloc: Global,
    graph: &Graph,
    tree: &EdgeList,
    pairs: &EdgePairs,
    set: &LineSet,
    rest: &EdgeList,
) -> Result<Rotation, AllocError>
    requires few { length graph.now.ends < 2 ^ 31 }
    requires pairs { AreAdjacentPairs graph.now.ends pairs.now }
    requires within { All (λ i. i < length pairs.now) set.now }
    requires parts { AreParts graph.now.ends (length graph.now.names) (edges_of pairs.now set.now) tree.now rest.now }
    ensures ends { IfOk result (λ r. r.ends ≡ graph.now.ends) }
    ensures vertices { IfOk result (λ r. length r.lists ≡ length graph.now.names) }
    ensures held { IfOk result (λ r. held r ≡ edge_numbers r.ends) }
    ensures rotation { IfOk result (λ r.
        IsRotation (edge_at graph.now.ends) (length graph.now.names) (edge_numbers graph.now.ends) r.lists) }
    ensures genus { IfOk result (λ r. (g : ℕ) → HasGenus (length graph.now.names) (edge_numbers graph.now.ends) r.lists g
        → length set.now ≤ g) }
{
    let mut rotation = Rotation::of_tree(alloc, graph, tree)?;
    insert_pairs(&mut rotation, pairs, set)?;
    let _pairs_in = rotation.vertices();
    insert_edges(&mut rotation, graph, rest)?;
    let _all_in = rotation.vertices();
    Ok(rotation)
}
