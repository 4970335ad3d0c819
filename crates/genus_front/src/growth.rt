//! Rotations that grow by pairs of edges, and by other edges.

ghost use Rattle.std.specs.Prelude.{◌≡◌, ◌≢◌, ◌<◌, ◌≤◌, ◌+◌, ℕ, [], ◌∷◌, OnOk, All, length};
ghost use Rattle.graph_theory.specs.Walks.{edge_at};
ghost use Rattle.graph_core.specs.Adjacency.{AreAdjacentPairs, IsAdjacentPair};
ghost use Rattle.edge_lists.specs.Occurrences.{count};
ghost use Rattle.rotation_system.specs.RotationSystems.{darts_at, held};
ghost use Rattle.rotation_system.specs.DartPlaces.{IsPlace};
ghost use Rattle.genus_front.specs.GenusProblems.{edges_of};
ghost use Rattle.genus_front.specs.GrownRotations.{GrowsBy, GrowsTo, HasOneFace, OfGenus};

use graph_core::{EdgeList, EdgePairs, Graph};
use parity_lines::LineSet;
use rotation_system::Rotation;
use std::alloc::AllocError;

/// Puts in the pairs at the positions of a set. Each makes the genus one larger.
pub(crate) fn insert_pairs(
    rotation: &mut Rotation,
    pairs: &EdgePairs,
    set: &LineSet,
) -> Result<(), AllocError>
    requires pairs { AreAdjacentPairs rotation.old.ends pairs.now }
    requires within { All (λ i. i < length pairs.now) set.now }
    requires new { (e : ℕ) → count e (edges_of pairs.now set.now) + count e (held rotation.old) ≤ 1 }
    requires faces { HasOneFace rotation.old }
    requires genus { OfGenus rotation.old 0 }
    ensures { OnOk result (GrowsTo rotation.old (edges_of pairs.now set.now) (length set.now) rotation.new) }
{
    for i in 0..set.len() {
        insert_pair(rotation, pairs.at(set.at(i)))?;
    }
    Ok(())
}

/// Puts in a pair.
fn insert_pair(rotation: &mut Rotation, pair: (usize, usize)) -> Result<(), AllocError>
    requires pair { IsAdjacentPair rotation.old.ends pair }
    requires first_new { count pair.0 (held rotation.old) ≡ 0 }
    requires second_new { count pair.1 (held rotation.old) ≡ 0 }
    requires faces { HasOneFace rotation.old }
    ensures { OnOk result ((g : ℕ) → OfGenus rotation.old g → GrowsTo rotation.old (pair.0 ∷ pair.1 ∷ []) (g + 1) rotation.new) }
{
    let _vertices = rotation.vertices();
    rotation.insert_pair(pair.0, pair.1)?;
    Ok(())
}

/// Puts in edges, which don't make the genus smaller.
pub(crate) fn insert_edges(
    rotation: &mut Rotation,
    graph: &Graph,
    edges: &EdgeList,
) -> Result<(), AllocError>
    requires ends { rotation.old.ends ≡ graph.now.ends }
    requires edges { All (λ e. e < length graph.now.ends) edges.now }
    requires new { (e : ℕ) → count e edges.now + count e (held rotation.old) ≤ 1 }
    ensures { OnOk result (GrowsBy rotation.old edges.now rotation.new) }
{
    for i in 0..edges.len() {
        insert_edge(rotation, graph, edges.at(i))?;
    }
    Ok(())
}

/// Puts in an edge, after the first dart of each end.
fn insert_edge(rotation: &mut Rotation, graph: &Graph, edge: usize) -> Result<(), AllocError>
    requires ends { rotation.old.ends ≡ graph.now.ends }
    requires edge { edge < length graph.now.ends }
    requires new { count edge (held rotation.old) ≡ 0 }
    ensures { OnOk result (GrowsBy rotation.old (edge ∷ []) rotation.new) }
{
    let _vertices = rotation.vertices();
    let (first, second) = graph.ends(edge);
    let first_after = first_dart(rotation, first);
    let second_after = first_dart(rotation, second);
    rotation.insert_edge(edge, first_after, second_after)?;
    Ok(())
}

/// The first dart of a vertex, None where it has none.
fn first_dart(rotation: &Rotation, vertex: usize) -> Option<u32>
    requires { vertex < length rotation.now.lists }
    ensures { IsPlace (darts_at rotation.now vertex) result }
{
    let darts = rotation.darts(vertex);
    if darts.is_empty() {
        return None;
    }
    Some(darts[0])
}
