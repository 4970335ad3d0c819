//! The limits of a graph in which a rotation or spare pairs are looked for.

ghost use Rattle.std.specs.Prelude.{◌≡◌, ◌≤◌, ◌<◌, ℕ, List, IfErr, IfOk, length, slice_index};
ghost use Rattle.graph_core.specs.NamedGraphs.{IsNamedGraph};
ghost use Rattle.graph_theory.specs.Counts.{component_count};
ghost use Rattle.graph_theory.specs.Labels.{label};
ghost use Rattle.line_lexer.specs.Lines.{Line};
ghost use Rattle.parity_program.specs.AdjacentPairs.{cycle_rank, pair_count};
ghost use Rattle.parity_program.specs.Inputs.{most_vertices, with_few_cycles, with_few_pairs, with_small_rank};
ghost use Rattle.parity_program.specs.declared.command.Convertible.TheVariants.{Rotation};
ghost use Rattle.parity_program.specs.declared.command.GraphObject.TheVariants.{Converted};
ghost use Rattle.text_forms.specs.Gives.{Gives, IsOfText};

use graph_core::{Graph, VertexList};
use line_lexer::{Counted, TextRefusal};
use std::alloc::{AllocError, Global};

/// How many pairs of edges with a common end it may have.
const MOST_PAIRS: usize = 2048;

/// Which cycle rank it may have.
const MOST_CYCLE_RANK: usize = 128;

/// How many pairs of edges have a common end.
fn pairs_of(alloc: Global, graph: &Graph) -> Result<usize, AllocError>
    requires { length graph.now.ends ≤ 512 }
    ensures value { IfOk result (λ count. count ≡ pair_count graph.now.ends) }
    ensures small { IfOk result (λ count. count ≤ 262144) }
{
    let pairs = graph.adjacent_pairs(alloc)?;
    Ok(pairs.len())
}

/// Whether the graph has no more pairs of edges with a common end than it may have. `Limit` says how many there are.
fn within_pairs(alloc: Global, graph: &Graph) -> Result<(), TextRefusal>
    requires { length graph.now.ends ≤ 512 }
    ensures gives { (line : ℕ) (left : List Line) → Gives (λ _. (graph.now, left)) result (with_few_pairs graph.now line left) }
    ensures kind { IfErr result IsOfText }
{
    let count = pairs_of(alloc, graph)?;
    if count > MOST_PAIRS {
        return Err(TextRefusal::Limit {
            what: Counted::Pairs,
            found: count as u32,
        });
    }
    Ok(())
}

/// How many vertices are their own labels.
fn roots(graph: &Graph, labels: &VertexList) -> usize
    requires count { length labels.now ≡ length graph.now.names }
    requires labels { (v : ℕ) → v < length graph.now.names → slice_index labels.now v ≡ label graph.now.ends v }
    ensures value { result ≡ component_count (length graph.now.names) graph.now.ends }
    ensures few { result ≤ length graph.now.names }
{
    let mut found = 0;
    for vertex in 0..graph.vertices() {
        if labels.at(vertex) == vertex {
            found += 1;
        }
    }
    found
}

/// The edges and the components less the vertices.
fn cycle_rank_of(alloc: Global, graph: &Graph) -> Result<usize, AllocError>
    requires edges { length graph.now.ends ≤ 512 }
    requires vertices { length graph.now.names ≤ most_vertices (Converted Rotation) }
    ensures value { IfOk result (λ rank. rank ≡ cycle_rank (length graph.now.names) graph.now.ends) }
    ensures small { IfOk result (λ rank. rank ≤ 512) }
{
    let edges = graph.edges();
    let labels = graph.components(alloc)?;
    let components = roots(graph, &labels);
    Ok(edges + components - graph.vertices())
}

/// Whether the graph has no greater cycle rank than it may have. `Limit` says how great it is.
pub fn within_cycle_rank(alloc: Global, graph: &Graph) -> Result<(), TextRefusal>
    requires edges { length graph.now.ends ≤ 512 }
    requires vertices { length graph.now.names ≤ most_vertices (Converted Rotation) }
    ensures gives { (line : ℕ) (left : List Line) → Gives (λ _. (graph.now, left)) result (with_small_rank graph.now line left) }
    ensures kind { IfErr result IsOfText }
{
    let rank = cycle_rank_of(alloc, graph)?;
    if rank > MOST_CYCLE_RANK {
        return Err(TextRefusal::Limit {
            what: Counted::CycleRank,
            found: rank as u32,
        });
    }
    Ok(())
}

/// Whether the graph has no more pairs and no greater cycle rank than it may have.
pub fn within_cycles(alloc: Global, graph: &Graph) -> Result<(), TextRefusal>
    requires edges { length graph.now.ends ≤ 512 }
    requires vertices { length graph.now.names ≤ most_vertices (Converted Rotation) }
    ensures gives { (line : ℕ) (left : List Line) → Gives (λ _. (graph.now, left)) result (with_few_cycles graph.now line left) }
    ensures kind { IfErr result IsOfText }
{
    within_pairs(alloc, graph)?;
    within_cycle_rank(alloc, graph)
}
