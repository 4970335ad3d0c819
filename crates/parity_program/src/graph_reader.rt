//! The graph that a command reads.

ghost use Rattle.std.specs.Prelude.{◌≡◌, ◌≤◌, IfErr, IfOk, length, ℕ, List};
ghost use Rattle.graph_text.specs.Texts.{graph};
ghost use Rattle.line_lexer.specs.Lines.{Line, lines as text_lines};
ghost use Rattle.parity_program.specs.Inputs.{graph_for, most_vertices, with_few_cycles, with_few_edges, with_few_triangles, with_small_rank};
ghost use Rattle.parity_program.specs.Triangles.{triangle_count};
ghost use Rattle.parity_program.specs.declared.command.Convertible.TheVariants.{Cactus, Rotation};
ghost use Rattle.parity_program.specs.declared.command.GraphObject.TheVariants.{Converted, EdgePaths, SparePairs};
ghost use Rattle.text_forms.specs.Gives.{Gives, IsOfText};
ghost use Rattle.text_forms.specs.Reading.{chain};

use crate::cycles::{within_cycle_rank, within_cycles};
use crate::{Convertible, GraphObject};
use graph_core::Graph;
use graph_text::{graphs_are_within_limits, read_graph};
use line_lexer::{Counted, Lexer, TextRefusal};
use std::alloc::{AllocError, Global};

/// How many vertices a graph may have.
const MOST_VERTICES: u32 = 128;

/// How many it may have where disjoint paths are looked for.
const MOST_VERTICES_WITH_PATHS: u32 = 64;

/// How many triangles it may have where a cactus is looked for.
const MOST_TRIANGLES: usize = 2048;

/// How many edges it may have where edge-disjoint paths are looked for.
const MOST_EDGES: usize = 32;

/// How many triangles the graph has.
fn triangles_of(alloc: Global, graph: &Graph) -> Result<usize, AllocError>
    requires { length graph.now.names ≤ most_vertices (Converted Cactus) }
    ensures value { IfOk result (λ count. count ≡ triangle_count (length graph.now.names) graph.now.ends) }
    ensures small { IfOk result (λ count. count ≤ 2097152) }
{
    let _edges = graph.edges();
    let triangles = graph.triangles(alloc)?;
    Ok(triangles.len())
}

/// Whether the graph has no more triangles than it may have. `Limit` says how many there are.
fn within_triangles(alloc: Global, graph: &Graph) -> Result<(), TextRefusal>
    requires { length graph.now.names ≤ most_vertices (Converted Cactus) }
    ensures gives { (line : ℕ) (left : List Line) → Gives (λ _. (graph.now, left)) result (with_few_triangles graph.now line left) }
    ensures kind { IfErr result IsOfText }
{
    let count = triangles_of(alloc, graph)?;
    if count > MOST_TRIANGLES {
        return Err(TextRefusal::Limit {
            what: Counted::Triangles,
            found: count as u32,
        });
    }
    Ok(())
}

/// The graph in which a cactus is looked for, up to the end of the input.
fn graph_with_few_triangles(alloc: Global, lexer: &mut Lexer<'_>) -> Result<Graph, TextRefusal>
    ensures gives { Gives (λ g. (g, lexer.new.ahead)) result
        (chain (graph (most_vertices (Converted Cactus))) with_few_triangles (length (text_lines lexer.old.bytes)) lexer.old.ahead) }
    ensures kind { IfErr result IsOfText }
{
    let graph = read_graph(alloc, lexer, MOST_VERTICES)?;
    graphs_are_within_limits();
    within_triangles(alloc, &graph)?;
    Ok(graph)
}

/// The graph in which a rotation is looked for, up to the end of the input.
fn graph_with_few_cycles(alloc: Global, lexer: &mut Lexer<'_>) -> Result<Graph, TextRefusal>
    ensures gives { Gives (λ g. (g, lexer.new.ahead)) result
        (chain (graph (most_vertices (Converted Rotation))) with_few_cycles (length (text_lines lexer.old.bytes)) lexer.old.ahead) }
    ensures kind { IfErr result IsOfText }
{
    let graph = read_graph(alloc, lexer, MOST_VERTICES)?;
    graphs_are_within_limits();
    within_cycles(alloc, &graph)?;
    Ok(graph)
}

/// The graph in which spare pairs are looked for, up to the end of the input.
fn graph_with_small_rank(alloc: Global, lexer: &mut Lexer<'_>) -> Result<Graph, TextRefusal>
    ensures gives { Gives (λ g. (g, lexer.new.ahead)) result
        (chain (graph (most_vertices SparePairs)) with_small_rank (length (text_lines lexer.old.bytes)) lexer.old.ahead) }
    ensures kind { IfErr result IsOfText }
{
    let graph = read_graph(alloc, lexer, MOST_VERTICES)?;
    graphs_are_within_limits();
    within_cycle_rank(alloc, &graph)?;
    Ok(graph)
}

/// Whether the graph has no more edges than it may have. `Limit` says how many there are.
fn within_edges(graph: &Graph) -> Result<(), TextRefusal>
    requires { length graph.now.ends ≤ 512 }
    ensures gives { (line : ℕ) (left : List Line) → Gives (λ _. (graph.now, left)) result (with_few_edges graph.now line left) }
    ensures kind { IfErr result IsOfText }
{
    let count = graph.edges();
    if count > MOST_EDGES {
        return Err(TextRefusal::Limit {
            what: Counted::Edges,
            found: count as u32,
        });
    }
    Ok(())
}

/// The graph in which edge-disjoint paths are looked for, up to the end of the input.
fn graph_with_few_edges(alloc: Global, lexer: &mut Lexer<'_>) -> Result<Graph, TextRefusal>
    ensures gives { Gives (λ g. (g, lexer.new.ahead)) result
        (chain (graph (most_vertices EdgePaths)) with_few_edges (length (text_lines lexer.old.bytes)) lexer.old.ahead) }
    ensures kind { IfErr result IsOfText }
{
    let graph = read_graph(alloc, lexer, MOST_VERTICES)?;
    graphs_are_within_limits();
    within_edges(&graph)?;
    Ok(graph)
}

/// The graph in which the object is looked for, up to the end of the input, within its limits.
pub fn graph_of(
    alloc: Global,
    object: GraphObject,
    lexer: &mut Lexer<'_>,
) -> Result<Graph, TextRefusal>
    ensures gives { Gives (λ g. (g, lexer.new.ahead)) result
        (graph_for object (length (text_lines lexer.old.bytes)) lexer.old.ahead) }
    ensures kind { IfErr result IsOfText }
{
    match object {
        GraphObject::Converted(Convertible::Matching) => read_graph(alloc, lexer, MOST_VERTICES),
        GraphObject::Converted(Convertible::Cactus) => graph_with_few_triangles(alloc, lexer),
        GraphObject::Converted(Convertible::PathFamily) => {
            read_graph(alloc, lexer, MOST_VERTICES_WITH_PATHS)
        }
        GraphObject::Converted(Convertible::Rotation) => graph_with_few_cycles(alloc, lexer),
        GraphObject::ForestPairs => read_graph(alloc, lexer, MOST_VERTICES),
        GraphObject::SparePairs => graph_with_small_rank(alloc, lexer),
        GraphObject::EdgePaths => graph_with_few_edges(alloc, lexer),
        GraphObject::FeedbackSet => read_graph(alloc, lexer, MOST_VERTICES),
    }
}
