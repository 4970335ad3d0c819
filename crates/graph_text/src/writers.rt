//! Writers of the replies that speak of a graph. After want of memory some front of the text stands behind what was there.

ghost use Rattle.std.specs.Prelude.{◌≡◌, ◌<◌, ◌+◌, All, length, map};
ghost use Rattle.std.specs.List.{zip};
ghost use Rattle.std.specs.List.Sorted.{IsStrictlyIncreasing};
ghost use Rattle.graph_text.specs.Spelled.{at_words, dart_path_words, edge_words, listed_words};
ghost use Rattle.graph_text.specs.Spelled.{cactus_lines, edge_paths_lines, feedback_lines, matching_lines, paths_lines, rotation_lines, AreVertices, AreTriples, AreInOrder};
ghost use Rattle.text_forms.specs.Writes.{Writes};
ghost use Rattle.line_lexer.specs.Words.{spelled};

use crate::writing::{put_dart_path, put_darts_at, put_edge, put_head, put_listed};
use graph_core::{DartLists, EdgeList, Graph, VertexList, VertexLists};
use rotation_system::Rotation;
use std::alloc::AllocError;
use text_forms::{put, put_count};

/// Puts the lines of the edges last.
fn put_edges(out: &mut Vec<u8>, graph: &Graph, edges: &EdgeList) -> Result<(), AllocError>
    requires { All (λ e. e < length graph.now.ends) edges.now }
    ensures { Writes out.old.items out.new.items (spelled (map (edge_words graph.now) edges.now)) result }
{
    for i in 0..edges.len() {
        put_edge(out, graph, edges.at(i))?;
    }
    Ok(())
}

/// Puts the lines of the lists last, each with the word.
fn put_lists(
    out: &mut Vec<u8>,
    word: &[u8],
    graph: &Graph,
    lists: &VertexLists,
) -> Result<(), AllocError>
    requires { All (AreVertices graph.now) lists.now }
    ensures { Writes out.old.items out.new.items (spelled (map (listed_words word.now graph.now) lists.now)) result }
{
    for i in 0..lists.len() {
        put_listed(out, word, graph, lists.at(i))?;
    }
    Ok(())
}

/// Writes the edges of a matching behind what is there, by increasing number.
pub fn write_matching(out: &mut Vec<u8>, graph: &Graph, edges: &EdgeList) -> Result<(), AllocError>
    requires edges { All (λ e. e < length graph.now.ends) edges.now }
    requires increasing { IsStrictlyIncreasing edges.now }
    ensures { Writes out.old.items out.new.items (spelled (matching_lines graph.now edges.now)) result }
{
    put_head(out, b"matching", b"size", edges.len())?;
    put_edges(out, graph, edges)?;
    put(out, b"end\n")
}

/// Writes the triangles of a cactus behind what is there, each by increasing vertices, in lexicographic order.
pub fn write_cactus(
    out: &mut Vec<u8>,
    graph: &Graph,
    triangles: &VertexLists,
) -> Result<(), AllocError>
    requires vertices { All (AreVertices graph.now) triangles.now }
    requires triples { AreTriples triangles.now }
    ensures { Writes out.old.items out.new.items (spelled (cactus_lines graph.now triangles.now)) result }
{
    put_head(out, b"cactus", b"size", triangles.len())?;
    put_lists(out, b"triangle", graph, triangles)?;
    put(out, b"end\n")
}

/// Writes paths behind what is there, each from its end with the smaller number, by increasing first vertex.
pub fn write_paths(out: &mut Vec<u8>, graph: &Graph, paths: &VertexLists) -> Result<(), AllocError>
    requires vertices { All (AreVertices graph.now) paths.now }
    requires order { AreInOrder paths.now }
    ensures { Writes out.old.items out.new.items (spelled (paths_lines graph.now paths.now)) result }
{
    put_head(out, b"paths", b"count", paths.len())?;
    put_lists(out, b"path", graph, paths)?;
    put(out, b"end\n")
}

/// Puts the lines of the paths last.
fn put_dart_paths(out: &mut Vec<u8>, paths: &DartLists) -> Result<(), AllocError>
    ensures { Writes out.old.items out.new.items (spelled (map dart_path_words paths.now)) result }
{
    for i in 0..paths.len() {
        put_dart_path(out, paths.at(i))?;
    }
    Ok(())
}

/// Writes edge-disjoint paths of a graph behind what is there, each as its darts.
pub fn write_edge_paths(
    out: &mut Vec<u8>,
    graph: &Graph,
    paths: &DartLists,
) -> Result<(), AllocError>
    requires { All (All (λ d. d < length graph.now.ends + length graph.now.ends)) paths.now }
    ensures { Writes out.old.items out.new.items (spelled (edge_paths_lines paths.now)) result }
{
    put_head(out, b"edgepaths", b"count", paths.len())?;
    put_dart_paths(out, paths)?;
    put(out, b"end\n")
}

/// Puts the lines of all vertices last, each with its darts.
fn put_rotation(out: &mut Vec<u8>, graph: &Graph, rotation: &Rotation) -> Result<(), AllocError>
    requires { length rotation.now.lists ≡ length graph.now.names }
    ensures { Writes out.old.items out.new.items (spelled (map at_words (zip graph.now.names rotation.now.lists))) result }
{
    for vertex in 0..graph.vertices() {
        put_darts_at(out, graph.name(vertex), rotation.darts(vertex))?;
    }
    Ok(())
}

/// Writes a rotation of a graph behind what is there, with a genus and a number of faces: by number the vertices, each with the cyclic list
/// of its darts from the least on.
pub fn write_rotation(
    out: &mut Vec<u8>,
    graph: &Graph,
    rotation: &Rotation,
    genus: usize,
    faces: usize,
) -> Result<(), AllocError>
    requires { length rotation.now.lists ≡ length graph.now.names }
    ensures { Writes out.old.items out.new.items (spelled (rotation_lines graph.now rotation.now.lists genus faces)) result }
{
    put_head(out, b"rotation", b"genus", genus)?;
    put_count(out, b"faces", faces)?;
    put_rotation(out, graph, rotation)?;
    put(out, b"end\n")
}

/// Writes a feedback set behind what is there: its size, and the names of its vertices in one line, by increasing number.
pub fn write_feedback(
    out: &mut Vec<u8>,
    graph: &Graph,
    vertices: &VertexList,
) -> Result<(), AllocError>
    requires vertices { AreVertices graph.now vertices.now }
    requires increasing { IsStrictlyIncreasing vertices.now }
    ensures { Writes out.old.items out.new.items (spelled (feedback_lines graph.now vertices.now)) result }
{
    put_head(out, b"feedback", b"size", vertices.len())?;
    put_listed(out, b"vertices", graph, vertices)?;
    put(out, b"end\n")
}
