//! Lines of names and of edges, as they are written.

ghost use Rattle.std.specs.Prelude.{◌≡◌, ◌<◌, ◌+◌, ◌∷◌, ◌++◌, map, length};
ghost use Rattle.std.specs.List.{flat_map};
ghost use Rattle.graph_text.specs.Spelled.{at_words, dart_path_words, dart_word, edge_words, listed_words, name_at, AreVertices};
ghost use Rattle.text_forms.specs.Spelling.{counted_words};
ghost use Rattle.text_forms.specs.Writes.{Writes};
ghost use Rattle.line_lexer.specs.Words.{line_text};

use graph_core::{Graph, VertexList};
use std::alloc::AllocError;
use text_forms::{put, put_count, put_number};

/// Puts a space and the name of a vertex last.
fn put_name(out: &mut Vec<u8>, graph: &Graph, vertex: usize) -> Result<(), AllocError>
    requires { vertex < length graph.now.names }
    ensures { Writes out.old.items out.new.items (32 ∷ name_at graph.now vertex) result }
{
    put(out, b" ")?;
    put(out, graph.name(vertex))
}

/// Puts the names of the vertices last, each behind a space.
fn put_names(out: &mut Vec<u8>, graph: &Graph, vertices: &VertexList) -> Result<(), AllocError>
    requires { AreVertices graph.now vertices.now }
    ensures { Writes out.old.items out.new.items (flat_map (λ w. 32 ∷ w) (map (name_at graph.now) vertices.now)) result }
{
    for i in 0..vertices.len() {
        put_name(out, graph, vertices.at(i))?;
    }
    Ok(())
}

/// Puts the first two lines of a reply last: its name with the version, and how many lines follow.
pub fn put_head(out: &mut Vec<u8>, name: &[u8], count: &[u8], n: usize) -> Result<(), AllocError>
    ensures { Writes out.old.items out.new.items (line_text (counted_words name.now 1) ++ line_text (counted_words count.now n)) result }
{
    put_count(out, name, 1)?;
    put_count(out, count, n)
}

/// Puts a line of a word and the names of vertices last.
pub fn put_listed(
    out: &mut Vec<u8>,
    word: &[u8],
    graph: &Graph,
    vertices: &VertexList,
) -> Result<(), AllocError>
    requires { AreVertices graph.now vertices.now }
    ensures { Writes out.old.items out.new.items (line_text (listed_words word.now graph.now vertices.now)) result }
{
    put(out, word)?;
    put_names(out, graph, vertices)?;
    put(out, b"\n")
}

/// Puts a line of an edge last: its number, which counts from 1, and the names of its ends.
pub fn put_edge(out: &mut Vec<u8>, graph: &Graph, edge: usize) -> Result<(), AllocError>
    requires { edge < length graph.now.ends }
    ensures { Writes out.old.items out.new.items (line_text (edge_words graph.now edge)) result }
{
    put(out, b"edge")?;
    put_number(out, edge as u128 + 1)?;
    put_name(out, graph, graph.ends(edge).0)?;
    put_name(out, graph, graph.ends(edge).1)?;
    put(out, b"\n")
}

/// Puts a space and a dart last: the number of its edge, which counts from 1, and its sign.
fn put_dart(out: &mut Vec<u8>, dart: u32) -> Result<(), AllocError>
    ensures { Writes out.old.items out.new.items (32 ∷ dart_word dart) result }
{
    put_number(out, (dart / 2) as u128 + 1)?;
    if dart % 2 == 0 {
        put(out, b"+")
    } else {
        put(out, b"-")
    }
}

/// Puts the darts last, each behind a space.
fn put_darts(out: &mut Vec<u8>, darts: &[u32]) -> Result<(), AllocError>
    ensures { Writes out.old.items out.new.items (flat_map (λ w. 32 ∷ w) (map dart_word darts.now)) result }
{
    for i in 0..darts.len() {
        put_dart(out, darts[i])?;
    }
    Ok(())
}

/// Puts the line of a vertex last: its name, and the darts that leave it.
pub fn put_darts_at(out: &mut Vec<u8>, name: &[u8], darts: &[u32]) -> Result<(), AllocError>
    ensures { Writes out.old.items out.new.items (line_text (at_words (name.now, darts.now))) result }
{
    put(out, b"at ")?;
    put(out, name)?;
    put_darts(out, darts)?;
    put(out, b"\n")
}

/// Puts the line of a path of darts last.
pub fn put_dart_path(out: &mut Vec<u8>, darts: &[u32]) -> Result<(), AllocError>
    ensures { Writes out.old.items out.new.items (line_text (dart_path_words darts.now)) result }
{
    put(out, b"path")?;
    put_darts(out, darts)?;
    put(out, b"\n")
}
