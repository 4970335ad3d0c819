//! The names on a line of a graph text: each makes a vertex where it first appears.

ghost use Rattle.std.specs.Prelude.{◌≡◌, ℕ, ◌+◌, ◌<◌, ◌≤◌, List, ◌∷◌, length, IfOk, IfErr, None, Err, slice_index_or};
ghost use Rattle.graph_text.specs.Texts.{each, some, named, spelled_vertex, vertex, free_vertex, class_vertex, put_in, two_ends, edge_within};
ghost use Rattle.line_lexer.specs.Calls.{SameLine, text_at};
ghost use Rattle.text_forms.specs.Gives.{Gives, IsOfText};

use graph_core::Graph;
use line_lexer::{Counted, Lexer, TextFault, TextRefusal, Token};
use text_forms::due_word;

/// The next number. No text is so long that there is none.
pub fn one_more(n: u32) -> Result<u32, TextRefusal>
    ensures value { IfOk result (λ more. more ≡ n + 1) }
    ensures memory { IfErr result (λ refusal. refusal ≡ TextRefusal.OutOfMemory) }
{
    match n.checked_add(1) {
        Some(more) => Ok(more),
        None => Err(TextRefusal::OutOfMemory),
    }
}

/// The vertex of the name, which is put last where it is new. A new one past the limit is refused with the number one above it.
fn vertex_named(graph: &mut Graph, name: &[u8], most: u32) -> Result<usize, TextRefusal>
    ensures gives { (line : ℕ) (words : List (List ℕ)) →
        Gives (λ v. ((graph.new, v), words)) result (named most graph.old name.now line words) }
    ensures within { IfOk result (λ v. v < length graph.new.names) }
    ensures more { length graph.old.names ≤ length graph.new.names }
    ensures kind { IfErr result IsOfText }
{
    let before = graph.vertices();
    let number = match graph.vertex(name) {
        Ok(number) => number,
        Err(_) => return Err(TextRefusal::OutOfMemory),
    };
    if graph.vertices() > before && before >= most as usize {
        let found = one_more(most)?;
        return Err(TextRefusal::Limit {
            what: Counted::Vertices,
            found,
        });
    }
    Ok(number)
}

/// The vertex of the name where a token stands.
#[tactic(auto, using(crate::proofs::KnownNames::spelled_short, crate::proofs::KnownNames::spelled_long))]
fn vertex_at(
    lexer: &Lexer<'_>,
    token: Token,
    graph: &mut Graph,
    most: u32,
) -> Result<usize, TextRefusal>
    requires order { token.start ≤ token.end }
    requires in_bytes { token.end ≤ length lexer.now.bytes }
    ensures gives { (line : ℕ) (words : List (List ℕ)) →
        Gives (λ v. ((graph.new, v), words)) result (spelled_vertex most graph.old (text_at lexer.now.bytes token) line words) }
    ensures within { IfOk result (λ v. v < length graph.new.names) }
    ensures more { length graph.old.names ≤ length graph.new.names }
    ensures kind { IfErr result IsOfText }
{
    match lexer.name(token) {
        Ok(name) => vertex_named(graph, name, most),
        Err(refusal) => Err(refusal),
    }
}

/// The vertex of the name that is due.
#[tactic(auto, unfolding(crate::specs::Texts::vertex))]
fn vertex_word(lexer: &mut Lexer<'_>, graph: &mut Graph, most: u32) -> Result<usize, TextRefusal>
    ensures same { SameLine lexer.old lexer.new }
    ensures gives { Gives (λ v. ((graph.new, v), lexer.new.words)) result (vertex most graph.old lexer.old.line lexer.old.words) }
    ensures within { IfOk result (λ v. v < length graph.new.names) }
    ensures more { length graph.old.names ≤ length graph.new.names }
    ensures kind { IfErr result IsOfText }
{
    let token = due_word(lexer)?;
    vertex_at(lexer, token, graph, most)
}

/// The vertex of the name where a token stands, for a line of vertices.
#[tactic(auto, unfolding(crate::specs::Texts::free_vertex, crate::specs::Texts::vertex))]
fn free_vertex_at(
    lexer: &Lexer<'_>,
    token: Token,
    graph: &mut Graph,
    most: u32,
) -> Result<(), TextRefusal>
    requires order { token.start ≤ token.end }
    requires in_bytes { token.end ≤ length lexer.now.bytes }
    ensures gives { (words : List (List ℕ)) → Gives (λ _. (graph.new, words)) result
        (free_vertex most graph.old token.line (text_at lexer.now.bytes token ∷ words)) }
    ensures kind { IfErr result IsOfText }
{
    vertex_at(lexer, token, graph, most)?;
    Ok(())
}

/// The names that are left on the line.
#[tactic(auto, using(crate::proofs::Each::each_goes_on, crate::proofs::Each::each_stops, crate::proofs::Each::each_is_done))]
fn other_vertices(lexer: &mut Lexer<'_>, graph: &mut Graph, most: u32) -> Result<(), TextRefusal>
    ensures same { SameLine lexer.old lexer.new }
    ensures gives { Gives (λ _. (graph.new, lexer.new.words)) result
        (each (free_vertex most) graph.old lexer.old.line lexer.old.words) }
    ensures kind { IfErr result IsOfText }
{
    loop {
        let token = match lexer.next_word() {
            Some(token) => token,
            None => break,
        };
        match free_vertex_at(lexer, token, graph, most) {
            Ok(()) => {}
            Err(refusal) => return Err(refusal),
        }
    }
    Ok(())
}

/// One or more names of vertices.
#[tactic(auto, unfolding(crate::specs::Texts::free_vertex, crate::specs::Texts::vertex))]
pub fn vertices(lexer: &mut Lexer<'_>, graph: &mut Graph, most: u32) -> Result<(), TextRefusal>
    ensures same { SameLine lexer.old lexer.new }
    ensures gives { Gives (λ _. (graph.new, lexer.new.words)) result
        (some (free_vertex most) graph.old lexer.old.line lexer.old.words) }
    ensures kind { IfErr result IsOfText }
{
    let token = due_word(lexer)?;
    free_vertex_at(lexer, token, graph, most)?;
    other_vertices(lexer, graph, most)
}

/// Puts the vertex into the class. `Classed` says that it is in one.
fn put_in(graph: &mut Graph, vertex: usize, class: u32, line: u32) -> Result<(), TextRefusal>
    requires { vertex < length graph.old.names }
    ensures gives { (words : List (List ℕ)) → Gives (λ _. (graph.new, words)) result
        (put_in class graph.old vertex (slice_index_or graph.old.classes vertex None) line words) }
    ensures kind { IfErr result IsOfText }
{
    match graph.class(vertex) {
        None => {
            graph.put_class(vertex, class);
            Ok(())
        }
        Some(_) => Err(TextRefusal::Bad {
            line,
            kind: TextFault::Classed,
        }),
    }
}

/// Puts the vertex of the name where a token stands into the class.
#[tactic(auto, unfolding(crate::specs::Texts::class_vertex, crate::specs::Texts::vertex))]
fn class_vertex_at(
    lexer: &Lexer<'_>,
    token: Token,
    graph: &mut Graph,
    most: u32,
    class: u32,
) -> Result<(), TextRefusal>
    requires order { token.start ≤ token.end }
    requires in_bytes { token.end ≤ length lexer.now.bytes }
    ensures gives { (words : List (List ℕ)) → Gives (λ _. (graph.new, words)) result
        (class_vertex most class graph.old token.line (text_at lexer.now.bytes token ∷ words)) }
    ensures kind { IfErr result IsOfText }
{
    let vertex = vertex_at(lexer, token, graph, most)?;
    put_in(graph, vertex, class, token.line)
}

/// The names that are left on the line, for the class.
#[tactic(auto, using(crate::proofs::Each::each_goes_on, crate::proofs::Each::each_stops, crate::proofs::Each::each_is_done))]
fn other_class_vertices(
    lexer: &mut Lexer<'_>,
    graph: &mut Graph,
    most: u32,
    class: u32,
) -> Result<(), TextRefusal>
    ensures same { SameLine lexer.old lexer.new }
    ensures gives { Gives (λ _. (graph.new, lexer.new.words)) result
        (each (class_vertex most class) graph.old lexer.old.line lexer.old.words) }
    ensures kind { IfErr result IsOfText }
{
    loop {
        let token = match lexer.next_word() {
            Some(token) => token,
            None => break,
        };
        match class_vertex_at(lexer, token, graph, most, class) {
            Ok(()) => {}
            Err(refusal) => return Err(refusal),
        }
    }
    Ok(())
}

/// One or more names of the vertices of a class.
#[tactic(auto, unfolding(crate::specs::Texts::class_vertex, crate::specs::Texts::vertex))]
pub fn class_vertices(
    lexer: &mut Lexer<'_>,
    graph: &mut Graph,
    most: u32,
    class: u32,
) -> Result<(), TextRefusal>
    ensures same { SameLine lexer.old lexer.new }
    ensures gives { Gives (λ _. (graph.new, lexer.new.words)) result
        (some (class_vertex most class) graph.old lexer.old.line lexer.old.words) }
    ensures kind { IfErr result IsOfText }
{
    let token = due_word(lexer)?;
    class_vertex_at(lexer, token, graph, most, class)?;
    other_class_vertices(lexer, graph, most, class)
}

/// The two ends of an edge, which is put last.
#[tactic(auto, unfolding(crate::specs::Texts::two_ends))]
fn two_ends(lexer: &mut Lexer<'_>, graph: &mut Graph, most: u32) -> Result<(), TextRefusal>
    ensures same { SameLine lexer.old lexer.new }
    ensures gives { Gives (λ _. (graph.new, lexer.new.words)) result (two_ends most graph.old lexer.old.line lexer.old.words) }
    ensures kind { IfErr result IsOfText }
{
    let first = vertex_word(lexer, graph, most)?;
    let second = vertex_word(lexer, graph, most)?;
    match graph.edge(first, second) {
        Ok(()) => Ok(()),
        Err(_) => Err(TextRefusal::OutOfMemory),
    }
}

/// An edge, where there are fewer than 512 so far.
#[tactic(auto, unfolding(crate::specs::Texts::edge_within))]
pub fn edge(lexer: &mut Lexer<'_>, graph: &mut Graph, most: u32) -> Result<(), TextRefusal>
    ensures same { SameLine lexer.old lexer.new }
    ensures gives { Gives (λ _. (graph.new, lexer.new.words)) result (edge_within most graph.old lexer.old.line lexer.old.words) }
    ensures kind { IfErr result IsOfText }
{
    if graph.edges() >= 512 {
        return Err(TextRefusal::Limit {
            what: Counted::Edges,
            found: 513,
        });
    }
    two_ends(lexer, graph, most)
}
