//! Laws of graph texts.

ghost use Rattle.std.specs.Prelude.{◌≡◌, ℕ, ◌≤◌, ◌<◌, ◌↔◌, List, [], All, length, None, Ok, Some, slice_index_or};
ghost use Rattle.graph_core.specs.NamedGraphs.{NamedGraph, IsNamedGraph};
ghost use Rattle.graph_text.specs.Spells.{SpellsGraph};
ghost use Rattle.graph_text.specs.Texts.{graph};
ghost use Rattle.line_lexer.specs.Lines.{Line, lines_from};
ghost use Rattle.text_forms.specs.Causality.{RefusesCausally};
ghost use Rattle.text_forms.specs.Forms.{of_text};

/// A text has a value exactly where all of its lines, in order, spell it, and so have the bytes of a text.
pub fn graph_texts_give_what_is_spelled()
    ensures spelled { (most last : ℕ) (text rest : List Line) (g : NamedGraph) →
        (graph most last text ≡ Ok (g, rest)) ↔ ((rest ≡ []) × SpellsGraph most g text) }
    ensures bytes { (most : ℕ) (bytes : List ℕ) (g : NamedGraph) →
        (of_text (graph most) bytes ≡ Ok (g, [])) ↔ SpellsGraph most g (lines_from 1 bytes) }
{}

/// What is read is a graph within the limits, and class numbers are below its number of vertices.
pub fn graphs_are_within_limits()
    ensures limits { (most last : ℕ) (text rest : List Line) (g : NamedGraph) → graph most last text ≡ Ok (g, rest)
        → IsNamedGraph g × (length g.names ≤ most) × (length g.ends ≤ 512) × All (λ name. length name ≤ 32) g.names }

    // Classes have different vertices, at least one each: so their numbers are below that of the vertices.
    ensures classes { (most last : ℕ) (text rest : List Line) (g : NamedGraph) → graph most last text ≡ Ok (g, rest)
        → (v c : ℕ) → slice_index_or g.classes v None ≡ Some c → c < length g.names }
{}

/// A graph text is refused by its lines up to the refused one alone, or it is `Missing` after the last line.
pub fn graph_texts_are_causal()
    ensures { (most : ℕ) → RefusesCausally (graph most) }
{}
