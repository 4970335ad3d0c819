//! The reader of a graph text.

ghost use Rattle.std.specs.Prelude.{◌≡◌, [], length, IfErr, OnOk};
ghost use Rattle.graph_text.specs.Texts.{graph};
ghost use Rattle.line_lexer.specs.Lines.{lines as text_lines};
ghost use Rattle.text_forms.specs.Gives.{Gives, IsOfText};

use crate::lines::statements;
use graph_core::Graph;
use line_lexer::{Lexer, TextRefusal};
use std::alloc::Global;
use text_forms::version_line;

/// A graph, from its text, which goes to the end of the input. `Limit` says that a name has more than 32 bytes, that a name makes
/// more vertices than `most_vertices`, or that a line begins with `edge` where there are 512 before; `Classed` says that a name on a
/// line of a class stands in a class already.
#[tactic(auto, unfolding(crate::specs::Texts::graph))]
pub fn read_graph(
    alloc: Global,
    lexer: &mut Lexer<'_>,
    most_vertices: u32,
) -> Result<Graph, TextRefusal>
    ensures bytes { lexer.new.bytes ≡ lexer.old.bytes }
    ensures gives { Gives (λ g. (g, lexer.new.ahead)) result
        (graph most_vertices (length (text_lines lexer.old.bytes)) lexer.old.ahead) }
    ensures end { OnOk result (lexer.new.ahead ≡ []) }
    ensures kind { IfErr result IsOfText }
{
    version_line(lexer, b"graph")?;
    statements(alloc, lexer, most_vertices)
}
