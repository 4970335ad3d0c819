//! Lists of increasing positions in a text. They count from 1 there, and from 0 in a set of lines.

ghost use Rattle.std.specs.Prelude.{◌≢◌, [], IfOk, IfErr};
ghost use Rattle.line_lexer.specs.Calls.{SameLine};
ghost use Rattle.text_forms.specs.Gives.{Gives, IsOfText};
ghost use Rattle.text_forms.specs.Places.{positions, some_positions};

use line_lexer::{Lexer, TextRefusal};
use parity_lines::LineSet;
use std::alloc::Global;
use text_forms::{position_or_end, position_word};

/// So many positions, each in 1 to `lines` and above the one before it.
pub fn position_words(
    alloc: Global,
    lexer: &mut Lexer<'_>,
    count: u32,
    lines: usize,
) -> Result<LineSet, TextRefusal>
    ensures same { SameLine lexer.old lexer.new }
    ensures gives { Gives (λ set. (set, lexer.new.words)) result
        (positions count lines lexer.old.line lexer.old.words) }
    ensures kind { IfErr result IsOfText }
{
    let mut set = LineSet::new(alloc);
    let mut before = 0;
    for i in 0..count {
        let n = position_word(lexer, lines, before)?;
        set.push((n - 1) as usize)?;
        before = n;
    }
    Ok(set)
}

/// One such position or more, up to the end of the line.
pub fn some_position_words(
    alloc: Global,
    lexer: &mut Lexer<'_>,
    lines: usize,
) -> Result<LineSet, TextRefusal>
    ensures same { SameLine lexer.old lexer.new }
    ensures gives { Gives (λ set. (set, lexer.new.words)) result
        (some_positions lines lexer.old.line lexer.old.words) }
    ensures some { IfOk result (λ set. set ≢ []) }
    ensures kind { IfErr result IsOfText }
{
    let mut set = LineSet::new(alloc);
    let mut before = position_word(lexer, lines, 0)?;
    set.push((before - 1) as usize)?;
    while let Some(n) = position_or_end(lexer, lines, before)? {
        set.push((n - 1) as usize)?;
        before = n;
    }
    Ok(set)
}
