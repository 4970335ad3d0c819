ghost use Rattle.std.specs.Prelude.{◌≡◌, ◌≢◌, ℕ, ◌<◌, ◌≤◌, List, length, IfSome, IfOk, IfErr, Err};
ghost use Rattle.std.specs.Str.{bytes_eq};
ghost use Rattle.line_lexer.specs.Numbers.{number_of};
ghost use Rattle.line_lexer.specs.Calls.{SameLine, text_at};
ghost use Rattle.text_forms.specs.Gives.{Gives, IsOfText};
ghost use Rattle.text_forms.specs.Places.{fixed, spelled_number, number, version_number, limited, entry, as_position, position};
ghost use Rattle.text_forms.specs.Places.{position_or_end};

use crate::words::due_word;
use line_lexer::{Counted, Lexer, TextFault, TextRefusal, Token};

fn is_same(word: &[u8], text: &[u8]) -> bool
    ensures { result ≡ bytes_eq word.now text.now }
{
    word == text
}

/// A word that is this text. `Word` says that it is another.
#[tactic(auto, unfolding(crate::specs::Places::fixed))]
pub fn fixed_word(lexer: &mut Lexer<'_>, text: &[u8]) -> Result<(), TextRefusal>
    ensures same { SameLine lexer.old lexer.new }
    ensures gives { Gives (λ _. (tt, lexer.new.words)) result (fixed text.now lexer.old.line lexer.old.words) }
    ensures kind { IfErr result IsOfText }
    ensures memory { result ≢ Err TextRefusal.OutOfMemory }
{
    let token = due_word(lexer)?;
    if is_same(lexer.text(token), text) {
        Ok(())
    } else {
        Err(TextRefusal::Bad {
            line: token.line,
            kind: TextFault::Word,
        })
    }
}

/// The number that a word spells.
fn number_at(lexer: &Lexer<'_>, token: Token) -> Result<u32, TextRefusal>
    requires order { token.start ≤ token.end }
    requires within { token.end ≤ length lexer.now.bytes }
    ensures gives { (words : List (List ℕ)) →
        Gives (λ n. (n, words)) result (spelled_number (number_of (text_at lexer.now.bytes token)) token.line words) }
    ensures kind { IfErr result IsOfText }
    ensures memory { result ≢ Err TextRefusal.OutOfMemory }
{
    Ok(lexer.number(token)?)
}

/// A word that spells a number. `Number` says that it spells none.
#[tactic(auto, unfolding(crate::specs::Places::number))]
pub fn number_word(lexer: &mut Lexer<'_>) -> Result<u32, TextRefusal>
    ensures same { SameLine lexer.old lexer.new }
    ensures gives { Gives (λ n. (n, lexer.new.words)) result (number lexer.old.line lexer.old.words) }
    ensures kind { IfErr result IsOfText }
    ensures memory { result ≢ Err TextRefusal.OutOfMemory }
{
    let token = due_word(lexer)?;
    number_at(lexer, token)
}

/// The version, 1. `Version` says that it is another number.
#[tactic(auto, unfolding(crate::specs::Places::version_number))]
pub fn version_word(lexer: &mut Lexer<'_>) -> Result<(), TextRefusal>
    ensures same { SameLine lexer.old lexer.new }
    ensures gives { Gives (λ _. (tt, lexer.new.words)) result (version_number lexer.old.line lexer.old.words) }
    ensures kind { IfErr result IsOfText }
    ensures memory { result ≢ Err TextRefusal.OutOfMemory }
{
    let n = number_word(lexer)?;
    if n == 1 {
        Ok(())
    } else {
        Err(TextRefusal::Bad {
            line: lexer.line(),
            kind: TextFault::Version,
        })
    }
}

/// A number up to a limit. A greater one is refused with what is counted, and the number.
#[tactic(auto, unfolding(crate::specs::Places::limited))]
pub fn limited_number(lexer: &mut Lexer<'_>, what: Counted, most: u32) -> Result<u32, TextRefusal>
    ensures same { SameLine lexer.old lexer.new }
    ensures gives { Gives (λ n. (n, lexer.new.words)) result (limited what most lexer.old.line lexer.old.words) }
    ensures kind { what ≢ Counted.Bytes → IfErr result IsOfText }
    ensures memory { result ≢ Err TextRefusal.OutOfMemory }
{
    let n = number_word(lexer)?;
    if n <= most {
        Ok(n)
    } else {
        Err(TextRefusal::Limit { what, found: n })
    }
}

/// A number below a field's order. `Range` says that it isn't.
#[tactic(auto, unfolding(crate::specs::Places::entry))]
pub fn entry_word(lexer: &mut Lexer<'_>, order: u32) -> Result<u32, TextRefusal>
    ensures same { SameLine lexer.old lexer.new }
    ensures gives { Gives (λ n. (n, lexer.new.words)) result (entry order lexer.old.line lexer.old.words) }
    ensures below { IfOk result (λ n. n < order) }
    ensures kind { IfErr result IsOfText }
    ensures memory { result ≢ Err TextRefusal.OutOfMemory }
{
    let n = number_word(lexer)?;
    if n < order {
        Ok(n)
    } else {
        Err(TextRefusal::Bad {
            line: lexer.line(),
            kind: TextFault::Range,
        })
    }
}

/// The number as a position on the line.
#[tactic(auto, unfolding(crate::specs::Places::as_position))]
fn as_position(n: u32, line: u32, lines: usize, before: u32) -> Result<u32, TextRefusal>
    ensures gives { (words : List (List ℕ)) → Gives (λ p. (p, words)) result (as_position lines before n line words) }
    ensures range { IfOk result (λ p. (1 ≤ p) × (p ≤ lines) × (before < p)) }
    ensures kind { IfErr result IsOfText }
    ensures memory { result ≢ Err TextRefusal.OutOfMemory }
{
    if n < 1 || n as usize > lines {
        Err(TextRefusal::Bad {
            line,
            kind: TextFault::Range,
        })
    } else if n <= before {
        Err(TextRefusal::Bad {
            line,
            kind: TextFault::Order,
        })
    } else {
        Ok(n)
    }
}

/// A position in 1 to `lines`, above the one before it, or above 0 for the first. `Range` says that it is outside, and
/// `Order` that it isn't above.
#[tactic(auto, unfolding(crate::specs::Places::position))]
pub fn position_word(lexer: &mut Lexer<'_>, lines: usize, before: u32) -> Result<u32, TextRefusal>
    ensures same { SameLine lexer.old lexer.new }
    ensures gives { Gives (λ n. (n, lexer.new.words)) result (position lines before lexer.old.line lexer.old.words) }
    ensures range { IfOk result (λ n. (1 ≤ n) × (n ≤ lines) × (before < n)) }
    ensures kind { IfErr result IsOfText }
    ensures memory { result ≢ Err TextRefusal.OutOfMemory }
{
    let n = number_word(lexer)?;
    as_position(n, lexer.line(), lines, before)
}

/// Such a position, or none at the end of the line.
#[tactic(auto, unfolding(crate::specs::Places::position_or_end, crate::specs::Places::position, crate::specs::Places::number))]
pub fn position_or_end(
    lexer: &mut Lexer<'_>,
    lines: usize,
    before: u32,
) -> Result<Option<u32>, TextRefusal>
    ensures same { SameLine lexer.old lexer.new }
    ensures gives { Gives (λ p. (p, lexer.new.words)) result (position_or_end lines before lexer.old.line lexer.old.words) }
    ensures range { IfOk result (λ p. IfSome p (λ n. (1 ≤ n) × (n ≤ lines) × (before < n))) }
    ensures kind { IfErr result IsOfText }
    ensures memory { result ≢ Err TextRefusal.OutOfMemory }
{
    let Some(token) = lexer.next_word() else {
        return Ok(None);
    };
    let n = number_at(lexer, token)?;
    let p = as_position(n, token.line, lines, before)?;
    Ok(Some(p))
}
