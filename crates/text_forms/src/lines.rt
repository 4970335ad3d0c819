ghost use Rattle.std.specs.Prelude.{◌≡◌, ◌≢◌, [], length, IfErr, OnOk, OnErr, Err};
ghost use Rattle.line_lexer.specs.Lines.{lines as text_lines};
ghost use Rattle.line_lexer.specs.Calls.{LeavesLine};
ghost use Rattle.text_forms.specs.Forms.{due, line, finished, version, counted, counted_within};
ghost use Rattle.text_forms.specs.Gives.{Gives, IsOfText};
ghost use Rattle.text_forms.specs.Places.{fixed};
ghost use Rattle.text_forms.specs.Taken.{after_line};

use crate::places::{fixed_word, limited_number, number_word, version_word};
use crate::words::end_of_line;
use line_lexer::{Counted, Lexer, TextFault, TextRefusal};

/// Goes to the line that is due. `Missing` says that the input has no more, and `Byte` that the line has a bad byte;
/// then no word is left, and the line stays ahead.
#[tactic(auto, unfolding(crate::specs::Forms::due))]
pub fn due_line(lexer: &mut Lexer<'_>) -> Result<(), TextRefusal>
    ensures bytes { lexer.new.bytes ≡ lexer.old.bytes }
    ensures ahead { lexer.new.ahead ≡ after_line lexer.old.ahead }
    ensures gives { Gives (λ _. ((lexer.new.line, lexer.new.words), lexer.new.ahead)) result
        (due (length (text_lines lexer.old.bytes)) lexer.old.ahead) }
    ensures err { OnErr result (LeavesLine lexer.old lexer.new) }
    ensures kind { IfErr result IsOfText }
    ensures memory { result ≢ Err TextRefusal.OutOfMemory }
{
    if lexer.next_line()? {
        Ok(())
    } else {
        Err(TextRefusal::Bad {
            line: lexer.last_line() + 1,
            kind: TextFault::Missing,
        })
    }
}

/// The end of the input. `Extra` says that a line with words is left, and `Byte` that one with a bad byte is.
#[tactic(auto, unfolding(crate::specs::Forms::finished))]
pub fn read_end(lexer: &mut Lexer<'_>) -> Result<(), TextRefusal>
    ensures bytes { lexer.new.bytes ≡ lexer.old.bytes }
    ensures ahead { lexer.new.ahead ≡ after_line lexer.old.ahead }
    ensures gives { Gives (λ _. (tt, lexer.new.ahead)) result
        (finished (length (text_lines lexer.old.bytes)) lexer.old.ahead) }
    ensures end { OnOk result (lexer.new.ahead ≡ []) }
    ensures kind { IfErr result IsOfText }
    ensures memory { result ≢ Err TextRefusal.OutOfMemory }
{
    if !lexer.next_line()? {
        return Ok(());
    }
    Err(TextRefusal::Bad {
        line: lexer.line(),
        kind: TextFault::Extra,
    })
}

/// A line of the name and the version, 1.
#[tactic(auto, unfolding(crate::specs::Forms::line, crate::specs::Forms::version))]
pub fn version_line(lexer: &mut Lexer<'_>, name: &[u8]) -> Result<(), TextRefusal>
    ensures bytes { lexer.new.bytes ≡ lexer.old.bytes }
    ensures ahead { lexer.new.ahead ≡ after_line lexer.old.ahead }
    ensures gives { Gives (λ _. (tt, lexer.new.ahead)) result
        (line (version name.now) (length (text_lines lexer.old.bytes)) lexer.old.ahead) }
    ensures kind { IfErr result IsOfText }
    ensures memory { result ≢ Err TextRefusal.OutOfMemory }
{
    due_line(lexer)?;
    fixed_word(lexer, name)?;
    version_word(lexer)?;
    end_of_line(lexer)?;
    Ok(())
}

/// A line of the name and a number.
#[tactic(auto, unfolding(crate::specs::Forms::line, crate::specs::Forms::counted))]
pub fn counted_line(lexer: &mut Lexer<'_>, name: &[u8]) -> Result<u32, TextRefusal>
    ensures bytes { lexer.new.bytes ≡ lexer.old.bytes }
    ensures ahead { lexer.new.ahead ≡ after_line lexer.old.ahead }
    ensures gives { Gives (λ n. (n, lexer.new.ahead)) result
        (line (counted name.now) (length (text_lines lexer.old.bytes)) lexer.old.ahead) }
    ensures kind { IfErr result IsOfText }
    ensures memory { result ≢ Err TextRefusal.OutOfMemory }
{
    due_line(lexer)?;
    fixed_word(lexer, name)?;
    let n = number_word(lexer)?;
    end_of_line(lexer)?;
    Ok(n)
}

/// A line of the name and a number up to a limit.
#[tactic(auto, unfolding(crate::specs::Forms::line, crate::specs::Forms::counted_within))]
pub fn limited_line(
    lexer: &mut Lexer<'_>,
    name: &[u8],
    what: Counted,
    most: u32,
) -> Result<u32, TextRefusal>
    ensures bytes { lexer.new.bytes ≡ lexer.old.bytes }
    ensures ahead { lexer.new.ahead ≡ after_line lexer.old.ahead }
    ensures gives { Gives (λ n. (n, lexer.new.ahead)) result
        (line (counted_within name.now what most) (length (text_lines lexer.old.bytes)) lexer.old.ahead) }
    ensures kind { what ≢ Counted.Bytes → IfErr result IsOfText }
    ensures memory { result ≢ Err TextRefusal.OutOfMemory }
{
    due_line(lexer)?;
    fixed_word(lexer, name)?;
    let n = limited_number(lexer, what, most)?;
    end_of_line(lexer)?;
    Ok(n)
}

/// A line of the name alone.
#[tactic(auto, unfolding(crate::specs::Forms::line))]
pub fn alone_line(lexer: &mut Lexer<'_>, name: &[u8]) -> Result<(), TextRefusal>
    ensures bytes { lexer.new.bytes ≡ lexer.old.bytes }
    ensures ahead { lexer.new.ahead ≡ after_line lexer.old.ahead }
    ensures gives { Gives (λ _. (tt, lexer.new.ahead)) result
        (line (fixed name.now) (length (text_lines lexer.old.bytes)) lexer.old.ahead) }
    ensures kind { IfErr result IsOfText }
    ensures memory { result ≢ Err TextRefusal.OutOfMemory }
{
    due_line(lexer)?;
    fixed_word(lexer, name)?;
    end_of_line(lexer)?;
    Ok(())
}
