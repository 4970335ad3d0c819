ghost use Rattle.std.specs.Prelude.{◌≢◌, IfOk, IfErr, Err};
ghost use Rattle.line_lexer.specs.Calls.{IsToken, SameLine, text_at};
ghost use Rattle.text_forms.specs.Gives.{Gives, IsOfText};
ghost use Rattle.text_forms.specs.Places.{word, ended};

use line_lexer::{Lexer, TextFault, TextRefusal, Token};

/// The word that is due. `Count` says that the line has no more.
pub fn due_word(lexer: &mut Lexer<'_>) -> Result<Token, TextRefusal>
    ensures same { SameLine lexer.old lexer.new }
    ensures gives { Gives (λ t. (text_at lexer.old.bytes t, lexer.new.words)) result (word lexer.old.line lexer.old.words) }
    ensures token { IfOk result (λ t. IsToken lexer.old.line lexer.old.bytes t) }
    ensures kind { IfErr result IsOfText }
    ensures memory { result ≢ Err TextRefusal.OutOfMemory }
{
    match lexer.next_word() {
        Some(token) => Ok(token),
        None => Err(TextRefusal::Bad {
            line: lexer.line(),
            kind: TextFault::Count,
        }),
    }
}

/// The end of the line. `Count` says that a word is left over.
pub fn end_of_line(lexer: &mut Lexer<'_>) -> Result<(), TextRefusal>
    ensures same { SameLine lexer.old lexer.new }
    ensures gives { Gives (λ _. (tt, lexer.new.words)) result (ended lexer.old.line lexer.old.words) }
    ensures kind { IfErr result IsOfText }
    ensures memory { result ≢ Err TextRefusal.OutOfMemory }
{
    match lexer.next_word() {
        None => Ok(()),
        Some(token) => Err(TextRefusal::Bad {
            line: token.line,
            kind: TextFault::Count,
        }),
    }
}
