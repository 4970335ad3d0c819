ghost use Rattle.std.specs.Prelude.{◌≡◌, ◌+◌, ◌≤◌, ◌<◌, min, length, drop};
ghost use Rattle.std.specs.List.{position_or_len};
ghost use Rattle.line_lexer.specs.Bytes.{is_newline};
ghost use Rattle.line_lexer.specs.Lines.{lines};
ghost use Rattle.line_lexer.specs.FirstLine.{IsFirstLine};

use crate::scan::{comment_start, is_plain, line_end, without_return, word_start};

/// What the first line of a text is.
#[derive(Clone, Copy, Drop)]
pub enum FirstLine {
    /// It has a bad byte.
    Bad,
    /// It has no words.
    Passed,
    /// Its words stand between these places.
    Words { start: usize, end: usize },
}

/// The first line of a text, and where the next line begins.
#[tactic(auto, using(crate::proofs::FirstLine::lines_after_first))]
pub fn read_first_line(text: &[u8]) -> (FirstLine, usize)
    requires { 0 < length text.now }
    ensures next { result.1 ≡ min (position_or_len is_newline text.now + 1) (length text.now) }
    ensures line { IsFirstLine text.now result.1 result.0 }
    ensures count { length (lines text.now) ≡ 1 + length (lines (drop result.1 text.now)) }
{
    let len = line_end(text);
    let next = (len + 1).min(text.len());
    let line = without_return(&text[..len]);
    let end = comment_start(line);
    let content = &line[..end];
    if !is_plain(content) {
        return (FirstLine::Bad, next);
    }
    let start = word_start(content);
    if start < end {
        (FirstLine::Words { start, end }, next)
    } else {
        (FirstLine::Passed, next)
    }
}
