ghost use Rattle.std.specs.Prelude.{◌≡◌, ◌≤◌, length};
ghost use Rattle.line_lexer.specs.Lines.{lines};
ghost use Rattle.line_lexer.specs.Seen.{most_bytes};

use crate::scan::line_end;

/// How many lines a text has.
pub fn line_count(text: &[u8]) -> u32
    requires { length text.now ≤ most_bytes }
    ensures value { result ≡ length (lines text.now) }
    ensures few { result ≤ length text.now }
{
    let mut at = 0;
    let mut count: u32 = 0;
    while at < text.len() {
        let len = line_end(&text[at..]);
        at = (at + len + 1).min(text.len());
        count += 1;
    }
    count
}
