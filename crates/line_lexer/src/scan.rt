ghost use Rattle.std.specs.Prelude.{◌≡◌, ◌≤◌, length, position};
ghost use Rattle.std.specs.List.{list_all, position_or_len};
ghost use Rattle.std.specs.Str.Lines.{strip_carriage_return};
ghost use Rattle.line_lexer.specs.Bytes.{is_newline, is_hash, is_word_byte, is_gap, is_allowed};

fn newline(text: &[u8]) -> Option<usize>
    ensures { result ≡ position is_newline text.now }
{
    text.iter().position(|b| *b == b'\n')
}

fn hash(text: &[u8]) -> Option<usize>
    ensures { result ≡ position is_hash text.now }
{
    text.iter().position(|b| *b == b'#')
}

fn word_byte(text: &[u8]) -> Option<usize>
    ensures { result ≡ position is_word_byte text.now }
{
    text.iter().position(|b| b.is_ascii_graphic())
}

fn gap(text: &[u8]) -> Option<usize>
    ensures { result ≡ position is_gap text.now }
{
    text.iter().position(|b| !b.is_ascii_graphic())
}

/// Where the first newline stands, or the length.
#[tactic(auto, using(crate::proofs::Positions::unwrap_or_position, crate::proofs::Positions::position_or_len_within))]
pub fn line_end(text: &[u8]) -> usize
    ensures value { result ≡ position_or_len is_newline text.now }
    ensures within { result ≤ length text.now }
{
    newline(text).unwrap_or(text.len())
}

/// A line without the carriage return at its end.
pub fn without_return(line: &[u8]) -> &[u8]
    ensures { result.now ≡ strip_carriage_return line.now }
{
    let n = line.len();
    if n > 0 && line[n - 1] == b'\r' {
        &line[..n - 1]
    } else {
        line
    }
}

/// Where the first hash stands, or the length.
#[tactic(auto, using(crate::proofs::Positions::unwrap_or_position, crate::proofs::Positions::position_or_len_within))]
pub fn comment_start(line: &[u8]) -> usize
    ensures value { result ≡ position_or_len is_hash line.now }
    ensures within { result ≤ length line.now }
{
    hash(line).unwrap_or(line.len())
}

/// Whether each byte may stand before a comment.
pub fn is_plain(text: &[u8]) -> bool
    ensures { result ≡ list_all is_allowed text.now }
{
    text.iter()
        .all(|b| *b == b' ' || *b == b'\t' || b.is_ascii_graphic())
}

/// Where the first word begins, or the length.
#[tactic(auto, using(crate::proofs::Positions::unwrap_or_position, crate::proofs::Positions::position_or_len_within))]
pub fn word_start(text: &[u8]) -> usize
    ensures value { result ≡ position_or_len is_word_byte text.now }
    ensures within { result ≤ length text.now }
{
    word_byte(text).unwrap_or(text.len())
}

/// Where a word at the front ends.
#[tactic(auto, using(crate::proofs::Positions::unwrap_or_position, crate::proofs::Positions::position_or_len_within))]
pub fn word_end(text: &[u8]) -> usize
    ensures value { result ≡ position_or_len is_gap text.now }
    ensures within { result ≤ length text.now }
{
    gap(text).unwrap_or(text.len())
}
