//! The reply of a list of pairs. After want of memory some front of the text stands behind what was there.

ghost use Rattle.std.specs.Prelude.{map};
ghost use Rattle.forest_pairs_front.specs.Spelled.{pair_words, pairs_lines};
ghost use Rattle.line_lexer.specs.Words.{line_text, spelled};
ghost use Rattle.text_forms.specs.Writes.{Writes};

use parity_lines::LineSet;
use std::alloc::AllocError;
use text_forms::{put, put_count, put_number};

/// Writes pairs behind what is there, each with its two edges, by increasing number.
pub fn write_pairs(out: &mut Vec<u8>, set: &LineSet) -> Result<(), AllocError>
    ensures { Writes out.old.items out.new.items (spelled (pairs_lines set.now)) result }
{
    put_count(out, b"pairs", 1)?;
    put_count(out, b"size", set.len())?;
    put_pairs(out, set)?;
    put(out, b"end\n")
}

/// Puts the lines of the pairs last.
fn put_pairs(out: &mut Vec<u8>, set: &LineSet) -> Result<(), AllocError>
    ensures { Writes out.old.items out.new.items (spelled (map pair_words set.now)) result }
{
    for i in 0..set.len() {
        put_pair(out, set.at(i))?;
    }
    Ok(())
}

/// Puts the line of a pair last: its number and those of its edges, which all count from 1.
fn put_pair(out: &mut Vec<u8>, pair: usize) -> Result<(), AllocError>
    ensures { Writes out.old.items out.new.items (line_text (pair_words pair)) result }
{
    let pair = pair as u128;
    put(out, b"pair")?;
    put_number(out, pair + 1)?;
    put_number(out, 2 * pair + 1)?;
    put_number(out, 2 * pair + 2)?;
    put(out, b"\n")
}
