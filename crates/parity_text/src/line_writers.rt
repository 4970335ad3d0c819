//! Lines of vectors and of positions, as they are written.

ghost use Rattle.std.specs.Prelude.{◌∷◌, ◌+◌, map, codes};
ghost use Rattle.std.specs.Fmt.{decimal};
ghost use Rattle.std.specs.List.{flat_map};
ghost use Rattle.line_lexer.specs.Words.{line_text};
ghost use Rattle.parity_text.specs.Spelled.{position_words, pair_words};
ghost use Rattle.text_forms.specs.Writes.{Writes};

use field_core::Field;
use parity_lines::LineSet;
use std::alloc::AllocError;
use text_forms::{put, put_number};

/// Puts the numbers of the elements last, each behind a space.
pub fn put_elements<F: Field>(out: &mut Vec<u8>, v: &[F]) -> Result<(), AllocError>
    ensures { Writes out.old.items out.new.items (flat_map (λ w. 32 ∷ w) (map decimal (map F.number v.now))) result }
{
    for x in v {
        put_number(out, u128::from(x.number()))?;
    }
    Ok(())
}

/// Puts the positions last, each behind a space. They count from 1 in a text.
fn put_positions(out: &mut Vec<u8>, set: &LineSet) -> Result<(), AllocError>
    ensures { Writes out.old.items out.new.items (flat_map (λ w. 32 ∷ w) (position_words set.now)) result }
{
    for i in 0..set.len() {
        put_number(out, set.at(i) as u128 + 1)?;
    }
    Ok(())
}

/// Puts a line of a name and positions last.
pub fn put_listed(out: &mut Vec<u8>, name: &[u8], set: &LineSet) -> Result<(), AllocError>
    ensures { Writes out.old.items out.new.items (line_text (name.now ∷ position_words set.now)) result }
{
    put(out, name)?;
    put_positions(out, set)?;
    put(out, b"\n")
}

/// Puts a line of a kernel's vector last.
pub fn put_vector<F: Field>(out: &mut Vec<u8>, v: &[F]) -> Result<(), AllocError>
    ensures { Writes out.old.items out.new.items (line_text (codes "vector" ∷ map decimal (map F.number v.now))) result }
{
    put(out, b"vector")?;
    put_elements(out, v)?;
    put(out, b"\n")
}

/// Puts a line of a problem last.
pub fn put_pair<F: Field>(out: &mut Vec<u8>, first: &[F], second: &[F]) -> Result<(), AllocError>
    ensures { Writes out.old.items out.new.items (line_text (pair_words (map F.number first.now, map F.number second.now))) result }
{
    put(out, b"line")?;
    put_elements(out, first)?;
    put(out, b" |")?;
    put_elements(out, second)?;
    put(out, b"\n")
}
