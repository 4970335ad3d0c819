//! Words and lines, as they are written: one space between words, and a newline at the end of a line. After want of
//! memory some front of the text stands behind what was there.

ghost use Rattle.std.specs.Prelude.{◌∷◌};
ghost use Rattle.std.specs.Fmt.{decimal};
ghost use Rattle.line_lexer.specs.Words.{line_text};
ghost use Rattle.text_forms.specs.Spelling.{counted_words};
ghost use Rattle.text_forms.specs.Writes.{Writes};

use itoa::Buffer;
use std::alloc::AllocError;

/// Puts a text last.
pub fn put(out: &mut Vec<u8>, text: &[u8]) -> Result<(), AllocError>
    ensures { Writes out.old.items out.new.items text.now result }
{
    out.extend_from_slice(text)
}

/// Puts the decimal of a number last.
pub fn put_decimal(out: &mut Vec<u8>, n: u128) -> Result<(), AllocError>
    ensures { Writes out.old.items out.new.items (decimal n) result }
{
    let mut buffer = Buffer::new();
    put(out, buffer.format(n).as_bytes())
}

/// Puts a space and a number last.
pub fn put_number(out: &mut Vec<u8>, n: u128) -> Result<(), AllocError>
    ensures { Writes out.old.items out.new.items (32 ∷ decimal n) result }
{
    put(out, b" ")?;
    put_decimal(out, n)
}

/// Puts a line of a name and a number last.
pub fn put_count(out: &mut Vec<u8>, name: &[u8], n: usize) -> Result<(), AllocError>
    ensures { Writes out.old.items out.new.items (line_text (counted_words name.now n)) result }
{
    put(out, name)?;
    put_number(out, n as u128)?;
    put(out, b"\n")
}
