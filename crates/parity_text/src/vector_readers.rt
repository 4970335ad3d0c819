//! Vectors in a text, by their entries.

ghost use Rattle.std.specs.Prelude.{◌≡◌, ◌≢◌, length, map, IfOk, IfErr, Err};
ghost use Rattle.line_lexer.specs.Calls.{SameLine};
ghost use Rattle.parity_text.specs.Texts.{vector};
ghost use Rattle.text_forms.specs.Gives.{Gives, IsOfText};
ghost use Rattle.text_forms.specs.Places.{entry};

use field_core::Field;
use line_lexer::{Lexer, TextRefusal};
use std::alloc::Global;
use text_forms::entry_word;

/// An element of the field, by its number. `Range` says that the field has none of it.
fn element_word<F: Field>(lexer: &mut Lexer<'_>) -> Result<F, TextRefusal>
    ensures same { SameLine lexer.old lexer.new }
    ensures gives { Gives (λ x. (F.number x, lexer.new.words)) result (entry F.scalars.order lexer.old.line lexer.old.words) }
    ensures kind { IfErr result IsOfText }
    ensures memory { result ≢ Err TextRefusal.OutOfMemory }
{
    let n = entry_word(lexer, u32::from(F::ORDER))?;
    Ok(F::from_number(n as u16).unwrap())
}

/// So many elements of the field.
pub fn vector_words<F: Field>(
    alloc: Global,
    lexer: &mut Lexer<'_>,
    count: usize,
) -> Result<Vec<F>, TextRefusal>
    ensures same { SameLine lexer.old lexer.new }
    ensures gives { Gives (λ v. (map F.number v.items, lexer.new.words)) result
        (vector F.scalars.order count lexer.old.line lexer.old.words) }
    ensures long { IfOk result (λ v. length v.items ≡ count) }
    ensures kind { IfErr result IsOfText }
{
    let mut entries = Vec::new(alloc);
    for i in 0..count {
        let x: F = element_word(lexer)?;
        entries.push(x)?;
    }
    Ok(entries)
}
