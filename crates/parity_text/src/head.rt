//! The lines before a problem: the version, and the field.

ghost use Rattle.std.specs.Prelude.{◌≡◌, ◌≢◌, ◌==◌, length, IfErr, Err, false, true, MatchOption};
ghost use Rattle.std.specs.List.{list_any};
ghost use Rattle.line_lexer.specs.Lines.{lines as text_lines};
ghost use Rattle.line_lexer.specs.Calls.{SameLine};
ghost use Rattle.parity_text.specs.Texts.{order, field, head};
ghost use Rattle.small_fields.specs.FieldName.{field_orders, order_of};
ghost use Rattle.text_forms.specs.Forms.{line};
ghost use Rattle.text_forms.specs.Gives.{Gives, IsOfText};
ghost use Rattle.text_forms.specs.Taken.{after_line};

use line_lexer::{Lexer, TextFault, TextRefusal};
use small_fields::FieldName;
use text_forms::{due_line, end_of_line, fixed_word, number_word, version_line};

/// The field of this order, if there is one.
fn field_of(order: u32) -> Option<FieldName>
    ensures { MatchOption result (list_any (λ q. order == q) field_orders ≡ false)
        (λ name. (order_of name ≡ order) × (list_any (λ q. order == q) field_orders ≡ true)) }
{
    match u16::try_from(order) {
        Ok(order) => FieldName::of(order),
        Err(_) => None,
    }
}

/// The order of one of the five fields. `Field` says that it is another number.
#[tactic(auto, unfolding(crate::specs::Texts::order))]
fn order_word(lexer: &mut Lexer<'_>) -> Result<FieldName, TextRefusal>
    ensures same { SameLine lexer.old lexer.new }
    ensures gives { Gives (λ name. (order_of name, lexer.new.words)) result (order lexer.old.line lexer.old.words) }
    ensures kind { IfErr result IsOfText }
    ensures memory { result ≢ Err TextRefusal.OutOfMemory }
{
    let n = number_word(lexer)?;
    match field_of(n) {
        Some(name) => Ok(name),
        None => Err(TextRefusal::Bad {
            line: lexer.line(),
            kind: TextFault::Field,
        }),
    }
}

/// A line of the field.
#[tactic(auto, unfolding(crate::specs::Texts::field, text_forms::specs::Forms::line))]
fn field_line(lexer: &mut Lexer<'_>) -> Result<FieldName, TextRefusal>
    ensures bytes { lexer.new.bytes ≡ lexer.old.bytes }
    ensures ahead { lexer.new.ahead ≡ after_line lexer.old.ahead }
    ensures gives { Gives (λ name. (order_of name, lexer.new.ahead)) result
        (line field (length (text_lines lexer.old.bytes)) lexer.old.ahead) }
    ensures kind { IfErr result IsOfText }
    ensures memory { result ≢ Err TextRefusal.OutOfMemory }
{
    due_line(lexer)?;
    fixed_word(lexer, b"field")?;
    let name = order_word(lexer)?;
    end_of_line(lexer)?;
    Ok(name)
}

/// The version line and the field's line. `Field` says that no field here has the order.
#[tactic(auto, unfolding(crate::specs::Texts::head))]
pub fn read_head(lexer: &mut Lexer<'_>) -> Result<FieldName, TextRefusal>
    ensures bytes { lexer.new.bytes ≡ lexer.old.bytes }
    ensures gives { Gives (λ name. (order_of name, lexer.new.ahead)) result
        (head (length (text_lines lexer.old.bytes)) lexer.old.ahead) }
    ensures kind { IfErr result IsOfText }
    ensures memory { result ≢ Err TextRefusal.OutOfMemory }
{
    version_line(lexer, b"parity")?;
    field_line(lexer)
}
