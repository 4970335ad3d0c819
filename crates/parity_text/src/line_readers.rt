//! Lines that are written one after the other: those of a problem, of a kernel and of parts.

ghost use Rattle.std.specs.Prelude.{◌≡◌, ◌≢◌, [], length, map, IfOk, IfErr};
ghost use Rattle.line_lexer.specs.Lines.{lines as text_lines};
ghost use Rattle.parity_text.specs.Texts.{pair, kernel_vector, listed_set, part};
ghost use Rattle.text_forms.specs.Forms.{line};
ghost use Rattle.text_forms.specs.Gives.{Gives, IsOfText};
ghost use Rattle.text_forms.specs.Places.{times};
ghost use Rattle.text_forms.specs.Taken.{after_line};

use crate::position_readers::{position_words, some_position_words};
use crate::vector_readers::vector_words;
use field_core::{Field, Rows};
use line_lexer::{Lexer, TextRefusal};
use parity_lines::{LineSet, Parts, Problem};
use std::alloc::Global;
use text_forms::{due_line, end_of_line, fixed_word};

/// The two vectors of a line.
#[derive(Drop)]
struct Pair<F: Field> {
    first: Vec<F>,
    second: Vec<F>,
}

/// A line of a problem, of two vectors.
#[tactic(auto, unfolding(text_forms::specs::Forms::line, crate::specs::Texts::pair))]
fn pair_line<F: Field>(
    alloc: Global,
    lexer: &mut Lexer<'_>,
    dimension: usize,
) -> Result<Pair<F>, TextRefusal>
    ensures bytes { lexer.new.bytes ≡ lexer.old.bytes }
    ensures ahead { lexer.new.ahead ≡ after_line lexer.old.ahead }
    ensures gives { Gives (λ p. ((map F.number p.first.items, map F.number p.second.items), lexer.new.ahead)) result
        (line (pair F.scalars.order dimension) (length (text_lines lexer.old.bytes)) lexer.old.ahead) }
    ensures first_long { IfOk result (λ p. length p.first.items ≡ dimension) }
    ensures second_long { IfOk result (λ p. length p.second.items ≡ dimension) }
    ensures kind { IfErr result IsOfText }
{
    due_line(lexer)?;
    fixed_word(lexer, b"line")?;
    let first = vector_words(alloc, lexer, dimension)?;
    fixed_word(lexer, b"|")?;
    let second = vector_words(alloc, lexer, dimension)?;
    end_of_line(lexer)?;
    Ok(Pair { first, second })
}

/// So many lines of a problem.
pub fn pair_lines<F: Field>(
    alloc: Global,
    lexer: &mut Lexer<'_>,
    dimension: usize,
    count: u32,
) -> Result<Problem<F>, TextRefusal>
    ensures bytes { lexer.new.bytes ≡ lexer.old.bytes }
    ensures gives { Gives (λ p. (p.lines, lexer.new.ahead)) result
        (times count (line (pair F.scalars.order dimension)) (length (text_lines lexer.old.bytes)) lexer.old.ahead) }
    ensures dimension { IfOk result (λ p. p.dimension ≡ dimension) }
    ensures kind { IfErr result IsOfText }
{
    let mut problem = Problem::new(alloc, dimension);
    for i in 0..count {
        let pair: Pair<F> = pair_line(alloc, lexer, dimension)?;
        problem.push(&pair.first, &pair.second)?;
    }
    Ok(problem)
}

/// A line of a kernel, of one vector.
#[tactic(auto, unfolding(text_forms::specs::Forms::line, crate::specs::Texts::kernel_vector))]
fn kernel_line<F: Field>(
    alloc: Global,
    lexer: &mut Lexer<'_>,
    width: usize,
) -> Result<Vec<F>, TextRefusal>
    ensures bytes { lexer.new.bytes ≡ lexer.old.bytes }
    ensures ahead { lexer.new.ahead ≡ after_line lexer.old.ahead }
    ensures gives { Gives (λ v. (map F.number v.items, lexer.new.ahead)) result
        (line (kernel_vector F.scalars.order width) (length (text_lines lexer.old.bytes)) lexer.old.ahead) }
    ensures long { IfOk result (λ v. length v.items ≡ width) }
    ensures kind { IfErr result IsOfText }
{
    due_line(lexer)?;
    fixed_word(lexer, b"vector")?;
    let v = vector_words(alloc, lexer, width)?;
    end_of_line(lexer)?;
    Ok(v)
}

/// So many lines of a kernel.
pub fn kernel_lines<F: Field>(
    alloc: Global,
    lexer: &mut Lexer<'_>,
    width: usize,
    count: u32,
) -> Result<Rows<F>, TextRefusal>
    ensures bytes { lexer.new.bytes ≡ lexer.old.bytes }
    ensures gives { Gives (λ kernel. (kernel.rows, lexer.new.ahead)) result
        (times count (line (kernel_vector F.scalars.order width)) (length (text_lines lexer.old.bytes)) lexer.old.ahead) }
    ensures width { IfOk result (λ kernel. kernel.width ≡ width) }
    ensures kind { IfErr result IsOfText }
{
    let mut kernel = Rows::new(alloc, width);
    for i in 0..count {
        let v: Vec<F> = kernel_line(alloc, lexer, width)?;
        kernel.push(&v)?;
    }
    Ok(kernel)
}

/// A line of a set, of so many positions.
#[tactic(auto, unfolding(text_forms::specs::Forms::line, crate::specs::Texts::listed_set))]
pub fn set_line(
    alloc: Global,
    lexer: &mut Lexer<'_>,
    count: u32,
    lines: usize,
) -> Result<LineSet, TextRefusal>
    ensures bytes { lexer.new.bytes ≡ lexer.old.bytes }
    ensures ahead { lexer.new.ahead ≡ after_line lexer.old.ahead }
    ensures gives { Gives (λ set. (set, lexer.new.ahead)) result
        (line (listed_set lines count) (length (text_lines lexer.old.bytes)) lexer.old.ahead) }
    ensures kind { IfErr result IsOfText }
{
    due_line(lexer)?;
    fixed_word(lexer, b"set")?;
    let set = position_words(alloc, lexer, count, lines)?;
    end_of_line(lexer)?;
    Ok(set)
}

/// A line of a part, of one position or more.
#[tactic(auto, unfolding(text_forms::specs::Forms::line, crate::specs::Texts::part))]
fn part_line(alloc: Global, lexer: &mut Lexer<'_>, lines: usize) -> Result<LineSet, TextRefusal>
    ensures bytes { lexer.new.bytes ≡ lexer.old.bytes }
    ensures ahead { lexer.new.ahead ≡ after_line lexer.old.ahead }
    ensures gives { Gives (λ part. (part, lexer.new.ahead)) result
        (line (part lines) (length (text_lines lexer.old.bytes)) lexer.old.ahead) }
    ensures some { IfOk result (λ part. part ≢ []) }
    ensures kind { IfErr result IsOfText }
{
    due_line(lexer)?;
    fixed_word(lexer, b"part")?;
    let part = some_position_words(alloc, lexer, lines)?;
    end_of_line(lexer)?;
    Ok(part)
}

/// So many lines of parts.
pub fn part_lines(
    alloc: Global,
    lexer: &mut Lexer<'_>,
    count: u32,
    lines: usize,
) -> Result<Parts, TextRefusal>
    ensures bytes { lexer.new.bytes ≡ lexer.old.bytes }
    ensures gives { Gives (λ parts. (parts, lexer.new.ahead)) result
        (times count (line (part lines)) (length (text_lines lexer.old.bytes)) lexer.old.ahead) }
    ensures kind { IfErr result IsOfText }
{
    let mut parts = Parts::new(alloc);
    for i in 0..count {
        let part = part_line(alloc, lexer, lines)?;
        parts.push(part)?;
    }
    Ok(parts)
}
