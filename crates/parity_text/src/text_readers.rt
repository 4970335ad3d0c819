//! Problems, answers and choices, from their texts.

ghost use Rattle.std.specs.Prelude.{◌≡◌, length, IfErr};
ghost use Rattle.line_lexer.specs.Lines.{lines as text_lines};
ghost use Rattle.parity_text.specs.Shown.{answer_value};
ghost use Rattle.parity_text.specs.Texts.{problem, sized_set, answer, choice};
ghost use Rattle.text_forms.specs.Gives.{Gives, IsOfText};

use crate::line_readers::{kernel_lines, pair_lines, part_lines, set_line};
use field_core::Field;
use line_lexer::{Counted, Lexer, TextRefusal};
use parity_lines::{Answer, Certificate, LineSet, Problem};
use std::alloc::Global;
use text_forms::{alone_line, counted_line, limited_line, version_line};

/// The greatest dimension of a problem.
const MOST_DIMENSION: u32 = 128;

/// How many lines a problem has at most.
const MOST_LINES: u32 = 2048;

/// How many vectors a kernel has at most.
const MOST_KERNEL: u32 = 128;

/// How many parts an answer has at most.
const MOST_PARTS: u32 = 2048;

/// A problem over the field: its dimension, and its lines. `Limit` says that the dimension is above 128, or that there
/// are more than 2048 lines.
#[tactic(auto, unfolding(crate::specs::Texts::problem))]
pub fn read_problem<F: Field>(
    alloc: Global,
    lexer: &mut Lexer<'_>,
) -> Result<Problem<F>, TextRefusal>
    ensures bytes { lexer.new.bytes ≡ lexer.old.bytes }
    ensures gives { Gives (λ p. (p, lexer.new.ahead)) result
        (problem F.scalars.order (length (text_lines lexer.old.bytes)) lexer.old.ahead) }
    ensures kind { IfErr result IsOfText }
{
    let dimension = limited_line(lexer, b"dimension", Counted::Dimension, MOST_DIMENSION)?;
    let count = limited_line(lexer, b"lines", Counted::Lines, MOST_LINES)?;
    let problem = pair_lines(alloc, lexer, dimension as usize, count)?;
    Ok(problem)
}

/// The size of a set and its positions.
#[tactic(auto, unfolding(crate::specs::Texts::sized_set))]
fn sized_set(alloc: Global, lexer: &mut Lexer<'_>, lines: usize) -> Result<LineSet, TextRefusal>
    ensures bytes { lexer.new.bytes ≡ lexer.old.bytes }
    ensures gives { Gives (λ set. (set, lexer.new.ahead)) result
        (sized_set lines (length (text_lines lexer.old.bytes)) lexer.old.ahead) }
    ensures kind { IfErr result IsOfText }
{
    let size = counted_line(lexer, b"size")?;
    set_line(alloc, lexer, size, lines)
}

/// An answer to the problem: a set of its lines, a kernel and parts. `Limit` says that the kernel has more than 128
/// vectors, or that there are more than 2048 parts.
#[tactic(auto, unfolding(crate::specs::Texts::answer))]
pub fn read_answer<F: Field>(
    alloc: Global,
    lexer: &mut Lexer<'_>,
    problem: &Problem<F>,
) -> Result<Answer<F>, TextRefusal>
    ensures bytes { lexer.new.bytes ≡ lexer.old.bytes }
    ensures gives { Gives (λ a. (answer_value a, lexer.new.ahead)) result
        (answer F.scalars.order problem.now.dimension (length problem.now.lines) (length (text_lines lexer.old.bytes)) lexer.old.ahead) }
    ensures kind { IfErr result IsOfText }
{
    version_line(lexer, b"answer")?;
    let set = sized_set(alloc, lexer, problem.len())?;
    let vectors = limited_line(lexer, b"kernel", Counted::Kernel, MOST_KERNEL)?;
    let kernel = kernel_lines(alloc, lexer, problem.dimension(), vectors)?;
    let count = limited_line(lexer, b"parts", Counted::Parts, MOST_PARTS)?;
    let parts = part_lines(alloc, lexer, count, problem.len())?;
    alone_line(lexer, b"end")?;
    Ok(Answer {
        set,
        certificate: Certificate { kernel, parts },
    })
}

/// A choice of lines, which are known by their positions below `lines`.
#[tactic(auto, unfolding(crate::specs::Texts::choice))]
pub fn read_set(alloc: Global, lexer: &mut Lexer<'_>, lines: usize) -> Result<LineSet, TextRefusal>
    ensures bytes { lexer.new.bytes ≡ lexer.old.bytes }
    ensures gives { Gives (λ set. (set, lexer.new.ahead)) result
        (choice lines (length (text_lines lexer.old.bytes)) lexer.old.ahead) }
    ensures kind { IfErr result IsOfText }
{
    version_line(lexer, b"choice")?;
    let set = sized_set(alloc, lexer, lines)?;
    alone_line(lexer, b"end")?;
    Ok(set)
}
