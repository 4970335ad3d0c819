//! The values of texts.

ghost use Rattle.std.specs.Prelude.{◌<◌, All, IfSome, length};
ghost use Rattle.parity_text.specs.Shown.{answer_value};
ghost use Rattle.parity_text.specs.Values.{IsAnswerTo};

use field_core::Field;
use line_lexer::Lexer;
use parity_lines::{Answer, LineSet, Problem};
use parity_text::{read_answer, read_head, read_problem, read_set};
use std::alloc::Global;

/// The problem over the field of a text without a head.
pub fn lines_of<F: Field>(alloc: Global, text: &str) -> Option<Problem<F>> {
    if text.len() > 4_194_304 {
        return None;
    }
    read_problem(alloc, &mut Lexer::new(text.as_bytes())).ok()
}

/// The problem of a text, whose head names the field.
pub fn problem_of<F: Field>(alloc: Global, text: &str) -> Option<Problem<F>> {
    if text.len() > 4_194_304 {
        return None;
    }
    let mut lexer = Lexer::new(text.as_bytes());
    let field = read_head(&mut lexer).ok()?;
    if field.order() != F::ORDER {
        return None;
    }
    read_problem(alloc, &mut lexer).ok()
}

/// The answer to the problem of a text.
pub fn answer_of<F: Field>(alloc: Global, problem: &Problem<F>, text: &str) -> Option<Answer<F>>
    ensures { IfSome result (λ a. IsAnswerTo F.scalars problem.now (answer_value a)) }
{
    if text.len() > 4_194_304 {
        return None;
    }
    let mut lexer = Lexer::new(text.as_bytes());
    let read = read_answer(alloc, &mut lexer, problem);
    match read {
        Ok(answer) => Some(answer),
        Err(_) => None,
    }
}

/// The lines of the problem that a text chooses.
pub fn choice_of<F: Field>(alloc: Global, problem: &Problem<F>, text: &str) -> Option<LineSet>
    ensures { IfSome result (λ set. All (λ m. m < length problem.now.lines) set) }
{
    if text.len() > 4_194_304 {
        return None;
    }
    let mut lexer = Lexer::new(text.as_bytes());
    let read = read_set(alloc, &mut lexer, problem.len());
    match read {
        Ok(set) => Some(set),
        Err(_) => None,
    }
}
