//! Writers of problems, answers and choices. After want of memory some front of the text stands behind what was there.

ghost use Rattle.std.specs.Prelude.{◌∷◌, map, codes};
ghost use Rattle.std.specs.Fmt.{decimal};
ghost use Rattle.line_lexer.specs.Words.{spelled};
ghost use Rattle.parity_text.specs.Shown.{answer_value};
ghost use Rattle.parity_text.specs.Spelled.{problem_lines, set_lines, answer_lines, choice_lines, pair_words, position_words};
ghost use Rattle.text_forms.specs.Writes.{Writes};

use crate::line_writers::{put_listed, put_pair, put_vector};
use field_core::{Field, Rows};
use parity_lines::{Answer, LineSet, Parts, Problem};
use std::alloc::AllocError;
use text_forms::{put, put_count};

/// Puts the lines of the problem last.
fn put_pairs<F: Field>(out: &mut Vec<u8>, problem: &Problem<F>) -> Result<(), AllocError>
    ensures { Writes out.old.items out.new.items (spelled (map pair_words problem.now.lines)) result }
{
    for i in 0..problem.len() {
        put_pair(out, problem.first(i), problem.second(i))?;
    }
    Ok(())
}

/// Writes a problem behind what is there.
pub fn write_problem<F: Field>(out: &mut Vec<u8>, problem: &Problem<F>) -> Result<(), AllocError>
    ensures { Writes out.old.items out.new.items (spelled (problem_lines F.scalars.order problem.now)) result }
{
    put_count(out, b"parity", 1)?;
    put_count(out, b"field", F::ORDER as usize)?;
    put_count(out, b"dimension", problem.dimension())?;
    put_count(out, b"lines", problem.len())?;
    put_pairs(out, problem)
}

/// Puts the size of a set and its positions last.
fn put_set(out: &mut Vec<u8>, set: &LineSet) -> Result<(), AllocError>
    ensures { Writes out.old.items out.new.items (spelled (set_lines set.now)) result }
{
    put_count(out, b"size", set.len())?;
    put_listed(out, b"set", set)
}

/// Puts the vectors of the kernel last.
fn put_vectors<F: Field>(out: &mut Vec<u8>, kernel: &Rows<F>) -> Result<(), AllocError>
    ensures { Writes out.old.items out.new.items (spelled (map (λ v. codes "vector" ∷ map decimal v) kernel.now.rows)) result }
{
    for i in 0..kernel.len() {
        put_vector(out, kernel.row(i))?;
    }
    Ok(())
}

/// Puts the lines of the parts last.
fn put_parts(out: &mut Vec<u8>, parts: &Parts) -> Result<(), AllocError>
    ensures { Writes out.old.items out.new.items (spelled (map (λ part. codes "part" ∷ position_words part) parts.now)) result }
{
    for i in 0..parts.len() {
        put_listed(out, b"part", parts.at(i))?;
    }
    Ok(())
}

/// Writes an answer behind what is there.
pub fn write_answer<F: Field>(out: &mut Vec<u8>, answer: &Answer<F>) -> Result<(), AllocError>
    ensures { Writes out.old.items out.new.items (spelled (answer_lines (answer_value answer.now))) result }
{
    put_count(out, b"answer", 1)?;
    put_set(out, &answer.set)?;
    put_count(out, b"kernel", answer.certificate.kernel.len())?;
    put_vectors(out, &answer.certificate.kernel)?;
    put_count(out, b"parts", answer.certificate.parts.len())?;
    put_parts(out, &answer.certificate.parts)?;
    put(out, b"end\n")
}

/// Writes a choice behind what is there.
pub fn write_set(out: &mut Vec<u8>, set: &LineSet) -> Result<(), AllocError>
    ensures { Writes out.old.items out.new.items (spelled (choice_lines set.now)) result }
{
    put_count(out, b"choice", 1)?;
    put_set(out, set)?;
    put(out, b"end\n")
}
