//! The classes as the parts of a certificate, or one that is too large for a set.

ghost use Rattle.std.specs.Prelude.{◌≡◌, ◌<◌, ◌+◌, ◌≤◌, ◌↔◌, [], All, IfOk, IsTrue, length};
ghost use Rattle.class_theory.proofs.Classes.{count_in};
ghost use Rattle.linear_algebra.specs.Ranks.{rank_over as rank_added};
ghost use Rattle.parity_lines.specs.LineSets.{IsIndependentSet};
ghost use Rattle.parity_lines.specs.Problems.{vectors_at};
ghost use Rattle.parity_theory.proofs.Parts.{has};
ghost use Rattle.classes.specs.Divisions.{AreLeast, TellsDivision, class_list};

use field_core::{Field, Rows};
use parity_lines::{LineSet, Parts, Problem, rank_over};
use std::alloc::{AllocError, Global};

/// The classes as parts, or one of them.
#[derive(Drop)]
pub enum Division {
    /// No class is too large.
    Parts(Parts),
    /// The class of this label has rank two or more above twice the lines that the set has in it.
    Large { label: usize, class: LineSet },
}

/// The lines with a label.
fn class_of(alloc: Global, labels: &[usize], label: usize) -> Result<LineSet, AllocError>
    ensures { IfOk result (λ class. class ≡ class_list labels.now label) }
{
    let mut class = LineSet::new(alloc);
    for (line, own) in labels.iter().enumerate() {
        if *own == label {
            class.push(line)?;
        }
    }
    Ok(class)
}

/// How many lines of the set the class has.
fn lines_in(class: &LineSet, set: &LineSet) -> usize
    ensures { result ≡ count_in (has class.now) set.now }
{
    let mut count = 0;
    for i in 0..set.len() {
        if class.holds(set.at(i)) {
            count += 1;
        }
    }
    count
}

/// Tells whether the rank of the class is two or more above twice the lines that the set has in it.
fn is_large<F: Field>(
    alloc: Global,
    problem: &Problem<F>,
    class: &LineSet,
    set: &LineSet,
) -> Result<bool, AllocError>
    requires { All (λ m. m < length problem.now.lines) class.now }
    ensures { IfOk result (λ large. IsTrue large ↔ (count_in (has class.now) set.now + count_in (has class.now) set.now + 2
        ≤ rank_added F.scalars problem.now.dimension [] (vectors_at problem.now class.now))) }
{
    let kernel = Rows::new(alloc, problem.dimension());
    let rank = rank_over(alloc, problem, &kernel, class)?;
    Ok(rank / 2 > lines_in(class, set))
}

/// The classes of these labels as parts, where none is too large for the set.
pub fn division_of<F: Field>(
    alloc: Global,
    problem: &Problem<F>,
    labels: &[usize],
    set: &LineSet,
) -> Result<Division, AllocError>
    requires labels { AreLeast (length problem.now.lines) labels.now }
    requires set { IsIndependentSet F.scalars problem.now set.now }
    ensures { IfOk result (TellsDivision F.scalars problem.now labels.now set.now) }
{
    let _lines = problem.len();
    let mut parts = Parts::new(alloc);
    for (line, label) in labels.iter().enumerate() {
        if *label == line {
            let class = class_of(alloc, labels, line)?;
            if is_large(alloc, problem, &class, set)? {
                return Ok(Division::Large { label: line, class });
            }
            if parts.push(class).is_err() {
                return Err(AllocError);
            }
        }
    }
    let _parts = parts.len();
    Ok(Division::Parts(parts))
}
