//! Largest sets, by augmentation.

ghost use Rattle.std.specs.Prelude.{All, IfOk};
ghost use Rattle.augment.specs.Steps.{TellsNext, TellsStep};
ghost use Rattle.parity_lines.specs.LineSets.{IsIndependentSet};
ghost use Rattle.search.specs.Found.{IsAsLargeAs, MakesGoodAnswer};

use crate::Step;
use crate::ordering::in_order;
use crate::recursion::{Way, step_by_meeting};
use crate::searching::add_all;
use families::Family;
use field_core::Field;
use matching_state::Matched;
use parity_lines::{Answer, Certificate, LineSet, Maximizer, Problem};
use search::{Found, greedy_state, lines_below, search};
use std::alloc::{AllocError, Global};

/// The state of a set of one line more, or a certificate that makes a good answer with the set.
#[derive(Drop)]
enum Next<'a, F: Field> {
    Larger(Matched<'a, F>),
    Best(Certificate<F>),
}

/// Augments a greedy set until a certificate comes.
#[derive(Clone, Copy, Drop)]
pub struct Solver;

/// A step from the set, beside which others of its size are known.
fn step_beside<F: Field>(
    alloc: Global,
    problem: &Problem<F>,
    set: &LineSet,
    others: &[LineSet],
) -> Result<Step<F>, AllocError>
    requires set { IsIndependentSet F.scalars problem.now set.now }
    requires others { All (IsAsLargeAs F.scalars problem.now set.now) others.now }
    ensures { IfOk result (TellsStep F.scalars problem.now set.now) }
{
    let mut family = Family::new(alloc, problem, set)?;
    add_all(&mut family, others)?;
    step_by_meeting(&mut family, Way::Searching)
}

/// The state of a set of one line more than the one that is held, or a certificate for this one.
fn next_state<'a, F: Field>(state: Matched<'a, F>) -> Result<Next<'a, F>, AllocError>
    ensures { IfOk result (TellsNext F.scalars state.entry.problem state.entry.set) }
{
    let (alloc, problem) = (state.alloc(), state.problem());
    let set = state.set().copied()?;
    match search(state)? {
        Found::Larger(larger) => Ok(Next::Larger(larger)),
        Found::Best(certificate) => Ok(Next::Best(certificate)),
        Found::Sets(sets) => match step_beside(alloc, problem, &set, &sets)? {
            Step::Larger(larger) => Ok(Next::Larger(Matched::started(alloc, problem, &larger)?)),
            Step::Best(certificate) => Ok(Next::Best(certificate)),
        },
    }
}

/// Augments the set that is held until a certificate comes.
fn grown<F: Field>(mut state: Matched<'_, F>) -> Result<Answer<F>, AllocError>
    ensures { IfOk result (λ answer. MakesGoodAnswer F.scalars state.entry.problem answer.set answer.certificate) }
{
    let _lines = state.problem().len();
    'steps: loop {
        let set = state.set().copied()?;
        match next_state(state)? {
            Next::Larger(larger) => state = larger,
            Next::Best(certificate) => return Ok(Answer { set, certificate }),
        }
    }
}

impl Maximizer for Solver {
    fn largest<F: Field>(
        &self,
        alloc: Global,
        problem: &Problem<F>,
    ) -> Result<Answer<F>, AllocError> {
        let lines = lines_below(alloc, problem.len())?;
        let answer = grown(greedy_state(alloc, problem, &lines)?)?;
        let certificate = answer.certificate;
        let parts = in_order(alloc, &certificate.parts)?;
        Ok(Answer {
            set: answer.set,
            certificate: Certificate {
                kernel: certificate.kernel,
                parts,
            },
        })
    }
}
