//! Certificates that are guessed, and accepted where their verdict is that they are good.

ghost use Rattle.std.specs.Prelude.{◌≡◌, ◌<◌, All, IfOk, IfSome, length};
ghost use Rattle.parity_lines.specs.LineSets.{IsIndependentSet};
ghost use Rattle.search.specs.Below.{ArePartsBelow};
ghost use Rattle.search.specs.Found.{MakesGoodAnswer};
ghost use Rattle.search.specs.Notes.{AreOf};
ghost use Rattle.search.specs.Walkers.{IsOf, IsReady};

use crate::greedy::{greedy_state, lines_below};
use crate::kernel::kernel_within;
use crate::labels::{Labels, push_part};
use crate::meeting::Meeting;
use crate::settling::settle;
use crate::walker::Walker;
use cert_check::{Verdict, verdict};
use echelon::{Echelon, Inserted, basis_of};
use field_core::{Field, Rows};
use parity_lines::{Answer, Certificate, LineSet, Parts, Problem};
use std::alloc::{AllocError, Global};

/// The certificate, where it makes a good answer with the set.
fn accepted<F: Field>(
    alloc: Global,
    problem: &Problem<F>,
    set: &LineSet,
    certificate: Certificate<F>,
) -> Result<Option<Certificate<F>>, AllocError>
    requires set { All (λ m. m < length problem.now.lines) set.now }
    requires parts { ArePartsBelow (length problem.now.lines) certificate.parts }
    requires width { certificate.kernel.width ≡ problem.now.dimension }
    ensures { IfOk result (λ found. IfSome found (MakesGoodAnswer F.scalars problem.now set.now)) }
{
    let answer = Answer {
        set: set.copied()?,
        certificate,
    };
    match verdict(alloc, problem, &answer)? {
        Verdict::Yes => Ok(Some(answer.certificate)),
        _ => Ok(None),
    }
}

/// Whether the vectors of all lines have a rank of at most `most`.
fn has_rank_within<F: Field>(
    alloc: Global,
    problem: &Problem<F>,
    most: usize,
) -> Result<bool, AllocError> {
    if most >= problem.dimension() {
        return Ok(true);
    }
    let mut basis = Echelon::new(alloc, problem.dimension())?;
    for line in 0..problem.len() {
        let _first: Inserted<F> = basis.insert(problem.first(line))?;
        let _second: Inserted<F> = basis.insert(problem.second(line))?;
        if basis.rank() > most {
            return Ok(false);
        }
    }
    Ok(true)
}

/// The certificate with an empty kernel and all lines in one part.
pub fn guess_one_part<F: Field>(
    alloc: Global,
    problem: &Problem<F>,
    set: &LineSet,
) -> Result<Option<Certificate<F>>, AllocError>
    requires { IsIndependentSet F.scalars problem.now set.now }
    ensures { IfOk result (λ found. IfSome found (MakesGoodAnswer F.scalars problem.now set.now)) }
{
    let most = set.len().saturating_mul(2).saturating_add(1);
    if !has_rank_within(alloc, problem, most)? {
        return Ok(None);
    }
    let mut parts = Parts::new(alloc);
    push_part(&mut parts, lines_below(alloc, problem.len())?)?;
    let kernel = Rows::new(alloc, problem.dimension());
    accepted(alloc, problem, set, Certificate { kernel, parts })
}

/// The certificate with an empty kernel and the classes that the walker's set shows.
pub fn guess_seen<F: Field>(
    problem: &Problem<F>,
    set: &LineSet,
    walker: &Walker<'_, F>,
) -> Result<Option<Certificate<F>>, AllocError>
    requires set { IsIndependentSet F.scalars problem.now set.now }
    requires walker { IsOf F.scalars problem.now set.now walker.now }
    ensures { IfOk result (λ found. IfSome found (MakesGoodAnswer F.scalars problem.now set.now)) }
{
    let alloc = walker.state.alloc();
    let parts = walker.parts(&walker.seen()?)?;
    let kernel = Rows::new(alloc, problem.dimension());
    accepted(alloc, problem, set, Certificate { kernel, parts })
}

/// The problem of the lines' residues modulo a subspace.
pub fn problem_of_residues<F: Field>(
    alloc: Global,
    problem: &Problem<F>,
    subspace: &Echelon<F>,
) -> Result<Problem<F>, AllocError>
    requires { subspace.now.width ≡ problem.now.dimension }
    ensures dimension { IfOk result (λ residues. residues.dimension ≡ problem.now.dimension) }
    ensures lines { IfOk result (λ residues. length residues.lines ≡ length problem.now.lines) }
{
    let mut residues = Problem::new(alloc, problem.dimension());
    for line in 0..problem.len() {
        let first = subspace.residue(problem.first(line))?;
        let second = subspace.residue(problem.second(line))?;
        residues.push(first.as_slice(), second.as_slice())?;
    }
    Ok(residues)
}

/// The certificate of the classes over the residues, where it makes a good answer.
fn judged<F: Field>(
    problem: &Problem<F>,
    set: &LineSet,
    walker: &Walker<'_, F>,
    labels: &Labels,
) -> Result<Option<Certificate<F>>, AllocError>
    requires set { IsIndependentSet F.scalars problem.now set.now }
    requires dimension { walker.now.state.problem.dimension ≡ problem.now.dimension }
    requires lines { length walker.now.state.problem.lines ≡ length problem.now.lines }
    requires ready { IsReady F.scalars walker.now }
    requires labels { AreOf (length walker.now.state.problem.lines) labels.now }
    ensures { IfOk result (λ found. IfSome found (MakesGoodAnswer F.scalars problem.now set.now)) }
{
    let alloc = walker.state.alloc();
    let parts = walker.parts(labels)?;
    let kernel = kernel_within(alloc, problem, walker.state.problem(), &parts)?;
    accepted(alloc, problem, set, Certificate { kernel, parts })
}

/// The certificate of the classes after one more walk over the residues, which begins anew with each longer set of these.
fn judged_after_walk<F: Field>(
    problem: &Problem<F>,
    set: &LineSet,
    walker: &mut Walker<'_, F>,
) -> Result<Option<Certificate<F>>, AllocError>
    requires set { IsIndependentSet F.scalars problem.now set.now }
    requires dimension { walker.old.state.problem.dimension ≡ problem.now.dimension }
    requires lines { length walker.old.state.problem.lines ≡ length problem.now.lines }
    requires ready { IsReady F.scalars walker.old }
    ensures residues { IfOk result (λ _. walker.new.state.problem ≡ walker.old.state.problem) }
    ensures ready { IfOk result (λ _. IsReady F.scalars walker.new) }
    ensures good { IfOk result (λ found. IfSome found (MakesGoodAnswer F.scalars problem.now set.now)) }
{
    let alloc = walker.state.alloc();
    for _longer in 0..problem.len() {
        let mut meeting = Meeting::whole(alloc, walker.state.set().len())?;
        match walker.walk(&mut meeting)? {
            Some(larger) => walker.rise(&larger)?,
            None => return judged(problem, set, walker, &walker.notes.labels),
        }
    }
    Ok(None)
}

/// The classes of the lines modulo the vectors, and what single classes span of these: at one set, after a walk, and
/// after further walks from sets at random.
pub fn guess<F: Field>(
    alloc: Global,
    problem: &Problem<F>,
    set: &LineSet,
    vectors: &Rows<F>,
    walks: usize,
) -> Result<Option<Certificate<F>>, AllocError>
    requires set { IsIndependentSet F.scalars problem.now set.now }
    requires width { vectors.now.width ≡ problem.now.dimension }
    ensures { IfOk result (λ found. IfSome found (MakesGoodAnswer F.scalars problem.now set.now)) }
{
    let residues = problem_of_residues(alloc, problem, &basis_of(alloc, vectors)?)?;
    let mut state = greedy_state(alloc, &residues, set)?;
    settle(&mut state)?;
    let mut walker = Walker::new(state, walks, true)?;
    if let Some(certificate) = judged(problem, set, &walker, &walker.seen()?)? {
        return Ok(Some(certificate));
    }
    if let Some(certificate) = judged_after_walk(problem, set, &mut walker)? {
        return Ok(Some(certificate));
    }
    for _turn in 0..walks {
        walker.scatter()?;
        if let Some(certificate) = judged_after_walk(problem, set, &mut walker)? {
            return Ok(Some(certificate));
        }
    }
    Ok(None)
}
