//! The search for a longer set, or for a certificate.

ghost use Rattle.std.specs.Prelude.{◌≡◌, ◌<◌, IfOk, IfSome, length};
ghost use Rattle.parity_lines.specs.LineSets.{IsIndependentSet};
ghost use Rattle.search.specs.Found.{KeepsSize, TellsFound, TellsWalked};
ghost use Rattle.search.specs.Repeats.{AreFirsts};
ghost use Rattle.search.specs.Walkers.{IsOf};

use crate::guessing::{guess, guess_one_part, guess_seen};
use crate::meeting::Meeting;
use crate::repeats::own_lines;
use crate::walker::Walker;
use field_core::{Field, Rows};
use matching_state::Matched;
use parity_lines::{Certificate, LineSet, Problem};
use quotients::Subspace;
use std::alloc::{AllocError, Global};

/// What is found for the set of a state.
#[derive(Drop)]
pub enum Found<'a, F: Field> {
    /// The state of an independent set of one line more.
    Larger(Matched<'a, F>),
    /// A certificate that makes a good answer with the set.
    Best(Certificate<F>),
    /// Neither, but independent sets of the same size.
    Sets(Vec<LineSet>),
}

/// What walks find for a set: an independent set of one line more, or a certificate that makes a good answer with it.
#[derive(Drop)]
enum Walked<F: Field> {
    Larger(LineSet),
    Best(Certificate<F>),
}

/// How many walks in a row may leave the meeting as it is.
const MOST_MISSES: usize = 8;

/// Keeps of the vectors those that others span too. `misses` tells how many times in a row they were all kept.
fn narrow<F: Field>(
    alloc: Global,
    common: &mut Subspace<F>,
    others: &Rows<F>,
    misses: &mut usize,
) -> Result<(), AllocError>
    requires common { others.now.width ≡ common.old.width }
    requires misses { misses.old < 8 }
    ensures { common.new.width ≡ common.old.width }
{
    let less = common.intersect(&Subspace::spanned(alloc, common.dimension(), others)?)?;
    if less.rank() < common.rank() {
        *misses = 0;
        *common = less;
    } else {
        *misses += 1;
    }
    Ok(())
}

/// A walk that keeps to the span of the set and of what the line brings in.
fn walk_beside<F: Field>(
    problem: &Problem<F>,
    set: &LineSet,
    walker: &mut Walker<'_, F>,
    common: &mut Subspace<F>,
    firsts: &[usize],
    line: usize,
) -> Result<Option<Walked<F>>, AllocError>
    requires set { IsIndependentSet F.scalars problem.now set.now }
    requires walker { IsOf F.scalars problem.now set.now walker.old }
    requires firsts { AreFirsts (length problem.now.lines) firsts.now }
    requires common { common.old.width ≡ problem.now.dimension }
    ensures walker { IsOf F.scalars problem.now set.now walker.new }
    ensures common { common.new.width ≡ problem.now.dimension }
    ensures found { IfOk result (λ found. IfSome found (TellsWalked F.scalars problem.now set.now)) }
{
    let alloc = walker.state.alloc();
    let mut meeting = Meeting::whole(alloc, walker.state.set().len())?;
    if let Some(larger) = walker.walk_beside(&mut meeting, firsts, line)? {
        return Ok(Some(Walked::Larger(larger)));
    }
    let vectors = meeting.vectors(&walker.state)?;
    let mut misses = 0;
    narrow(alloc, common, &vectors, &mut misses)?;
    Ok(None)
}

/// How many classes of lines have a walk of their own.
const MOST_CLASSES: usize = 64;

/// Walks that keep to the span of the set and of what one more line brings in: one for each class of these lines.
fn walks_by_class<F: Field>(
    problem: &Problem<F>,
    set: &LineSet,
    walker: &mut Walker<'_, F>,
    common: &mut Subspace<F>,
) -> Result<Option<Walked<F>>, AllocError>
    requires set { IsIndependentSet F.scalars problem.now set.now }
    requires walker { IsOf F.scalars problem.now set.now walker.old }
    requires common { common.old.width ≡ problem.now.dimension }
    ensures walker { IsOf F.scalars problem.now set.now walker.new }
    ensures common { common.new.width ≡ problem.now.dimension }
    ensures found { IfOk result (λ found. IfSome found (TellsWalked F.scalars problem.now set.now)) }
{
    let firsts = walker.first_outers()?;
    let classes = own_lines(walker.state.alloc(), firsts.as_slice())?;
    for at in 0..classes.len().min(MOST_CLASSES) {
        let line = classes[at];
        if let Some(found) = walk_beside(problem, set, walker, common, firsts.as_slice(), line)? {
            return Ok(Some(found));
        }
    }
    Ok(None)
}

/// A walk from a set at random, which narrows the vectors that all sets span, and maybe a guess from these. `misses`
/// tells how many walks in a row left them as they were.
fn restart<F: Field>(
    problem: &Problem<F>,
    set: &LineSet,
    walker: &mut Walker<'_, F>,
    common: &mut Subspace<F>,
    misses: &mut usize,
) -> Result<Option<Walked<F>>, AllocError>
    requires set { IsIndependentSet F.scalars problem.now set.now }
    requires walker { IsOf F.scalars problem.now set.now walker.old }
    requires common { common.old.width ≡ problem.now.dimension }
    requires misses { misses.old < 8 }
    ensures walker { IsOf F.scalars problem.now set.now walker.new }
    ensures common { common.new.width ≡ problem.now.dimension }
    ensures found { IfOk result (λ found. IfSome found (TellsWalked F.scalars problem.now set.now)) }
{
    let alloc = walker.state.alloc();
    walker.scatter()?;
    let mut meeting = Meeting::whole(alloc, walker.state.set().len())?;
    if let Some(larger) = walker.walk(&mut meeting)? {
        return Ok(Some(Walked::Larger(larger)));
    }
    let vectors = meeting.vectors(&walker.state)?;
    narrow(alloc, common, &vectors, misses)?;
    if *misses == 0 || *misses == 2 || *misses == MOST_MISSES {
        if let Some(certificate) = guess(alloc, problem, set, common.basis(), *misses)? {
            return Ok(Some(Walked::Best(certificate)));
        }
    }
    Ok(None)
}

/// Walks from sets at random, until some in a row don't narrow the vectors that all sets span.
fn restarts<F: Field>(
    problem: &Problem<F>,
    set: &LineSet,
    walker: &mut Walker<'_, F>,
    common: &mut Subspace<F>,
) -> Result<Option<Walked<F>>, AllocError>
    requires set { IsIndependentSet F.scalars problem.now set.now }
    requires walker { IsOf F.scalars problem.now set.now walker.old }
    requires common { common.old.width ≡ problem.now.dimension }
    ensures walker { IsOf F.scalars problem.now set.now walker.new }
    ensures found { IfOk result (λ found. IfSome found (TellsWalked F.scalars problem.now set.now)) }
{
    let mut misses = 0;
    for _walk in 0..problem
        .dimension()
        .saturating_mul(MOST_MISSES)
        .saturating_add(MOST_MISSES)
    {
        if misses >= MOST_MISSES {
            return Ok(None);
        }
        if let Some(found) = restart(problem, set, walker, common, &mut misses)? {
            return Ok(Some(found));
        }
    }
    Ok(None)
}

/// Searches from the walker's set: by what it shows, a walk, a guess, and further walks from sets at random.
fn search_by_walks<F: Field>(
    problem: &Problem<F>,
    set: &LineSet,
    walker: &mut Walker<'_, F>,
) -> Result<Option<Walked<F>>, AllocError>
    requires set { IsIndependentSet F.scalars problem.now set.now }
    requires walker { IsOf F.scalars problem.now set.now walker.old }
    ensures walker { IsOf F.scalars problem.now set.now walker.new }
    ensures found { IfOk result (λ found. IfSome found (TellsWalked F.scalars problem.now set.now)) }
{
    let alloc = walker.state.alloc();
    if let Some(certificate) = guess_seen(problem, set, walker)? {
        return Ok(Some(Walked::Best(certificate)));
    }
    let mut meeting = Meeting::whole(alloc, walker.state.set().len())?;
    if let Some(larger) = walker.walk(&mut meeting)? {
        return Ok(Some(Walked::Larger(larger)));
    }
    let vectors = meeting.vectors(&walker.state)?;
    if let Some(certificate) = guess(alloc, problem, set, &vectors, 0)? {
        return Ok(Some(Walked::Best(certificate)));
    }
    let mut common = Subspace::spanned(alloc, problem.dimension(), &vectors)?;
    if let Some(found) = walks_by_class(problem, set, walker, &mut common)? {
        return Ok(Some(found));
    }
    if common.rank() < vectors.len() {
        if let Some(certificate) = guess(alloc, problem, set, common.basis(), 0)? {
            return Ok(Some(Walked::Best(certificate)));
        }
    }
    restarts(problem, set, walker, &mut common)
}

/// What walks find, with the state at a longer set.
fn found_by_walks<'a, F: Field>(
    set: &LineSet,
    mut walker: Walker<'a, F>,
) -> Result<Found<'a, F>, AllocError>
    requires walker { IsOf F.scalars walker.state.problem set.now walker }
    requires set { IsIndependentSet F.scalars walker.state.problem set.now }
    ensures { IfOk result (TellsFound F.scalars walker.entry.state.problem set.now) }
{
    match search_by_walks(walker.state.problem(), set, &mut walker)? {
        Some(Walked::Larger(larger)) => {
            let mut state = walker.state;
            state.go_to(&larger)?;
            Ok(Found::Larger(state))
        }
        Some(Walked::Best(certificate)) => Ok(Found::Best(certificate)),
        None => {
            let notes = walker.notes;
            Ok(Found::Sets(notes.sets))
        }
    }
}

/// Searches from the set that is held: by a direct step, by the certificate with one part, and by walks.
pub fn search<'a, F: Field>(mut state: Matched<'a, F>) -> Result<Found<'a, F>, AllocError>
    ensures { IfOk result (TellsFound F.scalars state.entry.problem state.entry.set) }
{
    if let Some(larger) = state.direct_step()? {
        state.go_to(&larger)?;
        return Ok(Found::Larger(state));
    }
    let set = state.set().copied()?;
    if let Some(certificate) = guess_one_part(state.alloc(), state.problem(), &set)? {
        return Ok(Found::Best(certificate));
    }
    found_by_walks(&set, Walker::new(state, 0, false)?)
}
