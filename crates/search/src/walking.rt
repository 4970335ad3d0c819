//! A walk over sets of one size, by exchanges that shrink the meeting of their spans, and back.

ghost use Rattle.std.specs.Prelude.{◌≡◌, ◌<◌, All, IfOk, IfSome, length};
ghost use Rattle.search.specs.Found.{IsLargerThan, KeepsSize};
ghost use Rattle.search.specs.Meetings.{IsOver};
ghost use Rattle.search.specs.Notes.{AreNotes};
ghost use Rattle.search.specs.Walks.{IsPlaceIn, IsTrail};

use crate::exchanging::{exchange_at, index_in};
use crate::meeting::{Meeting, Pairs};
use crate::notes::Notes;
use field_core::Field;
use matching_state::Matched;
use parity_lines::LineSet;
use std::alloc::AllocError;

/// An exchange, and where the walk goes on after it is undone.
#[derive(Clone, Copy, Drop)]
struct Taken {
    out: usize,
    into: usize,
    next: usize,
}

/// The exchanges that aren't undone yet, and the place in the order at which the walk goes on.
#[derive(Drop)]
struct Trail {
    taken: Vec<Taken>,
    next: usize,
}

/// A place in the order, and the index of a line of the set.
#[derive(Clone, Copy, Drop)]
struct Useful {
    at: usize,
    index: usize,
}

/// The index of a line of the set whose place the line can take so that the meeting with these pairs shrinks.
fn useful_index<F: Field>(state: &Matched<'_, F>, pairs: &[Pairs<F>], line: usize) -> Option<usize>
    requires line { line < length state.now.problem.lines }
    requires over { length pairs.now ≡ length state.now.set }
    ensures { IfSome result (λ i. i < length state.now.set) }
{
    let exposed = state.exposed(line)?;
    for i in 0..pairs.len() {
        if pairs[i].cross(state.tip_pair(exposed, i)) {
            return Some(i);
        }
    }
    None
}

/// The first place in the order, from `next` on, of a line with a useful exchange, and the index of the other line.
fn useful_from<F: Field>(
    state: &Matched<'_, F>,
    meeting: &Meeting<F>,
    order: &[usize],
    next: usize,
) -> Result<Option<Useful>, AllocError>
    requires lines { All (λ m. m < length state.now.problem.lines) order.now }
    requires over { IsOver state.now meeting.now }
    ensures { IfOk result (λ found. IfSome found (IsPlaceIn (length order.now) (length state.now.set))) }
{
    if meeting.rank() == 0 {
        return Ok(None);
    }
    let pairs = meeting.pairs(state.alloc())?;
    for at in next..order.len() {
        if let Some(index) = useful_index(state, pairs.as_slice(), order[at]) {
            return Ok(Some(Useful { at, index }));
        }
    }
    Ok(None)
}

/// Undoes an exchange.
fn go_back<F: Field>(
    state: &mut Matched<'_, F>,
    meeting: &mut Meeting<F>,
    taken: Taken,
) -> Result<(), AllocError>
    requires line { taken.out < length state.old.problem.lines }
    requires over { IsOver state.old meeting.old }
    ensures keeps { KeepsSize state.old state.new }
    ensures over { IsOver state.new meeting.new }
{
    match index_in(state.set(), taken.into) {
        Some(i) => {
            exchange_at(state, meeting, i, taken.out)?;
            Ok(())
        }
        None => Ok(()),
    }
}

/// Makes an exchange for the line at a place of the order.
fn go_on<F: Field>(
    state: &mut Matched<'_, F>,
    meeting: &mut Meeting<F>,
    order: &[usize],
    useful: Useful,
    trail: &mut Trail,
) -> Result<(), AllocError>
    requires lines { All (λ m. m < length state.old.problem.lines) order.now }
    requires place { IsPlaceIn (length order.now) (length state.old.set) useful }
    requires over { IsOver state.old meeting.old }
    requires trail { IsTrail (length state.old.problem.lines) trail.old }
    ensures keeps { KeepsSize state.old state.new }
    ensures over { IsOver state.new meeting.new }
    ensures trail { IsTrail (length state.old.problem.lines) trail.new }
{
    let into = order[useful.at];
    match exchange_at(state, meeting, useful.index, into)? {
        Some(out) => {
            trail.next = 0;
            trail.taken.push(Taken {
                out,
                into,
                next: useful.at,
            })?;
            Ok(())
        }
        None => {
            trail.next = useful.at + 1;
            Ok(())
        }
    }
}

/// One step of the walk: an exchange, or back. Tells whether there was one.
fn step<F: Field>(
    state: &mut Matched<'_, F>,
    meeting: &mut Meeting<F>,
    order: &[usize],
    trail: &mut Trail,
) -> Result<bool, AllocError>
    requires lines { All (λ m. m < length state.old.problem.lines) order.now }
    requires over { IsOver state.old meeting.old }
    requires trail { IsTrail (length state.old.problem.lines) trail.old }
    ensures keeps { KeepsSize state.old state.new }
    ensures over { IsOver state.new meeting.new }
    ensures trail { IsTrail (length state.old.problem.lines) trail.new }
{
    if let Some(useful) = useful_from(state, meeting, order, trail.next)? {
        go_on(state, meeting, order, useful, trail)?;
        return Ok(true);
    }
    match trail.taken.pop() {
        Some(last) => {
            trail.next = last.next;
            go_back(state, meeting, last)?;
            Ok(true)
        }
        None => Ok(false),
    }
}

/// Where the walk comes to a set: a longer set by a direct step from it, or it is noted.
fn visit<F: Field>(
    state: &Matched<'_, F>,
    order: &[usize],
    notes: &mut Notes,
    next: usize,
) -> Result<Option<LineSet>, AllocError>
    requires lines { All (λ m. m < length state.now.problem.lines) order.now }
    requires notes { AreNotes F.scalars state.now.problem state.now.set notes.old }
    ensures notes { AreNotes F.scalars state.now.problem state.now.set notes.new }
    ensures larger { IfOk result (λ found. IfSome found (IsLargerThan F.scalars state.now.problem state.now.set)) }
{
    if next > 0 {
        return Ok(None);
    }
    if let Some(larger) = state.direct_step()? {
        return Ok(Some(larger));
    }
    notes.note(state, order)?;
    Ok(None)
}

/// Goes from the set that is held by useful exchanges for the lines of the order, and comes back. A longer set ends it.
pub fn walk<F: Field>(
    state: &mut Matched<'_, F>,
    meeting: &mut Meeting<F>,
    order: &[usize],
    notes: &mut Notes,
) -> Result<Option<LineSet>, AllocError>
    requires lines { All (λ m. m < length state.old.problem.lines) order.now }
    requires over { IsOver state.old meeting.old }
    requires notes { AreNotes F.scalars state.old.problem state.old.set notes.old }
    ensures keeps { KeepsSize state.old state.new }
    ensures over { IsOver state.new meeting.new }
    ensures notes { AreNotes F.scalars state.new.problem state.new.set notes.new }
    ensures larger { IfOk result (λ found. IfSome found (IsLargerThan F.scalars state.old.problem state.old.set)) }
{
    let mut trail = Trail {
        taken: Vec::new(state.alloc()),
        next: 0,
    };
    for _step in 0..state.set().len().saturating_mul(8).saturating_add(2) {
        if let Some(larger) = visit(state, order, notes, trail.next)? {
            return Ok(Some(larger));
        }
        if !step(state, meeting, order, &mut trail)? {
            return Ok(None);
        }
    }
    Ok(None)
}
