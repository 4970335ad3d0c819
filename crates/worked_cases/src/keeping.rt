//! Coordinates that a state keeps, and what an exchange makes of them.

use crate::asserting::assert_text;
use crate::places::{FIRST, PATH, SECOND_AND_FOURTH, THREE, place, ready};
use field_core::Field;
use kept_rows::Kept;
use matching_state::{Matched, Place};
use packed_rows::PackedF2;
use small_fields::{F2, F3};
use std::alloc::{AllocError, Global};
use std::process::Abort;
use std::test::Fail;
use worked_texts::{problem_of, shown, shown_set};

/// The elements of a packed row.
fn elements(alloc: Global, row: &PackedF2) -> Result<String, AllocError> {
    let mut text = String::from_str(alloc, "packed")?;
    for i in 0..row.len() {
        write!(text, " {}", row.get(i).number())?;
    }
    Ok(text)
}

/// The words of a packed row.
fn words(alloc: Global, row: &PackedF2) -> Result<String, AllocError> {
    let mut text = String::from_str(alloc, "words")?;
    for word in row.words() {
        write!(text, " {}", *word)?;
    }
    Ok(text)
}

/// The coordinates that are kept of a line's second vector, or its first, and what they are kept as.
fn kept<F: Field>(
    rt: &impl Abort,
    state: &Matched<'_, F>,
    line: usize,
    second: bool,
) -> Result<String, AllocError> {
    let alloc = state.alloc();
    assert!(rt; line < state.problem().len());
    match state.kept(line, second) {
        Kept::Plain(row) => format!(in alloc; "plain {}", shown(alloc, row.as_slice())?),
        Kept::Packed(row) => {
            format!(in alloc; "{}, {}", elements(alloc, row)?, words(alloc, row)?)
        }
    }
}

/// Puts the line `into` in the place of `out`, which is in its support.
fn exchange<F: Field>(
    rt: &impl Abort,
    state: &mut Matched<'_, F>,
    out: usize,
    into: usize,
) -> Result<(), AllocError> {
    assert!(rt; into < state.problem().len());
    match state.position(into)? {
        Place::Exposed { support, .. } => {
            assert!(rt; support.holds(out));
            state.exchange(out, into)
        }
        _ => panic!(rt; "the line is exposed"),
    }
}

#[test]
fn plain_coordinates_follow_an_exchange(rt: HostRuntime) -> Result<(), Fail> {
    let alloc = rt.alloc();
    let three = problem_of::<F3>(alloc, THREE).expect(&rt, "a problem");
    let mut state = ready(&rt, alloc, &three, FIRST)?;
    assert_text(&rt, kept(&rt, &state, 2, false)?.as_str(), "plain 0 2 0 0");
    exchange(&rt, &mut state, 0, 1)?;
    assert_text(&rt, shown_set(alloc, state.set())?.as_str(), "2");
    assert_text(&rt, place(&rt, &state, 0)?.as_str(), "exposed 2");
    assert_text(&rt, kept(&rt, &state, 0, false)?.as_str(), "plain 2 0 0 0");
    Ok(())
}

#[test]
fn packed_coordinates_are_lent(rt: HostRuntime) -> Result<(), Fail> {
    let alloc = rt.alloc();
    let path = problem_of::<F2>(alloc, PATH).expect(&rt, "a problem");
    let state = ready(&rt, alloc, &path, SECOND_AND_FOURTH)?;
    assert_text(
        &rt,
        kept(&rt, &state, 0, true)?.as_str(),
        "packed 1 0 0 0 0 0, words 1",
    );
    Ok(())
}
