//! Rows of lengths about the width of a word and of a chunk of words.

use crate::PackedF2;
use field_core::Field;
use small_fields::F2;
use std::alloc::{AllocError, Global};
use std::process::Abort;
use std::test::Fail;

/// The row of this length with ones at these places.
fn ones_at(alloc: Global, len: usize, places: &[usize]) -> Result<PackedF2, AllocError> {
    let mut row = PackedF2::zeros(alloc, len)?;
    for place in places {
        if *place < row.len() {
            row.put(*place, F2::one());
        }
    }
    Ok(row)
}

fn assert_ones_at(rt: &impl Abort, row: &PackedF2, places: &[usize]) {
    for i in 0..row.len() {
        let is_one = row.get(i).number() == 1;
        assert!(rt; is_one == places.contains(&i));
    }
}

/// Asserts what the sum of two rows is, and its words, and that zero times it is zero.
fn assert_sum(
    rt: &impl Abort,
    alloc: Global,
    len: usize,
    summands: [&[usize]; 2],
    want: (&[usize], &[u64]),
) -> Result<(), AllocError> {
    let mut row = ones_at(alloc, len, summands[0])?;
    let source = ones_at(alloc, len, summands[1])?;
    assert!(rt; row.len() == source.len());
    row.axpy(F2::one(), &source);
    assert_ones_at(rt, &row, want.0);
    assert_eq!(rt; row.words(), want.1);
    assert!(rt; !row.is_zero());
    row.scale(F2::zero());
    assert!(rt; row.is_zero());
    Ok(())
}

#[test]
fn sums_reach_the_words_behind_the_chunks(rt: HostRuntime) -> Result<(), Fail> {
    let alloc = rt.alloc();
    assert_sum(&rt, alloc, 130, [&[64], &[64, 129]], (&[129], &[0, 0, 2]))?;
    assert_sum(
        &rt,
        alloc,
        300,
        [&[0, 128, 299], &[1, 128, 256]],
        (&[0, 1, 256, 299], &[3, 0, 0, 0, 0x800_0000_0001]),
    )?;
    Ok(())
}

#[test]
fn ones_are_copied_at_each_length(rt: HostRuntime) -> Result<(), Fail> {
    let alloc = rt.alloc();
    let mut ones = Vec::new(alloc);
    for len in 0..66usize {
        let row = PackedF2::copy_of(alloc, &ones)?;
        assert!(rt; row.len() == len);
        for i in 0..row.len() {
            assert!(rt; row.get(i).number() == 1);
        }
        assert!(rt; row.is_zero() == (len == 0));
        ones.push(F2::one())?;
    }
    Ok(())
}

/// Carries an element of the row, which is long enough.
fn carry(rt: &impl Abort, row: &mut PackedF2, from: usize, to: usize) {
    assert!(rt; from < row.len());
    assert!(rt; to < row.len());
    row.carry(from, to);
}

/// Where an element that stands at `to` is after one has been carried there.
fn after_carry(from: usize, to: usize) -> usize {
    if from < to {
        to - 1
    } else if from > to {
        to + 1
    } else {
        to
    }
}

/// Asserts that a one is carried there and back, and what one that stands there becomes.
fn assert_carried(
    rt: &impl Abort,
    alloc: Global,
    len: usize,
    from: usize,
    to: usize,
) -> Result<(), AllocError> {
    let mut row = ones_at(alloc, len, &[from])?;
    carry(rt, &mut row, from, to);
    assert_ones_at(rt, &row, &[to]);
    carry(rt, &mut row, to, from);
    assert_ones_at(rt, &row, &[from]);
    let mut other = ones_at(alloc, len, &[to])?;
    carry(rt, &mut other, from, to);
    assert_ones_at(rt, &other, &[after_carry(from, to)]);
    Ok(())
}

#[test]
fn ones_are_carried_across_the_words(rt: HostRuntime) -> Result<(), Fail> {
    let alloc = rt.alloc();
    for (len, from, to) in [
        (1, 0, 0),
        (64, 0, 63),
        (64, 63, 62),
        (65, 0, 64),
        (65, 64, 63),
        (130, 129, 0),
        (130, 62, 65),
        (130, 128, 64),
        (130, 64, 127),
    ] {
        assert_carried(&rt, alloc, len, from, to)?;
    }
    Ok(())
}
