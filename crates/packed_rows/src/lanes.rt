//! Words, four at a time.

ghost use Rattle.std.specs.Prelude.{◌≡◌, ◌↔◌, ◌/◌, ◌*◌, ℕ, length, IsTrue};
ghost use Rattle.packed_rows.specs.Packed.{element};
ghost use Rattle.packed_rows.specs.Words.{AreAdded, AreZero};

use std::simd::prelude::*;

/// Adds the words of `source` that make whole chunks to those of `target`, bit by bit.
fn add_chunks(target: &mut [u64], source: &[u64])
    requires { length target.old ≡ length source.now }
    ensures { AreAdded (length source.now / 4 * 4) target.old source.now target.new }
{
    let (chunks, _) = source.as_chunks::<4>();
    for i in 0..chunks.len() {
        let at = 4 * i;
        let sum = u64x4::from_slice(&target[at..]) ^ u64x4::from_array(chunks[i]);
        sum.copy_to_slice(&mut target[at..]);
    }
}

/// Adds the words of `source` to those of `target`, bit by bit.
pub(crate) fn add_words(target: &mut [u64], source: &[u64])
    requires { length target.old ≡ length source.now }
    ensures { AreAdded (length source.now) target.old source.now target.new }
{
    add_chunks(target, source);
    for i in source.len() / 4 * 4..source.len() {
        target[i] ^= source[i];
    }
}

/// Tells whether the words that make whole chunks are zero.
fn chunks_are_zero(words: &[u64]) -> bool
    ensures { IsTrue result ↔ AreZero (length words.now / 4 * 4) words.now }
{
    let (chunks, _) = words.as_chunks::<4>();
    for chunk in chunks {
        if u64x4::from_array(*chunk).reduce_or() != 0 {
            return false;
        }
    }
    true
}

/// Tells whether the words are zero.
fn are_zero(words: &[u64]) -> bool
    ensures { IsTrue result ↔ AreZero (length words.now) words.now }
{
    if !chunks_are_zero(words) {
        return false;
    }
    for i in words.len() / 4 * 4..words.len() {
        if words[i] != 0 {
            return false;
        }
    }
    true
}

/// Tells whether no bit of the words is one.
pub(crate) fn have_no_bit(words: &[u64]) -> bool
    ensures { IsTrue result ↔ ((i : ℕ) → element words.now i ≡ 0) }
{
    are_zero(words)
}
