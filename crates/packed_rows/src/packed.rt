//! A vector over the field of two elements.

ghost use Rattle.std.specs.Prelude.{◌≡◌, ◌<◌, ◌↔◌, IfOk, IsTrue, List, ℕ, map, length, slice_index, slice_set};
ghost use Rattle.linear_algebra.specs.Vectors.{zero_vector, vector_sum, multiple};
ghost use Rattle.packed_rows.specs.Carried.{carried};
ghost use Rattle.packed_rows.specs.Packed.{ArePacked};
ghost use Rattle.packed_rows.specs.Shifts.{AreShifted};

use crate::carrying::shift;
use crate::lanes::{add_words, have_no_bit};
use field_core::Field;
use small_fields::F2;
use std::alloc::{AllocError, Global};
use std::marker::Model;

/// A vector over the field of two elements, 64 elements a word, seen as the list of its elements.
#[derive(Drop)]
pub struct PackedF2 {
    words: Vec<u64>,
    count: usize,
}

impl Model for PackedF2 {
    ghost use Rattle.std.specs.Prelude.{List, ℕ};
    ghost use Rattle.packed_rows.specs.Packed.{elements, AreWords};

    ghost Value = { List ℕ };

    ghost view = { λ v. elements v.words.items v.count };

    ghost invariant = { λ v. AreWords v.words.items v.count };
}

impl PackedF2 {
    /// The vector of `len` zeros.
    pub fn zeros(alloc: Global, len: usize) -> Result<PackedF2, AllocError>
        ensures { IfOk result (λ row. row ≡ zero_vector ⟦<F2 as Field>⟧.scalars len) }
    {
        let words = vec![in alloc; 0; len.div_ceil(64)]?;
        Ok(PackedF2 { words, count: len })
    }

    /// A vector with the elements of `v`.
    pub fn copy_of(alloc: Global, v: &[F2]) -> Result<PackedF2, AllocError>
        ensures { IfOk result (λ row. row ≡ map ⟦<F2 as Field>⟧.number v.now) }
    {
        let mut row = PackedF2::zeros(alloc, v.len())?;
        for i in 0..v.len() {
            row.put(i, v[i]);
        }
        Ok(row)
    }

    /// How many elements there are.
    pub fn len(&self) -> usize
        ensures { result ≡ length self.now }
    {
        self.count
    }

    /// The element at a position.
    pub fn get(&self, i: usize) -> F2
        requires { i < length self.now }
        ensures { ⟦<F2 as Field>⟧.number result ≡ slice_index self.now i }
    {
        if (self.words[i / 64] >> (i % 64)) % 2 == 1 {
            F2::one()
        } else {
            F2::zero()
        }
    }

    /// Replaces the element at a position.
    pub fn put(&mut self, i: usize, value: F2)
        requires { i < length self.old }
        ensures { self.new ≡ slice_set self.old i (⟦<F2 as Field>⟧.number value) }
    {
        if self.get(i).number() != value.number() {
            self.words[i / 64] ^= 1 << (i % 64);
        }
    }

    /// Gives each element from `from` on toward `to` the value of the next one.
    fn shift(&mut self, from: usize, to: usize)
        requires first { from < length self.old }
        requires second { to < length self.old }
        ensures count { length self.new ≡ length self.old }
        ensures shifted { AreShifted from to (slice_index self.old) (slice_index self.new) }
    {
        shift(&mut self.words, from, to);
    }

    /// Takes the element at `from` out, and puts it in so that it stands at `to`; those between move by one place. It takes
    /// no memory.
    pub fn carry(&mut self, from: usize, to: usize)
        requires first { from < length self.old }
        requires second { to < length self.old }
        ensures { self.new ≡ carried self.old from to }
    {
        let value = self.get(from);
        self.shift(from, to);
        self.put(to, value);
    }

    /// Adds `factor` times `source`.
    pub fn axpy(&mut self, factor: F2, source: &PackedF2)
        requires { length self.old ≡ length source.now }
        ensures { self.new ≡ vector_sum ⟦<F2 as Field>⟧.scalars self.old
            (multiple ⟦<F2 as Field>⟧.scalars (⟦<F2 as Field>⟧.number factor) source.now) }
    {
        if factor.number() == 1 {
            add_words(&mut self.words, &source.words);
        }
    }

    /// Multiplies each element by `factor`.
    pub fn scale(&mut self, factor: F2)
        ensures { self.new ≡ multiple ⟦<F2 as Field>⟧.scalars (⟦<F2 as Field>⟧.number factor) self.old }
    {
        if factor.number() == 0 {
            self.words.fill(0);
        }
    }

    /// Tells whether all elements are zero.
    pub fn is_zero(&self) -> bool
        ensures { IsTrue result ↔ (self.now ≡ zero_vector ⟦<F2 as Field>⟧.scalars (length self.now)) }
    {
        have_no_bit(&self.words)
    }

    /// The words: bit `j` of word `w`, the lowest being bit 0, is one exactly where the element `64 * w + j`
    /// exists and is one. There are as many as the elements need.
    pub fn words(&self) -> &[u64]
        ensures { ArePacked self.now result.now }
    {
        &self.words
    }
}
