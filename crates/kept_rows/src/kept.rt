//! A row that is kept plain or packed.

ghost use Rattle.std.specs.Prelude.{◌≡◌, ◌≢◌, ◌<◌, ◌↔◌, IfOk, IsTrue, List, ℕ, All, map, length, slice_index, slice_set};
ghost use Rattle.std.specs.List.{swap};
ghost use Rattle.linear_algebra.specs.Scalars.{IsScalar};
ghost use Rattle.linear_algebra.specs.Vectors.{zero_vector, vector_sum, multiple};
ghost use Rattle.packed_rows.specs.Carried.{carried};
ghost use Rattle.kept_rows.specs.Kept.{Lends, unpacked};

use crate::bit::{bit_of, value_of};
use crate::plain::{carry, count, element, write};
use field_core::{Field, Row, is_zero};
use packed_rows::PackedF2;
use std::alloc::{AllocError, Global};
use std::marker::Model;

/// What a row is kept as.
#[derive(Drop)]
enum Entries<F: Field> {
    Plain(Row<F>),
    Packed(PackedF2),
}

/// A row over a field, seen as the list of its numbers. It is packed exactly where the order is 2.
#[derive(Drop)]
pub struct KeptRow<F: Field> {
    entries: Entries<F>,
}

impl<F: Field> Model for KeptRow<F> {
    ghost use Rattle.std.specs.Prelude.{List, ℕ};
    ghost use Rattle.kept_rows.specs.Kept.{scalars_kept, IsPackedForTwo};

    ghost Value = { List ℕ };

    ghost view = { λ r. scalars_kept F.scalars r.entries };

    ghost invariant = { λ r. IsPackedForTwo F.ORDER r.entries };
}

/// What a row is kept as, lent: plain, or packed where the order is 2.
pub enum Kept<'a, F: Field> {
    /// The row.
    Plain(&'a Row<F>),
    /// Its bits: one exactly where the row has the one of the field.
    Packed(&'a PackedF2),
}

/// Adds `factor` times `source`, which is plain too, to a plain row.
fn add_plain<F: Field>(row: &mut Row<F>, factor: F, source: &KeptRow<F>)
    requires order { F.ORDER ≢ 2 }
    requires equal { length row.old ≡ length source.now }
    ensures { row.new ≡ vector_sum F.scalars row.old (multiple F.scalars (F.number factor) source.now) }
{
    match &source.entries {
        Entries::Plain(other) => row.add_multiple(factor, other.as_slice()),
        Entries::Packed(_) => unreachable!(),
    }
}

/// Adds `factor` times `source`, which is packed too, to a packed row.
fn add_packed<F: Field>(bits: &mut PackedF2, factor: F, source: &KeptRow<F>)
    requires order { F.ORDER ≡ 2 }
    requires are_bits { All (λ b. b < 2) bits.old }
    requires equal { length bits.old ≡ length source.now }
    ensures are_bits { All (λ b. b < 2) bits.new }
    ensures value { unpacked F.scalars bits.new ≡ vector_sum F.scalars (unpacked F.scalars bits.old)
        (multiple F.scalars (F.number factor) source.now) }
{
    match &source.entries {
        Entries::Plain(_) => unreachable!(),
        Entries::Packed(other) => bits.axpy(bit_of(factor), other),
    }
}

impl<F: Field> KeptRow<F> {
    /// The row of `len` zeros.
    pub fn zeros(alloc: Global, len: usize) -> Result<KeptRow<F>, AllocError>
        ensures { IfOk result (λ row. row ≡ zero_vector F.scalars len) }
    {
        if F::ORDER == 2 {
            let bits = PackedF2::zeros(alloc, len)?;
            Ok(KeptRow {
                entries: Entries::Packed(bits),
            })
        } else {
            let row = Row::zeros(alloc, len)?;
            Ok(KeptRow {
                entries: Entries::Plain(row),
            })
        }
    }

    /// The row of `len` elements that is one at position `i` and zero elsewhere.
    pub fn unit(alloc: Global, len: usize, i: usize) -> Result<KeptRow<F>, AllocError>
        requires { i < len }
        ensures { IfOk result (λ row. row ≡ slice_set (zero_vector F.scalars len) i F.scalars.one) }
    {
        let mut row = KeptRow::zeros(alloc, len)?;
        row.put(i, F::one());
        Ok(row)
    }

    /// A row with the entries of `v`.
    pub fn copy_of(alloc: Global, v: &[F]) -> Result<KeptRow<F>, AllocError>
        ensures { IfOk result (λ row. row ≡ map F.number v.now) }
    {
        let mut row = KeptRow::zeros(alloc, v.len())?;
        for i in 0..v.len() {
            row.put(i, v[i]);
        }
        Ok(row)
    }

    /// A row with the same elements.
    pub fn copy(&self, alloc: Global) -> Result<KeptRow<F>, AllocError>
        ensures { IfOk result (λ row. row ≡ self.now) }
    {
        let mut row = KeptRow::zeros(alloc, self.len())?;
        row.axpy(F::one(), self);
        Ok(row)
    }

    /// How many elements there are.
    pub fn len(&self) -> usize
        ensures value { result ≡ length self.now }
        ensures scalars { All (IsScalar F.scalars) self.now }
    {
        match &self.entries {
            Entries::Plain(row) => count(row),
            Entries::Packed(bits) => bits.len(),
        }
    }

    /// The element at a position.
    pub fn get(&self, i: usize) -> F
        requires { i < length self.now }
        ensures { F.number result ≡ slice_index self.now i }
    {
        match &self.entries {
            Entries::Plain(row) => element(row, i),
            Entries::Packed(bits) => value_of(bits.get(i)),
        }
    }

    /// Replaces the element at a position.
    pub fn put(&mut self, i: usize, value: F)
        requires { i < length self.old }
        ensures { self.new ≡ slice_set self.old i (F.number value) }
    {
        match &mut self.entries {
            Entries::Plain(row) => write(row, i, value),
            Entries::Packed(bits) => bits.put(i, bit_of(value)),
        }
    }

    /// Puts two elements in each other's place.
    pub fn swap(&mut self, i: usize, j: usize)
        requires first { i < length self.old }
        requires second { j < length self.old }
        ensures { self.new ≡ swap self.old i j }
    {
        let first = self.get(i);
        let second = self.get(j);
        self.put(i, second);
        self.put(j, first);
    }

    /// Takes the element at `from` out, and puts it in so that it stands at `to`; those between move by one place. It takes
    /// no memory.
    pub fn carry(&mut self, from: usize, to: usize)
        requires first { from < length self.old }
        requires second { to < length self.old }
        ensures { self.new ≡ carried self.old from to }
    {
        match &mut self.entries {
            Entries::Plain(row) => carry(row, from, to),
            Entries::Packed(bits) => bits.carry(from, to),
        }
    }

    /// Adds `factor` times `source`.
    pub fn axpy(&mut self, factor: F, source: &KeptRow<F>)
        requires { length self.old ≡ length source.now }
        ensures { self.new ≡ vector_sum F.scalars self.old (multiple F.scalars (F.number factor) source.now) }
    {
        match &mut self.entries {
            Entries::Plain(row) => add_plain(row, factor, source),
            Entries::Packed(bits) => add_packed(bits, factor, source),
        }
    }

    /// Multiplies each element by `factor`.
    pub fn scale(&mut self, factor: F)
        ensures { self.new ≡ multiple F.scalars (F.number factor) self.old }
    {
        match &mut self.entries {
            Entries::Plain(row) => row.multiply(factor),
            Entries::Packed(bits) => bits.scale(bit_of(factor)),
        }
    }

    /// Tells whether all elements are zero.
    pub fn is_zero(&self) -> bool
        ensures { IsTrue result ↔ (self.now ≡ zero_vector F.scalars (length self.now)) }
    {
        match &self.entries {
            Entries::Plain(row) => is_zero(row.as_slice()),
            Entries::Packed(bits) => bits.is_zero(),
        }
    }

    /// What the row is kept as.
    pub fn view(&self) -> Kept<'_, F>
        ensures { Lends F.ORDER F.scalars self.now result }
    {
        match &self.entries {
            Entries::Plain(row) => Kept::Plain(row),
            Entries::Packed(bits) => Kept::Packed(bits),
        }
    }
}
