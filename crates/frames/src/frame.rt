//! A basis, and coordinates over it.

ghost use Rattle.std.specs.List.{swap};
ghost use Rattle.std.specs.Prelude.{◌≡◌, ◌≢◌, ◌<◌, ◌+◌, ◌∷◌, ◌++◌, [], ℕ, IfOk, OnErr, OnOk, drop, length, map, slice_index_or, slice_set, take};
ghost use Rattle.coordinates.specs.Bases.{IsBasis, IsPivoted, unit_vectors};
ghost use Rattle.frames.specs.Frames.{IsFrame, KeepsVectors, kept_at};
ghost use Rattle.linear_algebra.specs.Spans.{Combines};
ghost use Rattle.linear_algebra.specs.Vectors.{zero_vector};
ghost use Rattle.packed_rows.specs.Carried.{carried};

use crate::carrying::{carry_columns, carry_row};
use crate::leading::lead_from;
use crate::pivoting::pivot_all;
use crate::swapping::swap_columns;
use crate::units::unit_rows;
use field_core::{Field, Rows};
use kept_rows::KeptRow;
use std::alloc::{AllocError, Global};
use std::marker::Model;

/// A basis of the vectors of one length, and lists of coordinates over it.
#[derive(Drop)]
pub struct Frame<F: Field> {
    alloc: Global,
    basis: Rows<F>,
    lists: Vec<KeptRow<F>>,
}

impl<F: Field> Model for Frame<F> {
    ghost use Rattle.frames.specs.Frames.{Framed, IsFrame};

    ghost Value = { Framed };

    ghost view = { λ f. record { width = f.basis.width; basis = f.basis.rows; kept = f.lists.items } };

    ghost invariant = { λ f. IsFrame F.scalars (record { width = f.basis.width; basis = f.basis.rows; kept = f.lists.items }) };
}

impl<F: Field> Frame<F> {
    /// The unit vectors, and no list yet.
    pub fn units(alloc: Global, width: usize) -> Result<Frame<F>, AllocError>
        ensures { IfOk result (λ f. f ≡ record { width = width; basis = unit_vectors F.scalars width; kept = [] }) }
    {
        let basis = unit_rows(alloc, width)?;
        Ok(Frame {
            alloc,
            basis,
            lists: Vec::new(alloc),
        })
    }

    /// Keeps a list of coordinates, behind the others.
    pub fn push(&mut self, coordinates: &[F]) -> Result<(), AllocError>
        requires { length coordinates.now ≡ self.old.width }
        ensures ok { OnOk result (self.new ≡ record self.old { kept = self.old.kept ++ map F.number coordinates.now ∷ [] }) }
        ensures err { OnErr result (self.new ≡ self.old) }
    {
        let list = KeptRow::copy_of(self.alloc, coordinates)?;
        self.lists.push(list)?;
        Ok(())
    }

    /// The length of the vectors.
    pub fn width(&self) -> usize
        ensures value { result ≡ self.now.width }
        ensures frame { IsFrame F.scalars self.now }
    {
        self.basis.width()
    }

    /// How many lists are kept.
    pub fn len(&self) -> usize
        ensures { result ≡ length self.now.kept }
    {
        self.lists.len()
    }

    /// The basis.
    pub fn basis(&self) -> &Rows<F>
        ensures value { result.now ≡ record { width = self.now.width; rows = self.now.basis } }
        ensures basis { IsBasis F.scalars self.now.width self.now.basis }
    {
        &self.basis
    }

    /// The list at a place.
    pub fn list(&self, j: usize) -> &KeptRow<F>
        requires { j < length self.now.kept }
        ensures value { result.now ≡ kept_at self.now j }
        ensures long { length result.now ≡ self.now.width }
        ensures frame { IsFrame F.scalars self.now }
    {
        &self.lists[j]
    }

    /// Puts the vector to which the list `j` combines the basis, `v`, in the place `i` of the basis, where that list isn't
    /// zero. It takes no memory.
    pub fn pivot(&mut self, i: usize, j: usize, v: &[F])
        requires place { i < self.old.width }
        requires list { j < length self.old.kept }
        requires not_zero { slice_index_or (kept_at self.old j) i 0 ≢ F.scalars.zero }
        requires combined { Combines F.scalars self.old.width self.old.basis (kept_at self.old j) (map F.number v.now) }
        ensures basis { self.new.basis ≡ slice_set self.old.basis i (map F.number v.now) }
        ensures frame { IsFrame F.scalars self.new }
        ensures keeps { KeepsVectors F.scalars self.old self.new }
        ensures pivoted { (t : ℕ) → t < length self.old.kept → IsPivoted F.scalars i (kept_at self.old j) (kept_at self.old t) (kept_at self.new t) }
    {
        let Some(factor) = self.lists[j].get(i).inverse() else {
            return;
        };
        self.basis.put(i, v);
        pivot_all(&mut self.lists, i, j, factor);
    }

    /// The vectors at two places of the basis in each other's place. It takes no memory.
    pub fn swap(&mut self, i: usize, j: usize)
        requires first { i < self.old.width }
        requires second { j < self.old.width }
        ensures basis { self.new.basis ≡ swap self.old.basis i j }
        ensures frame { IsFrame F.scalars self.new }
        ensures keeps { KeepsVectors F.scalars self.old self.new }
        ensures kept { self.new.kept ≡ map (λ cs. swap cs i j) self.old.kept }
    {
        self.basis.swap(i, j);
        swap_columns(&mut self.lists, i, j);
    }

    /// Takes the vector at `from` out of the basis, and puts it in so that it stands at `to`; those between move by one place.
    /// It takes no memory.
    pub fn carry(&mut self, from: usize, to: usize)
        requires first { from < self.old.width }
        requires second { to < self.old.width }
        ensures basis { self.new.basis ≡ carried self.old.basis from to }
        ensures frame { IsFrame F.scalars self.new }
        ensures keeps { KeepsVectors F.scalars self.old self.new }
        ensures kept { self.new.kept ≡ map (λ cs. carried cs from to) self.old.kept }
    {
        carry_row(&mut self.basis, from, to);
        carry_columns(&mut self.lists, from, to);
    }

    /// Brings the vector to which the list `j` combines the basis, `v`, to the place `at`, where the vectors before don't
    /// span it: it takes the place of a vector from there on, and the one at `at` goes there. Otherwise nothing changes.
    /// It takes no memory.
    pub fn bring_in(&mut self, at: usize, j: usize, v: &[F])
        requires place { at < self.old.width }
        requires list { j < length self.old.kept }
        requires combined { Combines F.scalars self.old.width self.old.basis (kept_at self.old j) (map F.number v.now) }
        ensures before { take at self.new.basis ≡ take at self.old.basis }
        ensures frame { IsFrame F.scalars self.new }
        ensures keeps { KeepsVectors F.scalars self.old self.new }
        ensures brought { drop at (kept_at self.old j) ≢ zero_vector F.scalars (length (drop at (kept_at self.old j)))
            → take (at + 1) self.new.basis ≡ take at self.old.basis ++ map F.number v.now ∷ [] }
    {
        if let Some(t) = lead_from(self.list(j), at) {
            self.pivot(t, j, v);
            self.swap(t, at);
        }
    }
}
