//! A list of sets of lines.

ghost use Rattle.std.specs.Prelude.{◌≡◌, ◌≢◌, ◌<◌, [], ◌∷◌, ◌++◌, All, OnOk, OnErr, IfErr, length, slice_index_or};
ghost use Rattle.parity_lines.specs.PartLists.{ArePartLists};

use crate::LineSet;
use std::alloc::{AllocFailed, Global};
use std::marker::Model;

/// A list of parts, which are sets of lines that aren't empty.
#[derive(Drop)]
pub struct Parts {
    parts: Vec<LineSet>,
}

impl Model for Parts {
    ghost use Rattle.std.specs.Prelude.{List, ℕ};
    ghost use Rattle.parity_lines.specs.PartLists.{ArePartLists};

    ghost Value = { List (List ℕ) };

    ghost view = { λ p. p.parts.items };

    ghost invariant = { λ p. ArePartLists p.parts.items };
}

impl Parts {
    /// No part yet.
    pub fn new(alloc: Global) -> Parts
        ensures { result ≡ [] }
    {
        Parts {
            parts: Vec::new(alloc),
        }
    }

    /// Puts a part last. After want of memory the list is unchanged, and the part is handed back.
    pub fn push(&mut self, part: LineSet) -> Result<(), AllocFailed<LineSet>>
        requires { part ≢ [] }
        ensures ok { OnOk result (self.new ≡ self.old ++ part ∷ []) }
        ensures err { OnErr result (self.new ≡ self.old) }
        ensures back { IfErr result (λ failed. failed.value ≡ part) }
    {
        let _increasing = part.len();
        self.parts.push(part)
    }

    /// How many parts there are.
    pub fn len(&self) -> usize
        ensures value { result ≡ length self.now }
        ensures parts { ArePartLists self.now }
    {
        self.parts.len()
    }

    /// The part at an index.
    pub fn at(&self, i: usize) -> &LineSet
        requires { i < length self.now }
        ensures { result.now ≡ slice_index_or self.now i [] }
    {
        &self.parts[i]
    }
}
