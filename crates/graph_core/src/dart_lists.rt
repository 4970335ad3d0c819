//! A list of lists of darts.

ghost use Rattle.std.specs.Prelude.{◌≡◌, ◌<◌, [], ◌∷◌, ◌++◌, OnOk, OnErr, length, slice_index_or};

use std::alloc::{AllocError, Global};
use std::marker::Model;

/// A list of lists of darts: dart 2e leaves the first end of edge e, and dart 2e + 1 the second.
#[derive(Drop)]
pub struct DartLists {
    alloc: Global,
    lists: Vec<Vec<u32>>,
}

impl Model for DartLists {
    ghost use Rattle.std.specs.Prelude.{List, ℕ, map};

    ghost Value = { List (List ℕ) };

    ghost view = { λ l. map (λ v. v.items) l.lists.items };
}

impl DartLists {
    /// No list yet.
    pub fn new(alloc: Global) -> DartLists
        ensures { result ≡ [] }
    {
        DartLists {
            alloc,
            lists: Vec::new(alloc),
        }
    }

    /// Puts a list of these darts last. After want of memory the lists are unchanged.
    pub fn push(&mut self, darts: &[u32]) -> Result<(), AllocError>
        ensures ok { OnOk result (self.new ≡ self.old ++ darts.now ∷ []) }
        ensures err { OnErr result (self.new ≡ self.old) }
    {
        let list = Vec::from_slice(self.alloc, darts)?;
        self.lists.push(list)?;
        Ok(())
    }

    /// How many lists there are.
    pub fn len(&self) -> usize
        ensures { result ≡ length self.now }
    {
        self.lists.len()
    }

    /// The list at an index.
    pub fn at(&self, i: usize) -> &[u32]
        requires { i < length self.now }
        ensures { result.now ≡ slice_index_or self.now i [] }
    {
        self.lists[i].as_slice()
    }
}
