//! A list of pairs of edges.

ghost use Rattle.std.specs.Prelude.{◌≡◌, ◌<◌, [], ◌∷◌, ◌++◌, OnOk, OnErr, length, slice_index_or};

use std::alloc::{AllocError, Global};
use std::marker::Model;

/// A list of pairs of edges, by their numbers.
#[derive(Drop)]
pub struct EdgePairs {
    pairs: Vec<(usize, usize)>,
}

impl Model for EdgePairs {
    ghost use Rattle.std.specs.Prelude.{List, ℕ};

    ghost Value = { List (ℕ × ℕ) };

    ghost view = { λ l. l.pairs.items };
}

impl EdgePairs {
    /// No pair yet.
    pub fn new(alloc: Global) -> EdgePairs
        ensures { result ≡ [] }
    {
        EdgePairs {
            pairs: Vec::new(alloc),
        }
    }

    /// Puts a pair last. After want of memory the list is unchanged.
    pub fn push(&mut self, first: usize, second: usize) -> Result<(), AllocError>
        ensures ok { OnOk result (self.new ≡ self.old ++ (first, second) ∷ []) }
        ensures err { OnErr result (self.new ≡ self.old) }
    {
        self.pairs.push((first, second))?;
        Ok(())
    }

    /// How many pairs there are.
    pub fn len(&self) -> usize
        ensures { result ≡ length self.now }
    {
        self.pairs.len()
    }

    /// The pair at an index.
    pub fn at(&self, i: usize) -> (usize, usize)
        requires { i < length self.now }
        ensures { result ≡ slice_index_or self.now i (0, 0) }
    {
        self.pairs[i]
    }
}
