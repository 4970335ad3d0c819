//! A list of edges.

ghost use Rattle.std.specs.Prelude.{◌≡◌, ◌<◌, [], ◌∷◌, ◌++◌, OnOk, OnErr, length, slice_index};

use std::alloc::{AllocError, Global};
use std::marker::Model;

/// A list of edges, by their numbers.
#[derive(Drop)]
pub struct EdgeList {
    edges: Vec<usize>,
}

impl Model for EdgeList {
    ghost use Rattle.std.specs.Prelude.{List, ℕ};

    ghost Value = { List ℕ };

    ghost view = { λ l. l.edges.items };
}

impl EdgeList {
    /// No edge yet.
    pub fn new(alloc: Global) -> EdgeList
        ensures { result ≡ [] }
    {
        EdgeList {
            edges: Vec::new(alloc),
        }
    }

    /// Puts an edge last. After want of memory the list is unchanged.
    pub fn push(&mut self, item: usize) -> Result<(), AllocError>
        ensures ok { OnOk result (self.new ≡ self.old ++ item ∷ []) }
        ensures err { OnErr result (self.new ≡ self.old) }
    {
        self.edges.push(item)?;
        Ok(())
    }

    /// How many edges there are.
    pub fn len(&self) -> usize
        ensures { result ≡ length self.now }
    {
        self.edges.len()
    }

    /// The edge at an index.
    pub fn at(&self, i: usize) -> usize
        requires { i < length self.now }
        ensures { result ≡ slice_index self.now i }
    {
        self.edges[i]
    }
}
