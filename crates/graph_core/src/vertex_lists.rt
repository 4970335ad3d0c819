//! A list of lists of vertices.

ghost use Rattle.std.specs.Prelude.{◌≡◌, ◌<◌, [], ◌∷◌, ◌++◌, OnOk, OnErr, IfErr, length, slice_index_or};

use crate::VertexList;
use std::alloc::{AllocFailed, Global};
use std::marker::Model;

/// A list of lists of vertices.
#[derive(Drop)]
pub struct VertexLists {
    lists: Vec<VertexList>,
}

impl Model for VertexLists {
    ghost use Rattle.std.specs.Prelude.{List, ℕ};

    ghost Value = { List (List ℕ) };

    ghost view = { λ l. l.lists.items };
}

impl VertexLists {
    /// No list yet.
    pub fn new(alloc: Global) -> VertexLists
        ensures { result ≡ [] }
    {
        VertexLists {
            lists: Vec::new(alloc),
        }
    }

    /// Puts a list last. After want of memory the lists are unchanged, and the list is handed back.
    pub fn push(&mut self, list: VertexList) -> Result<(), AllocFailed<VertexList>>
        ensures ok { OnOk result (self.new ≡ self.old ++ list ∷ []) }
        ensures err { OnErr result (self.new ≡ self.old) }
        ensures back { IfErr result (λ failed. failed.value ≡ list) }
    {
        self.lists.push(list)
    }

    /// How many lists there are.
    pub fn len(&self) -> usize
        ensures { result ≡ length self.now }
    {
        self.lists.len()
    }

    /// The list at an index.
    pub fn at(&self, i: usize) -> &VertexList
        requires { i < length self.now }
        ensures { result.now ≡ slice_index_or self.now i [] }
    {
        &self.lists[i]
    }
}
