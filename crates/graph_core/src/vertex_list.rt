//! A list of vertices.

ghost use Rattle.std.specs.Prelude.{◌≡◌, ◌<◌, [], ◌∷◌, ◌++◌, OnOk, OnErr, length, slice_index};

use std::alloc::{AllocError, Global};
use std::marker::Model;

/// A list of vertices, by their numbers.
#[derive(Drop)]
pub struct VertexList {
    vertices: Vec<usize>,
}

impl Model for VertexList {
    ghost use Rattle.std.specs.Prelude.{List, ℕ};

    ghost Value = { List ℕ };

    ghost view = { λ l. l.vertices.items };
}

impl VertexList {
    /// No vertex yet.
    pub fn new(alloc: Global) -> VertexList
        ensures { result ≡ [] }
    {
        VertexList {
            vertices: Vec::new(alloc),
        }
    }

    /// The list of these.
    pub(crate) fn of(vertices: Vec<usize>) -> VertexList
        ensures { result ≡ vertices.items }
    {
        VertexList { vertices }
    }

    /// Puts a vertex last. After want of memory the list is unchanged.
    pub fn push(&mut self, item: usize) -> Result<(), AllocError>
        ensures ok { OnOk result (self.new ≡ self.old ++ item ∷ []) }
        ensures err { OnErr result (self.new ≡ self.old) }
    {
        self.vertices.push(item)?;
        Ok(())
    }

    /// How many vertices there are.
    pub fn len(&self) -> usize
        ensures { result ≡ length self.now }
    {
        self.vertices.len()
    }

    /// The vertex at an index.
    pub fn at(&self, i: usize) -> usize
        requires { i < length self.now }
        ensures { result ≡ slice_index self.now i }
    {
        self.vertices[i]
    }
}
