//! Marks of edges.

ghost use Rattle.std.specs.Prelude.{◌≡◌, ◌<◌, IfOk, All, true, false, length, replicate, slice_set};
ghost use Rattle.cographic.specs.Cycles.{is_marked, MarkMembers};

use graph_core::EdgeList;
use std::alloc::{AllocError, Global};
use std::marker::Model;

/// A mark for each edge.
#[derive(Drop)]
pub(crate) struct Marks {
    marks: Vec<bool>,
}

impl Model for Marks {
    ghost use Rattle.std.specs.Prelude.{List, Bool};

    ghost Value = { List Bool };

    ghost view = { λ m. m.marks.items };
}

impl Marks {
    /// Marks of so many edges, at the members of the list.
    pub(crate) fn of(alloc: Global, edges: usize, list: &EdgeList) -> Result<Marks, AllocError>
        requires { All (λ e. e < edges) list.now }
        ensures count { IfOk result (λ marks. length marks ≡ edges) }
        ensures members { IfOk result (MarkMembers list.now) }
    {
        let mut marks = Marks {
            marks: Vec::from_elem(alloc, false, edges)?,
        };
        marks.mark_all(list);
        Ok(marks)
    }

    /// Marks the members of the list.
    fn mark_all(&mut self, list: &EdgeList)
        requires edges { All (λ e. e < length self.old) list.now }
        requires none { self.old ≡ replicate (length self.old) false }
        ensures count { length self.new ≡ length self.old }
        ensures members { MarkMembers list.now self.new }
    {
        for i in 0..list.len() {
            self.mark(list.at(i));
        }
    }

    /// Marks one more edge.
    pub(crate) fn mark(&mut self, edge: usize)
        requires { edge < length self.old }
        ensures { self.new ≡ slice_set self.old edge true }
    {
        self.marks[edge] = true;
    }

    /// Whether the edge is marked.
    pub(crate) fn holds(&self, edge: usize) -> bool
        requires { edge < length self.now }
        ensures { result ≡ is_marked self.now edge }
    {
        self.marks[edge]
    }
}
