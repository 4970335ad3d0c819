//! A table of neighbours.

ghost use Rattle.std.specs.Prelude.{◌≡◌, ◌<◌, [], ◌∷◌, ◌++◌, IfOk, All, length, slice_index_or};
ghost use Rattle.graph_core.specs.Gathered.{is_marked, marked_by, IsRow, AreRows};

use crate::Graph;
use std::alloc::{AllocError, Global};
use std::marker::Model;

/// A mark for each vertex.
#[derive(Drop)]
struct Row {
    marks: Vec<bool>,
}

impl Model for Row {
    ghost use Rattle.std.specs.Prelude.{List, Bool};

    ghost Value = { List Bool };

    ghost view = { λ r. r.marks.items };
}

/// For each vertex a row of marks, at its neighbours.
#[derive(Drop)]
pub(crate) struct Neighbours {
    rows: Vec<Row>,
}

impl Model for Neighbours {
    ghost use Rattle.std.specs.Prelude.{List, Bool};

    ghost Value = { List (List Bool) };

    ghost view = { λ n. n.rows.items };
}

impl Neighbours {
    /// The neighbours of all vertices.
    pub(crate) fn of(alloc: Global, graph: &Graph) -> Result<Neighbours, AllocError>
        ensures count { IfOk result (λ rows. length rows ≡ length graph.now.names) }
        ensures square { IfOk result (λ rows. All (λ row. length row ≡ length graph.now.names) rows) }
        ensures marks { IfOk result (AreRows graph.now.ends (length graph.now.names)) }
    {
        let mut rows = Vec::new(alloc);
        for vertex in 0..graph.vertices() {
            rows.push(neighbours_of(alloc, graph, vertex)?)?;
        }
        Ok(Neighbours { rows })
    }

    /// How many vertices there are.
    pub(crate) fn len(&self) -> usize
        ensures { result ≡ length self.now }
    {
        self.rows.len()
    }

    /// Whether the second is a neighbour of the first.
    pub(crate) fn adjacent(&self, first: usize, second: usize) -> bool
        requires first_vertex { first < length self.now }
        requires second_vertex { second < length (slice_index_or self.now first []) }
        ensures { result ≡ is_marked self.now first second }
    {
        self.rows[first].marks[second]
    }
}

/// The marks at the neighbours of a vertex.
fn neighbours_of(alloc: Global, graph: &Graph, vertex: usize) -> Result<Row, AllocError>
    ensures count { IfOk result (λ row. length row ≡ length graph.now.names) }
    ensures marks { IfOk result (IsRow graph.now.ends (length graph.now.names) vertex) }
{
    let mut marks = Vec::from_elem(alloc, false, graph.vertices())?;
    for edge in 0..graph.edges() {
        mark(&mut marks, graph.ends(edge), vertex);
    }
    Ok(Row { marks })
}

/// Marks the other end of an edge that has the vertex as an end.
fn mark(marks: &mut Vec<bool>, ends: (usize, usize), vertex: usize)
    requires first_vertex { ends.0 < length marks.old.items }
    requires second_vertex { ends.1 < length marks.old.items }
    ensures { marks.new.items ≡ marked_by marks.old.items ends vertex }
{
    if ends.0 == vertex {
        marks[ends.1] = true;
    }
    if ends.1 == vertex {
        marks[ends.0] = true;
    }
}
