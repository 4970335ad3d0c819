//! A graph: vertices with names and classes, and edges.

ghost use Rattle.std.specs.Prelude.{◌≡◌, ◌<◌, ◌≤◌, ◌^◌, [], ◌∷◌, ◌++◌, None, Some, IfSome, IfNone, IfOk, OnOk, OnErr, length, slice_get, slice_set, slice_index_or};
ghost use Rattle.std.specs.List.{Contains};
ghost use Rattle.graph_core.specs.NamedGraphs.{IsNamedGraph, with_vertex};
ghost use Rattle.graph_theory.specs.Walks.{edge_at};

use indexmap::IndexMap;
use std::alloc::{AllocError, Global};
use std::marker::Model;

/// A graph. Vertices are numbered as their names came, edges as they came; loops and parallel edges are allowed. A vertex has one
/// class, or none.
#[derive(Drop)]
pub struct Graph {
    alloc: Global,
    vertices: IndexMap<Vec<u8>, Option<u32>>,
    ends: Vec<(usize, usize)>,
}

impl Model for Graph {
    ghost use Rattle.std.specs.Prelude.{map};
    ghost use Rattle.graph_core.specs.NamedGraphs.{NamedGraph, IsNamedGraph};

    ghost Value = { NamedGraph };

    ghost view = { λ g. record {
      names = map (λ v. v.0.items) g.vertices.entries;
      ends = g.ends.items;
      classes = map (λ v. v.1) g.vertices.entries;
    } };

    ghost invariant = { λ g. IsNamedGraph (record {
      names = map (λ v. v.0.items) g.vertices.entries;
      ends = g.ends.items;
      classes = map (λ v. v.1) g.vertices.entries;
    }) };
}

impl Graph {
    /// No vertex and no edge yet.
    pub fn new(alloc: Global) -> Graph
        ensures { result ≡ record { names = []; ends = []; classes = [] } }
    {
        Graph {
            alloc,
            vertices: IndexMap::new(alloc),
            ends: Vec::new(alloc),
        }
    }

    /// The number of the vertex with the name, which is put last where it is new, without a class. Want of memory comes only
    /// for a new name, and leaves the graph unchanged.
    pub fn vertex(&mut self, name: &[u8]) -> Result<usize, AllocError>
        ensures named { IfOk result (λ v. slice_get self.new.names v ≡ Some name.now) }
        ensures within { IfOk result (λ v. v < length self.new.names) }
        ensures known { Contains self.old.names name.now → self.new ≡ self.old }
        ensures added { ¬ (Contains self.old.names name.now) → OnOk result (self.new ≡ with_vertex self.old name.now) }
        ensures more { length self.old.names ≤ length self.new.names }
        ensures err { OnErr result (self.new ≡ self.old) }
        ensures absent { OnErr result (¬ (Contains self.old.names name.now)) }
    {
        match self.find(name) {
            Some(number) => Ok(number),
            None => self.add(name),
        }
    }

    /// The number of the vertex with the name, None where there is none.
    fn find(&self, name: &[u8]) -> Option<usize>
        ensures named { IfSome result (λ v. slice_get self.now.names v ≡ Some name.now) }
        ensures missing { IfNone result (¬ (Contains self.now.names name.now)) }
    {
        self.vertices.get_index_of(name)
    }

    /// Puts a vertex with a new name last, and gives its number. After want of memory the graph is unchanged.
    fn add(&mut self, name: &[u8]) -> Result<usize, AllocError>
        requires { ¬ (Contains self.old.names name.now) }
        ensures last { IfOk result (λ v. v ≡ length self.old.names) }
        ensures added { OnOk result (self.new ≡ with_vertex self.old name.now) }
        ensures err { OnErr result (self.new ≡ self.old) }
    {
        let number = self.vertices.len();
        let name = Vec::from_slice(self.alloc, name)?;
        self.vertices.insert(name, None)?;
        Ok(number)
    }

    /// Puts an edge last. After want of memory the graph is unchanged.
    pub fn edge(&mut self, first: usize, second: usize) -> Result<(), AllocError>
        requires first_vertex { first < length self.old.names }
        requires second_vertex { second < length self.old.names }
        ensures ok { OnOk result (self.new ≡ record self.old { ends = self.old.ends ++ (first, second) ∷ [] }) }
        ensures err { OnErr result (self.new ≡ self.old) }
    {
        self.ends.push((first, second))?;
        Ok(())
    }

    /// Puts a vertex without a class into a class.
    pub fn put_class(&mut self, vertex: usize, class: u32)
        requires vertex { vertex < length self.old.names }
        requires unclassed { slice_index_or self.old.classes vertex None ≡ None }
        ensures { self.new ≡ record self.old { classes = slice_set self.old.classes vertex (Some class) } }
    {
        self.vertices[vertex] = Some(class);
    }

    /// How many vertices there are.
    pub fn vertices(&self) -> usize
        ensures value { result ≡ length self.now.names }
        ensures graph { IsNamedGraph self.now }
        ensures small { result < 2 ^ 63 }
    {
        self.vertices.len()
    }

    /// How many edges there are.
    pub fn edges(&self) -> usize
        ensures value { result ≡ length self.now.ends }
        ensures graph { IsNamedGraph self.now }
        ensures small { result < 2 ^ 63 }
    {
        self.ends.len()
    }

    /// The two ends of an edge, as it was put.
    pub fn ends(&self, edge: usize) -> (usize, usize)
        requires { edge < length self.now.ends }
        ensures value { result ≡ edge_at self.now.ends edge }
        ensures first_vertex { result.0 < length self.now.names }
        ensures second_vertex { result.1 < length self.now.names }
    {
        self.ends[edge]
    }

    /// The name of a vertex.
    pub fn name(&self, vertex: usize) -> &[u8]
        requires { vertex < length self.now.names }
        ensures { result.now ≡ slice_index_or self.now.names vertex [] }
    {
        match self.vertices.get_index(vertex) {
            Some((name, _)) => name.as_slice(),
            None => &[],
        }
    }

    /// The class of a vertex, None where it is in no class.
    pub fn class(&self, vertex: usize) -> Option<u32>
        requires { vertex < length self.now.names }
        ensures { result ≡ slice_index_or self.now.classes vertex None }
    {
        self.vertices[vertex]
    }
}
