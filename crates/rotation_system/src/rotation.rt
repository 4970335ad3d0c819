//! Rotations.

ghost use Rattle.std.specs.Prelude.{◌≡◌, ◌<◌, [], length, slice_index_or};
ghost use Rattle.graph_theory.specs.Walks.{edge_at};
ghost use Rattle.rotation_system.specs.RotationSystems.{BeginsWithLeast, IsRotationSystem};

use crate::lists::Lists;
use std::marker::Model;

/// A rotation of edges that connect all vertices: for each vertex a cyclic list of the darts that leave it.
#[derive(Drop)]
pub struct Rotation {
    pub(crate) ends: Vec<(usize, usize)>,
    pub(crate) lists: Lists,
}

impl Model for Rotation {
    ghost use Rattle.rotation_system.specs.RotationSystems.{IsRotationSystem, RotationSystem};

    ghost Value = { RotationSystem };

    ghost view = { λ r. record { ends = r.ends.items; lists = r.lists } };

    ghost invariant = { λ r. IsRotationSystem (record { ends = r.ends.items; lists = r.lists }) };
}

impl Rotation {
    /// How many vertices there are.
    pub fn vertices(&self) -> usize
        ensures value { result ≡ length self.now.lists }
        ensures system { IsRotationSystem self.now }
    {
        self.lists.len()
    }

    /// How many edges there are, those that it doesn't hold as well.
    pub(crate) fn edges(&self) -> usize
        ensures { result ≡ length self.now.ends }
    {
        self.ends.len()
    }

    /// The two ends of an edge.
    pub(crate) fn ends(&self, edge: usize) -> (usize, usize)
        requires { edge < length self.now.ends }
        ensures value { result ≡ edge_at self.now.ends edge }
        ensures first_vertex { result.0 < length self.now.lists }
        ensures second_vertex { result.1 < length self.now.lists }
    {
        self.ends[edge]
    }

    /// The cyclic list of the darts that leave a vertex, from the least on.
    pub fn darts(&self, vertex: usize) -> &[u32]
        requires { vertex < length self.now.lists }
        ensures value { result.now ≡ slice_index_or self.now.lists vertex [] }
        ensures least { BeginsWithLeast result.now }
    {
        self.lists.at(vertex).as_slice()
    }
}
