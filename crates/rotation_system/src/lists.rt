//! The cyclic lists of darts of all vertices.

ghost use Rattle.std.specs.Prelude.{◌≡◌, ◌<◌, ◌+◌, ◌^◌, [], All, IfOk, OnErr, OnOk, length, replicate, slice_index_or, slice_set};
ghost use Rattle.rotation_system.specs.RotationSystems.{BeginsWithLeast};
ghost use Rattle.rotation_system.specs.DartPlaces.{IsPlace};
ghost use Rattle.rotation_system.specs.InsertedEdges.{second_place};
ghost use Rattle.rotation_system.specs.PlacedDarts.{ArePut, IsPutIn};

use crate::darts::Darts;
use std::alloc::{AllocError, Global};
use std::marker::Model;

/// A cyclic list of darts for each vertex.
#[derive(Drop)]
pub(crate) struct Lists {
    alloc: Global,
    lists: Vec<Darts>,
}

impl Model for Lists {
    ghost use Rattle.std.specs.Prelude.{List, ℕ};

    ghost Value = { List (List ℕ) };

    ghost view = { λ l. l.lists.items };
}

impl Lists {
    /// No dart at any vertex.
    pub(crate) fn new(alloc: Global, vertices: usize) -> Result<Lists, AllocError>
        ensures { IfOk result (λ lists. lists ≡ replicate vertices []) }
    {
        let mut lists = Vec::new(alloc);
        for _vertex in 0..vertices {
            lists.push(Darts::new(alloc))?;
        }
        Ok(Lists { alloc, lists })
    }

    /// The same lists.
    pub(crate) fn copy(&self) -> Result<Lists, AllocError>
        ensures { IfOk result (λ lists. lists ≡ self.now) }
    {
        let mut lists = Vec::new(self.alloc);
        for vertex in 0..self.len() {
            let list = self.at(vertex).copy(self.alloc)?;
            lists.push(list)?;
        }
        Ok(Lists {
            alloc: self.alloc,
            lists,
        })
    }

    /// The memory that the lists stand in.
    pub(crate) fn alloc(&self) -> Global {
        self.alloc
    }

    /// How many vertices there are.
    pub(crate) fn len(&self) -> usize
        ensures { result ≡ length self.now }
    {
        self.lists.len()
    }

    /// The list of a vertex.
    pub(crate) fn at(&self, vertex: usize) -> &Darts
        requires { vertex < length self.now }
        ensures { result.now ≡ slice_index_or self.now vertex [] }
    {
        &self.lists[vertex]
    }

    /// Puts the darts of an edge in. After want of memory the lists are unchanged.
    pub(crate) fn insert(
        &mut self,
        ends: (usize, usize),
        first_after: Option<u32>,
        second_after: Option<u32>,
        dart: u32,
    ) -> Result<(), AllocError>
        requires first_vertex { ends.0 < length self.old }
        requires second_vertex { ends.1 < length self.old }
        requires first_place { IsPlace (slice_index_or self.old ends.0 []) first_after }
        requires second_place { IsPlace (slice_index_or self.old ends.1 []) second_after }
        requires least { All BeginsWithLeast self.old }
        requires small { dart + 1 < 2 ^ 32 }
        ensures inserted { OnOk result (ArePut self.old ends first_after second_after dart self.new) }
        ensures least { All BeginsWithLeast self.new }
        ensures err { OnErr result (self.new ≡ self.old) }
    {
        let place = place_of_second(ends, first_after, second_after, dart);
        let old = self.put(ends.0, first_after, dart)?;
        match self.put(ends.1, place, dart + 1) {
            Ok(_) => Ok(()),
            Err(error) => {
                self.exchange(ends.0, old);
                Err(error)
            }
        }
    }

    /// Puts a dart in, and gives the old list of its vertex. After want of memory the lists are unchanged.
    fn put(&mut self, vertex: usize, place: Option<u32>, dart: u32) -> Result<Darts, AllocError>
        requires vertex { vertex < length self.old }
        requires place { IsPlace (slice_index_or self.old vertex []) place }
        requires least { All BeginsWithLeast self.old }
        ensures put { OnOk result (IsPutIn self.old vertex place dart self.new) }
        ensures old { IfOk result (λ old. old ≡ slice_index_or self.old vertex []) }
        ensures least { All BeginsWithLeast self.new }
        ensures err { OnErr result (self.new ≡ self.old) }
    {
        let darts = self.at(vertex).with(self.alloc, place, dart)?;
        let old = self.exchange(vertex, darts);
        Ok(old)
    }

    /// Puts another list at a vertex, and gives the old one.
    fn exchange(&mut self, vertex: usize, darts: Darts) -> Darts
        requires { vertex < length self.old }
        ensures after { self.new ≡ slice_set self.old vertex darts }
        ensures old { result ≡ slice_index_or self.old vertex [] }
    {
        std::mem::replace(&mut self.lists[vertex], darts)
    }
}

/// The place of the second dart once the first is in.
fn place_of_second(
    ends: (usize, usize),
    first_after: Option<u32>,
    second_after: Option<u32>,
    dart: u32,
) -> Option<u32>
    ensures { result ≡ second_place ends first_after second_after dart }
{
    if ends.0 != ends.1 {
        return second_after;
    }
    match (first_after, second_after) {
        (None, None) => Some(dart),
        (Some(x), Some(y)) => Some(if x == y { dart } else { y }),
        _ => second_after,
    }
}
