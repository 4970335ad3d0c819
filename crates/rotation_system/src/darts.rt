//! The cyclic list of darts at a vertex.

ghost use Rattle.std.specs.Prelude.{◌≡◌, ◌<◌, ◌≤◌, ◌↔◌, IsTrue, [], ◌∷◌, ◌++◌, IfOk, length, slice_index};
ghost use Rattle.edge_lists.specs.Occurrences.{count};
ghost use Rattle.rotation_system.specs.RotationSystems.{BeginsWithLeast};
ghost use Rattle.rotation_system.specs.DartPlaces.{IsPlace};
ghost use Rattle.rotation_system.specs.PlacedDarts.{IsAfter, IsPut};

use std::alloc::{AllocError, Global};
use std::marker::Model;

/// The darts at a vertex, from the least on.
#[derive(Drop)]
pub(crate) struct Darts {
    darts: Vec<u32>,
}

impl Model for Darts {
    ghost use Rattle.std.specs.Prelude.{List, ℕ};

    ghost Value = { List ℕ };

    ghost view = { λ d. d.darts.items };
}

impl Darts {
    /// No dart.
    pub(crate) fn new(alloc: Global) -> Darts
        ensures { result ≡ [] }
    {
        Darts {
            darts: Vec::new(alloc),
        }
    }

    /// The same darts.
    pub(crate) fn copy(&self, alloc: Global) -> Result<Darts, AllocError>
        ensures { IfOk result (λ darts. darts ≡ self.now) }
    {
        let darts = Vec::from_slice(alloc, self.darts.as_slice())?;
        Ok(Darts { darts })
    }

    /// The darts.
    pub(crate) fn as_slice(&self) -> &[u32]
        ensures { result.now ≡ self.now }
    {
        self.darts.as_slice()
    }

    /// The last dart, None where there is none.
    pub(crate) fn last(&self) -> Option<u32>
        ensures { IsPlace self.now result }
    {
        self.darts.last().copied()
    }

    /// The darts with one more, directly after the place.
    pub(crate) fn with(
        &self,
        alloc: Global,
        place: Option<u32>,
        dart: u32,
    ) -> Result<Darts, AllocError>
        requires place { IsPlace self.now place }
        requires least { BeginsWithLeast self.now }
        ensures put { IfOk result (IsPut place dart self.now) }
        ensures least { IfOk result BeginsWithLeast }
    {
        let index = self.after(place);
        let darts = self.as_slice();
        let (front, back) = darts.split_at(index);
        if begins_below(darts, dart) {
            between(alloc, front, dart, back)
        } else {
            ahead(alloc, dart, back, front)
        }
    }

    /// The index after the place.
    fn after(&self, place: Option<u32>) -> usize
        requires { IsPlace self.now place }
        ensures { IsAfter self.now place result }
    {
        match place {
            None => 0,
            Some(dart) => index_of(self.as_slice(), dart) + 1,
        }
    }
}

/// Whether the first dart of the list is below this one.
fn begins_below(darts: &[u32], dart: u32) -> bool
    ensures { IsTrue result ↔ ((0 < length darts.now) × (slice_index darts.now 0 < dart)) }
{
    !darts.is_empty() && darts[0] < dart
}

/// The dart between two lists.
fn between(alloc: Global, front: &[u32], dart: u32, back: &[u32]) -> Result<Darts, AllocError>
    ensures { IfOk result (λ darts. darts ≡ front.now ++ dart ∷ back.now) }
{
    let mut darts = Vec::from_slice(alloc, front)?;
    darts.push(dart)?;
    darts.extend_from_slice(back)?;
    Ok(Darts { darts })
}

/// The dart ahead of two lists.
fn ahead(alloc: Global, dart: u32, back: &[u32], front: &[u32]) -> Result<Darts, AllocError>
    ensures { IfOk result (λ darts. darts ≡ dart ∷ back.now ++ front.now) }
{
    let mut darts = Vec::new(alloc);
    darts.push(dart)?;
    darts.extend_from_slice(back)?;
    darts.extend_from_slice(front)?;
    Ok(Darts { darts })
}

/// The index of a dart that stands among the darts.
pub(crate) fn index_of(darts: &[u32], dart: u32) -> usize
    requires { 1 ≤ count dart darts.now }
    ensures within { result < length darts.now }
    ensures found { slice_index darts.now result ≡ dart }
{
    for i in 0..darts.len() {
        if darts[i] == dart {
            return i;
        }
    }
    0
}
