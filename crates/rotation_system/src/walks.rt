//! Face walks: the orbits of the successor of a dart's reverse.

ghost use Rattle.std.specs.Prelude.{◌≡◌, ◌<◌, ◌≤◌, ◌↔◌, ◌+◌, ◌*◌, ◌^◌, ◌-◌, ℕ, [], ◌∷◌, IfOk, IsTrue, false, true, length, replicate, slice_index_or, slice_set};
ghost use Rattle.graph_theory.specs.Walks.{edge_at};
ghost use Rattle.edge_lists.specs.Connections.{one_component};
ghost use Rattle.edge_lists.specs.Occurrences.{count, count_all, keep};
ghost use Rattle.rotation_theory.specs.CyclicLists.{arc, arcs, empties};
ghost use Rattle.rotation_theory.specs.Darts.{dart, edge, rev, tail};
ghost use Rattle.rotation_theory.specs.Genus.{HasFaces, HasGenus};
ghost use Rattle.rotation_system.specs.RotationSystems.{held};
ghost use Rattle.rotation_system.specs.Traces.{AreOnOneFace, AreTraced, KeepsMarks, is_marked};

use crate::Rotation;
use crate::darts::index_of;
use std::alloc::{AllocError, Global};

impl Rotation {
    /// How many faces there are: the orbits of `next`, where the next of a dart is the successor of its reverse, and one face for each
    /// vertex without darts.
    pub fn faces(&self, alloc: Global) -> Result<usize, AllocError>
        ensures { IfOk result (HasFaces self.now.lists) }
    {
        let _vertices = self.vertices();
        let mut seen = unseen(alloc, 2 * self.edges())?;
        let mut traced = 0;
        for vertex in 0..self.vertices() {
            traced += self.trace_at(vertex, &mut seen);
        }
        Ok(traced + self.empties())
    }

    /// The genus g, with V - E + F = 2c - 2g, where c is one, or none where there is no vertex.
    pub fn genus(&self, alloc: Global) -> Result<usize, AllocError>
        ensures { IfOk result (HasGenus (length self.now.lists) (held self.now) self.now.lists) }
    {
        let _vertices = self.vertices();
        let faces = self.faces(alloc)?;
        let twice = self.held() + 2 * self.components() - self.vertices() - faces;
        Ok(twice / 2)
    }

    /// One, or none where there is no vertex.
    fn components(&self) -> usize
        ensures value { result ≡ one_component (length self.now.lists) }
        ensures few { result ≤ 1 }
    {
        if self.vertices() == 0 { 0 } else { 1 }
    }

    /// How many edges it holds.
    fn held(&self) -> usize
        ensures value { result ≡ length (held self.now) }
        ensures few { result ≤ length self.now.ends }
    {
        let mut held = 0;
        for edge in 0..self.edges() {
            held += self.held_at(edge);
        }
        held
    }

    /// One where it holds the edge, and zero elsewhere.
    fn held_at(&self, edge: usize) -> usize
        requires { edge < length self.now.ends }
        ensures few { result ≤ 1 }
        ensures value { result ≡ length (keep (λ e. 1 - count_all (dart e) self.now.lists) (edge ∷ [])) }
    {
        if self.holds(edge) { 1 } else { 0 }
    }

    /// Whether it holds an edge.
    fn holds(&self, edge: usize) -> bool
        requires { edge < length self.now.ends }
        ensures { IsTrue result ↔ (1 ≤ count_all (dart edge) self.now.lists) }
    {
        let _vertices = self.vertices();
        stands(self.darts(self.ends(edge).0), first_dart(edge))
    }

    /// How many vertices have no darts.
    fn empties(&self) -> usize
        ensures { result ≡ empties self.now.lists }
    {
        let mut empty = 0;
        for vertex in 0..self.vertices() {
            empty += self.empty_at(vertex);
        }
        empty
    }

    /// One where the vertex has no darts, and zero elsewhere.
    fn empty_at(&self, vertex: usize) -> usize
        requires { vertex < length self.now.lists }
        ensures few { result ≤ 1 }
        ensures value { result ≡ empties (slice_index_or self.now.lists vertex [] ∷ []) }
    {
        if self.darts(vertex).len() == 0 { 1 } else { 0 }
    }

    /// Traces the faces of the darts of a vertex that have no mark, and gives how many.
    fn trace_at(&self, vertex: usize, seen: &mut Vec<bool>) -> usize
        requires vertex { vertex < length self.now.lists }
        requires long { length seen.old.items ≡ 2 * length self.now.ends }
        ensures long { length seen.new.items ≡ length seen.old.items }
        ensures traced { (n : ℕ) → AreTraced self.now.lists seen.old.items n → AreTraced self.now.lists seen.new.items (n + result) }
        ensures kept { KeepsMarks seen.old.items seen.new.items }
        ensures marked { (d : ℕ) → 1 ≤ count d (slice_index_or self.now.lists vertex []) → IsTrue (is_marked seen.new.items d) }
    {
        let _vertices = self.vertices();
        let darts = self.darts(vertex);
        let mut traced = 0;
        for i in 0..darts.len() {
            traced += self.trace_from(darts[i], seen);
        }
        traced
    }

    /// Traces the face of a dart that has no mark, and gives how many faces that is.
    fn trace_from(&self, dart: u32, seen: &mut Vec<bool>) -> usize
        requires held { 1 ≤ count_all dart self.now.lists }
        requires long { length seen.old.items ≡ 2 * length self.now.ends }
        ensures few { result ≤ 1 }
        ensures long { length seen.new.items ≡ length seen.old.items }
        ensures traced { (n : ℕ) → AreTraced self.now.lists seen.old.items n → AreTraced self.now.lists seen.new.items (n + result) }
        ensures kept { KeepsMarks seen.old.items seen.new.items }
        ensures marked { IsTrue (is_marked seen.new.items dart) }
    {
        let _vertices = self.vertices();
        if is_seen(seen, dart) {
            return 0;
        }
        self.trace_face(dart, seen);
        1
    }

    /// Marks the darts of the face of a dart without a mark.
    fn trace_face(&self, dart: u32, seen: &mut Vec<bool>)
        requires held { 1 ≤ count_all dart self.now.lists }
        requires long { length seen.old.items ≡ 2 * length self.now.ends }
        requires new { is_marked seen.old.items dart ≡ false }
        ensures long { length seen.new.items ≡ length seen.old.items }
        ensures traced { (n : ℕ) → AreTraced self.now.lists seen.old.items n → AreTraced self.now.lists seen.new.items (n + 1) }
        ensures kept { KeepsMarks seen.old.items seen.new.items }
        ensures marked { IsTrue (is_marked seen.new.items dart) }
    {
        let _vertices = self.vertices();
        let mut at = dart;
        'walk: while !is_seen(seen, at) {
            mark(seen, at);
            at = self.next(at);
        }
    }

    /// Whether two darts are on one face.
    pub(crate) fn on_one_face(
        &self,
        alloc: Global,
        first: u32,
        second: u32,
    ) -> Result<bool, AllocError>
        requires first { 1 ≤ count_all first self.now.lists }
        requires second { 1 ≤ count_all second self.now.lists }
        ensures { IfOk result (AreOnOneFace self.now.lists first second) }
    {
        let _vertices = self.vertices();
        let mut seen = unseen(alloc, 2 * self.edges())?;
        self.trace_face(first, &mut seen);
        Ok(is_seen(&seen, second))
    }

    /// The dart after this one on its face: the successor of its reverse.
    fn next(&self, dart: u32) -> u32
        requires { 1 ≤ count_all dart self.now.lists }
        ensures { 1 ≤ arcs (rev dart) result self.now.lists }
    {
        let _vertices = self.vertices();
        let reverse = reverse(dart);
        after(self.darts(self.tail(reverse)), reverse)
    }

    /// The dart before this one at its vertex.
    pub(crate) fn before(&self, dart: u32) -> u32
        requires { 1 ≤ count_all dart self.now.lists }
        ensures { 1 ≤ arcs result dart self.now.lists }
    {
        let _vertices = self.vertices();
        previous(self.darts(self.tail(dart)), dart)
    }

    /// The vertex that a dart leaves.
    pub(crate) fn tail(&self, dart: u32) -> usize
        requires { edge dart < length self.now.ends }
        ensures value { result ≡ tail (edge_at self.now.ends) dart }
        ensures vertex { result < length self.now.lists }
    {
        let _vertices = self.vertices();
        let ends = self.ends((dart / 2) as usize);
        if dart % 2 == 0 { ends.0 } else { ends.1 }
    }
}

/// No mark at so many darts.
fn unseen(alloc: Global, darts: usize) -> Result<Vec<bool>, AllocError>
    ensures { IfOk result (λ seen. seen.items ≡ replicate darts false) }
{
    let seen = Vec::from_elem(alloc, false, darts)?;
    Ok(seen)
}

/// Whether a dart has a mark.
fn is_seen(seen: &Vec<bool>, dart: u32) -> bool
    requires { dart < length seen.now.items }
    ensures { result ≡ is_marked seen.now.items dart }
{
    seen[dart as usize]
}

/// Marks a dart.
fn mark(seen: &mut Vec<bool>, dart: u32)
    requires { dart < length seen.old.items }
    ensures { seen.new.items ≡ slice_set seen.old.items dart true }
{
    seen[dart as usize] = true;
}

/// The dart that leaves the first end of an edge.
pub(crate) fn first_dart(edge: usize) -> u32
    requires { edge < 2 ^ 31 }
    ensures value { result ≡ dart edge }
    ensures small { result + 1 < 2 ^ 32 }
{
    2 * edge as u32
}

/// The other dart of the same edge.
pub(crate) fn reverse(dart: u32) -> u32
    requires { edge dart < 2 ^ 31 }
    ensures { result ≡ rev dart }
{
    if dart % 2 == 0 { dart + 1 } else { dart - 1 }
}

/// Whether a dart stands in the list.
fn stands(darts: &[u32], dart: u32) -> bool
    ensures { IsTrue result ↔ (1 ≤ count dart darts.now) }
{
    for i in 0..darts.len() {
        if darts[i] == dart {
            return true;
        }
    }
    false
}

/// The dart after this one in the cyclic list.
fn after(darts: &[u32], dart: u32) -> u32
    requires { 1 ≤ count dart darts.now }
    ensures { 1 ≤ arc dart result darts.now }
{
    let next = index_of(darts, dart) + 1;
    if next < darts.len() {
        darts[next]
    } else {
        darts[0]
    }
}

/// The dart before this one in the cyclic list.
fn previous(darts: &[u32], dart: u32) -> u32
    requires { 1 ≤ count dart darts.now }
    ensures { 1 ≤ arc result dart darts.now }
{
    let index = index_of(darts, dart);
    if index > 0 {
        darts[index - 1]
    } else {
        darts[darts.len() - 1]
    }
}
