//! Pairs of edges put into a rotation with one face.

ghost use Rattle.std.specs.Prelude.{◌≡◌, ◌≢◌, ◌<◌, ◌≤◌, ◌+◌, ℕ, [], ◌∷◌, IfOk, OnErr, OnOk, length};
ghost use Rattle.graph_theory.specs.Walks.{edge_at};
ghost use Rattle.edge_lists.specs.EdgePairs.{HaveCommonEnd};
ghost use Rattle.edge_lists.specs.Occurrences.{count, count_all};
ghost use Rattle.rotation_theory.specs.Darts.{dart, edge, rev, tail};
ghost use Rattle.rotation_theory.specs.Genus.{HasFaces, HasGenus};
ghost use Rattle.rotation_system.specs.RotationSystems.{held};
ghost use Rattle.rotation_system.specs.InsertedEdges.{HoldsMore};
ghost use Rattle.rotation_system.specs.TwoFaces.{AreApart};

use crate::Rotation;
use crate::growth::last_at;
use crate::walks::{first_dart, reverse};
use std::alloc::{AllocError, Global};

impl Rotation {
    /// Puts in two edges with a common end, where there is one face: then there is again one, and the genus is one larger. After want of
    /// memory the rotation is unchanged.
    pub fn insert_pair(&mut self, first: usize, second: usize) -> Result<(), AllocError>
        requires first_edge { first < length self.old.ends }
        requires second_edge { second < length self.old.ends }
        requires different { first ≢ second }
        requires meet { HaveCommonEnd (edge_at self.old.ends) first second }
        requires first_new { count first (held self.old) ≡ 0 }
        requires second_new { count second (held self.old) ≡ 0 }
        requires one_face { HasFaces self.old.lists 1 }
        ensures held { OnOk result (HoldsMore self.old (first ∷ second ∷ []) self.new) }
        ensures faces { OnOk result (HasFaces self.new.lists 1) }
        ensures genus { OnOk result ((g : ℕ) → HasGenus (length self.old.lists) (held self.old) self.old.lists g
            → HasGenus (length self.new.lists) (held self.new) self.new.lists (g + 1)) }
        ensures err { OnErr result (self.new ≡ self.old) }
    {
        let _vertices = self.vertices();
        let mut grown = self.copy()?;
        grown.insert_meeting(first, second)?;
        std::mem::swap(self, &mut grown);
        Ok(())
    }

    /// The same rotation.
    fn copy(&self) -> Result<Rotation, AllocError>
        ensures { IfOk result (λ r. r ≡ self.now) }
    {
        let lists = self.lists.copy()?;
        let ends = Vec::from_slice(self.lists.alloc(), self.ends.as_slice())?;
        Ok(Rotation { ends, lists })
    }

    /// Puts in the two edges, so that the second one joins the two faces that the first one makes.
    fn insert_meeting(&mut self, first: usize, second: usize) -> Result<(), AllocError>
        requires first_edge { first < length self.old.ends }
        requires second_edge { second < length self.old.ends }
        requires different { first ≢ second }
        requires meet { HaveCommonEnd (edge_at self.old.ends) first second }
        requires first_new { count first (held self.old) ≡ 0 }
        requires second_new { count second (held self.old) ≡ 0 }
        requires one_face { HasFaces self.old.lists 1 }
        ensures held { OnOk result (HoldsMore self.old (first ∷ second ∷ []) self.new) }
        ensures faces { OnOk result (HasFaces self.new.lists 1) }
    {
        let _vertices = self.vertices();
        self.split_face(first)?;
        let (p, q) = self.meeting_darts(first, second);
        let far = self.dart_at(self.tail(reverse(q)));
        let near = self.corner_apart(p, far)?;
        self.join_faces(second, q, near, far)?;
        Ok(())
    }

    /// Puts in an edge, which makes two faces of one.
    fn split_face(&mut self, first: usize) -> Result<(), AllocError>
        requires first { first < length self.old.ends }
        requires new { count first (held self.old) ≡ 0 }
        requires one_face { HasFaces self.old.lists 1 }
        ensures held { OnOk result (HoldsMore self.old (first ∷ []) self.new) }
        ensures apart { OnOk result (AreApart self.new.lists (dart first) (rev (dart first))) }
    {
        let _vertices = self.vertices();
        let ends = self.ends(first);
        let first_after = last_at(&self.lists, ends.0);
        let second_after = last_at(&self.lists, ends.1);
        self.put_edge(first, first_after, second_after)?;
        Ok(())
    }

    /// A dart of the first edge and one of the second that leave one vertex.
    fn meeting_darts(&self, first: usize, second: usize) -> (u32, u32)
        requires first_edge { first < length self.now.ends }
        requires second_edge { second < length self.now.ends }
        requires meet { HaveCommonEnd (edge_at self.now.ends) first second }
        ensures first { edge result.0 ≡ first }
        ensures second { edge result.1 ≡ second }
        ensures meet { tail (edge_at self.now.ends) result.0 ≡ tail (edge_at self.now.ends) result.1 }
    {
        let _vertices = self.vertices();
        let (a, b) = (self.ends(first), self.ends(second));
        let p = first_dart(first);
        let q = first_dart(second);
        if a.0 == b.0 {
            (p, q)
        } else if a.0 == b.1 {
            (p, q + 1)
        } else if a.1 == b.0 {
            (p + 1, q)
        } else {
            (p + 1, q + 1)
        }
    }

    /// A dart that leaves the vertex, where an edge is held.
    fn dart_at(&self, vertex: usize) -> u32
        requires vertex { vertex < length self.now.lists }
        requires some { 1 ≤ length (held self.now) }
        ensures held { 1 ≤ count_all result self.now.lists }
        ensures tail { tail (edge_at self.now.ends) result ≡ vertex }
    {
        let _vertices = self.vertices();
        self.darts(vertex)[0]
    }

    /// The dart, or the one before it: the one with its corner on another face than the far dart's. The corner after a dart is on the face
    /// of its reverse.
    fn corner_apart(&self, dart: u32, far: u32) -> Result<u32, AllocError>
        requires apart { AreApart self.now.lists dart (rev dart) }
        requires far { 1 ≤ count_all far self.now.lists }
        ensures tail { IfOk result (λ near. tail (edge_at self.now.ends) near ≡ tail (edge_at self.now.ends) dart) }
        ensures apart { IfOk result (λ near. AreApart self.now.lists (rev near) (rev far)) }
    {
        let _vertices = self.vertices();
        if self.on_one_face(self.lists.alloc(), dart, reverse(far))? {
            Ok(dart)
        } else {
            Ok(self.before(dart))
        }
    }

    /// Puts in an edge with its dart after the near dart and the reverse after the far one. Their corners are on two faces, which it joins.
    fn join_faces(
        &mut self,
        second: usize,
        dart: u32,
        near: u32,
        far: u32,
    ) -> Result<(), AllocError>
        requires second { second < length self.old.ends }
        requires new { count second (held self.old) ≡ 0 }
        requires dart { edge dart ≡ second }
        requires near_end { tail (edge_at self.old.ends) near ≡ tail (edge_at self.old.ends) dart }
        requires far_end { tail (edge_at self.old.ends) far ≡ tail (edge_at self.old.ends) (rev dart) }
        requires apart { AreApart self.old.lists (rev near) (rev far) }
        ensures held { OnOk result (HoldsMore self.old (second ∷ []) self.new) }
        ensures faces { OnOk result (HasFaces self.new.lists 1) }
    {
        if dart % 2 == 0 {
            self.put_between(second, near, far)
        } else {
            self.put_between(second, far, near)
        }
    }

    /// Puts in an edge after two darts whose corners are on two faces.
    fn put_between(
        &mut self,
        second: usize,
        first_after: u32,
        second_after: u32,
    ) -> Result<(), AllocError>
        requires second { second < length self.old.ends }
        requires new { count second (held self.old) ≡ 0 }
        requires first_end { tail (edge_at self.old.ends) first_after ≡ (edge_at self.old.ends second).0 }
        requires second_end { tail (edge_at self.old.ends) second_after ≡ (edge_at self.old.ends second).1 }
        requires apart { AreApart self.old.lists (rev first_after) (rev second_after) }
        ensures held { OnOk result (HoldsMore self.old (second ∷ []) self.new) }
        ensures faces { OnOk result (HasFaces self.new.lists 1) }
    {
        let _vertices = self.vertices();
        self.put_edge(second, Some(first_after), Some(second_after))?;
        Ok(())
    }
}
