//! Paths in a forest.

ghost use Rattle.std.specs.Prelude.{◌≡◌, ◌<◌, ◌↔◌, None, IfOk, map, IfSome, All, length};
ghost use Rattle.graph_theory.specs.Walks.{Walk, IsForest};
ghost use Rattle.graph_theory.specs.Walks.{edge_at};
ghost use Rattle.graph_core.specs.OnlyPaths.{IsOnlyPath};

use crate::ways::Ways;
use crate::{EdgeList, Graph};
use std::alloc::{AllocError, Global};

impl Graph {
    /// The edges of the path in the forest from one vertex to another, in order; None where the forest doesn't join the two.
    pub fn path_in_tree(
        &self,
        alloc: Global,
        forest: &EdgeList,
        from: usize,
        to: usize,
    ) -> Result<Option<EdgeList>, AllocError>
        requires edges { All (λ e. e < length self.now.ends) forest.now }
        requires forest { IsForest (map (edge_at self.now.ends) forest.now) }
        requires from_vertex { from < length self.now.names }
        requires to_vertex { to < length self.now.names }
        ensures path { IfOk result (λ found. IfSome found (IsOnlyPath (edge_at self.now.ends) forest.now from to)) }
        ensures none { IfOk result (λ found. (found ≡ None) ↔ ¬ (Walk (map (edge_at self.now.ends) forest.now) from to)) }
    {
        let mut ways = Ways::new(alloc, self.vertices(), to)?;
        ways.fill(self, forest);
        if !ways.reaches(from) {
            return Ok(None);
        }
        let path = ways.path(alloc, from)?;
        Ok(Some(path))
    }
}
