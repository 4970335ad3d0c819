//! Rotation systems: [`Rotation`].
//!
//! Dart 2e leaves the first end of edge e, and dart 2e + 1 its second end; each is the other's reverse. A rotation is seen as the ends of
//! all edges and a cyclic list of darts for each vertex (`specs/RotationSystems.antt`). Faces and genus are those of
//! `rotation_theory/specs`. It grows edge by edge: a spanning tree has one face ([`Rotation::of_tree`]), an edge never lowers the genus
//! ([`Rotation::insert_edge`]), and two edges with a common end raise it by one where there is one face ([`Rotation::insert_pair`]).
#![tactic(auto)]

mod darts;
mod growth;
mod lists;
mod pairs;
mod rotation;
mod walks;

pub use rotation::Rotation;
