//! Overlaps: where no single step leads on, two exposed lines with a point that tells what to do.
//!
//! An [`Overlap`] is seen as its problem, the independent set M, two lines that are an overlap of M, and its point
//! (`specs/PointedOverlaps.antt`). [`find`] finds one exactly where M has any, [`at`] takes the two lines. The point
//! is a vector that isn't zero, and each dependent set of lines among M and the two spans it ([`Overlap::point`]).
//! So a set that is as long as M and misses the point leads to a longer one: [`raise`] finds that, and never fails.
//! For the notions: Lovász and Plummer, Matching Theory, chapter 11.
//!
//! The mathematics is that of `parity_theory`, over any space (`OverlapPoints`, `Raising`); `proofs/PointsOfTips.antt`
//! and `proofs/Raised.antt` take lists of numbers there.
#![tactic(auto)]

mod candidates;
mod pairs;
mod point;
mod pointed;
mod raising;
mod search;

pub use pointed::{Overlap, at};
pub use raising::raise;
pub use search::find;
