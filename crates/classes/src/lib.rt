//! Classes of lines: what a family of independent sets, no vector but zero in all their spans, tells of the lines.
//!
//! [`partition`] ends with a set that is one line longer, an overlap, or parts whose bound is the size of the sets.
//! Two lines are akin where no member of the family separates them, so that no member misses a vector of each
//! independently. Either being akin divides the lines into classes, or three lines show a way on; either the classes
//! are parts of that bound, or one that is too large shows a way on.
//!
//! The mathematics is that of `class_theory`, over any space.
#![tactic(auto)]

mod circuits;
mod crossing;
mod direction;
mod division;
mod ended;
mod growing;
mod labels;
mod large;
mod lasting;
mod laws;
mod missed;
mod outcome;
mod pacing;
mod partitioning;
mod spreads;
mod starting;
mod supports;
mod table;
mod transit;
mod triples;
mod turned;

pub use laws::akin_lines_form_classes;
pub use outcome::Classes;
pub use partitioning::partition;
