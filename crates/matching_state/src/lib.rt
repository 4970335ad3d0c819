//! The state of an independent set of lines: what a line is to it, and the sets that are one step from it.
//!
//! [`Matched`] is seen as a problem with an independent set M of its lines (`Chosen`). [`Matched::coordinates`]
//! tells how M's vectors combine to a vector, [`Matched::position`] the place of a line by the rank that it adds to
//! M (`specs/LinePlaces.antt`), and [`Matched::direct_step`] an independent set that is M with a line more, or with two
//! lines in the place of one, exactly where there is one (`specs/DirectSteps.antt`). `specs/Overlaps.antt` says what an
//! overlap is. For the notions: Lovász and Plummer, Matching Theory, chapter 11.
//!
//! The mathematics is that of `parity_theory`, over any space; `proofs/Ties.antt` takes lists of numbers there.
//! `proofs/Findings.antt` has the proof of a place, `proofs/DirectStep.antt` that of a step, `proofs/Tips.antt`
//! and `proofs/OneStep.antt` have the laws.
#![tactic(auto)]

mod coefficients;
mod finding;
mod going;
mod laws;
mod listing;
mod matched;
mod moving;
mod outer_classes;
mod place;
mod sights;
mod step;

pub use laws::{
    exchange_keeps_what_is_missed, overlaps_are_told_by_any_tips, tips_are_unique,
    two_lines_take_the_place_of_one,
};
pub use matched::{Matched, Start};
pub use place::Place;
pub use sights::Exposed;
