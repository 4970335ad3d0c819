//! Augmentation: from an independent set of lines to one of one line more, or to a certificate that there is none.
//!
//! [`augment`] always answers one of the two, which is Lovász's min-max theorem with the means to find both sides.
//! It searches first ([`search`]); what the search leaves open is found by a recursion, which is complete: where the
//! spans of a family of sets meet in more than zero, the problem is solved modulo a point of their meeting, and the
//! answer is lifted or joins the family; where they meet in zero, the lines divide into classes
//! ([`classes::partition`]).
//! [`Solver`] augments until a certificate comes. For the notions: Lovász and Plummer, Matching Theory, chapter 11.
//!
//! `specs/Steps.antt` says what an augmentation answers, `specs/Divided.antt` what it is to go modulo a point.
#![tactic(auto)]

mod augmenting;
mod modulo;
mod ordering;
mod raising;
mod recursion;
mod searching;
mod solver;
mod step;

pub use augmenting::{augment, augment_by_recursion};
pub use solver::Solver;
pub use step::Step;
