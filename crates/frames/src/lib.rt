//! A basis of the whole space that changes vector by vector, with lists of coordinates that change along.
//!
//! [`Frame`] is seen as its basis and the lists (`specs/Frames.antt`). [`Frame::pivot`] puts a vector in the place of one of
//! the basis, [`Frame::swap`] two vectors of it in each other's place, and [`Frame::carry`] carries one to another place; after
//! each of them each list combines the new basis to the vector to which it combined the old one. The laws are those of `coordinates`.
#![tactic(auto)]

mod carrying;
mod frame;
mod leading;
mod pivoting;
mod swapping;
mod units;

pub use frame::Frame;
pub use leading::lead_from;
