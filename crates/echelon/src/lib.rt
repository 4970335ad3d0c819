//! Echelon bases: a list of independent vectors that grows one by one, with the elimination that tells what
//! is in its span and with which coefficients.
//!
//! [`Echelon`] is seen as the dimension of its space and the list of the vectors that it took. Each took
//! vector is kept as a step: a row, which the coefficients combine from the vectors taken so far, and the
//! pivot that it eliminates. What the steps keep is `IsEchelon` in `specs/Eliminations.antt`; that elimination is
//! linear and takes each vector of the span to zero is proved in `proofs/Eliminations.antt` over any space.
//! [`basis_of`] takes all vectors of a list, one after the other.
#![tactic(auto)]

mod basis;
mod elimination;
mod laws;
mod spanning;
mod step;

pub use basis::{Echelon, Inserted};
pub use elimination::first_nonzero;
pub use laws::residues_tell_the_span;
pub use spanning::basis_of;
