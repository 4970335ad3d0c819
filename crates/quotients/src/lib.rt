//! Subspaces with reduced echelon bases, and the division by a point.
//!
//! [`Subspace`] is seen as its reduced echelon basis (`IsReducedBasis` in `specs/ReducedBases.antt`), which is the
//! only one (`reduced_bases_are_unique`). `spanned`, `sum` and `intersect` say which vectors the subspace has
//! (`HasElements` in `specs/Subspaces.antt`), `contains` whether a vector is one of them. A basis is reduced by
//! residues: a unit vector less its residue is the row at its position (`proofs/Reduced.antt`). For a meeting the
//! vectors of one subspace are put behind a basis of the other; those that are spanned have a part in it, and
//! these parts span the meeting (`proofs/Walks.antt`). [`Quotient`] is seen as the point that it divides by;
//! what projections do to spans, independence and ranks is said in `quotient_spaces`.
#![tactic(auto)]

mod laws;
mod meeting;
mod quotient;
mod reduction;
mod subspace;

pub use laws::reduced_bases_are_unique;
pub use quotient::Quotient;
pub use subspace::Subspace;
