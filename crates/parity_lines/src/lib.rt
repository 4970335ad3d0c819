//! Parity problems: lines, which are pairs of vectors over a finite field, sets of lines, and certificates.
//!
//! [`Problem`] is seen as its dimension and list of pairs (`ParityProblem` in `specs/Problems.antt`),
//! [`LineSet`] and [`Parts`] as lists of positions. `specs/LineSets.antt` says when a set is independent and
//! when it is largest, `specs/Certificates.antt` what the bound of a certificate and a good answer are.
//! [`is_independent`] and [`rank_over`] decide these exactly, by elimination. [`good_answer_is_largest`]
//! carries the easy half of the min-max theorem; its proof is in `proofs/EasyHalf.antt`.
#![tactic(auto)]

mod answer;
mod independence;
mod laws;
mod line_set;
mod maximizer;
mod parts;
mod problem;
mod ranks;

pub use answer::{Answer, Certificate};
pub use independence::{Independence, LineBasis, basis_of_lines, is_independent};
pub use laws::good_answer_is_largest;
pub use line_set::LineSet;
pub use maximizer::Maximizer;
pub use parts::Parts;
pub use problem::Problem;
pub use ranks::{added_rank, rank_over};
