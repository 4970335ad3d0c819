//! Numbered problems over two elements, for trying out and for measuring.
//!
//! [`Generator`] is a linear congruential generator, seen as its state (`specs/Sequence.antt`). [`problem`] makes
//! the problem of a number: 150 lines in eight blocks around a common hub. `specs/GeneratedProblems.antt` says
//! what each coordinate of each line is. With the hub as kernel and the blocks as parts a certificate has a bound
//! of at most 28, so no independent set of such a problem has more lines.
#![tactic(auto)]

mod generated;
mod sequence;

pub use generated::problem;
pub use sequence::Generator;
