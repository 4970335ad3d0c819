//! The verdict on an answer: whether it is good, or the first reason why not.
//!
//! [`verdict`] answers exactly: each reason with its position or its numbers, and `Yes` exactly where the
//! answer is good, in which case its set is largest. What each answer says is `IsVerdictOn` in `specs/Verdicts.antt`.
#![tactic(auto)]

mod counts;
mod judging;
mod laws;
mod verdicts;

pub use judging::verdict;
pub use laws::verdicts_are_unique;
pub use verdicts::Verdict;
