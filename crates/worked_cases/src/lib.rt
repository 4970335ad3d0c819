//! Worked cases of the crates below: problems, answers and choices as texts, and what each call gives of them.
//!
//! There is no code here but tests. What they expect comes from outside, from paper or from
//! another program, and never from a run.
#![tactic(auto)]

#[cfg(test)]
mod asserting;
#[cfg(test)]
mod augmentations;
#[cfg(test)]
mod common_vectors;
#[cfg(test)]
mod keeping;
#[cfg(test)]
mod overlaps;
#[cfg(test)]
mod partitions;
#[cfg(test)]
mod places;
#[cfg(test)]
mod verdicts;
#[cfg(test)]
mod walks;
