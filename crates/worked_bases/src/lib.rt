//! Worked cases of fields, rows, bases, subspaces, sets of lines and texts, and of readers and writers that fail.
//!
//! There is no code here but tests. What they expect comes from outside, from paper or from
//! another program, and never from a run.
#![tactic(auto)]

#[cfg(test)]
mod asserting;
#[cfg(test)]
mod bases;
#[cfg(test)]
mod devices;
#[cfg(test)]
mod fields;
#[cfg(test)]
mod round_trips;
#[cfg(test)]
mod rows;
#[cfg(test)]
mod sets;
#[cfg(test)]
mod subspaces;
