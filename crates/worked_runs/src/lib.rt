//! Worked inputs of the commands, as tables on `parity_program::run`: what it replies and how it ends.
//!
//! There is no code here but tests. What they expect comes from outside, from paper or from
//! another program, and never from a run.
#![tactic(auto)]

#[cfg(test)]
mod conversions;
#[cfg(test)]
mod edge_paths;
#[cfg(test)]
mod extremes;
#[cfg(test)]
mod faults;
#[cfg(test)]
mod feedback;
#[cfg(test)]
mod hostile;
#[cfg(test)]
mod inputs;
#[cfg(test)]
mod numbered;
#[cfg(test)]
mod pairs;
#[cfg(test)]
mod rows;
#[cfg(test)]
mod solved;
#[cfg(test)]
mod verdicts;
