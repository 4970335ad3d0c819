//! Worked cases of graphs: small graphs with what is found in them, the rotations of the smallest ones, and their texts.
//!
//! There is no code here but tests. What they expect comes from paper, and never from a run.
#![tactic(auto)]

#[cfg(test)]
mod graph_texts;
#[cfg(test)]
mod rotations;
#[cfg(test)]
mod small_graphs;
