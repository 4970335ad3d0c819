//! The search for a longer independent set, or for a certificate that there is none.
#![tactic(auto)]

mod choices;
mod exchanging;
mod greedy;
mod guessing;
mod kernel;
mod labels;
mod meeting;
mod notes;
mod outers;
mod repeats;
mod restarting;
mod searching;
mod settling;
mod walker;
mod walking;

pub use greedy::{greedy_state, lines_below};
pub use searching::{Found, search};
