//! Exchanges that bring an independent set of lines nearer to a target, while vectors stay missed.
//!
//! [`swap`] puts an exposed line in the place of a line of its support. [`step_toward`] makes one exchange that
//! brings in a line of the target and takes out a line that is none, or finds that none is left, or a longer set;
//! [`move_toward`] goes on until then. `specs/Exchanges.antt` says what such an exchange is, which sets are reached
//! and when a set has settled. The functions of `laws` carry what holds of these sets.
//!
//! The mathematics is that of `parity_theory`, over any space.
#![tactic(auto)]

mod laws;
mod offer;
mod span;
mod step;
mod swapping;
mod walk;

pub use laws::{
    exchanges_come_nearer, missing_is_transitive, sets_that_exchanges_reach,
    settled_sets_span_independent_targets,
};
pub use step::{Stepped, step_toward};
pub use swapping::swap;
pub use walk::{Moved, move_toward};
