//! What a turn gives.

use crate::outcome::Classes;
use parity_lines::LineSet;

/// What a turn gives.
#[derive(Drop)]
pub enum Turned {
    /// The end of the call.
    Ended(Classes),
    /// A set, as long as the members, that separates two akin lines, or over which a line is free.
    Grown(LineSet),
}
