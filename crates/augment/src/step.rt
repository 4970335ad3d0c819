use field_core::Field;
use parity_lines::{Certificate, LineSet};

/// What augmentation of an independent set gives.
#[derive(Drop)]
pub enum Step<F: Field> {
    /// An independent set of exactly one line more.
    Larger(LineSet),
    /// A certificate whose bound is the size of the set, so that no independent set is longer.
    Best(Certificate<F>),
}
