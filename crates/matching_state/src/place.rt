use field_core::{Field, Row};
use parity_lines::LineSet;

/// The place of a line over an independent set M of lines, by the rank that it adds to M's vectors and by its own.
#[derive(Drop)]
pub enum Place<F: Field> {
    /// Both vectors are in the span of M.
    Inside,
    /// The line has rank one, and its vectors aren't both in the span; `outer` is a vector of its span outside.
    Single {
        outer: Row<F>,
    },
    /// The line has rank two, and adds one. `tip` is a vector of its span in that of M, not zero; `outer` is one
    /// outside; `support` are the lines of M at which the tip has a component.
    Exposed {
        tip: Row<F>,
        outer: Row<F>,
        support: LineSet,
    },
    /// The line adds two.
    Free,
}
