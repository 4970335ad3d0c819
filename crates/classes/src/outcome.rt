use parity_lines::{LineSet, Parts};

/// What a partition ends with, where k is the size of the members of a family.
#[derive(Drop)]
pub enum Classes {
    /// Each line is in one of these parts, none of them is empty, and the halves of their ranks, rounded down, add up
    /// to k.
    Parts(Parts),
    /// An independent set of k + 1 lines.
    Larger(LineSet),
    /// An independent set of k lines from which no direct step leads on, and two lines that are an overlap of it.
    Overlapping {
        set: LineSet,
        first: usize,
        second: usize,
    },
}
