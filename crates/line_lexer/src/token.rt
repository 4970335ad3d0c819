/// Where a word stands: its line's number, and the places where it begins and ends in the input.
#[derive(Clone, Copy, Debug, Drop, PartialEq, Eq)]
pub struct Token {
    pub line: u32,
    pub start: usize,
    pub end: usize,
}
