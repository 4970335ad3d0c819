/// What is wrong with a text.
#[derive(Clone, Copy, Debug, Drop, PartialEq, Eq)]
pub enum TextFault {
    /// A line has a byte, outside its comment, that no text may have.
    Byte,
    /// A fixed word is due, and another stands there.
    Word,
    /// The version isn't 1.
    Version,
    /// The field's order is none of those that there are.
    Field,
    /// A number is due, and the word is none.
    Number,
    /// A number is outside the range of its place.
    Range,
    /// A position isn't above the one before it.
    Order,
    /// A line has too few or too many words.
    Count,
    /// The input ends before the text does.
    Missing,
    /// A line follows the text's end.
    Extra,
    /// A name already stands in a class.
    Classed,
}

/// A fault, with the number of the line where it stands.
#[derive(Clone, Copy, Debug, Drop, PartialEq, Eq)]
pub struct LexFault {
    pub line: u32,
    pub kind: TextFault,
}
