//! The line of a status, without memory.

ghost use Rattle.std.specs.Prelude.{◌≡◌, ◌≤◌, ◌+◌, [], ◌++◌, length};
ghost use Rattle.std.specs.Fmt.{decimal};

use std::marker::Model;

/// A text of at most 64 bytes.
#[derive(Drop)]
pub struct StatusLine {
    bytes: [u8; 64],
    len: usize,
}

impl Model for StatusLine {
    ghost use Rattle.std.specs.Prelude.{List, ℕ, ◌≤◌, take};

    ghost Value = { List ℕ };

    ghost view = { λ s. take s.len s.bytes };

    ghost invariant = { λ s. s.len ≤ 64 };
}

impl StatusLine {
    /// No byte yet.
    pub fn new() -> StatusLine
        ensures { result ≡ [] }
    {
        StatusLine {
            bytes: [0; 64],
            len: 0,
        }
    }

    /// The bytes.
    pub fn as_bytes(&self) -> &[u8]
        ensures bytes { result.now ≡ self.now }
        ensures short { length result.now ≤ 64 }
    {
        &self.bytes[..self.len]
    }

    /// The line with this piece behind it.
    pub fn with(self, piece: &[u8]) -> StatusLine
        requires { length self + length piece.now ≤ 64 }
        ensures { result ≡ self ++ piece.now }
    {
        let mut bytes = self.bytes;
        let end = self.len + piece.len();
        bytes[self.len..end].copy_from_slice(piece);
        StatusLine { bytes, len: end }
    }

    /// The line with this number behind it.
    pub fn with_number(self, n: u32) -> StatusLine
        requires { length self + 10 ≤ 64 }
        ensures text { result ≡ self ++ decimal n }
        ensures short { length result ≤ length self + 10 }
    {
        let mut buffer = itoa::Buffer::new();
        self.with(buffer.format(n).as_bytes())
    }
}
