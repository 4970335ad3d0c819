//! The lines and words of a text, and a lexer that goes over them and takes no memory.
//!
//! What lines, comments, words and bad bytes are stands in `specs/Bytes.antt` and `specs/Lines.antt`, over all bytes of a
//! text, numbers in `specs/Numbers.antt`, and where the words of a line stand in the input in `specs/WordPlaces.antt`;
//! `proofs/Examples.antt` shows them at small texts. `specs/Seen.antt` and `specs/Calls.antt` say what each call of
//! `Lexer` does. That it finds each line and each word is proved by
//! `proofs/FirstLine.antt` and `proofs/NextWord.antt`. Lines that are written as `specs/Words.antt` says are read again:
//! `proofs/Spelled.antt`.
//!
//! A pass over a text takes time in proportion to its length. This is so by the way the code goes, and isn't proved.
#![tactic(auto)]

mod count;
mod fault;
mod first_line;
mod laws;
mod lexer;
mod next_line;
mod number;
mod refusal;
mod scan;
mod token;

pub use fault::{LexFault, TextFault};
pub use laws::{a_fault_stays, lines_have_words, spelled_lines_are_read};
pub use lexer::{Lexer, MOST_BYTES};
pub use refusal::{Counted, TextRefusal};
pub use token::Token;
