//! What a text is due to have, place by place and line by line, its first fault, readers over a lexer, and writers.
//!
//! A form of a text is a reader of lists (`specs/Reading.antt`): `specs/Places.antt` has the places of a line, and
//! `specs/Forms.antt` the lines of a text. The first fault is the first refusal from left to right. Each reader of the
//! code gives exactly what its form gives, as `specs/Gives.antt` says, and takes no memory. A reader of a line takes that
//! line and no other, also where it refuses it (`specs/Taken.antt`); a reader of a place leaves the lines ahead.
//!
//! Above the forms stand laws. `specs/Spelling.antt`: a form gives a value exactly where the words spell it
//! (`proofs/Taking.antt`, `PlacesTake.antt`, `ListsTake.antt`, `LinesTake.antt`). `specs/Causality.antt`: what a form gives
//! depends on the lines that it takes alone (`proofs/Causal.antt`, `CausalTexts.antt`). Lines that are written are read
//! again (`proofs/Written.antt`). `proofs/Loops.antt` has what a loop over places keeps.
//!
//! Writers put words and lines behind what was written (`specs/Writes.antt`, `proofs/Pieces.antt`).
#![tactic(auto)]

mod laws;
mod lines;
mod places;
mod words;
mod writing;

pub use laws::{
    chains_are_causal, chains_read_in_order, limits_are_refused, lines_are_causal, lines_are_due,
    lines_are_used_up, lines_give_what_is_spelled, lists_give_what_is_spelled, numerals_are_read,
    places_fault_on_their_line, places_give_what_is_spelled, refusals_are_causal,
    words_are_refused, written_lines_are_read,
};
pub use lines::{alone_line, counted_line, due_line, limited_line, read_end, version_line};
pub use places::{entry_word, fixed_word, number_word, position_or_end, position_word};
pub use words::{due_word, end_of_line};
pub use writing::{put, put_count, put_decimal, put_number};
