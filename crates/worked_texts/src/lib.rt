//! Readers for the worked cases: the value of a text, and a value as a text.
//!
//! A text here is one that a test gives, and `None` says that it means no such value. What is read keeps the clauses of the
//! readers of `parity_text` that a caller needs: an answer is one to its problem, and a choice has lines of it.
#![tactic(auto)]

mod reading;
mod showing;

pub use reading::{answer_of, choice_of, lines_of, problem_of};
pub use showing::{shown, shown_parts, shown_rows, shown_set};
