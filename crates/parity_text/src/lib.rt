//! The texts of problems, answers and choices: what they are, readers that give the value or the first
//! fault, writers of the one spelling, and the laws that tie them.
#![tactic(auto)]

mod head;
mod laws;
mod line_readers;
mod line_writers;
mod position_readers;
mod text_readers;
mod text_writers;
mod vector_readers;

pub use head::read_head;
pub use laws::{
    files_give_what_is_spelled, texts_are_causal, texts_give_what_is_spelled,
    values_are_within_limits, written_texts_are_read,
};
pub use line_writers::put_elements;
pub use text_forms::read_end;
pub use text_readers::{read_answer, read_problem, read_set};
pub use text_writers::{write_answer, write_problem, write_set};
