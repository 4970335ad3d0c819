//! The text of a graph, and the replies that speak of one: what they are, a reader that gives the graph or the first fault, writers
//! of the one spelling, and the laws that tie them.
//!
//! `specs/Texts.antt` is the form of a graph text, name by name and line by line. `specs/Statements.antt` says what its lines say and
//! which graph they mean, and `specs/Spells.antt` which lines spell a graph: exactly those of which the form gives it
//! (`proofs/TextsMean.antt`).
#![tactic(auto)]

mod laws;
mod lines;
mod names;
mod reading;
mod writers;
mod writing;

pub use laws::{
    graph_texts_are_causal, graph_texts_give_what_is_spelled, graphs_are_within_limits,
};
pub use reading::read_graph;
pub use writers::{
    write_cactus, write_edge_paths, write_feedback, write_matching, write_paths, write_rotation,
};
