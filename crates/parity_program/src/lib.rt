//! The program as a library: from the words and the bytes in to the status and the bytes out.
//!
//! [`run`] does all that the program does, and its contract states the whole promise over the bytes that the
//! source has left and the sink has written: `specs/Commands.antt` has the words of the commands,
//! `specs/Inputs.antt` what the bytes mean to each, `specs/Replies.antt` what the reply is,
//! `specs/Outcome.antt` what each status says, `specs/StatusLines.antt` the codes and lines. `check` replies
//! with the verdict on an answer, `improve` with a longer independent set that one step makes of a set of lines,
//! that there is none, or a relation (`specs/Improvements.antt`), `solve` with a good answer, `matching`, `cactus`, `spaths`
//! and `genus` with a largest object of a graph, `convert` with the problem by which one of these is found, `forestpairs` and
//! `sparepairs` with a longest list of pairs of edges that have no cycle, or without which the graph is connected, `epaths` with most
//! edge-disjoint paths, `feedback` with a least feedback set of a cubic graph, `generate` with the problem of a number, `sample` with
//! the size of its largest sets.
//! `specs/Shown.antt` has what only private functions speak of, and `proofs/Refusals.antt` and `proofs/Outcomes.antt` what
//! the proofs of a command and of a run share. `main` stands in the crate `parity`, which only makes the real source and sink,
//! and worked inputs of the commands in `worked_runs`.
#![tactic(auto)]

mod cactus;
mod check;
mod command;
mod connection;
mod convert;
mod cubic;
mod cycles;
mod dispatch;
mod edge_paths;
mod feedback;
mod fitness;
mod forest_pairs;
mod generate;
mod genus;
mod graph_reader;
mod improve;
mod laws;
mod matching;
mod reply;
mod running;
mod sample;
mod solve;
mod solver;
mod spare_pairs;
mod spaths;
mod status;
mod status_line;

pub use command::{
    Command, Convertible, GraphCommand, GraphObject, NumberCommand, ProblemCommand, TextCommand,
};
pub use laws::{conversions_are_solvable, generated_problems_are_solvable};
pub use running::run;
pub use status::Status;
pub use status_line::StatusLine;
