//! Sources and sinks of bytes that count their faults.
//!
//! A program that is written over [`Source`] and [`Sink`] says in its contracts what it does with
//! every byte: a source may tell the bytes that are still to come and a sink those that were
//! written, and each has a count that a failed call raises, or finds at its last value, and that
//! no other call changes. So a failed call can't pass for the end of the input, and no fault can be
//! passed over.
//!
//! - [`read_all`] reads to the end, or says why not. Its contract ties each answer to the bytes and
//!   the counts; the invariant of its loop stands in `proofs/reading/read_all`.
//! - [`write_whole`] writes all bytes, or a proper prefix where the sink failed. The invariant of its
//!   loop stands in `proofs/writing/write_whole`, and what it needs of lists in `proofs/Pieces.antt`.
//! - [`SteadySource`] and [`SteadySink`] never fail. [`MemorySource`] and [`MemorySink`] give and take
//!   as little as they are told to, and fail at the calls that they are told. Their contracts say
//!   exactly what each call does.
//! - [`StdSource`] and [`StdSink`] stand over a reader and a writer of std. Where these tell their
//!   bytes, the contracts pass that on. What the system gives and takes is outside of any proof, and
//!   that each error becomes a fault, that no call is tried again and that the sink flushes is
//!   tested, in `worked_bases`.
//!
//! The definitions that the contracts cite are in `specs/`: `Counts` for counts that stay at their
//! last value, `Told` for bytes that may be told, `Reading` for the causes of an answer of
//! `read_all`, and `Steady`, `Memory` and `Std` for what contracts see of each source and sink.
#![tactic(auto)]

mod copying;
mod failed;
mod memory_sink;
mod memory_source;
mod reading;
mod sink;
mod source;
mod std_sink;
mod std_source;
mod steady_sink;
mod steady_source;
mod writing;

pub use failed::Failed;
pub use memory_sink::MemorySink;
pub use memory_source::MemorySource;
pub use reading::{ReadAnswer, read_all};
pub use sink::Sink;
pub use source::Source;
pub use std_sink::StdSink;
pub use std_source::StdSource;
pub use steady_sink::SteadySink;
pub use steady_source::SteadySource;
pub use writing::write_whole;
