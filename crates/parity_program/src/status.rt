//! How a run ends.

ghost use Rattle.std.specs.Prelude.{◌≡◌, ◌≤◌, ◌+◌, length};
ghost use Rattle.parity_program.specs.Inputs.{status_of};
ghost use Rattle.parity_program.specs.Shown.{status_of_read};
ghost use Rattle.parity_program.specs.declared.status.Status.TheVariants.{OutOfMemory};
ghost use Rattle.parity_program.specs.StatusLines.{code_of, fault_name, counted_name, status_text, line_of};

use crate::StatusLine;
use line_lexer::{Counted, MOST_BYTES, TextFault, TextRefusal};
use std::alloc::AllocError;
use text_io::ReadAnswer;

/// How a run ended.
#[derive(Clone, Copy, Debug, Drop, PartialEq, Eq)]
pub enum Status {
    /// The whole reply was written, and it isn't a negative one.
    Done,
    /// The whole reply was written, and it is a negative one.
    No,
    /// The words aren't those of a command.
    Usage,
    /// The text has its first fault on this line.
    BadText { line: u32, kind: TextFault },
    /// More was found than the limit allows.
    Limit { what: Counted, found: u32 },
    /// This vertex isn't connected with the first.
    NotConnected { vertex: u32 },
    /// This vertex isn't the end of three edges that lead to three different other vertices.
    NotCubic { vertex: u32 },
    /// The source failed.
    ReadFault,
    /// The sink failed.
    WriteFault,
    /// There was no memory.
    OutOfMemory,
}

impl From<TextRefusal> for Status {
    ghost from_gives = { λ refusal status. status ≡ status_of refusal };

    fn from(refusal: TextRefusal) -> Status {
        match refusal {
            TextRefusal::Bad { line, kind } => Status::BadText { line, kind },
            TextRefusal::Limit { what, found } => Status::Limit { what, found },
            TextRefusal::OutOfMemory => Status::OutOfMemory,
        }
    }
}

impl From<AllocError> for Status {
    ghost from_gives = { λ _ status. status ≡ OutOfMemory };

    fn from(_error: AllocError) -> Status {
        Status::OutOfMemory
    }
}

impl From<ReadAnswer> for Status {
    ghost from_gives = { λ answer status. status ≡ status_of_read answer };

    fn from(answer: ReadAnswer) -> Status {
        match answer {
            ReadAnswer::Fault => Status::ReadFault,
            ReadAnswer::TooLong => Status::Limit {
                what: Counted::Bytes,
                found: MOST_BYTES as u32 + 1,
            },
            ReadAnswer::OutOfMemory => Status::OutOfMemory,
        }
    }
}

fn name_of_fault(kind: TextFault) -> &'static str
    ensures name { result.now ≡ fault_name kind }
    ensures short { length result.now ≤ 10 }
{
    match kind {
        TextFault::Byte => "byte",
        TextFault::Word => "word",
        TextFault::Version => "version",
        TextFault::Field => "field",
        TextFault::Number => "number",
        TextFault::Range => "range",
        TextFault::Order => "order",
        TextFault::Count => "count",
        TextFault::Missing => "missing",
        TextFault::Extra => "extra",
        TextFault::Classed => "classed",
    }
}

fn name_of_counted(what: Counted) -> &'static str
    ensures name { result.now ≡ counted_name what }
    ensures short { length result.now ≤ 10 }
{
    match what {
        Counted::Bytes => "bytes",
        Counted::Dimension => "dimension",
        Counted::Lines => "lines",
        Counted::Kernel => "kernel",
        Counted::Parts => "parts",
        Counted::Vertices => "vertices",
        Counted::Edges => "edges",
        Counted::NameBytes => "name bytes",
        Counted::Triangles => "triangles",
        Counted::Pairs => "pairs",
        Counted::CycleRank => "cycle rank",
    }
}

impl Status {
    /// The code with which the program exits.
    pub fn code(&self) -> u8
        ensures { result ≡ code_of self.now }
    {
        match self {
            Status::Done => 0,
            Status::No => 1,
            Status::Usage => 2,
            Status::BadText { .. } => 3,
            Status::Limit { .. } | Status::NotConnected { .. } | Status::NotCubic { .. } => 4,
            Status::ReadFault => 5,
            Status::WriteFault => 6,
            Status::OutOfMemory => 7,
        }
    }

    /// What the line says before its end.
    fn text(&self) -> StatusLine
        ensures text { result ≡ status_text self.now }
        ensures short { length result ≤ 63 }
    {
        let empty = StatusLine::new();
        match self {
            Status::Done => empty.with(b"done"),
            Status::No => empty.with(b"no"),
            Status::Usage => empty.with(b"usage"),
            Status::BadText { line, kind } => empty
                .with(b"bad text: line ")
                .with_number(*line)
                .with(b": ")
                .with(name_of_fault(*kind).as_bytes()),
            Status::Limit { what, found } => empty
                .with(b"limit: ")
                .with(name_of_counted(*what).as_bytes())
                .with(b" ")
                .with_number(*found),
            Status::NotConnected { vertex } => {
                empty.with(b"not connected: vertex ").with_number(*vertex)
            }
            Status::NotCubic { vertex } => {
                empty.with(b"not cubic: vertex ").with_number(*vertex)
            }
            Status::ReadFault => empty.with(b"read fault"),
            Status::WriteFault => empty.with(b"write fault"),
            Status::OutOfMemory => empty.with(b"out of memory"),
        }
    }

    /// The line that tells the status, with its LF: at most 64 bytes.
    pub fn line(&self) -> StatusLine
        ensures { result ≡ line_of self.now }
    {
        self.text().with(b"\n")
    }
}
