//! The program: it makes the real source and sink, and ends with the code of the status.
//!
//! All that it does is done by `parity_program::run`, whose contract is the promise.
#![tactic(auto)]

ghost use Rattle.std.specs.Prelude.{◌≡◌};
ghost use Rattle.std.specs.Process.{exit_status};
ghost use Rattle.parity_program.specs.StatusLines.{code_of};

use parity_program::{Status, run};
use std::env::Env;
use std::io::{ErrorKind, Write};
use std::process::ExitCode;
use std::{env, io};
use text_io::{StdSink, StdSource};

/// The words after the program's name, or the status where they can't be had: want of memory, or words that
/// the system refuses.
fn words_of<R: Env + AllocGlobal>(rt: &R) -> Result<Vec<String>, Status> {
    match env::args(rt) {
        Ok(args) => Ok(args.skip(1).collect(rt.alloc())?),
        Err(error) if error.kind() == ErrorKind::OutOfMemory => Err(Status::OutOfMemory),
        Err(_) => Err(Status::Usage),
    }
}

/// The program ends with the status's code.
fn exit_code(status: Status) -> ExitCode
    ensures { exit_status result ≡ code_of status }
{
    ExitCode::from(status.code())
}

fn main(rt: HostRuntime) -> ExitCode {
    let status = match words_of(&rt) {
        Ok(words) => {
            let mut input = StdSource::new(rt.reader());
            let mut output = StdSink::new(io::writer(&rt));
            run(rt.alloc(), &words, &mut input, &mut output)
        }
        Err(status) => status,
    };
    let _unseen = rt.stderr().write_all(status.line().as_bytes());
    exit_code(status)
}
