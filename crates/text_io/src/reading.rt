ghost use Rattle.std.specs.Prelude.{◌≡◌, ℕ, ◌<◌, ◌≤◌, ◌^◌, length, OnOk, OnErr, IfOk, IfSome};
ghost use Rattle.std.specs.Io.KnownBytes.{Consumes, IsAtEnd};
ghost use Rattle.text_io.specs.Counts.{raised};
ghost use Rattle.text_io.specs.Told.{LosesFront, StaysTold};
ghost use Rattle.text_io.specs.Reading.{HasFaultCause, HasLengthCause};

use crate::Source;
use std::alloc::Global;
use thiserror::Error;

/// Why not all bytes were read.
#[derive(Clone, Copy, Debug, Drop, Error, PartialEq, Eq)]
pub enum ReadAnswer {
    /// A read failed.
    #[error("the source failed")]
    Fault,
    /// The source gave more bytes than the limit.
    #[error("the source gave more bytes than the limit")]
    TooLong,
    /// There was no memory for the bytes.
    #[error("out of memory")]
    OutOfMemory,
}

/// All bytes up to the source's end, at most `limit` of them. After any other answer the bytes that
/// were read are lost.
#[tactic(auto, using(crate::proofs::Pieces::loses_both))]
pub fn read_all<S: Source>(
    alloc: Global,
    source: &mut S,
    limit: usize,
) -> Result<Vec<u8>, ReadAnswer>
    requires { limit < 2 ^ 32 }

    // All bytes that were left are the result, and the source is at its end.
    ensures whole { IfOk result (λ v. IfSome (S.left source.old) (λ all. v.items ≡ all)) }
    ensures bytes { IfOk result (λ v. Consumes (S.left source.old) (S.left source.new) v.items) }
    ensures end { OnOk result (IsAtEnd (S.left source.new)) }
    ensures within { IfOk result (λ v. length v.items ≤ limit) }
    ensures counted { IfOk result
        (λ v. S.given source.new ≡ raised (S.given source.old) (length v.items)) }

    // Any other answer has its cause.
    ensures lost { OnErr result (LosesFront (S.left source.old) (S.left source.new)) }
    ensures told { StaysTold (S.left source.old) (S.left source.new) }
    ensures fault { HasFaultCause (S.faults source.old) (S.faults source.new) result }
    ensures long { HasLengthCause limit (S.left source.old) (S.given source.old)
        (S.given source.new) result }
{
    let mut bytes = Vec::new(alloc);
    let mut buffer = [0u8; 4096];
    loop {
        let n = match source.read(&mut buffer) {
            Ok(0) => return Ok(bytes),
            Ok(n) => n,
            Err(_) => return Err(ReadAnswer::Fault),
        };
        if n > limit - bytes.len() {
            return Err(ReadAnswer::TooLong);
        }
        if bytes.extend_from_slice(&buffer[..n]).is_err() {
            return Err(ReadAnswer::OutOfMemory);
        }
    }
}
