ghost use Rattle.std.specs.Prelude.{◌≡◌};
ghost use Rattle.line_lexer.specs.declared.refusal.TextRefusal.TheVariants.{Bad, OutOfMemory};

use crate::fault::{LexFault, TextFault};
use std::alloc::{AllocError, AllocFailed};

/// What is counted against a limit.
#[derive(Clone, Copy, Debug, Drop, PartialEq, Eq)]
pub enum Counted {
    Bytes,
    Dimension,
    Lines,
    Kernel,
    Parts,
    Vertices,
    Edges,
    NameBytes,
    Triangles,
    Pairs,
    CycleRank,
}

/// Why a text isn't accepted: a fault on a line, a number above its limit, or want of memory.
#[derive(Clone, Copy, Debug, Drop, PartialEq, Eq)]
pub enum TextRefusal {
    Bad { line: u32, kind: TextFault },
    Limit { what: Counted, found: u32 },
    OutOfMemory,
}

/// A fault that the lexer finds refuses the text.
impl From<LexFault> for TextRefusal {
    ghost from_gives = { λ fault refusal. refusal ≡ Bad fault.line fault.kind };

    fn from(fault: LexFault) -> TextRefusal {
        TextRefusal::Bad {
            line: fault.line,
            kind: fault.kind,
        }
    }
}

/// So does want of memory.
impl From<AllocError> for TextRefusal {
    ghost from_gives = { λ _ refusal. refusal ≡ OutOfMemory };

    fn from(_error: AllocError) -> TextRefusal {
        TextRefusal::OutOfMemory
    }
}

impl<T: Drop> From<AllocFailed<T>> for TextRefusal {
    ghost from_gives = { λ _ refusal. refusal ≡ OutOfMemory };

    fn from(_failed: AllocFailed<T>) -> TextRefusal {
        TextRefusal::OutOfMemory
    }
}
