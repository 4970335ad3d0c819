//! The reply to an accepted input.

ghost use Rattle.std.specs.Prelude.{◌≡◌, ◌++◌, ◌+◌, ◌<◌, IfOk, OnOk};
ghost use Rattle.line_lexer.specs.Words.{spelled};
ghost use Rattle.parity_program.specs.Improvements.{improvement_lines, of_step};
ghost use Rattle.parity_program.specs.Improvements.Improvement.{dependent};
ghost use Rattle.parity_program.specs.Replies.{verdict_words, verdict_status as status_after, verdict_reply as reply_of, improvement_reply};
ghost use Rattle.parity_program.specs.Shown.{shown};
ghost use Rattle.parity_program.specs.declared.status.Status.TheVariants.{Done};

use crate::Status;
use cert_check::Verdict;
use field_core::{Field, Row};
use parity_lines::LineSet;
use parity_text::{put_elements, write_set};
use std::alloc::{AllocError, Global};
use text_forms::put_decimal;

/// A text, and the status that the run ends with once it is written.
#[derive(Drop)]
pub struct Reply {
    pub text: Vec<u8>,
    pub status: Status,
}

impl Reply {
    /// The whole text, which isn't a negative reply.
    pub fn done(text: Vec<u8>) -> Reply
        ensures { shown result ≡ record { text = text.items; status = Done } }
    {
        Reply {
            text,
            status: Status::Done,
        }
    }
}

/// Puts what is said of the verdict behind.
fn put_verdict(out: &mut Vec<u8>, verdict: Verdict) -> Result<(), AllocError>
    ensures { OnOk result (out.new.items ≡ out.old.items ++ verdict_words verdict) }
{
    match verdict {
        Verdict::Yes => out.extend_from_slice(b"yes"),
        Verdict::Dependent => out.extend_from_slice(b"no dependent"),
        Verdict::KernelDependent => out.extend_from_slice(b"no kernel dependent"),
        Verdict::PartsMissing(line) => {
            out.extend_from_slice(b"no missing ")?;
            put_decimal(out, line as u128 + 1)
        }
        Verdict::PartsTwice(line) => {
            out.extend_from_slice(b"no twice ")?;
            put_decimal(out, line as u128 + 1)
        }
        Verdict::BoundOff { size, bound } => {
            out.extend_from_slice(b"no bound ")?;
            put_decimal(out, size as u128)?;
            out.extend_from_slice(b" ")?;
            put_decimal(out, bound as u128)
        }
    }
}

/// The status after the verdict.
fn verdict_status(verdict: Verdict) -> Status
    ensures { result ≡ status_after verdict }
{
    match verdict {
        Verdict::Yes => Status::Done,
        _ => Status::No,
    }
}

/// The line that tells the verdict.
pub fn verdict_reply(alloc: Global, verdict: Verdict) -> Result<Reply, AllocError>
    ensures { IfOk result (λ reply. shown reply ≡ reply_of verdict) }
{
    let mut text = Vec::new(alloc);
    put_verdict(&mut text, verdict)?;
    text.push(b'\n')?;
    Ok(Reply {
        text,
        status: verdict_status(verdict),
    })
}

/// Puts the text of a choice of the longer set behind, or the line that says that there is none.
#[tactic(auto, unfolding(line_lexer::specs::Words::spelled, line_lexer::specs::Words::line_text))]
fn put_step(out: &mut Vec<u8>, step: Option<LineSet>) -> Result<(), AllocError>
    ensures { OnOk result (out.new.items ≡ out.old.items ++ spelled (improvement_lines (of_step step))) }
{
    match step {
        Some(larger) => write_set(out, &larger),
        None => out.extend_from_slice(b"none\n"),
    }
}

/// The lines that tell what one step makes of an independent set.
pub fn step_reply(alloc: Global, step: Option<LineSet>) -> Result<Reply, AllocError>
    ensures { IfOk result (λ reply. shown reply ≡ improvement_reply (of_step step)) }
{
    let mut text = Vec::new(alloc);
    put_step(&mut text, step)?;
    Ok(Reply::done(text))
}

/// The lines that tell a relation of the set's vectors.
pub fn relation_reply<F: Field>(alloc: Global, relation: &Row<F>) -> Result<Reply, AllocError>
    ensures { IfOk result (λ reply. shown reply ≡ improvement_reply (dependent relation.now)) }
{
    let mut text = Vec::new(alloc);
    text.extend_from_slice(b"no dependent\nrelation")?;
    put_elements(&mut text, relation.as_slice())?;
    text.push(b'\n')?;
    Ok(Reply {
        text,
        status: Status::No,
    })
}
