//! The whole run.

ghost use Rattle.std.specs.Prelude.{◌≡◌, ℕ, List, Option, None, Some, Ok, OnOk, false, ◌↔◌};
ghost use Rattle.std.specs.Io.KnownBytes.{IsAtEnd};
ghost use Rattle.parity_program.specs.Commands.{Named, words_of, reads_source};
ghost use Rattle.parity_program.specs.Inputs.{Input, reading, told_to};
ghost use Rattle.parity_program.specs.Outcome.{Outcome, HasReadCause, HasWriteCause, HasByteCause, NoFault, NoReadFault};
ghost use Rattle.parity_program.specs.Outcome.{EndsAfterReading, IsAnsweredOrOutOfMemory};
ghost use Rattle.parity_program.specs.Shown.{shown, RepliesOrRefuses, ReadsWithCause, GivesWithCause, IsWritten};
ghost use Rattle.parity_program.specs.declared.command.Command.{Command};
ghost use Rattle.parity_program.specs.declared.command.Command.TheVariants.{OfText, OfNumber};

use crate::dispatch::{reply_to, reply_to_number};
use crate::reply::Reply;
use crate::{Command, NumberCommand, Status, TextCommand};
use line_lexer::MOST_BYTES;
use std::alloc::Global;
use text_io::{Sink, Source, read_all, write_whole};

/// The reply of a command to all that the source has left.
fn reply_to_source<I: Source>(
    alloc: Global,
    command: TextCommand,
    input: &mut I,
) -> Result<Reply, Status>
    ensures replies { RepliesOrRefuses (OfText command) (I.left input.old) result }
    ensures end { OnOk result (IsAtEnd (I.left input.new)) }
    ensures read { ReadsWithCause (I.faults input.old) (I.faults input.new) result }
    ensures long { GivesWithCause (I.given input.old) (I.given input.new) result }
{
    let bytes = read_all(alloc, input, MOST_BYTES)?;
    reply_to(alloc, command, &bytes)
}

/// The reply of a command to a number.
fn reply_without_source(alloc: Global, command: NumberCommand, n: u32) -> Result<Reply, Status>
    ensures replies { (left : Option (List ℕ)) → RepliesOrRefuses (OfNumber command n) left result }
    ensures read { (count : ℕ) → ReadsWithCause count count result }
    ensures long { (count : ℕ) → GivesWithCause count count result }
{
    Ok(reply_to_number(alloc, command, n)?)
}

/// The reply of a command, or the status in place of one.
fn reply_of<I: Source>(alloc: Global, command: Command, input: &mut I) -> Result<Reply, Status>
    ensures replies { RepliesOrRefuses command (I.left input.old) result }
    ensures unread { reads_source command ≡ false → input.new ≡ input.old }
    ensures end { OnOk result (IsAtEnd (told_to command (I.left input.new))) }
    ensures read { ReadsWithCause (I.faults input.old) (I.faults input.new) result }
    ensures long { GivesWithCause (I.given input.old) (I.given input.new) result }
{
    match command {
        Command::OfText(command) => reply_to_source(alloc, command, input),
        Command::OfNumber(command, n) => reply_without_source(alloc, command, n),
    }
}

/// Writes the reply, and says how the run ends.
fn tell<O: Sink>(output: &mut O, reply: &Reply) -> Status
    ensures { IsWritten (O.written output.old) (O.written output.new) (O.faults output.old) (O.faults output.new) (shown reply.now) result }
{
    match write_whole(output, &reply.text) {
        Ok(()) => reply.status,
        Err(_) => Status::WriteFault,
    }
}

/// Runs a command.
fn run_command<I: Source, O: Sink>(
    alloc: Global,
    command: Command,
    input: &mut I,
    output: &mut O,
) -> Status
    ensures outcome { Outcome (Some command) (I.left input.old) (O.written output.old) (O.written output.new) result }
    ensures unread { reads_source command ≡ false → input.new ≡ input.old }
    ensures end { EndsAfterReading command (I.left input.new) result }
    ensures read { HasReadCause (I.faults input.old) (I.faults input.new) result }
    ensures write { HasWriteCause (O.faults output.old) (O.faults output.new) result }
    ensures long { HasByteCause (I.given input.old) (I.given input.new) result }
{
    match reply_of(alloc, command, input) {
        Ok(reply) => tell(output, &reply),
        Err(status) => status,
    }
}

/// Runs the command of the words: reads the whole input, and writes the whole reply at once.
///
/// `outcome` says what each status means by the bytes that the source tells and the sink is told: after `Done`
/// and `No` the sink has received exactly the reply to the input, after `WriteFault` a proper prefix of it, and
/// after any other status nothing. To `improve` that is an independent set that one step makes of the set in
/// the input and that is one line longer, `none` exactly where there is no such set, and where the set is
/// dependent a relation of its vectors. To `solve` it is a good answer of the problem in the input, so its set is
/// largest; to `matching`, `cactus` and `spaths` a largest matching, triangle cactus or family of disjoint paths of the
/// graph in the input, to `genus` a rotation of maximum genus; to `convert` the parity problem by which that is found. To
/// `forestpairs` it is a longest list of pairs of edges that have no cycle, to `sparepairs` one without whose edges the graph is
/// connected; to `epaths` a largest family of edge-disjoint paths, to `feedback` a least set of vertices without which a cubic graph
/// has no cycle.
/// `generate` and `sample` read nothing: the one replies with the text of a number's problem, the other with how many
/// lines its largest independent sets have.
/// With words that are no command's, nothing is read or written. `complete` says that an accepted input is
/// answered, faults and want of memory aside.
pub fn run<I: Source, O: Sink>(
    alloc: Global,
    words: &[String],
    input: &mut I,
    output: &mut O,
) -> Status
    // What each status says, by the command of the words, of the bytes that were left and those that were written.
    ensures outcome { (found : Option Command) → Named (words_of words.now) found
        → Outcome found (I.left input.old) (O.written output.old) (O.written output.new) result }

    // Usage is answered exactly to words of no command, and then source and sink are as they were.
    ensures usage { (result ≡ Status.Usage) ↔ Named (words_of words.now) None }
    ensures untouched { result ≡ Status.Usage → (input.new ≡ input.old) × (output.new ≡ output.old) }

    // A command that reads nothing leaves the source as it was. Where a reply was due, any other has read it to its end.
    ensures unread { (command : Command) → Named (words_of words.now) (Some command)
        → reads_source command ≡ false → input.new ≡ input.old }
    ensures end { (command : Command) → Named (words_of words.now) (Some command) → EndsAfterReading command (I.left input.new) result }

    // A fault and the limit on bytes are answered only where the counts of source and sink tell them.
    ensures read { HasReadCause (I.faults input.old) (I.faults input.new) result }
    ensures write { HasWriteCause (O.faults output.old) (O.faults output.new) result }
    ensures long { HasByteCause (I.given input.old) (I.given input.new) result }

    // An accepted input is answered where no read and no write failed, or there was no memory.
    ensures complete { (command : Command) (bytes : List ℕ) (x : Input) → Named (words_of words.now) (Some command)
        → told_to command (I.left input.old) ≡ Some bytes → reading command bytes ≡ Ok x
        → NoReadFault command (I.faults input.old) (I.faults input.new) → NoFault (O.faults output.old) (O.faults output.new)
        → IsAnsweredOrOutOfMemory result }
{
    match Command::of(words) {
        Some(command) => run_command(alloc, command, input, output),
        None => Status::Usage,
    }
}
