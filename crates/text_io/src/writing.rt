ghost use Rattle.std.specs.Prelude.{OnOk, OnErr};
ghost use Rattle.std.specs.Io.KnownBytes.{Appends};
ghost use Rattle.text_io.specs.Counts.{HasCause};
ghost use Rattle.text_io.specs.Told.{AppendsProperPrefix, StaysTold};

use crate::{Failed, Sink};

/// Writes all the bytes, or a proper prefix of them where the sink failed. Each call to the sink is
/// given all that is left, and the first one that fails is the last.
#[tactic(auto, using(crate::proofs::Pieces::next_piece))]
pub fn write_whole<K: Sink>(sink: &mut K, bytes: &[u8]) -> Result<(), Failed>
    ensures ok { OnOk result (Appends (K.written sink.old) (K.written sink.new) bytes.now) }
    ensures err { OnErr result
        (AppendsProperPrefix (K.written sink.old) (K.written sink.new) bytes.now) }
    ensures told { StaysTold (K.written sink.old) (K.written sink.new) }
    ensures cause { HasCause (K.faults sink.old) (K.faults sink.new) result }
{
    let mut done = 0;
    while done < bytes.len() {
        done += sink.write(&bytes[done..])?;
    }
    Ok(())
}
