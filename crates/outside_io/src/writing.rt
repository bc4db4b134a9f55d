//! Writing to a sink until all is written.

ghost use Rattle.std.specs.Prelude.{◌≤◌, OnOk, OnErr};
ghost use Rattle.std.specs.Io.KnownBytes.{Appends};
ghost use Rattle.outside_io.specs.Faults.{HasCause};
ghost use Rattle.outside_io.specs.Writing.{WritesFront};

use crate::failed::Failed;
use crate::sink::Sink;

/// Writes all of `piece`. On failure the sink holds what it held and a front of `piece`.
pub fn write_whole<K: Sink>(sink: &mut K, piece: &[u8]) -> Result<(), Failed>
    ensures whole { OnOk result (Appends (K.held sink.old) (K.held sink.new) piece.now) }
    ensures front { OnErr result (WritesFront (K.held sink.old) (K.held sink.new) piece.now) }
    ensures cause { HasCause (K.faults sink.old) (K.faults sink.new) result }
{
    let mut written = 0;
    while written < piece.len() {
        let (_, rest) = piece.split_at(written);
        match sink.write(rest) {
            Ok(taken) => written += taken,
            Err(Failed) => return Err(Failed),
        }
    }
    Ok(())
}
