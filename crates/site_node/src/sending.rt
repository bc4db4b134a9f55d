//! Sending a message.

ghost use Rattle.std.specs.Prelude.{◌≡◌, ◌<◌, true, OnOk, OnErr, ◌-◌};
ghost use Rattle.std.specs.Io.KnownBytes.{Appends};
ghost use Rattle.outside_io.specs.Ends.{KeepLinked, brought};
ghost use Rattle.outside_io.specs.Faults.{HasCause};
ghost use Rattle.outside_io.specs.Writing.{WritesFront};

use outside_io::{Failed, Wire};

/// Writes all bytes at an end. On failure a front of them was written.
pub(crate) fn send<W: Wire>(wire: &mut W, end: u8, bytes: &[u8]) -> Result<(), Failed>
    requires linked { (W.ends wire.old end).linked ≡ true }
    requires side { end < 2 }

    ensures whole { OnOk result (Appends (W.ends wire.old end).sent (W.ends wire.new end).sent bytes.now) }
    ensures front { OnErr result (WritesFront (W.ends wire.old end).sent (W.ends wire.new end).sent bytes.now) }
    // On a pair all of it is to come at the other end, if that is linked.
    ensures brought { OnOk result (Appends (W.ends wire.old (1 - end)).to_come (W.ends wire.new (1 - end)).to_come
        (brought (W.asked wire.old) (W.ends wire.old (1 - end)).linked bytes.now)) }

    ensures kept { KeepLinked (W.ends wire.old) (W.ends wire.new) }
    ensures received { (W.ends wire.new end).received ≡ (W.ends wire.old end).received }
    ensures to_come { (W.ends wire.new end).to_come ≡ (W.ends wire.old end).to_come }
    ensures other_sent { (W.ends wire.new (1 - end)).sent ≡ (W.ends wire.old (1 - end)).sent }
    ensures other_received { (W.ends wire.new (1 - end)).received ≡ (W.ends wire.old (1 - end)).received }
    ensures asked { W.asked wire.new ≡ W.asked wire.old }
    ensures asks { W.asks wire.new ≡ W.asks wire.old }
    ensures peer { W.peer wire.new ≡ W.peer wire.old }
    ensures cause { HasCause (W.faults wire.old) (W.faults wire.new) result }
{
    let mut at = 0;
    while at < bytes.len() {
        let (_, rest) = bytes.split_at(at);
        match wire.write(end, rest) {
            Ok(taken) => at += taken,
            Err(Failed) => return Err(Failed),
        }
    }
    Ok(())
}
