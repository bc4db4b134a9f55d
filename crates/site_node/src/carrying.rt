//! Carrying a message from one end of a pair to the other.

ghost use Rattle.std.specs.Prelude.{◌≡◌, ◌<◌, ◌≤◌, ◌+◌, ◌-◌, true, length, drop, IfOk, IfErr, OnOk, OnErr};
ghost use Rattle.std.specs.Io.KnownBytes.{Appends};
ghost use Rattle.outside_io.specs.Ends.{KeepLinked};
ghost use Rattle.outside_io.specs.Faults.{HasCause};
ghost use Rattle.outside_io.specs.Writing.{WritesFront};
ghost use Rattle.outside_io.specs.declared.link.Asked.TheVariants as asked;
ghost use Rattle.peer_exchange.specs.Measuring.{measure_of};
ghost use Rattle.site_node.specs.declared.carrying.TheConstants.{UNDER_WAY};
ghost use Rattle.site_node.specs.Stops.{AreAskedFor, OnlyLinkFails};
ghost use Rattle.site_node.specs.Code.Carrying.{SendsOn, IsCarried, IsUncarried};

use crate::node::Node;
use crate::receiving::read_on;
use crate::sending::send;
use outside_io::{Failed, Wire};
use peer_exchange::{MAX_MESSAGE, Measure, MessageReader, Which};
use std::alloc::Global;

// How many bytes are written at one end, at most, before the other end reads them.
pub(crate) const UNDER_WAY: usize = 16_384;

// Writes the next piece of the bytes, of which `at` were written, where the other end has read all of these. Answers how
// many were written then.
fn send_on<W: Wire>(
    wire: &mut W,
    from: u8,
    bytes: &[u8],
    at: usize,
    read: usize,
) -> Result<usize, Failed>
    requires linked { (W.ends wire.old from).linked ≡ true }
    requires other { (W.ends wire.old (1 - from)).linked ≡ true }
    requires pair { W.asked wire.old ≡ asked.Pair }
    requires side { from < 2 }
    requires within { at ≤ length bytes.now }
    requires under_way { at ≤ read + UNDER_WAY }

    ensures sends { IfOk result (SendsOn (W.ends wire.old from) (W.ends wire.new from) (W.ends wire.old (1 - from))
        (W.ends wire.new (1 - from)) bytes.now at) }
    ensures some { IfOk result (λ next. (next ≤ length bytes.now) × (at ≤ next) × (read ≡ at → next ≡ at → at ≡ length bytes.now)) }
    ensures under_way { IfOk result (λ next. next ≤ read + UNDER_WAY) }
    ensures front { OnErr result (WritesFront (W.ends wire.old from).sent (W.ends wire.new from).sent (drop at bytes.now)) }

    ensures kept { KeepLinked (W.ends wire.old) (W.ends wire.new) }
    ensures received { (W.ends wire.new from).received ≡ (W.ends wire.old from).received }
    ensures to_come { (W.ends wire.new from).to_come ≡ (W.ends wire.old from).to_come }
    ensures other_sent { (W.ends wire.new (1 - from)).sent ≡ (W.ends wire.old (1 - from)).sent }
    ensures other_received { (W.ends wire.new (1 - from)).received ≡ (W.ends wire.old (1 - from)).received }
    ensures asked { W.asked wire.new ≡ W.asked wire.old }
    ensures asks { W.asks wire.new ≡ W.asks wire.old }
    ensures peer { W.peer wire.new ≡ W.peer wire.old }
    ensures cause { HasCause (W.faults wire.old) (W.faults wire.new) result }
{
    if read < at {
        return Ok(at);
    }
    let (_, rest) = bytes.split_at(at);
    let (piece, _) = rest.split_at(rest.len().min(UNDER_WAY));
    match send(wire, from, piece) {
        Ok(()) => Ok(at + piece.len()),
        Err(Failed) => Err(Failed),
    }
}

/// Sends a message at one end of a pair, and receives it at the other, piece by piece.
pub(crate) fn carry<W: Wire>(
    alloc: Global,
    wire: &mut W,
    from: u8,
    which: Which,
    bytes: &[u8],
) -> Result<Vec<u8>, Node>
    requires linked { (W.ends wire.old from).linked ≡ true }
    requires other { (W.ends wire.old (1 - from)).linked ≡ true }
    requires pair { W.asked wire.old ≡ asked.Pair }
    requires side { from < 2 }

    ensures whole { IfOk result (λ m. measure_of which m.items ≡ Measure.Whole (length m.items)) }
    ensures short { IfOk result (λ m. length m.items ≤ MAX_MESSAGE) }
    ensures carried { IfOk result (λ m. IsCarried (W.ends wire.old (1 - from)) (W.ends wire.new (1 - from)) which bytes.now m.items) }
    ensures wanted { IfOk result (λ m. AreAskedFor which m.items) }
    ensures sent { OnOk result (Appends (W.ends wire.old from).sent (W.ends wire.new from).sent bytes.now) }
    ensures uncarried { IfErr result
        (IsUncarried (W.ends wire.old from) (W.ends wire.new from) (W.ends wire.old (1 - from)) (W.ends wire.new (1 - from)) which
        bytes.now) }

    ensures received { (W.ends wire.new from).received ≡ (W.ends wire.old from).received }
    ensures to_come { (W.ends wire.new from).to_come ≡ (W.ends wire.old from).to_come }
    ensures other_sent { (W.ends wire.new (1 - from)).sent ≡ (W.ends wire.old (1 - from)).sent }
    ensures kept { KeepLinked (W.ends wire.old) (W.ends wire.new) }
    ensures asked { W.asked wire.new ≡ W.asked wire.old }
    ensures asks { W.asks wire.new ≡ W.asks wire.old }
    ensures peer { W.peer wire.new ≡ W.peer wire.old }
    ensures cause { OnlyLinkFails (W.faults wire.old) (W.faults wire.new) result }
{
    let mut reader = MessageReader::new(alloc, which);
    let mut at = 0;
    loop {
        match send_on(wire, from, bytes, at, reader.len()) {
            Ok(next) => at = next,
            Err(Failed) => return Err(Node::Link),
        }
        match read_on(wire, 1 - from, &mut reader) {
            Ok(0) => {
                let (_, rest) = bytes.split_at(at);
                match send(wire, from, rest) {
                    Ok(()) => return Ok(reader.into_bytes()),
                    Err(Failed) => return Err(Node::Link),
                }
            }
            Ok(_) => {}
            Err(why) => return Err(why),
        }
    }
}
