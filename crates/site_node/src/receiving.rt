//! Receiving a message.

ghost use Rattle.std.specs.Prelude.{◌≡◌, ◌⊎◌, ℕ, ◌<◌, ◌≤◌, ◌+◌, ◌-◌, List, true, length, IfOk, IfErr, OnOk, OnErr, Ok, Err};
ghost use Rattle.std.specs.Io.KnownBytes.{IsAtEnd};
ghost use Rattle.outside_io.specs.Ends.{KeepLinked};
ghost use Rattle.peer_exchange.specs.Measuring.{measure_of, NotPast};
ghost use Rattle.peer_exchange.specs.Refusals.{IsWhole};
ghost use Rattle.site_node.specs.Moves.{Receives, Gains, Loses, IsStopped};
ghost use Rattle.site_node.specs.Stops.{AreAskedFor, OnlyLinkFails};
ghost use Rattle.site_node.specs.Code.Reading.{IsPart, StopsAfter};

use crate::node::Node;
use op_name::Memory;
use outside_io::{Failed, Wire};
use peer_exchange::{MAX_MESSAGE, Measure, MessageReader, Peer, PeerCause, Which};
use std::alloc::Global;

// How many bytes are read at once, at most.
const ROOM: usize = 1024;

// Reads once, and appends what came.
fn read_once<W: Wire>(
    wire: &mut W,
    end: u8,
    reader: &mut MessageReader,
    room: &mut [u8],
) -> Result<usize, Node>
    requires linked { (W.ends wire.old end).linked ≡ true }
    requires side { end < 2 }
    ensures gains { OnOk result (Gains (W.ends wire.old end) (W.ends wire.new end) reader.old.bytes reader.new.bytes) }
    ensures size { IfOk result (λ n. length reader.new.bytes ≡ length reader.old.bytes + n) }
    ensures bound { IfOk result (λ n. n ≤ length room.old) }
    ensures ended { result ≡ Ok 0 → 0 < length room.old → IsAtEnd (W.ends wire.new end).to_come }
    ensures lost { OnErr result (Loses (W.ends wire.old end) (W.ends wire.new end) (length room.old)) }
    ensures which { reader.new.which ≡ reader.old.which }
    ensures not_past { OnOk result ((k : ℕ) → measure_of reader.old.which reader.old.bytes ≡ Measure.More k
        → length reader.new.bytes ≤ k → NotPast reader.new.which reader.new.bytes) }
    ensures other_end { W.ends wire.new (1 - end) ≡ W.ends wire.old (1 - end) }
    ensures kept { KeepLinked (W.ends wire.old) (W.ends wire.new) }
    ensures asked { W.asked wire.new ≡ W.asked wire.old }
    ensures asks { W.asks wire.new ≡ W.asks wire.old }
    ensures peer { W.peer wire.new ≡ W.peer wire.old }
    ensures cause { OnlyLinkFails (W.faults wire.old) (W.faults wire.new) result }
    ensures stops { IfErr result (λ why. (why ≡ Node.Link) ⊎ (why ≡ Node.Memory)) }
{
    match wire.read(end, room) {
        Ok(given) => {
            let (front, _) = room.split_at(given);
            match reader.feed(front) {
                Ok(()) => Ok(given),
                Err(Memory) => Err(Node::Memory),
            }
        }
        Err(Failed) => Err(Node::Link),
    }
}

// How many bytes to read at once: some, no more than are asked for, and no more than a message may have.
fn wanted(len: usize, at_least: u64) -> usize
    requires few { len < MAX_MESSAGE }
    requires asked { len < at_least }
    ensures some { 0 < result }
    ensures room { result ≤ ROOM }
    ensures below { len + result ≤ MAX_MESSAGE }
    ensures within { len + result ≤ at_least }
{
    let asked = at_least - len as u64;
    let left = (MAX_MESSAGE - len) as u64;
    asked.min(left).min(ROOM as u64) as usize
}

/// Reads the next piece of a message, where it isn't whole. Answers how many bytes came: none where it is whole.
pub(crate) fn read_on<W: Wire>(
    wire: &mut W,
    end: u8,
    reader: &mut MessageReader,
) -> Result<usize, Node>
    requires linked { (W.ends wire.old end).linked ≡ true }
    requires side { end < 2 }
    requires part { IsPart reader.old.which reader.old.bytes }

    ensures whole { result ≡ Ok 0 → IsWhole reader.new.which reader.new.bytes }
    ensures part { OnOk result (IsPart reader.new.which reader.new.bytes) }
    ensures which { reader.new.which ≡ reader.old.which }
    ensures size { IfOk result (λ n. length reader.new.bytes ≡ length reader.old.bytes + n) }
    ensures gains { OnOk result (Gains (W.ends wire.old end) (W.ends wire.new end) reader.old.bytes reader.new.bytes) }
    ensures stopped { IfErr result (StopsAfter reader.old.which (W.ends wire.old end) (W.ends wire.new end) reader.old.bytes) }
    // They end too early only where no more are to come, and none came.
    ensures cut { (offset : ℕ) → result ≡ Err (Node.Peer (Peer.Bytes offset PeerCause.Cut))
        → IsAtEnd (W.ends wire.new end).to_come × (offset ≡ length reader.old.bytes) }

    ensures other_end { W.ends wire.new (1 - end) ≡ W.ends wire.old (1 - end) }
    ensures kept { KeepLinked (W.ends wire.old) (W.ends wire.new) }
    ensures asked { W.asked wire.new ≡ W.asked wire.old }
    ensures asks { W.asks wire.new ≡ W.asks wire.old }
    ensures peer { W.peer wire.new ≡ W.peer wire.old }
    ensures cause { OnlyLinkFails (W.faults wire.old) (W.faults wire.new) result }
{
    let len = reader.len();
    match reader.measure() {
        Measure::Whole { .. } => Ok(0),
        Measure::Bad { offset, cause } => Err(spoilt(offset, cause)),
        Measure::More { at_least } => {
            if len == MAX_MESSAGE {
                return Err(spoilt(len as u32, PeerCause::Limit));
            }
            let mut room = [0u8; ROOM];
            let wanted = wanted(len, at_least);
            match read_once(wire, end, reader, &mut room[..wanted]) {
                Ok(0) => Err(spoilt(len as u32, PeerCause::Cut)),
                Ok(given) => Ok(given),
                Err(why) => Err(why),
            }
        }
    }
}

/// Receives one message, and no byte after it.
pub(crate) fn receive<W: Wire>(
    alloc: Global,
    wire: &mut W,
    end: u8,
    which: Which,
) -> Result<Vec<u8>, Node>
    requires linked { (W.ends wire.old end).linked ≡ true }
    requires side { end < 2 }

    ensures whole { IfOk result (λ m. measure_of which m.items ≡ Measure.Whole (length m.items)) }
    ensures short { IfOk result (λ m. length m.items ≤ MAX_MESSAGE) }
    ensures received { IfOk result (λ m. Receives (W.ends wire.old end) (W.ends wire.new end) m.items) }
    ensures wanted { IfOk result (λ m. AreAskedFor which m.items) }
    ensures stopped { IfErr result (IsStopped which (W.ends wire.old end) (W.ends wire.new end)) }
    // They end too early only where no more are to come.
    ensures cut { (offset : ℕ) → result ≡ Err (Node.Peer (Peer.Bytes offset PeerCause.Cut)) → IsAtEnd (W.ends wire.new end).to_come }

    ensures other_end { W.ends wire.new (1 - end) ≡ W.ends wire.old (1 - end) }
    ensures kept { KeepLinked (W.ends wire.old) (W.ends wire.new) }
    ensures asked { W.asked wire.new ≡ W.asked wire.old }
    ensures asks { W.asks wire.new ≡ W.asks wire.old }
    ensures peer { W.peer wire.new ≡ W.peer wire.old }
    ensures cause { OnlyLinkFails (W.faults wire.old) (W.faults wire.new) result }
{
    let mut reader = MessageReader::new(alloc, which);
    loop {
        match read_on(wire, end, &mut reader) {
            Ok(0) => return Ok(reader.into_bytes()),
            Ok(_) => {}
            Err(why) => return Err(why),
        }
    }
}

// The bytes have a fault.
fn spoilt(offset: u32, cause: PeerCause) -> Node
    ensures { result ≡ Node.Peer (Peer.Bytes offset cause) }
{
    Node::Peer(Peer::Bytes { offset, cause })
}
