//! The line that says why what a peer sent is refused.

ghost use Rattle.std.specs.Prelude.{◌≡◌, ◌⊎◌, ◌++◌, ℕ, List, Option, OnOk};
ghost use Rattle.log_replies.specs.Outside.{told};
ghost use Rattle.cotpad_run.specs.Refusals.{peer_cause_word, peer_words, refused_peer_text};
ghost use Rattle.cotpad_run.specs.Code.Stopping.{IsStopTold};

use crate::generator::put_number;
use log_replies::Status;
use op_name::Memory;
use outside_io::{Failed, Sink, write_whole};
use peer_exchange::{Peer, PeerCause};
use site_answers::put_verdict;
use site_node::Node;
use std::alloc::Global;

/// Ends a call whose exchange stopped: where what was received is refused, its line is written.
pub(crate) fn tell_stop<K: Sink>(alloc: Global, why: Node, sink: &mut K) -> Status
    ensures told { (left after : Option (List ℕ)) → (faults later : ℕ) → IsStopTold why
        (told left faults (K.held sink.old) (K.faults sink.old))
        (told after later (K.held sink.new) (K.faults sink.new))
        result }
    ensures untouched { (result ≡ Status.ReadFault) ⊎ ((result ≡ Status.Memory) ⊎ (result ≡ Status.LinkFault)) → sink.new ≡ sink.old }
{
    match why {
        Node::Link => Status::LinkFault,
        Node::Memory => Status::Memory,
        Node::Peer(refusal) => tell_refusal(alloc, refusal, sink),
    }
}

// Writes the line of a refusal.
fn tell_refusal<K: Sink>(alloc: Global, why: Peer, sink: &mut K) -> Status
    ensures told { (left after : Option (List ℕ)) → (faults later : ℕ) → IsStopTold (Node.Peer why)
        (told left faults (K.held sink.old) (K.faults sink.old))
        (told after later (K.held sink.new) (K.faults sink.new))
        result }
    ensures untouched { (result ≡ Status.ReadFault) ⊎ ((result ≡ Status.Memory) ⊎ (result ≡ Status.LinkFault)) → sink.new ≡ sink.old }
{
    let mut out = Vec::new(alloc);
    match put_refusal(why, &mut out) {
        Ok(()) => {}
        Err(Memory) => return Status::Memory,
    }
    match write_whole(sink, &out) {
        Ok(()) => Status::PeerRefused,
        Err(Failed) => Status::WriteFault,
    }
}

// Appends the line of a refusal.
fn put_refusal(why: Peer, out: &mut Vec<u8>) -> Result<(), Memory>
    ensures { OnOk result (out.new.items ≡ out.old.items ++ refused_peer_text why) }
{
    out.extend_from_slice(b"refused peer ")?;
    put_words(why, out)?;
    out.extend_from_slice(b"\n")?;
    Ok(())
}

// Appends the words of a refusal.
fn put_words(why: Peer, out: &mut Vec<u8>) -> Result<(), Memory>
    ensures { OnOk result (out.new.items ≡ out.old.items ++ peer_words why) }
{
    match why {
        Peer::Bytes { offset, cause } => {
            put_number(b"bytes ", u64::from(offset), out)?;
            out.extend_from_slice(b" ")?;
            out.extend_from_slice(word_of(cause).as_bytes())?;
            Ok(())
        }
        Peer::Op { member, verdict } => {
            out.extend_from_slice(b"op ")?;
            put_verdict(member, verdict, out)
        }
        // It has no words.
        Peer::Memory => Err(Memory),
    }
}

// The word of a cause.
fn word_of(cause: PeerCause) -> &'static str
    ensures { result.now ≡ peer_cause_word cause }
{
    match cause {
        PeerCause::Head => "head",
        PeerCause::Frame(cause) => cause.word(),
        PeerCause::Cut => "cut",
        PeerCause::Extra => "extra",
        PeerCause::Limit => "limit",
    }
}
