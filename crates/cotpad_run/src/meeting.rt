//! The commands `serve` and `join`.

ghost use Rattle.std.specs.Prelude.{◌≡◌, ◌≢◌, ◌⊎◌, ◌+◌, ℕ, List, Option, min, Ok, Err, IfOk, IfErr, IfSome, Some};
ghost use Rattle.std.specs.Io.KnownBytes.{Appends};
ghost use Rattle.outside_io.specs.Ends.{IsUnlinked};
ghost use Rattle.outside_io.specs.Faults.{last_count};
ghost use Rattle.outside_io.specs.declared.link.Asked.TheVariants as link;
ghost use Rattle.cot_site.specs.Releases.{IsLater};
ghost use Rattle.cot_site.specs.Sites.{state_of};
ghost use Rattle.cot_site.specs.States.{State};
ghost use Rattle.peer_exchange.specs.declared.peer.Peer as declared;
ghost use Rattle.session_log.specs.Logs.{log_of};
ghost use Rattle.site_node.specs.Exchanges.{Exchanges};
ghost use Rattle.site_node.specs.Stops.{OnlyLinkFails};
ghost use Rattle.log_replies.specs.Outside.{told};
ghost use Rattle.cotpad_run.specs.Made.{IsMade};
ghost use Rattle.cotpad_run.specs.Meeting.{Side, serving, joining, IsMeeting, AgreesWithPeer, AreFaultless};
ghost use Rattle.cotpad_run.specs.Wired.{wired};
ghost use Rattle.cotpad_run.specs.Code.Meeting.{IsMetTold, IsRefusalWritten};

use crate::refusals::tell_stop;
use cot_site::Site;
use log_replies::{Status, load_input};
use op_name::Memory;
use outside_io::{Failed, ReadBad, Sink, Source, Wire, write_whole};
use peer_exchange::{Peer, PeerCause, agreeing_sites_are_not_refused, taking_in_keeps_histories};
use session_log::{one_loading, write_log};
use site_node::{Node, join, serve};
use std::alloc::Global;

/// A command that exchanges with a peer.
pub(crate) trait Meets {
    /// Its side of the exchange.
    ghost side: { Self → Side };

    /// The port of the link.
    ghost port: { Self → ℕ };

    /// Exchanges with the peer, and answers how many frames were sent and taken in.
    fn meet<W: Wire>(
        &self,
        alloc: Global,
        site: &mut Site,
        wire: &mut W,
    ) -> Result<(u32, u32), Node>
        requires { IsUnlinked (W.ends wire.old) }

        ensures met { IfOk result (λ counts. Exchanges (W.ends wire.old 0) (W.ends wire.new 0) (W.peer wire.old)
            ((side self.now).meets (state_of site.old) (state_of site.new) counts)) }
        ensures stopped { IfErr result (λ why. Exchanges (W.ends wire.old 0) (W.ends wire.new 0) (W.peer wire.old)
            ((side self.now).stops (state_of site.old) (state_of site.new) why)) }
        ensures cut { (offset : ℕ) → result ≡ Err (Node.Peer (Peer.Bytes offset PeerCause.Cut))
            → IfSome (W.peer wire.old) (Appends (W.ends wire.old 0).received (W.ends wire.new 0).received) }
        ensures later { IsLater (state_of site.old) (state_of site.new) }
        ensures cause { OnlyLinkFails (W.faults wire.old) (W.faults wire.new) result }
        // The messages of another site that agrees aren't refused.
        ensures unrefused { (other : State) (theirs received : List ℕ) (why : declared.Peer) → W.peer wire.old ≡ Some theirs
            → (W.ends wire.old 0).received ≡ Some received → (side self.now).theirs (state_of site.old) other theirs → result ≢ Err (Node.Peer why) }

        ensures unlinked { IsUnlinked (W.ends wire.new) }
        ensures other_sent { (W.ends wire.new 1).sent ≡ (W.ends wire.old 1).sent }
        ensures other_received { (W.ends wire.new 1).received ≡ (W.ends wire.old 1).received }
        ensures asked { W.asked wire.new ≡ link.Peer (side self.now).role (port self.now) }
        ensures asks { W.asks wire.new ≡ min (W.asks wire.old + 1) last_count }
        ensures peer { W.peer wire.new ≡ W.peer wire.old };
}

/// Waits for the peer at this port.
#[derive(Drop)]
pub(crate) struct Serving {
    pub(crate) port: u16,
}

impl Meets for Serving {
    ghost side = { λ _. serving };

    ghost port = { λ s. s.port };

    fn meet<W: Wire>(
        &self,
        alloc: Global,
        site: &mut Site,
        wire: &mut W,
    ) -> Result<(u32, u32), Node> {
        site.known();
        agreeing_sites_are_not_refused();
        taking_in_keeps_histories();
        serve(alloc, site, wire, self.port)
    }
}

/// Goes to a peer that waits at this port.
#[derive(Drop)]
pub(crate) struct Joining {
    pub(crate) port: u16,
}

impl Meets for Joining {
    ghost side = { λ _. joining };

    ghost port = { λ j. j.port };

    fn meet<W: Wire>(
        &self,
        alloc: Global,
        site: &mut Site,
        wire: &mut W,
    ) -> Result<(u32, u32), Node> {
        site.known();
        agreeing_sites_are_not_refused();
        join(alloc, site, wire, self.port)
    }
}

/// Loads a log as site 0, lets it exchange with the peer, and writes the log of the site, or why what the peer sent is
/// refused.
pub(crate) fn answer_met<P: Meets, S: Source, K: Sink, W: Wire>(
    alloc: Global,
    peer: &P,
    source: &mut S,
    sink: &mut K,
    wire: &mut W,
) -> Status
    requires { IsUnlinked (W.ends wire.old) }
    ensures answer { IsMeeting (P.side peer.now) (P.port peer.now)
        (told (S.left source.old) (S.faults source.old) (K.held sink.old) (K.faults sink.old))
        (told (S.left source.new) (S.faults source.new) (K.held sink.new) (K.faults sink.new))
        (wired (W.ends wire.old) (W.peer wire.old) (W.asked wire.old) (W.asks wire.old) (W.faults wire.old))
        (wired (W.ends wire.new) (W.peer wire.new) (W.asked wire.new) (W.asks wire.new) (W.faults wire.new))
        result }
    ensures complete { AgreesWithPeer (P.side peer.now)
        (told (S.left source.old) (S.faults source.old) (K.held sink.old) (K.faults sink.old))
        (wired (W.ends wire.old) (W.peer wire.old) (W.asked wire.old) (W.asks wire.old) (W.faults wire.old))
        → AreFaultless
        (told (S.left source.old) (S.faults source.old) (K.held sink.old) (K.faults sink.old))
        (told (S.left source.new) (S.faults source.new) (K.held sink.new) (K.faults sink.new))
        (wired (W.ends wire.old) (W.peer wire.old) (W.asked wire.old) (W.asks wire.old) (W.faults wire.old))
        (wired (W.ends wire.new) (W.peer wire.new) (W.asked wire.new) (W.asks wire.new) (W.faults wire.new))
        → (result ≡ Status.Done) ⊎ (result ≡ Status.Memory) }
    ensures untouched { (result ≡ Status.ReadFault) ⊎ ((result ≡ Status.Memory) ⊎ (result ≡ Status.LinkFault)) → sink.new ≡ sink.old }
    ensures unlinked { IsUnlinked (W.ends wire.new) }
{
    one_loading();
    let mut out = Vec::new(alloc);
    match load_input(alloc, 0, source, &mut out) {
        Ok(Some(mut site)) => {
            let met = peer.meet(alloc, &mut site, wire);
            tell_met(alloc, &site, met, sink)
        }
        Ok(None) => write_refusal(&out, sink),
        Err(ReadBad::Fault) => Status::ReadFault,
        Err(ReadBad::Memory) => Status::Memory,
    }
}

// Writes the line of a refused input.
fn write_refusal<K: Sink>(line: &[u8], sink: &mut K) -> Status
    ensures written { (left after : Option (List ℕ)) → (faults later : ℕ) → IsRefusalWritten line.now
        (told left faults (K.held sink.old) (K.faults sink.old))
        (told after later (K.held sink.new) (K.faults sink.new))
        result }
    ensures untouched { (result ≡ Status.ReadFault) ⊎ ((result ≡ Status.Memory) ⊎ (result ≡ Status.LinkFault)) → sink.new ≡ sink.old }
{
    match write_whole(sink, line) {
        Ok(()) => Status::Refused,
        Err(Failed) => Status::WriteFault,
    }
}

// Writes the log of the site once it met its peer, or why what the peer sent is refused.
fn tell_met<K: Sink>(
    alloc: Global,
    site: &Site,
    met: Result<(u32, u32), Node>,
    sink: &mut K,
) -> Status
    ensures told { (left after : Option (List ℕ)) → (faults later : ℕ) → IsMetTold met (log_of site.now.history site.now.waiting)
        (told left faults (K.held sink.old) (K.faults sink.old))
        (told after later (K.held sink.new) (K.faults sink.new))
        result }
    ensures untouched { (result ≡ Status.ReadFault) ⊎ ((result ≡ Status.Memory) ⊎ (result ≡ Status.LinkFault)) → sink.new ≡ sink.old }
{
    match met {
        Ok(_) => write_site(alloc, site, sink),
        Err(why) => tell_stop(alloc, why, sink),
    }
}

// Writes the log of the site.
fn write_site<K: Sink>(alloc: Global, site: &Site, sink: &mut K) -> Status
    ensures made { (left after : Option (List ℕ)) → (faults later : ℕ) → IsMade (log_of site.now.history site.now.waiting)
        (told left faults (K.held sink.old) (K.faults sink.old))
        (told after later (K.held sink.new) (K.faults sink.new))
        result }
    ensures untouched { (result ≡ Status.ReadFault) ⊎ ((result ≡ Status.Memory) ⊎ (result ≡ Status.LinkFault)) → sink.new ≡ sink.old }
{
    let mut out = Vec::new(alloc);
    match write_log(site, &mut out) {
        Ok(()) => {}
        Err(Memory) => return Status::Memory,
    }
    match write_whole(sink, &out) {
        Ok(()) => Status::Done,
        Err(Failed) => Status::WriteFault,
    }
}
