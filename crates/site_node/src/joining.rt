//! The side of an exchange that goes to a peer.

ghost use Rattle.std.specs.Prelude.{◌≡◌, ℕ, ◌+◌, min, true, IfOk, IfErr, IfSome, Err};
ghost use Rattle.std.specs.Io.KnownBytes.{Appends};
ghost use Rattle.outside_io.specs.Ends.{IsUnlinked, KeepLinked};
ghost use Rattle.outside_io.specs.Faults.{last_count};
ghost use Rattle.outside_io.specs.declared.link.Asked.TheVariants as asked;
ghost use Rattle.cot_site.specs.Releases.{IsLater};
ghost use Rattle.cot_site.specs.Sites.{state_of};
ghost use Rattle.site_node.specs.Stops.{OnlyLinkFails};
ghost use Rattle.site_node.specs.Exchanges.{Exchanges, IsBrought, IsUnjoined};

use crate::node::{Node, node_of};
use crate::receiving::receive;
use crate::sending::send;
use cot_site::Site;
use op_name::Memory;
use outside_io::{Failed, Role, Wire};
use peer_exchange::{Peer, PeerCause, Which, close, offer};
use std::alloc::Global;

/// Goes to a peer that waits at a port, and exchanges with it: the site takes in what the peer has and it lacks, and sends
/// what it has and the peer lacks. It answers how many frames were sent and taken in.
///
/// `Err` says why the exchange stopped; the site has then taken in the frames before that, and keeps them. On every answer
/// what it had integrated before is the first part of its history.
pub fn join<W: Wire>(
    alloc: Global,
    site: &mut Site,
    wire: &mut W,
    port: u16,
) -> Result<(u32, u32), Node>
    requires { IsUnlinked (W.ends wire.old) }

    ensures joined { IfOk result (λ counts. Exchanges (W.ends wire.old 0) (W.ends wire.new 0) (W.peer wire.old)
        (IsBrought (state_of site.old) (state_of site.new) counts)) }
    ensures stopped { IfErr result (λ why. Exchanges (W.ends wire.old 0) (W.ends wire.new 0) (W.peer wire.old)
        (IsUnjoined (state_of site.old) (state_of site.new) why)) }
    // Bytes end too early only where all of the peer's bytes were received.
    ensures cut { (offset : ℕ) → result ≡ Err (Node.Peer (Peer.Bytes offset PeerCause.Cut))
        → IfSome (W.peer wire.old) (Appends (W.ends wire.old 0).received (W.ends wire.new 0).received) }
    ensures later { IsLater (state_of site.old) (state_of site.new) }
    ensures cause { OnlyLinkFails (W.faults wire.old) (W.faults wire.new) result }

    ensures unlinked { IsUnlinked (W.ends wire.new) }
    ensures other_sent { (W.ends wire.new 1).sent ≡ (W.ends wire.old 1).sent }
    ensures other_received { (W.ends wire.new 1).received ≡ (W.ends wire.old 1).received }
    ensures asked { W.asked wire.new ≡ asked.Peer Role.Connect port }
    ensures asks { W.asks wire.new ≡ min (W.asks wire.old + 1) last_count }
    ensures peer { W.peer wire.new ≡ W.peer wire.old }
{
    match wire.link(Role::Connect, port) {
        Ok(()) => {
            let done = join_linked(alloc, site, wire);
            wire.shut(0);
            done
        }
        Err(Failed) => Err(Node::Link),
    }
}

// The exchange, at a wire whose end 0 is linked to the peer.
fn join_linked<W: Wire>(alloc: Global, site: &mut Site, wire: &mut W) -> Result<(u32, u32), Node>
    requires { (W.ends wire.old 0).linked ≡ true }

    ensures joined { IfOk result (λ counts. Exchanges (W.ends wire.old 0) (W.ends wire.new 0) (W.ends wire.old 0).to_come
        (IsBrought (state_of site.old) (state_of site.new) counts)) }
    ensures stopped { IfErr result (λ why. Exchanges (W.ends wire.old 0) (W.ends wire.new 0) (W.ends wire.old 0).to_come
        (IsUnjoined (state_of site.old) (state_of site.new) why)) }
    ensures cut { (offset : ℕ) → result ≡ Err (Node.Peer (Peer.Bytes offset PeerCause.Cut))
        → IfSome (W.ends wire.old 0).to_come (Appends (W.ends wire.old 0).received (W.ends wire.new 0).received) }
    ensures later { IsLater (state_of site.old) (state_of site.new) }
    ensures cause { OnlyLinkFails (W.faults wire.old) (W.faults wire.new) result }

    ensures kept { KeepLinked (W.ends wire.old) (W.ends wire.new) }
    ensures other_sent { (W.ends wire.new 1).sent ≡ (W.ends wire.old 1).sent }
    ensures other_received { (W.ends wire.new 1).received ≡ (W.ends wire.old 1).received }
    ensures asked { W.asked wire.new ≡ W.asked wire.old }
    ensures asks { W.asks wire.new ≡ W.asks wire.old }
    ensures peer { W.peer wire.new ≡ W.peer wire.old }
{
    let mut first = Vec::new(alloc);
    match offer(site, &mut first) {
        Ok(()) => {}
        Err(Memory) => return Err(Node::Memory),
    }
    match send(wire, 0, &first) {
        Ok(()) => {}
        Err(Failed) => return Err(Node::Link),
    }
    let second = match receive(alloc, wire, 0, Which::Second) {
        Ok(second) => second,
        Err(why) => return Err(why),
    };
    let mut third = Vec::new(alloc);
    let (taken, sent) = match close(alloc, site, &second, &mut third) {
        Ok(counts) => counts,
        Err(why) => return Err(node_of(why)),
    };
    match send(wire, 0, &third) {
        Ok(()) => Ok((sent, taken)),
        Err(Failed) => Err(Node::Link),
    }
}
