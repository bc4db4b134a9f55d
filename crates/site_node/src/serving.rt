//! The side of an exchange that waits for a peer.

ghost use Rattle.std.specs.Prelude.{◌≡◌, ℕ, ◌+◌, min, true, IfOk, IfErr, IfSome, Err};
ghost use Rattle.std.specs.Io.KnownBytes.{Appends};
ghost use Rattle.outside_io.specs.Ends.{IsUnlinked, KeepLinked};
ghost use Rattle.outside_io.specs.Faults.{last_count};
ghost use Rattle.outside_io.specs.declared.link.Asked.TheVariants as asked;
ghost use Rattle.cot_site.specs.Releases.{IsLater};
ghost use Rattle.cot_site.specs.Sites.{state_of};
ghost use Rattle.site_node.specs.Stops.{OnlyLinkFails};
ghost use Rattle.site_node.specs.Exchanges.{Exchanges, IsServed, IsUnserved};

use crate::node::{Node, node_of};
use crate::receiving::receive;
use crate::sending::send;
use cot_site::Site;
use outside_io::{Failed, Role, Wire};
use peer_exchange::{Peer, PeerCause, Which, answer, finish};
use std::alloc::Global;

/// Waits for a peer at a port, and exchanges with it: the site takes in what the peer has and it lacks, and sends what it
/// has and the peer lacks. It answers how many frames were sent and taken in.
///
/// `Err` says why the exchange stopped; the site has then taken in the frames before that, and keeps them. On every answer
/// what it had integrated before is the first part of its history.
pub fn serve<W: Wire>(
    alloc: Global,
    site: &mut Site,
    wire: &mut W,
    port: u16,
) -> Result<(u32, u32), Node>
    requires { IsUnlinked (W.ends wire.old) }

    ensures served { IfOk result (λ counts. Exchanges (W.ends wire.old 0) (W.ends wire.new 0) (W.peer wire.old)
        (IsServed (state_of site.old) (state_of site.new) counts)) }
    ensures stopped { IfErr result (λ why. Exchanges (W.ends wire.old 0) (W.ends wire.new 0) (W.peer wire.old)
        (IsUnserved (state_of site.old) (state_of site.new) why)) }
    // Bytes end too early only where all of the peer's bytes were received.
    ensures cut { (offset : ℕ) → result ≡ Err (Node.Peer (Peer.Bytes offset PeerCause.Cut))
        → IfSome (W.peer wire.old) (Appends (W.ends wire.old 0).received (W.ends wire.new 0).received) }
    ensures later { IsLater (state_of site.old) (state_of site.new) }
    ensures cause { OnlyLinkFails (W.faults wire.old) (W.faults wire.new) result }

    ensures unlinked { IsUnlinked (W.ends wire.new) }
    ensures other_sent { (W.ends wire.new 1).sent ≡ (W.ends wire.old 1).sent }
    ensures other_received { (W.ends wire.new 1).received ≡ (W.ends wire.old 1).received }
    ensures asked { W.asked wire.new ≡ asked.Peer Role.Listen port }
    ensures asks { W.asks wire.new ≡ min (W.asks wire.old + 1) last_count }
    ensures peer { W.peer wire.new ≡ W.peer wire.old }
{
    match wire.link(Role::Listen, port) {
        Ok(()) => {
            let done = serve_linked(alloc, site, wire);
            wire.shut(0);
            done
        }
        Err(Failed) => Err(Node::Link),
    }
}

// The exchange, at a wire whose end 0 is linked to the peer.
fn serve_linked<W: Wire>(alloc: Global, site: &mut Site, wire: &mut W) -> Result<(u32, u32), Node>
    requires { (W.ends wire.old 0).linked ≡ true }

    ensures served { IfOk result (λ counts. Exchanges (W.ends wire.old 0) (W.ends wire.new 0) (W.ends wire.old 0).to_come
        (IsServed (state_of site.old) (state_of site.new) counts)) }
    ensures stopped { IfErr result (λ why. Exchanges (W.ends wire.old 0) (W.ends wire.new 0) (W.ends wire.old 0).to_come
        (IsUnserved (state_of site.old) (state_of site.new) why)) }
    ensures cut { (offset : ℕ) → result ≡ Err (Node.Peer (Peer.Bytes offset PeerCause.Cut))
        → IfSome (W.ends wire.old 0).to_come (Appends (W.ends wire.old 0).received (W.ends wire.new 0).received) }
    ensures later { IsLater (state_of site.old) (state_of site.new) }
    ensures cause { OnlyLinkFails (W.faults wire.old) (W.faults wire.new) result }

    ensures kept { KeepLinked (W.ends wire.old) (W.ends wire.new) }
    ensures other_sent { (W.ends wire.new 1).sent ≡ (W.ends wire.old 1).sent }
    ensures other_received { (W.ends wire.new 1).received ≡ (W.ends wire.old 1).received }
    ensures asked { W.asked wire.new ≡ W.asked wire.old }
    ensures asks { W.asks wire.new ≡ W.asks wire.old }
    ensures peer { W.peer wire.new ≡ W.peer wire.old }
{
    let first = match receive(alloc, wire, 0, Which::First) {
        Ok(first) => first,
        Err(why) => return Err(why),
    };
    let mut second = Vec::new(alloc);
    let sent = match answer(alloc, site, &first, &mut second) {
        Ok(sent) => sent,
        Err(why) => return Err(node_of(why)),
    };
    match send(wire, 0, &second) {
        Ok(()) => {}
        Err(Failed) => return Err(Node::Link),
    }
    let third = match receive(alloc, wire, 0, Which::Third) {
        Ok(third) => third,
        Err(why) => return Err(why),
    };
    match finish(alloc, site, &third) {
        Ok(taken) => Ok((sent, taken)),
        Err(why) => Err(node_of(why)),
    }
}
