//! An exchange of two sites of this process, over the pair of a wire.

ghost use Rattle.std.specs.Prelude.{◌≡◌, ℕ, ◌+◌, min, true, IfOk, IfErr};
ghost use Rattle.outside_io.specs.Ends.{IsUnlinked, KeepLinked, nothing_of};
ghost use Rattle.outside_io.specs.Faults.{last_count};
ghost use Rattle.outside_io.specs.declared.link.Asked.TheVariants as asked;
ghost use Rattle.cot_site.specs.Releases.{IsLater};
ghost use Rattle.cot_site.specs.Sites.{state_of};
ghost use Rattle.site_node.specs.Pairs.{IsLooped, IsUnlooped};
ghost use Rattle.site_node.specs.Stops.{OnlyLinkFails};

use crate::carrying::carry;
use crate::node::{Node, node_of};
use cot_site::Site;
use op_name::Memory;
use outside_io::{Failed, Wire};
use peer_exchange::{Which, agreeing_sites_are_not_refused, answer, close, finish, offer};
use std::alloc::Global;

/// Lets two sites exchange over the pair of a wire: the server is at end 0, the joiner at end 1. At most 16,384 bytes are
/// written at one end before the other end reads them. It answers how many frames the server and the joiner sent.
///
/// `Err` says why the exchange stopped; each site has then taken in the frames before that, and keeps them. On every
/// answer what a site had integrated before is the first part of its history.
pub fn loop_run<W: Wire>(
    alloc: Global,
    server: &mut Site,
    joiner: &mut Site,
    wire: &mut W,
) -> Result<(u32, u32), Node>
    requires { IsUnlinked (W.ends wire.old) }

    ensures exchanged { IfOk result
        (λ counts. IsLooped (state_of server.old) (state_of server.new) (state_of joiner.old) (state_of joiner.new) counts
        (W.ends wire.old) (W.ends wire.new)) }
    ensures stopped { IfErr result (λ why.
        IsUnlooped (state_of server.old) (state_of server.new) (state_of joiner.old) (state_of joiner.new) why
        (W.ends wire.old) (W.ends wire.new)) }
    ensures server_later { IsLater (state_of server.old) (state_of server.new) }
    ensures joiner_later { IsLater (state_of joiner.old) (state_of joiner.new) }
    ensures cause { OnlyLinkFails (W.faults wire.old) (W.faults wire.new) result }

    ensures unlinked { IsUnlinked (W.ends wire.new) }
    ensures asked { W.asked wire.new ≡ asked.Pair }
    ensures asks { W.asks wire.new ≡ min (W.asks wire.old + 1) last_count }
    ensures peer { W.peer wire.new ≡ W.peer wire.old }
{
    match wire.link_pair() {
        Ok(()) => {
            let done = exchange(alloc, server, joiner, wire);
            wire.shut(0);
            wire.shut(1);
            done
        }
        Err(Failed) => Err(Node::Link),
    }
}

// The exchange, at a wire whose ends are linked to each other.
fn exchange<W: Wire>(
    alloc: Global,
    server: &mut Site,
    joiner: &mut Site,
    wire: &mut W,
) -> Result<(u32, u32), Node>
    requires first { (W.ends wire.old 0).linked ≡ true }
    requires second { (W.ends wire.old 1).linked ≡ true }
    requires pair { W.asked wire.old ≡ asked.Pair }
    requires nothing { ((W.ends wire.old 0).to_come ≡ nothing_of (W.ends wire.old 0).to_come)
        × ((W.ends wire.old 1).to_come ≡ nothing_of (W.ends wire.old 1).to_come) }

    ensures exchanged { IfOk result
        (λ counts. IsLooped (state_of server.old) (state_of server.new) (state_of joiner.old) (state_of joiner.new) counts
        (W.ends wire.old) (W.ends wire.new)) }
    ensures stopped { IfErr result (λ why.
        IsUnlooped (state_of server.old) (state_of server.new) (state_of joiner.old) (state_of joiner.new) why
        (W.ends wire.old) (W.ends wire.new)) }
    ensures server_later { IsLater (state_of server.old) (state_of server.new) }
    ensures joiner_later { IsLater (state_of joiner.old) (state_of joiner.new) }
    ensures cause { OnlyLinkFails (W.faults wire.old) (W.faults wire.new) result }

    ensures kept { KeepLinked (W.ends wire.old) (W.ends wire.new) }
    ensures asked { W.asked wire.new ≡ W.asked wire.old }
    ensures asks { W.asks wire.new ≡ W.asks wire.old }
    ensures peer { W.peer wire.new ≡ W.peer wire.old }
{
    // What a site keeps says that its messages are whole, and that no operation is refused where the two agree.
    server.known();
    joiner.known();
    agreeing_sites_are_not_refused();
    let mut first = Vec::new(alloc);
    match offer(joiner, &mut first) {
        Ok(()) => {}
        Err(Memory) => return Err(Node::Memory),
    }
    let asked = match carry(alloc, wire, 1, Which::First, &first) {
        Ok(asked) => asked,
        Err(why) => return Err(why),
    };
    let mut second = Vec::new(alloc);
    let from_server = match answer(alloc, server, &asked, &mut second) {
        Ok(count) => count,
        Err(why) => return Err(node_of(why)),
    };
    let answered = match carry(alloc, wire, 0, Which::Second, &second) {
        Ok(answered) => answered,
        Err(why) => return Err(why),
    };
    let mut third = Vec::new(alloc);
    let (_, from_joiner) = match close(alloc, joiner, &answered, &mut third) {
        Ok(counts) => counts,
        Err(why) => return Err(node_of(why)),
    };
    joiner.known();
    let closed = match carry(alloc, wire, 1, Which::Third, &third) {
        Ok(closed) => closed,
        Err(why) => return Err(why),
    };
    match finish(alloc, server, &closed) {
        Ok(_) => Ok((from_server, from_joiner)),
        Err(why) => Err(node_of(why)),
    }
}
