//! The command `loop`.

ghost use Rattle.std.specs.Prelude.{◌≡◌, ◌⊎◌, ◌++◌, ◌+◌, ◌≤◌, ℕ, List, Option, [], ◌∷◌, OnOk, IfOk, IfErr};
ghost use Rattle.outside_io.specs.Ends.{IsUnlinked};
ghost use Rattle.outside_io.specs.declared.link.Asked.TheVariants as link;
ghost use Rattle.cot_site.specs.Sites.{state_of};
ghost use Rattle.site_node.specs.Pairs.{IsTelling};
ghost use Rattle.site_node.specs.Stops.{OnlyLinkFails};
ghost use Rattle.log_replies.specs.Outside.{told};
ghost use Rattle.cotpad_run.specs.Generating.{alike};
ghost use Rattle.cotpad_run.specs.Looping.{joined_text, loop_text, IsLooping, IsLoopTold};
ghost use Rattle.cotpad_run.specs.Wired.{wired};
ghost use Rattle.cotpad_run.specs.Code.Looping.{AreBothLooped, IsLeftAfter, IsLoopEnded};

use crate::generator::{put_number, shows};
use crate::refusals::tell_stop;
use cot_site::Site;
use log_replies::Status;
use op_name::Memory;
use outside_io::{Failed, Sink, Wire, write_whole};
use peer_exchange::{
    agreeing_sites_meet, any_exchanges_meet, second_exchanges_are_empty,
    short_histories_have_short_messages, unrefused_calls_join,
};
use session_replay::{generate, sites_stay_alone};
use site_node::{Node, loop_run};
use std::alloc::Global;

/// The number of events of the session whose sites `loop` lets exchange.
pub const LOOP_EVENTS: u32 = 16;

/// The number of sites of that session.
pub const LOOP_SITES: u8 = 2;

/// Generates a session of two sites, lets them exchange twice over the pair of the wire, and writes how many frames went
/// and how many of the two show the text of the server.
pub(crate) fn answer_looped<K: Sink, W: Wire>(
    alloc: Global,
    start: u64,
    sink: &mut K,
    wire: &mut W,
) -> Status
    requires { IsUnlinked (W.ends wire.old) }
    ensures answer { (left : Option (List ℕ)) → (faults : ℕ) → IsLooping start
        (told left faults (K.held sink.old) (K.faults sink.old))
        (told left faults (K.held sink.new) (K.faults sink.new))
        (wired (W.ends wire.old) (W.peer wire.old) (W.asked wire.old) (W.asks wire.old) (W.faults wire.old))
        (wired (W.ends wire.new) (W.peer wire.new) (W.asked wire.new) (W.asks wire.new) (W.faults wire.new))
        result }
    ensures told { (left : Option (List ℕ)) → (faults : ℕ) → IsTelling (W.ends wire.old) → IsLoopTold start
        (told left faults (K.held sink.old) (K.faults sink.old))
        (told left faults (K.held sink.new) (K.faults sink.new))
        (wired (W.ends wire.old) (W.peer wire.old) (W.asked wire.old) (W.asks wire.old) (W.faults wire.old))
        (wired (W.ends wire.new) (W.peer wire.new) (W.asked wire.new) (W.asks wire.new) (W.faults wire.new))
        result }
    ensures untouched { (result ≡ Status.ReadFault) ⊎ ((result ≡ Status.Memory) ⊎ (result ≡ Status.LinkFault)) → sink.new ≡ sink.old }
    ensures unlinked { IsUnlinked (W.ends wire.new) }
{
    sites_stay_alone();
    unrefused_calls_join();
    agreeing_sites_meet();
    second_exchanges_are_empty();
    any_exchanges_meet();
    short_histories_have_short_messages();
    match generate(alloc, start, LOOP_EVENTS, 1, LOOP_SITES, false) {
        Ok(generated) => {
            let (mut server, mut joiner) = generated.into_pair();
            let met = exchange_twice(alloc, &mut server, &mut joiner, wire);
            tell_looped(alloc, &server, &joiner, met, sink)
        }
        Err(Memory) => Status::Memory,
    }
}

// Lets both exchange twice, and answers how many frames the server and the joiner sent, the first time and the second.
fn exchange_twice<W: Wire>(
    alloc: Global,
    server: &mut Site,
    joiner: &mut Site,
    wire: &mut W,
) -> Result<((u32, u32), (u32, u32)), Node>
    requires { IsUnlinked (W.ends wire.old) }
    ensures looped { IfOk result (λ counts.
        AreBothLooped (state_of server.old) (state_of server.new) (state_of joiner.old) (state_of joiner.new)
        counts.0 counts.1 (W.ends wire.old) (W.ends wire.new)) }
    ensures stopped { IfErr result (λ why.
        IsLeftAfter (state_of server.old) (state_of server.new) (state_of joiner.old) (state_of joiner.new)
        why (W.ends wire.old) (W.ends wire.new)) }
    ensures cause { OnlyLinkFails (W.faults wire.old) (W.faults wire.new) result }

    ensures unlinked { IsUnlinked (W.ends wire.new) }
    ensures asked { W.asked wire.new ≡ link.Pair }
    ensures asks { W.asks wire.new ≤ W.asks wire.old + 2 }
    ensures peer { W.peer wire.new ≡ W.peer wire.old }
{
    let once = match loop_run(alloc, server, joiner, wire) {
        Ok(counts) => counts,
        Err(why) => return Err(why),
    };
    match loop_run(alloc, server, joiner, wire) {
        Ok(twice) => Ok((once, twice)),
        Err(why) => Err(why),
    }
}

// Writes the summary of both exchanges, or why what came over the pair is refused.
fn tell_looped<K: Sink>(
    alloc: Global,
    server: &Site,
    joiner: &Site,
    met: Result<((u32, u32), (u32, u32)), Node>,
    sink: &mut K,
) -> Status
    ensures told { (left : Option (List ℕ)) → (faults : ℕ) → IsLoopEnded (state_of server.now) (state_of joiner.now) met
        (told left faults (K.held sink.old) (K.faults sink.old))
        (told left faults (K.held sink.new) (K.faults sink.new))
        result }
    ensures untouched { (result ≡ Status.ReadFault) ⊎ ((result ≡ Status.Memory) ⊎ (result ≡ Status.LinkFault)) → sink.new ≡ sink.old }
{
    let (once, twice) = match met {
        Ok(counts) => counts,
        Err(why) => return tell_stop(alloc, why, sink),
    };
    let mut out = Vec::new(alloc);
    match put_summary(alloc, once, twice, server, joiner, &mut out) {
        Ok(()) => {}
        Err(Memory) => return Status::Memory,
    }
    match write_whole(sink, &out) {
        Ok(()) => Status::Done,
        Err(Failed) => Status::WriteFault,
    }
}

// Appends the summary.
fn put_summary(
    alloc: Global,
    once: (u32, u32),
    twice: (u32, u32),
    server: &Site,
    joiner: &Site,
    out: &mut Vec<u8>,
) -> Result<(), Memory>
    ensures { OnOk result (out.new.items ≡ out.old.items
        ++ loop_text once twice (alike (state_of server.now) (state_of server.now ∷ state_of joiner.now ∷ []))) }
{
    put_joined(once, out)?;
    put_joined(twice, out)?;
    let equal = count_alike(alloc, server, joiner)?;
    put_number(b"equal ", u64::from(equal), out)?;
    out.extend_from_slice(b"\n")?;
    Ok(())
}

// Appends the line of how many frames the server and the joiner sent.
fn put_joined(counts: (u32, u32), out: &mut Vec<u8>) -> Result<(), Memory>
    ensures { OnOk result (out.new.items ≡ out.old.items ++ joined_text counts) }
{
    put_number(b"joined ", u64::from(counts.0), out)?;
    put_number(b" ", u64::from(counts.1), out)?;
    out.extend_from_slice(b"\n")?;
    Ok(())
}

// How many of the two show the text of the server.
fn count_alike(alloc: Global, server: &Site, joiner: &Site) -> Result<u8, Memory>
    ensures { IfOk result (λ n. n ≡ alike (state_of server.now) (state_of server.now ∷ state_of joiner.now ∷ [])) }
{
    let mut text = Vec::new(alloc);
    server.text(&mut text)?;
    if shows(alloc, joiner, &text)? {
        Ok(2)
    } else {
        Ok(1)
    }
}
