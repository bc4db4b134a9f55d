//! Generated sessions.

ghost use Rattle.std.specs.Prelude.{◌≡◌, ◌≤◌, ◌<◌, ◌&&◌, ◌||◌, ◌==◌, ◌%◌, true, IfOk, length};
ghost use Rattle.session_replay.specs.Generating.{Plan, generated, counts_of, all_counted, HaveTheSame, ShowTheSame, NothingWaits};
ghost use Rattle.session_replay.specs.Code.Drawing.{plan_of};

use crate::draws::Draws;
use crate::generated::Generated;
use crate::sites::Sites;
use op_name::Memory;
use std::alloc::Global;

/// The most events of a generated session.
pub const MAX_EVENTS: u32 = 10_000;

/// The most events between two deliveries of all messages.
pub const MAX_WINDOW: u32 = 64;

/// The most sites of a generated session.
pub const MAX_SITES: u8 = 64;

/// How a session is generated.
#[derive(Clone, Copy)]
struct Order {
    events: u32,
    window: u32,
    sites: u8,
    syncs: bool,
}

/// The session that is drawn from the number `start`: `events` events, each an operation, one site after the other.
/// With `syncs` every message is delivered to each site after each `window` events and after the last one; then
/// all sites have the same operations in the end, and so they show the same text.
pub fn generate(
    alloc: Global,
    start: u64,
    events: u32,
    window: u32,
    sites: u8,
    syncs: bool,
) -> Result<Generated, Memory>
    requires events { events ≤ MAX_EVENTS }
    requires window { (1 ≤ window) × (window ≤ MAX_WINDOW) }
    requires sites { (1 ≤ sites) × (sites ≤ MAX_SITES) }
    ensures sites { IfOk result (λ g. g.sites
        ≡ (generated (record { start = start; events = events; window = window; sites = sites; syncs = syncs })).sites) }
    ensures counts { IfOk result (λ g. g.counts
        ≡ counts_of (generated (record { start = start; events = events; window = window; sites = sites; syncs = syncs })).messages) }
    ensures number { IfOk result (λ g. length g.sites ≡ sites) }
    ensures counted { IfOk result (λ g. all_counted g.counts ≡ events) }
    ensures quiet { IfOk result (λ g. NothingWaits g.sites) }
    ensures same { syncs ≡ true → IfOk result (λ g. HaveTheSame g.sites) }
    ensures texts { syncs ≡ true → IfOk result (λ g. ShowTheSame g.sites) }
{
    let order = Order {
        events,
        window,
        sites,
        syncs,
    };
    let session = do_events(alloc, start, order)?;
    Ok(session.into_generated())
}

// The session after all events.
fn do_events(alloc: Global, start: u64, order: Order) -> Result<Sites, Memory>
    requires events { order.events ≤ MAX_EVENTS }
    requires window { 1 ≤ order.window }
    requires sites { (1 ≤ order.sites) × (order.sites ≤ MAX_SITES) }
    ensures { IfOk result (λ session. session ≡ generated (plan_of start order)) }
{
    let mut session = Sites::opened(alloc, order.sites as u16)?;
    let mut draws = Draws::new(start);
    let mut out = Vec::new(alloc);
    for event in 0..order.events {
        let at = (event % order.sites as u32) as usize;
        session.act(at, draws.event(), &mut out)?;
        if is_due(order, event + 1) {
            session.sync(&mut out)?;
        }
        out.clear();
    }
    Ok(session)
}

// Whether all messages are delivered after so many events.
fn is_due(order: Order, done: u32) -> bool
    requires { 1 ≤ order.window }
    ensures { result ≡ (order.syncs && (done % order.window == 0 || done == order.events)) }
{
    order.syncs && (done % order.window == 0 || done == order.events)
}
