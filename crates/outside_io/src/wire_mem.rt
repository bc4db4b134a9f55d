//! A wire in memory.

ghost use Rattle.std.specs.Prelude.{◌≡◌, ◌≢◌, ◌↔◌, ℕ, [], ◌+◌, ◌-◌, ◌<◌, ◌≤◌, ◌==◌, min, ◌++◌, Some, length, IsTrue, IfOk, IsErr, OnOk, OnErr, Contains, true, false, if◌then◌else◌};
ghost use Rattle.outside_io.specs.Faults.{last_count, HasCause};
ghost use Rattle.outside_io.specs.Ends.{IsUnlinked, linked_to, nothing_of, shut_of, brought, ReadsEnd, WritesEnd, BringsEnd};
ghost use Rattle.outside_io.specs.WireMem.{WireMemData, end_at, mem_end, IsNumbered};

use crate::calls::Calls;
use crate::failed::Failed;
use crate::link::{Asked, Role};
use crate::mem_end::MemEnd;
use crate::wire::Wire;
use std::alloc::{AllocError, Global};
use std::marker::Model;

/// A wire whose ends and whose peer are in memory. It fails at the calls that it was told to, and where it
/// finds no memory for what it should hold. The calls of the trait but `linked` and `shut` are numbered from
/// 0; at `u64::MAX` the number stays.
#[derive(Drop)]
pub struct WireMem {
    first: MemEnd,
    second: MemEnd,
    peer: Vec<u8>,
    asked: Asked,
    asks: u64,
    calls: Calls,
    faults: u64,
}

impl Model for WireMem {
    ghost Value = { WireMemData };

    ghost view = { λ w. record {
      first = w.first;
      second = w.second;
      peer = w.peer.items;
      asked = w.asked;
      asks = w.asks;
      failing = w.calls.failing;
      calls = w.calls.next;
      faults = w.faults;
    } };
}

impl WireMem {
    /// No end is linked, and nothing was sent. At each link to the peer the bytes `peer` are to come. The
    /// calls whose numbers are in `failing` fail.
    pub fn new(alloc: Global, peer: Vec<u8>, failing: Vec<u32>) -> WireMem
        ensures { result ≡ record {
          first = record { linked = false; sent = []; received = []; to_come = [] };
          second = record { linked = false; sent = []; received = []; to_come = [] };
          peer = peer.items;
          asked = Asked.Nothing;
          asks = 0;
          failing = failing.items;
          calls = 0;
          faults = 0;
        } }
    {
        WireMem {
            first: MemEnd::new(alloc),
            second: MemEnd::new(alloc),
            peer,
            asked: Asked::Nothing,
            asks: 0,
            calls: Calls::new(failing),
            faults: 0,
        }
    }

    /// The bytes sent at an end so far, over all its links.
    pub fn sent(&self, end: u8) -> &[u8]
        requires { end < 2 }
        ensures { result.now ≡ (end_at self.now end).sent }
    {
        match end {
            0 => self.first.sent(),
            _ => self.second.sent(),
        }
    }

    fn keep_asked(&mut self, asked: Asked)
        ensures { self.new ≡ record self.old {
          asked = asked;
          asks = min (self.old.asks + 1) last_count;
        } }
    {
        self.asked = asked;
        self.asks = self.asks.saturating_add(1);
    }

    // Counts a call, and tells whether it is to fail.
    fn next_fails(&mut self) -> bool
        ensures fails { IsTrue result ↔ Contains self.old.failing self.old.calls }
        ensures counted { self.new ≡ record self.old { calls = min (self.old.calls + 1) last_count } }
    {
        self.calls.next_fails()
    }

    // Counts a fault.
    fn fault(&mut self) -> Failed
        ensures counted { self.new ≡ record self.old { faults = min (self.old.faults + 1) last_count } }
        ensures later { self.old.faults ≤ self.new.faults }
    {
        self.faults = self.faults.saturating_add(1);
        Failed
    }
}

// Lets what was written at one end be to come at the other, where it gets there.
fn bring(to: &mut MemEnd, asked: Asked, piece: &[u8]) -> Result<(), AllocError>
    ensures brought { OnOk result (to.new ≡ record to.old {
      to_come = to.old.to_come ++ brought asked to.old.linked piece.now;
    }) }
    ensures failed { OnErr result (to.new ≡ to.old) }
{
    match asked {
        Asked::Pair if to.linked() => to.bring(piece),
        _ => Ok(()),
    }
}

// Writes a piece at one end, or changes nothing.
fn write_at(
    from: &mut MemEnd,
    to: &mut MemEnd,
    asked: Asked,
    piece: &[u8],
) -> Result<(), AllocError>
    ensures sent { OnOk result (from.new ≡ record from.old { sent = from.old.sent ++ piece.now }) }
    ensures brought { OnOk result (to.new ≡ record to.old {
      to_come = to.old.to_come ++ brought asked to.old.linked piece.now;
    }) }
    ensures failed { OnErr result ((from.new ≡ from.old) × (to.new ≡ to.old)) }
{
    let len = from.sent().len();
    from.send(piece)?;
    if bring(to, asked, piece).is_err() {
        from.unsend(len);
        return Err(AllocError);
    }
    Ok(())
}

impl Wire for WireMem {
    ghost ends = { mem_end };

    ghost peer = { λ w. Some w.peer };

    ghost asked = { λ w. w.asked };

    ghost asks = { λ w. w.asks };

    ghost faults = { λ w. w.faults };

    fn link(&mut self, role: Role, port: u16) -> Result<(), Failed>
        requires { IsUnlinked (mem_end self.old) }

        ensures linked { OnOk result (mem_end self.new 0 ≡ linked_to (Some self.old.peer) (mem_end self.old 0)) }
        ensures other_end { mem_end self.new 1 ≡ mem_end self.old 1 }
        ensures failed { OnErr result (mem_end self.new 0 ≡ mem_end self.old 0) }
        ensures asked { self.new.asked ≡ Asked.Peer role port }
        ensures asks { self.new.asks ≡ min (self.old.asks + 1) last_count }
        ensures peer { Some self.new.peer ≡ Some self.old.peer }
        ensures cause { HasCause self.old.faults self.new.faults result }

        ensures numbered { IsNumbered self.old self.new result }
    {
        self.keep_asked(Asked::Peer(role, port));
        let fails = self.next_fails();
        if fails || self.first.link(&self.peer).is_err() {
            return Err(self.fault());
        }
        Ok(())
    }

    fn link_pair(&mut self) -> Result<(), Failed>
        requires { IsUnlinked (mem_end self.old) }

        ensures linked { OnOk result ((end : ℕ) → end < 2 →
            mem_end self.new end ≡ linked_to (nothing_of (mem_end self.old end).to_come) (mem_end self.old end)) }
        ensures failed { OnErr result ((end : ℕ) → end < 2 → mem_end self.new end ≡ mem_end self.old end) }
        ensures asked { self.new.asked ≡ Asked.Pair }
        ensures asks { self.new.asks ≡ min (self.old.asks + 1) last_count }
        ensures peer { Some self.new.peer ≡ Some self.old.peer }
        ensures cause { HasCause self.old.faults self.new.faults result }

        ensures numbered { IsNumbered self.old self.new result }
        ensures only_listed { IsErr result → Contains self.old.failing self.old.calls }
    {
        self.keep_asked(Asked::Pair);
        if self.next_fails() {
            return Err(self.fault());
        }
        self.first.open();
        self.second.open();
        Ok(())
    }

    fn linked(&self, end: u8) -> bool {
        match end {
            0 => self.first.linked(),
            1 => self.second.linked(),
            _ => false,
        }
    }

    fn read(&mut self, end: u8, buf: &mut [u8]) -> Result<usize, Failed>
        requires { (mem_end self.old end).linked ≡ true }

        ensures bound { IfOk result (λ n. n ≤ length buf.new) }
        ensures bytes { ReadsEnd (mem_end self.old end) (mem_end self.new end) result buf.new }
        ensures other_end { (other : ℕ) → other ≢ end → mem_end self.new other ≡ mem_end self.old other }
        ensures asked { self.new.asked ≡ self.old.asked }
        ensures asks { self.new.asks ≡ self.old.asks }
        ensures peer { Some self.new.peer ≡ Some self.old.peer }
        ensures cause { HasCause self.old.faults self.new.faults result }

        ensures amount { IfOk result (λ n. n ≡ min (length buf.new) (length (end_at self.old end).to_come)) }
        ensures numbered { IsNumbered self.old self.new result }
        ensures only_listed { IsErr result → Contains self.old.failing self.old.calls }
    {
        if self.next_fails() {
            return Err(self.fault());
        }
        let given = match end {
            0 => self.first.read(buf),
            _ => self.second.read(buf),
        };
        Ok(given)
    }

    fn write(&mut self, end: u8, piece: &[u8]) -> Result<usize, Failed>
        requires { (mem_end self.old end).linked ≡ true }

        ensures bound { IfOk result (λ n. n ≤ length piece.now) }
        ensures some { IfOk result (λ n. 0 < length piece.now → 0 < n) }
        ensures bytes { WritesEnd (mem_end self.old end) (mem_end self.new end) result piece.now }
        ensures other_end { BringsEnd self.old.asked (mem_end self.old (1 - end)) (mem_end self.new (1 - end))
            result piece.now }
        ensures asked { self.new.asked ≡ self.old.asked }
        ensures asks { self.new.asks ≡ self.old.asks }
        ensures peer { Some self.new.peer ≡ Some self.old.peer }
        ensures cause { HasCause self.old.faults self.new.faults result }

        ensures whole { IfOk result (λ n. n ≡ length piece.now) }
        ensures numbered { IsNumbered self.old self.new result }
    {
        if self.next_fails() {
            return Err(self.fault());
        }
        let written = match end {
            0 => write_at(&mut self.first, &mut self.second, self.asked, piece),
            _ => write_at(&mut self.second, &mut self.first, self.asked, piece),
        };
        match written {
            Ok(()) => Ok(piece.len()),
            Err(AllocError) => Err(self.fault()),
        }
    }

    fn shut(&mut self, end: u8)
        ensures unlinked { mem_end self.new end ≡ shut_of (mem_end self.old end) }
        ensures other_end { (other : ℕ) → other ≢ end → mem_end self.new other ≡ mem_end self.old other }
        ensures asked { self.new.asked ≡ self.old.asked }
        ensures asks { self.new.asks ≡ self.old.asks }
        ensures peer { Some self.new.peer ≡ Some self.old.peer }
        ensures faults { self.new.faults ≡ self.old.faults }

        ensures calls { self.new.calls ≡ self.old.calls }
        ensures failing { self.new.failing ≡ self.old.failing }
    {
        match end {
            0 => self.first.shut(),
            1 => self.second.shut(),
            _ => {}
        }
    }
}
