//! The wire of a process that has none.

ghost use Rattle.std.specs.Prelude.{◌≡◌, ◌≤◌, [], Some, ◌+◌, min, false, IsErr};
ghost use Rattle.outside_io.specs.Faults.{last_count};
ghost use Rattle.outside_io.specs.Ends.{no_end};
ghost use Rattle.outside_io.specs.NoWire.{NoWireData};

use crate::failed::Failed;
use crate::link::{Asked, Role};
use crate::wire::Wire;
use std::marker::Model;

/// A wire that is never linked: each call that can fail does, and is counted as a fault. It keeps which
/// link was asked for last, and how many were.
#[derive(Drop)]
pub struct NoWire {
    asked: Asked,
    asks: u64,
    faults: u64,
}

impl Model for NoWire {
    ghost Value = { NoWireData };

    ghost view = { λ w. record { asked = w.asked; asks = w.asks; faults = w.faults } };
}

impl NoWire {
    /// No link was asked for so far.
    pub fn new() -> NoWire
        ensures { result ≡ record { asked = Asked.Nothing; asks = 0; faults = 0 } }
    {
        NoWire {
            asked: Asked::Nothing,
            asks: 0,
            faults: 0,
        }
    }

    fn keep_asked(&mut self, asked: Asked)
        ensures { self.new ≡ record self.old {
          asked = asked;
          asks = min (self.old.asks + 1) last_count;
        } }
    {
        self.asked = asked;
        self.asks = self.asks.saturating_add(1);
    }
}

impl Wire for NoWire {
    ghost ends = { λ _ _. no_end };

    ghost peer = { λ _. Some [] };

    ghost asked = { λ w. w.asked };

    ghost asks = { λ w. w.asks };

    ghost faults = { λ w. w.faults };

    fn link(&mut self, role: Role, port: u16) -> Result<(), Failed>
        ensures fails { IsErr result }
        ensures state { self.new ≡ record {
          asked = Asked.Peer role port;
          asks = min (self.old.asks + 1) last_count;
          faults = min (self.old.faults + 1) last_count;
        } }
        ensures later { self.old.faults ≤ self.new.faults }
    {
        self.keep_asked(Asked::Peer(role, port));
        self.faults = self.faults.saturating_add(1);
        Err(Failed)
    }

    fn link_pair(&mut self) -> Result<(), Failed>
        ensures fails { IsErr result }
        ensures state { self.new ≡ record {
          asked = Asked.Pair;
          asks = min (self.old.asks + 1) last_count;
          faults = min (self.old.faults + 1) last_count;
        } }
        ensures later { self.old.faults ≤ self.new.faults }
    {
        self.keep_asked(Asked::Pair);
        self.faults = self.faults.saturating_add(1);
        Err(Failed)
    }

    fn linked(&self, _end: u8) -> bool
        ensures { result ≡ false }
    {
        false
    }

    fn read(&mut self, _end: u8, _buf: &mut [u8]) -> Result<usize, Failed>
        ensures fails { IsErr result }
        ensures state { self.new ≡ record self.old { faults = min (self.old.faults + 1) last_count } }
        ensures later { self.old.faults ≤ self.new.faults }
    {
        self.faults = self.faults.saturating_add(1);
        Err(Failed)
    }

    fn write(&mut self, _end: u8, _piece: &[u8]) -> Result<usize, Failed>
        ensures fails { IsErr result }
        ensures state { self.new ≡ record self.old { faults = min (self.old.faults + 1) last_count } }
        ensures later { self.old.faults ≤ self.new.faults }
    {
        self.faults = self.faults.saturating_add(1);
        Err(Failed)
    }

    fn shut(&mut self, _end: u8)
        ensures { self.new ≡ self.old }
    {}
}
