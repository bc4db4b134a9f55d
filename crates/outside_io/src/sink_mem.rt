//! A sink in memory.

ghost use Rattle.std.specs.Prelude.{◌≡◌, ℕ, [], ◌+◌, ◌<◌, ◌≤◌, min, ◌++◌, Some, length, IfOk, IsErr, OnOk, OnErr, Contains, is_ok, if◌then◌else◌};
ghost use Rattle.std.specs.Io.KnownBytes.{WriteAppends};
ghost use Rattle.outside_io.specs.Faults.{last_count, HasCause};
ghost use Rattle.outside_io.specs.SinkMem.{SinkMemData};

use crate::calls::Calls;
use crate::failed::Failed;
use crate::sink::Sink;
use std::alloc::Global;
use std::marker::Model;

/// A sink that keeps each piece whole, and fails at the writes that it was told to, and where it finds no
/// memory for the piece. Writes are numbered from 0; at `u64::MAX` the number stays.
#[derive(Drop)]
pub struct SinkMem {
    held: Vec<u8>,
    calls: Calls,
    faults: u64,
}

impl Model for SinkMem {
    ghost Value = { SinkMemData };

    ghost view = { λ s. record {
      held = s.held.items;
      failing = s.calls.failing;
      calls = s.calls.next;
      faults = s.faults;
    } };
}

impl SinkMem {
    /// Holds nothing yet. The writes whose numbers are in `failing` fail.
    pub fn new(alloc: Global, failing: Vec<u32>) -> SinkMem
        ensures { result ≡ record { held = []; failing = failing.items; calls = 0; faults = 0 } }
    {
        SinkMem {
            held: Vec::new(alloc),
            calls: Calls::new(failing),
            faults: 0,
        }
    }

    /// The bytes written so far.
    pub fn held(&self) -> &[u8]
        ensures { result.now ≡ self.now.held }
    {
        &self.held
    }
}

impl Sink for SinkMem {
    ghost held = { λ s. Some s.held };

    ghost faults = { λ s. s.faults };

    fn write(&mut self, piece: &[u8]) -> Result<usize, Failed>
        ensures bound { IfOk result (λ n. n ≤ length piece.now) }
        ensures some { IfOk result (λ n. 0 < length piece.now → 0 < n) }
        ensures bytes { WriteAppends (Some self.old.held) (Some self.new.held) result piece.now }
        ensures cause { HasCause self.old.faults self.new.faults result }

        ensures whole { IfOk result (λ n. n ≡ length piece.now) }
        ensures failing { Contains self.old.failing self.old.calls → IsErr result }
        ensures calls { self.new.calls ≡ min (self.old.calls + 1) last_count }
        ensures faults { self.new.faults ≡ (if is_ok result then self.old.faults
            else min (self.old.faults + 1) last_count) }
        ensures same_failing { self.new.failing ≡ self.old.failing }
    {
        let fails = self.calls.next_fails();
        if fails || self.held.extend_from_slice(piece).is_err() {
            self.faults = self.faults.saturating_add(1);
            return Err(Failed);
        }
        Ok(piece.len())
    }
}
