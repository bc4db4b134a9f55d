//! A source in memory.

ghost use Rattle.std.specs.Prelude.{◌≡◌, ◌↔◌, ℕ, ◌+◌, ◌≤◌, min, ◌++◌, Some, length, take, drop, IfOk, IsErr, OnErr, Contains, is_ok, if◌then◌else◌};
ghost use Rattle.std.specs.Io.KnownBytes.{ReadConsumes};
ghost use Rattle.outside_io.specs.Faults.{last_count, HasCause};
ghost use Rattle.outside_io.specs.SourceMem.{SourceMemData};

use crate::calls::Calls;
use crate::failed::Failed;
use crate::source::Source;
use std::marker::Model;

/// A source that gives bytes of its own, some at each read, and fails at the reads that it was told to.
/// Reads are numbered from 0; at `u64::MAX` the number stays.
#[derive(Drop)]
pub struct SourceMem {
    bytes: Vec<u8>,
    taken: usize,
    chunk: u32,
    calls: Calls,
    faults: u64,
}

impl Model for SourceMem {
    ghost Value = { SourceMemData };

    ghost view = { λ s. record {
      left = drop s.taken s.bytes.items;
      chunk = s.chunk;
      failing = s.calls.failing;
      calls = s.calls.next;
      faults = s.faults;
    } };

    ghost invariant = { λ s. (s.taken ≤ length s.bytes.items) × (1 ≤ s.chunk) };
}

impl SourceMem {
    /// Gives `bytes`, at most `chunk` of them at a read. The reads whose numbers are in `failing` fail.
    pub fn new(bytes: Vec<u8>, chunk: u32, failing: Vec<u32>) -> SourceMem
        requires { 1 ≤ chunk }
        ensures { result ≡ record {
          left = bytes.items;
          chunk = chunk;
          failing = failing.items;
          calls = 0;
          faults = 0;
        } }
    {
        SourceMem {
            bytes,
            taken: 0,
            chunk,
            calls: Calls::new(failing),
            faults: 0,
        }
    }
}

impl Source for SourceMem {
    ghost left = { λ s. Some s.left };

    ghost faults = { λ s. s.faults };

    fn read(&mut self, buf: &mut [u8]) -> Result<usize, Failed>
        ensures bound { IfOk result (λ n. n ≤ length buf.new) }
        ensures bytes { ReadConsumes (Some self.old.left) (Some self.new.left) result buf.new }
        ensures cause { HasCause self.old.faults self.new.faults result }

        ensures amount { IfOk result (λ n.
            n ≡ min (min self.old.chunk (length buf.new)) (length self.old.left)) }
        ensures failing { IsErr result ↔ Contains self.old.failing self.old.calls }
        ensures calls { self.new.calls ≡ min (self.old.calls + 1) last_count }
        ensures faults { self.new.faults ≡ (if is_ok result then self.old.faults
            else min (self.old.faults + 1) last_count) }
        ensures same_chunk { self.new.chunk ≡ self.old.chunk }
        ensures same_failing { self.new.failing ≡ self.old.failing }
    {
        if self.calls.next_fails() {
            self.faults = self.faults.saturating_add(1);
            return Err(Failed);
        }
        let (_, rest) = self.bytes.as_slice().split_at(self.taken);
        let given = fill_front(rest, self.chunk as usize, buf);
        self.taken += given;
        Ok(given)
    }
}

/// Moves the front of `rest`, at most `most` bytes of it, into the front of `buf`.
pub(crate) fn fill_front(rest: &[u8], most: usize, buf: &mut [u8]) -> usize
    ensures amount { result ≡ min (min most (length buf.new)) (length rest.now) }
    ensures moved { rest.now ≡ take result buf.new ++ drop result rest.now }
{
    let given = most.min(buf.len()).min(rest.len());
    let (front, _) = rest.split_at(given);
    buf[..given].copy_from_slice(front);
    given
}
