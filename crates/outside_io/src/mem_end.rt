//! One end of a wire in memory.

ghost use Rattle.std.specs.Prelude.{◌≡◌, ◌++◌, [], length, min, take, false, true, OnOk, OnErr};

use crate::source_mem::fill_front;
use std::alloc::{AllocError, Global};
use std::marker::Model;

/// The bytes sent and received at an end over all its links, and those to come at the link that it has now.
///
/// All that was received or is to come stands in `inbox`, in order, and its first `taken` bytes were received:
/// so reading takes no memory.
#[derive(Drop)]
pub(crate) struct MemEnd {
    linked: bool,
    sent: Vec<u8>,
    inbox: Vec<u8>,
    taken: usize,
}

impl Model for MemEnd {
    ghost use Rattle.std.specs.Prelude.{◌≡◌, ◌≤◌, length, take, drop, false};
    ghost use Rattle.outside_io.specs.WireMem.{MemEndData};

    ghost Value = { MemEndData };

    ghost view = { λ e. record {
      linked = e.linked;
      sent = e.sent.items;
      received = take e.taken e.inbox.items;
      to_come = drop e.taken e.inbox.items;
    } };

    // Nothing is to come at an end that isn't linked.
    ghost invariant = { λ e. (e.taken ≤ length e.inbox.items) × (e.linked ≡ false → e.taken ≡ length e.inbox.items) };
}

impl MemEnd {
    /// Was never linked.
    pub(crate) fn new(alloc: Global) -> MemEnd
        ensures { result ≡ record { linked = false; sent = []; received = []; to_come = [] } }
    {
        MemEnd {
            linked: false,
            sent: Vec::new(alloc),
            inbox: Vec::new(alloc),
            taken: 0,
        }
    }

    pub(crate) fn linked(&self) -> bool
        ensures { result ≡ self.now.linked }
    {
        self.linked
    }

    pub(crate) fn sent(&self) -> &[u8]
        ensures { result.now ≡ self.now.sent }
    {
        &self.sent
    }

    /// Links the end, with these bytes to come.
    pub(crate) fn link(&mut self, bytes: &[u8]) -> Result<(), AllocError>
        requires { self.old.linked ≡ false }
        ensures linked { OnOk result (self.new ≡ record self.old { linked = true; to_come = bytes.now }) }
        ensures failed { OnErr result (self.new ≡ self.old) }
    {
        self.inbox.extend_from_slice(bytes)?;
        self.linked = true;
        Ok(())
    }

    /// Links the end, with nothing to come.
    pub(crate) fn open(&mut self)
        requires { self.old.linked ≡ false }
        ensures { self.new ≡ record self.old { linked = true; to_come = [] } }
    {
        self.linked = true;
    }

    /// Unlinks the end, with nothing to come.
    pub(crate) fn shut(&mut self)
        ensures { self.new ≡ record self.old { linked = false; to_come = [] } }
    {
        self.linked = false;
        self.inbox.truncate(self.taken);
    }

    /// Moves bytes from the front of those to come into the front of `buf`, as many as there are and fit, and
    /// answers how many.
    pub(crate) fn read(&mut self, buf: &mut [u8]) -> usize
        ensures amount { result ≡ min (length buf.new) (length self.old.to_come) }
        ensures moved { self.old.to_come ≡ take result buf.new ++ self.new.to_come }
        ensures received { self.new.received ≡ self.old.received ++ take result buf.new }
        ensures linked { self.new.linked ≡ self.old.linked }
        ensures sent { self.new.sent ≡ self.old.sent }
    {
        let (_, rest) = self.inbox.as_slice().split_at(self.taken);
        let given = fill_front(rest, rest.len(), buf);
        self.taken += given;
        given
    }

    /// Sends bytes, after those sent before.
    pub(crate) fn send(&mut self, piece: &[u8]) -> Result<(), AllocError>
        ensures sent { OnOk result (self.new ≡ record self.old { sent = self.old.sent ++ piece.now }) }
        ensures failed { OnErr result (self.new ≡ self.old) }
    {
        self.sent.extend_from_slice(piece)
    }

    /// Leaves only the first bytes of those sent, so many of them.
    pub(crate) fn unsend(&mut self, len: usize)
        ensures { self.new ≡ record self.old { sent = take len self.old.sent } }
    {
        self.sent.truncate(len);
    }

    /// Lets bytes be to come, after those to come before.
    pub(crate) fn bring(&mut self, piece: &[u8]) -> Result<(), AllocError>
        requires { self.old.linked ≡ true }
        ensures brought { OnOk result (self.new ≡ record self.old { to_come = self.old.to_come ++ piece.now }) }
        ensures failed { OnErr result (self.new ≡ self.old) }
    {
        self.inbox.extend_from_slice(piece)
    }
}
