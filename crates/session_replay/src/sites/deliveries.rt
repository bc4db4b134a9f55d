//! Deliveries of messages.

ghost use Rattle.std.specs.Prelude.{◌≡◌, ◌<◌, true, false, IfOk, Some, OnErr, length, slice_get};
ghost use Rattle.context_diff.specs.Operations.{OpData, IsWellFormed};
ghost use Rattle.context_diff.specs.Ops.{data_of};
ghost use Rattle.session_replay.specs.Sessions.{given, given_all, site_at, synced};
ghost use Rattle.session_replay.specs.LineSteps.{given_message};
ghost use Rattle.session_replay.specs.Code.Doing.{AreDone, IsLineDone};
ghost use Rattle.session_replay.specs.Code.Knowing.{Has, still_known};

use crate::releases::take_in_and_tell;
use crate::session::StepBad;
use crate::sites::Sites;
use context_diff::Op;
use op_name::Memory;

impl Sites {
    // Delivers the message of this number to the site.
    pub(super) fn give(&mut self, at: usize, message: u32, out: &mut Vec<u8>) -> Result<(), StepBad>
        requires { at < length self.old.sites }
        ensures { IsLineDone (given_message at (slice_get self.old.messages message) self.old) result self.old self.new out.old.items
            out.new.items }
    {
        if (message as usize) < self.messages.len() {
            match self.deliver_message(at, false, message as usize, out) {
                Ok(()) => Ok(()),
                Err(_) => Err(StepBad::Memory),
            }
        } else {
            Err(StepBad::NoMessage)
        }
    }

    // Delivers every message to the site, by number, but those that it is known to have.
    pub(super) fn give_all(&mut self, at: usize, out: &mut Vec<u8>) -> Result<(), Memory>
        requires { at < length self.old.sites }
        ensures done { AreDone result (given_all at self.old.messages self.old) self.old self.new out.old.items out.new.items }
        ensures needed { OnErr result (0 < length self.old.messages) }
        ensures sites { length self.new.sites ≡ length self.old.sites }
        ensures messages { self.new.messages ≡ self.old.messages }
    {
        for message in self.known[at]..self.messages.len() {
            self.deliver_message(at, true, message, out)?;
        }
        Ok(())
    }

    // Delivers every message to each site, rising.
    pub(crate) fn sync(&mut self, out: &mut Vec<u8>) -> Result<(), Memory>
        ensures done { AreDone result (synced 0 (length self.old.sites) self.old) self.old self.new out.old.items out.new.items }
        ensures needed { OnErr result (0 < length self.old.messages) }
        ensures sites { length self.new.sites ≡ length self.old.sites }
    {
        for at in 0..self.sites.len() {
            self.give_all(at, out)?;
        }
        Ok(())
    }

    // Delivers the message of this number to the site.
    fn deliver_message(
        &mut self,
        at: usize,
        many: bool,
        message: usize,
        out: &mut Vec<u8>,
    ) -> Result<(), Memory>
        requires site { at < length self.old.sites }
        requires message { message < length self.old.messages }
        ensures done { (o : OpData) → slice_get self.old.messages message ≡ Some o
            → AreDone result (given many at o self.old) self.old self.new out.old.items out.new.items }
        ensures sites { length self.new.sites ≡ length self.old.sites }
        ensures messages { self.new.messages ≡ self.old.messages }
    {
        // A copy, since the site that takes the operation in stands in one list with the one that holds it. It shares the context.
        match self.messages[message].op(&self.sites).try_clone() {
            Ok(copy) => {
                let mut copy = copy;
                self.deliver_copy(at, many, message, &mut copy, out)
            }
            Err(memory) => Err(memory),
        }
    }

    // Delivers a copy of the operation of the message of this number to the site.
    fn deliver_copy(
        &mut self,
        at: usize,
        many: bool,
        message: usize,
        op: &mut Op,
        out: &mut Vec<u8>,
    ) -> Result<(), Memory>
        requires site { at < length self.old.sites }
        requires message { slice_get self.old.messages message ≡ Some (data_of op.old) }
        requires formed { IsWellFormed (data_of op.old) }
        ensures done { AreDone result (given many at (data_of op.old) self.old) self.old self.new out.old.items out.new.items }
        ensures sites { length self.new.sites ≡ length self.old.sites }
        ensures messages { self.new.messages ≡ self.old.messages }
    {
        match self.deliver(at, many, op, out) {
            Ok(true) => {
                self.note(at, message);
                Ok(())
            }
            Ok(false) => Ok(()),
            Err(memory) => Err(memory),
        }
    }

    // Notes that the site has the message of this number, where that is the next of those that it is known to have.
    fn note(&mut self, at: usize, message: usize)
        requires site { at < length self.old.sites }
        requires has { (o : OpData) → slice_get self.old.messages message ≡ Some o → Has (site_at self.old at) o }
        requires message { message < length self.old.messages }
        ensures { self.new ≡ self.old }
    {
        if self.known[at] == message {
            self.known[at] = message + 1;
        }
    }

    // Delivers an operation, which is well formed, to the site. Answers whether the site is known to have it then.
    pub(super) fn deliver(
        &mut self,
        at: usize,
        many: bool,
        op: &mut Op,
        out: &mut Vec<u8>,
    ) -> Result<bool, Memory>
        requires site { at < length self.old.sites }
        requires formed { IsWellFormed (data_of op.old) }
        ensures done { AreDone result (given many at (data_of op.old) self.old) self.old self.new out.old.items out.new.items }
        ensures has { IfOk result (λ has. has ≡ true → Has (site_at self.new at) (data_of op.old)) }
        ensures sites { length self.new.sites ≡ length self.old.sites }
        ensures messages { self.new.messages ≡ self.old.messages }
    {
        self.sites[at].known();
        let taken = take_in_and_tell(many, op, &mut self.sites[at], &mut self.released, out);
        self.known[at] = still_known(taken.is_ok(), self.known[at]);
        taken
    }
}

// How many of the first messages a site is known to have after an event that was done, or not: out of memory, an operation
// may be ready there, and then a delivery would release it.
pub(super) fn still_known(done: bool, known: usize) -> usize
    ensures { result ≡ still_known done known }
{
    if done { known } else { 0 }
}
