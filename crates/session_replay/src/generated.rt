//! A generated session, once all its events are done.

ghost use Rattle.std.specs.Prelude.{◌≡◌, ◌≤◌, ◌<◌, ◌↔◌, ◌∷◌, [], IsNone, length, map, option_map, slice_get};
ghost use Rattle.context_diff.specs.Ops.{data_of};
ghost use Rattle.cot_site.specs.Sites.{state_of};
ghost use Rattle.session_replay.specs.Generating.{all_counted, counts_of, one_more};
ghost use Rattle.session_replay.specs.Code.Drawing.{counts_in};
ghost use Rattle.session_replay.specs.Code.Messages.{AreHeld, operations_of};
ghost use Rattle.session_replay.specs.declared.generator.TheConstants.{MAX_EVENTS};

use crate::message::Message;
use context_diff::Op;
use cot_site::Site;
use std::marker::Model;

/// How many operations of each kind were made.
#[derive(Clone, Copy, Drop)]
struct Tally {
    inserts: u32,
    deletes: u32,
    undos: u32,
    redos: u32,
}

impl Tally {
    // Counts the operation by what it is.
    fn count(&mut self, op: &Op)
        requires { all_counted (counts_in self.old) < MAX_EVENTS }
        ensures { counts_in self.new ≡ one_more (data_of op.now) (counts_in self.old) }
    {
        match op {
            Op::Insert { .. } => self.inserts += 1,
            Op::Delete { .. } => self.deletes += 1,
            Op::Undo { generation, .. } => {
                if generation % 2 == 0 {
                    self.redos += 1;
                } else {
                    self.undos += 1;
                }
            }
        }
    }
}

/// The sites of a generated session, and how many operations of each kind they made.
#[derive(Drop)]
pub struct Generated {
    sites: Vec<Site>,
    tally: Tally,
}

impl Model for Generated {
    ghost use Rattle.std.specs.Prelude.{map};
    ghost use Rattle.cot_site.specs.Sites.{state_of};
    ghost use Rattle.session_replay.specs.Generating.{GeneratedData};
    ghost use Rattle.session_replay.specs.Code.Drawing.{counts_in};

    ghost Value = { GeneratedData };

    ghost view = { λ g. record { sites = map state_of g.sites.items; counts = counts_in g.tally } };
}

impl Generated {
    /// The sites, with the operations that they made.
    pub(crate) fn new(sites: Vec<Site>, messages: &[Message]) -> Generated
        requires few { length messages.now ≤ MAX_EVENTS }
        requires held { AreHeld (map state_of sites.items) messages.now }
        ensures sites { result.sites ≡ map state_of sites.items }
        ensures counts { result.counts ≡ counts_of (operations_of (map state_of sites.items) messages.now) }
    {
        let tally = tally_of(&sites, messages);
        Generated { sites, tally }
    }

    /// The number of inserts that were made.
    pub fn inserts(&self) -> u32
        ensures { result ≡ self.now.counts.inserts }
    {
        self.tally.inserts
    }

    /// The number of deletes that were made.
    pub fn deletes(&self) -> u32
        ensures { result ≡ self.now.counts.deletes }
    {
        self.tally.deletes
    }

    /// The number of undos that were made.
    pub fn undos(&self) -> u32
        ensures { result ≡ self.now.counts.undos }
    {
        self.tally.undos
    }

    /// The number of redos that were made.
    pub fn redos(&self) -> u32
        ensures { result ≡ self.now.counts.redos }
    {
        self.tally.redos
    }

    /// The site of this number; None exactly where it isn't below the number of sites.
    pub fn site(&self, s: u16) -> Option<&Site>
        ensures site { option_map (λ x. state_of x.now) result ≡ slice_get self.now.sites s }
        ensures none { IsNone result ↔ (length self.now.sites ≤ s) }
    {
        self.sites.get(s as usize)
    }

    /// Both sites, the one of number 0 first.
    pub fn into_pair(self) -> (Site, Site)
        requires { length self.sites ≡ 2 }
        ensures { self.sites ≡ state_of result.0 ∷ state_of result.1 ∷ [] }
    {
        let mut sites = self.sites;
        match (sites.pop(), sites.pop()) {
            (Some(second), Some(first)) => (first, second),
            _ => unreachable!(),
        }
    }
}

// How many of the messages' operations are of each kind.
fn tally_of(sites: &[Site], messages: &[Message]) -> Tally
    requires few { length messages.now ≤ MAX_EVENTS }
    requires held { AreHeld (map state_of sites.now) messages.now }
    ensures { counts_in result ≡ counts_of (operations_of (map state_of sites.now) messages.now) }
{
    let mut counted = Tally {
        inserts: 0,
        deletes: 0,
        undos: 0,
        redos: 0,
    };
    for message in messages {
        counted.count(message.op(sites));
    }
    counted
}
