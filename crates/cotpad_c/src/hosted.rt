//! A site as a handle keeps it.

ghost use Rattle.std.specs.Prelude.{◌≡◌, ◌⊎◌, ◌+◌, ◌<◌, ◌≤◌, [], IfOk, IfErr, OnOk, length};
ghost use Rattle.std.specs.Borrow.{sem};
ghost use Rattle.context_diff.specs.Operations.{IsWellFormed};
ghost use Rattle.context_diff.specs.Ops.{data_of};
ghost use Rattle.context_diff.specs.Replays.{shown};
ghost use Rattle.cot_site.specs.Sites.{state_of};
ghost use Rattle.cot_site.specs.States.{judged, IsSettled};
ghost use Rattle.participant.specs.declared.taking.Taking.TheVariants.{All};
ghost use Rattle.participant.specs.Edits.{made_by};
ghost use Rattle.participant.specs.Reached.{all_settled, IsHalfSettled};
ghost use Rattle.participant.specs.Taking.{taken_in, IsUntaken};
ghost use Rattle.cotpad_c.specs.declared.status.TheConstants.{OK, PLACE_OUT, UNSETTLED};
ghost use Rattle.cotpad_c.specs.Hosting.{hosting, reached};
ghost use Rattle.cotpad_c.specs.Runs.{IsTyped, IsCut, IsUndone, IsRedone};
ghost use Rattle.cotpad_c.specs.SiteLending.{LendsSite};
ghost use Rattle.cotpad_c.specs.Statuses.{Did};

use crate::refusals::{edit_number, end_number};
use crate::status;
use context_diff::Op;
use cot_site::{Release, Site, Verdict};
use participant::{Edit, Taking, Untaken, delete_range, do_edit, insert_runs, take_in};
use site_ranges::{redo_range, undo_range};
use std::alloc::Global;
use std::marker::Model;

/// A site, and what the last call that could change it released, in order.
pub struct Hosted {
    site: Site,
    released: Vec<Release>,
}

impl Model for Hosted {
    ghost use Rattle.cotpad_c.specs.Hosting.{HostedData};

    ghost Value = { HostedData };

    ghost view = { λ h. record { site = h.site; released = h.released.items } };
}

// Written out, so that whoever gives one up makes one call.
impl Drop for Hosted {
    fn drop(self) {
        let Hosted {
            site: _site,
            released: _released,
        } = self;
    }
}

impl Hosted {
    /// The site, with nothing released.
    pub(crate) fn new(alloc: Global, site: Site) -> Hosted
        ensures { result ≡ hosting site }
    {
        Hosted {
            site,
            released: Vec::new(alloc),
        }
    }

    /// The site.
    pub(crate) fn site(&self) -> &Site
        ensures { result.now ≡ self.now.site }
    {
        &self.site
    }

    /// What was released.
    pub(crate) fn released(&self) -> &[Release]
        ensures { result.now ≡ self.now.released }
    {
        self.released.as_slice()
    }

    /// Lends the site; what was released stays.
    pub(crate) fn site_mut(&mut self) -> &mut Site
        ensures* writes_back { sem 𝓛 (LendsSite self.entry result) }
        ensures value { self.old.site ≡ result.now }
    {
        &mut self.site
    }

    /// Notes how places move over the operations that the site executed, as far as there is memory for it, so that places of anchors are
    /// found in little time. Nothing that contracts see changes.
    pub(crate) fn note_moves(&mut self)
        ensures { self.new ≡ self.old }
    {
        self.site.note_moves();
    }

    /// Forgets what was released: so each call that can change the site begins.
    pub(crate) fn forget(&mut self)
        ensures { self.new ≡ hosting self.old.site }
    {
        self.released.clear();
    }

    /// Releases until no waiting operation is ready.
    pub(crate) fn settle(&mut self) -> u32
        ensures status { (result ≡ OK) ⊎ (result ≡ UNSETTLED) }
        ensures done { result ≡ OK → reached self.new ≡ all_settled (reached self.old) }
        ensures unsettled { result ≡ UNSETTLED → IsHalfSettled (reached self.old) (reached self.new) }
        ensures nothing { IsSettled (state_of self.old.site) → result ≡ OK }
    {
        match self.site.settle(&mut self.released) {
            Ok(()) => status::OK,
            Err(_) => status::UNSETTLED,
        }
    }

    /// Makes an edit, and releases.
    pub(crate) fn edit(&mut self, edit: &Edit) -> u32
        ensures { Did result (made_by edit.now (state_of self.old.site)) (reached self.old) (reached self.new) }
    {
        edit_number(&do_edit(&mut self.site, edit, &mut self.released))
    }

    /// Inserts the characters of a text, piece by piece, and releases after each; tells how many inserts it made.
    pub(crate) fn insert_runs(&mut self, place: u32, text: &[char], made: &mut u32) -> u32
        ensures typed { IsTyped result (reached self.old) place text.now (reached self.new) made.new }
        ensures nothing { text.now ≡ [] → result ≡ OK }
    {
        let run = insert_runs(&mut self.site, place, text, &mut self.released);
        *made = run.made;
        end_number(run.end)
    }

    /// Deletes so many shown characters from a place on, and releases after each; tells how many it deleted.
    pub(crate) fn delete_range(&mut self, place: u32, count: u32, made: &mut u32) -> u32
        ensures past { length (shown self.old.site.history) < place + count
            → (result ≡ PLACE_OUT) × (made.new ≡ 0) × (self.new ≡ self.old) }
        ensures cut { place + count ≤ length (shown self.old.site.history)
            → IsCut result (reached self.old) place count (reached self.new) made.new }
        ensures nothing { place + count ≤ length (shown self.old.site.history) → count ≡ 0 → result ≡ OK }
    {
        let run = delete_range(&mut self.site, place, count, &mut self.released);
        *made = run.made;
        end_number(run.end)
    }

    /// Undoes the inserts and deletes among so many operations of the history from this index on, the last one first, and releases after
    /// each; tells how many undos it made.
    pub(crate) fn undo_range(&mut self, first: u32, count: u32, made: &mut u32) -> u32
        requires { first + count ≤ length self.old.site.history }
        ensures { IsUndone result self.old.site.history first count (reached self.old) (reached self.new) made.new }
    {
        let run = undo_range(&mut self.site, first, count, &mut self.released);
        *made = run.made;
        end_number(run.end)
    }

    /// Redoes them likewise; tells how many redos it made.
    pub(crate) fn redo_range(&mut self, first: u32, count: u32, made: &mut u32) -> u32
        requires { first + count ≤ length self.old.site.history }
        ensures { IsRedone result self.old.site.history first count (reached self.old) (reached self.new) made.new }
    {
        let run = redo_range(&mut self.site, first, count, &mut self.released);
        *made = run.made;
        end_number(run.end)
    }

    /// Takes in an operation, whatever its verdict, and releases.
    pub(crate) fn take_in(&mut self, op: &mut Op) -> Result<Verdict, Untaken>
        requires { IsWellFormed (data_of op.old) }
        ensures op { data_of op.new ≡ data_of op.old }
        ensures verdict { IfOk result (λ v. v ≡ judged (state_of self.old.site) (data_of op.old)) }
        ensures taken { OnOk result (reached self.new ≡ taken_in All (reached self.old) (data_of op.old)) }
        ensures untaken { IfErr result (λ why. IsUntaken All (reached self.old) (data_of op.old) why (reached self.new)) }
    {
        take_in(&mut self.site, op, Taking::All, &mut self.released)
    }
}
