//! The site: its parts, what contracts see of it, and the calls that only read.

ghost use Rattle.std.specs.Prelude.{◌≡◌, ◌<◌, ◌≤◌, ◌↔◌, ◌++◌, [], OnOk, OnErr, IfOk, IfSome, IsNone, drop, fold, length, option_map, slice_get};
ghost use Rattle.context_diff.specs.Operations.{IsWellFormed};
ghost use Rattle.context_diff.specs.Histories.{context_of_all, IsValid};
ghost use Rattle.context_diff.specs.Replays.{shown, text_of};
ghost use Rattle.context_diff.specs.Ops.{data_of};
ghost use Rattle.site_answers.specs.declared.verdict.Verdict.TheVariants.{Integrated};
ghost use Rattle.cot_site.specs.Verdicts.{verdict_of};
ghost use Rattle.ttf_form.specs.Cells.{applied};
ghost use Rattle.form_cache.specs.Entries.{form_at, used};
ghost use Rattle.form_rows.specs.Stretches.{place_after};
ghost use Rattle.transform_rec.specs.Executing.{executed};
ghost use Rattle.fixed_replay.specs.Replayed.{IsReplayed, AreCharacters};
ghost use Rattle.cot_site.specs.Sites.{AreExecuted, AreCached, AllFormed, IsFormOf, state_of};
ghost use Rattle.cot_site.specs.Code.Judging.{HasCells};

use crate::judging::{Judgement, judgement_on};
use crate::notes::CACHED_FORMS;
use crate::replica::Replica;
use causal_gate::Pool;
use context_diff::{Book, Op};
use context_vector::Vector;
use form_cache::Key;
use op_name::{Memory, Name, SITES};
use site_answers::Verdict;
use std::alloc::Global;
use std::marker::Model;
use tombstone_text::Cells;
use ttf_form::Form;

mod deliveries;
mod edits;
mod releases;

/// One participant's copy of a group text: its number, below `SITES`, the valid history of the operations that
/// it has integrated, and the operations that wait for members of their contexts, in the order of arrival.
///
/// Its text is the one of its history, whatever order the operations came in. It keeps forms that it computed in a
/// cache, which changes no answer and no text.
pub struct Site {
    number: u16,
    replica: Replica,
    pool: Pool,
}

impl Model for Site {
    ghost use Rattle.std.specs.Prelude.{◌<◌};
    ghost use Rattle.op_name.specs.declared.name.TheConstants.{SITES};
    ghost use Rattle.cot_site.specs.Sites.{SiteData, AllFormed};

    ghost Value = { SiteData };

    ghost view = { λ s. record {
      number = s.number;
      history = s.replica.history;
      waiting = s.pool;
      forms = s.replica.forms;
      entries = s.replica.entries;
    } };

    ghost invariant = { λ s. (s.number < SITES) × AllFormed s.pool };
}

// Written out, so that whoever gives up a site makes one call, and its proof doesn't go through all that a site holds.
impl Drop for Site {
    fn drop(self) {
        let Site {
            number: _number,
            replica: _replica,
            pool: _pool,
        } = self;
    }
}

impl Site {
    /// The site of this number, with nothing integrated, nothing waiting and no form in its cache.
    pub fn new(alloc: Global, site: u16) -> Result<Site, Memory>
        requires { site < SITES }
        ensures { IfOk result (λ s. s ≡ record { number = site; history = []; waiting = []; forms = []; entries = [] }) }
    {
        let replica = Replica::new(alloc)?;
        Ok(Site {
            number: site,
            replica,
            pool: Pool::new(alloc),
        })
    }

    /// Nothing but what the type keeps: the history is valid, all that waits is well formed, each form is a
    /// form of its operation at the members that were integrated before it, each entry of the cache is the
    /// form of its key, and there are at most `CACHED_FORMS`.
    pub fn known(&self)
        ensures number { self.now.number < SITES }
        ensures history { IsValid self.now.history }
        ensures waiting { AllFormed self.now.waiting }
        ensures forms { AreExecuted self.now.history self.now.forms }
        ensures entries { AreCached self.now.history self.now.entries }
        ensures bounded { length self.now.entries ≤ CACHED_FORMS }
    {
        self.replica.known();
    }

    /// The number of the site.
    pub fn number(&self) -> u16
        ensures { result ≡ self.now.number }
    {
        self.number
    }

    /// The integrated operations, in the order of integration.
    pub fn book(&self) -> &Book
        ensures { result.now.ops ≡ self.now.history }
    {
        self.replica.book()
    }

    /// The members of the integrated operations: what a local operation's context is.
    pub fn vector(&self) -> &Vector
        ensures { result.now.set ≡ context_of_all self.now.history }
    {
        self.replica.vector()
    }

    /// The operations that wait, in the order of arrival.
    pub fn pool(&self) -> &Pool
        ensures { result.now ≡ self.now.waiting }
    {
        &self.pool
    }

    /// The form in which the i-th integrated operation was executed; None exactly past the end.
    pub fn executed(&self, i: u32) -> Option<&Form>
        ensures form { option_map (λ f. f.now) result ≡ slice_get self.now.forms i }
        ensures none { IsNone result ↔ (length self.now.history ≤ i) }
    {
        self.replica.executed(i)
    }

    /// Notes how places move over the operations that were executed since it was called last, 256 of them at a time, as far as there is
    /// memory for it: some 2 KB for 256 operations. So `moved` costs little afterwards, and undos of old operations, which do the same. A
    /// site at which nobody asks pays nothing. Nothing that contracts see changes.
    pub fn note_moves(&mut self)
        ensures { self.new ≡ self.old }
    {
        self.replica.note_moves();
    }

    /// Where what stood at a place once the first `from` operations were executed stands now: each insert that was executed since at
    /// its place or before it moves it on by its cells, but not past the greatest place. Places count all cells, shown or hidden, from
    /// 0; from `executed` on, what stands at a form's place once it was executed is sought with `from` one past its operation's index.
    ///
    /// Where `note_moves` was called it takes a search for each whole stretch of 256 forms since, and a step for each form before the
    /// first of these and after the last one. It takes a step for each form that was executed after the last such call, or undo, and where
    /// there was no memory for the notes.
    pub fn moved(&self, place: u32, from: u32) -> u32
        ensures { result ≡ fold place_after place (drop from self.now.forms) }
    {
        self.replica.moved(place, from)
    }

    /// The form that the site's cache has of the key's member at the key's context: the only one that inclusion
    /// derives. None exactly where the cache has no entry of the key. It takes no memory, and changes nothing
    /// but the order of the entries: the one of the key goes first. Costs a pass over the history for each form of
    /// the member that the cache has.
    pub fn cached(&mut self, key: &Key) -> Option<Form>
        ensures form { result ≡ form_at self.old.entries key.now }
        ensures derived { IfSome result (IsFormOf self.old.history key.now) }
        ensures entries { self.new.entries ≡ used self.old.entries key.now }
        ensures state { state_of self.new ≡ state_of self.old }
        ensures forms { self.new.forms ≡ self.old.forms }
    {
        self.replica.cached(key)
    }

    /// The cells of the text, shown or hidden, which the executed forms gave: those of the fixed replay of the history, each with
    /// the generation of its insert and the deletes that hit it with theirs, and beside them their characters, each the one that the
    /// text of its insert has at the cell's offset. Lending them takes no memory and no time; places in them count all cells, from 0.
    pub fn cells(&self) -> &Cells
        ensures forms { result.now.cells ≡ executed applied [] self.now.forms }
        ensures replayed { IsReplayed self.now.history result.now.cells }
        ensures text { AreCharacters self.now.history result.now.cells result.now.text }
    {
        self.replica.cells()
    }

    /// The number of shown characters.
    pub fn visible_len(&self) -> u32
        ensures { result ≡ length (shown self.now.history) }
    {
        self.replica.visible_len()
    }

    /// The name of the insert by which the `v`-th shown character, from 0, stands in the text: what undoes that insert names it so.
    /// The insert may have brought other characters too: a character is named by its insert and its offset there, as `cells` has
    /// them. None exactly where `v` isn't below `visible_len`. It costs what finding the character's place does: no history is
    /// looked through.
    pub fn name_at(&self, v: u32) -> Option<Name>
        ensures name { result ≡ option_map (λ c. c.0) (slice_get (shown self.now.history) v) }
        ensures none { IsNone result ↔ (length (shown self.now.history) ≤ v) }
    {
        self.replica.name_at(v)
    }

    /// Appends the shown text in UTF-8: the characters, in the order of the one fixed replay of the inserts of
    /// the history, whose insert is in force and which no delete in force hits. After out of memory `out` is
    /// as it was.
    pub fn text(&self, out: &mut Vec<u8>) -> Result<(), Memory>
        ensures ok { OnOk result (out.new.items ≡ out.old.items ++ text_of self.now.history) }
        ensures err { OnErr result (out.new.items ≡ out.old.items) }
    {
        self.replica.text(out)
    }

    /// The verdict that a delivery of the operation, which is well formed, would get. It takes no memory and
    /// changes nothing.
    pub fn check(&self, op: &Op) -> Verdict
        requires { IsWellFormed (data_of op.now) }
        ensures { result ≡ verdict_of self.now.history self.now.waiting (data_of op.now) }
    {
        self.judge(op).verdict
    }

    // That verdict, with the cells of the operation's context.
    fn judge(&self, op: &Op) -> Judgement
        requires { IsWellFormed (data_of op.now) }
        ensures verdict { result.verdict ≡ verdict_of self.now.history self.now.waiting (data_of op.now) }
        ensures cells { result.verdict ≡ Integrated → HasCells self.now.history (data_of op.now) result.cells }
    {
        judgement_on(self.replica.book(), &self.pool, op)
    }
}
