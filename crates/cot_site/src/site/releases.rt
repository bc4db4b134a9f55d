//! Releases: waiting operations that are ready get their verdicts.

ghost use Rattle.std.specs.Prelude.{◌≡◌, ◌<◌, ◌↔◌, ◌++◌, IsTrue, IsNone, IsSomeAnd, true, Some, IfOk, OnOk, OnErr, length, map, slice_get};
ghost use Rattle.context_diff.specs.Operations.{OpData};
ghost use Rattle.context_diff.specs.Ops.{data_of};
ghost use Rattle.site_answers.specs.declared.verdict.Verdict.TheVariants.{Integrated};
ghost use Rattle.cot_site.specs.States.{judged, released, is_ready, first_ready, after_release, after_verdict, without_waiting, IsSettled};
ghost use Rattle.cot_site.specs.Sites.{KeepsForms, IsAsBefore, AreKeptOrGone, state_of, IsRelease};
ghost use Rattle.cot_site.specs.Releases.{all_releases, settled, release_of, IsPartlySettled};
ghost use Rattle.cot_site.specs.Code.Judging.{HasCells};
ghost use Rattle.cot_site.specs.Code.Releasing.{IsReleasedInto};

use crate::judging::Judgement;
use crate::site::Site;
use context_diff::Op;
use op_name::Memory;
use site_answers::{Release, Verdict};

impl Site {
    /// Takes out the first waiting operation that is ready, and gives it its verdict over the history and the
    /// others, with its effect. `Ok(None)` exactly where none is ready: then the site is settled. Where nothing
    /// is integrated, the cache stays. Out of memory comes only where the verdict is Integrated; then the state and the
    /// forms are as before, and the cache may be empty.
    pub fn release_next(&mut self) -> Result<Option<(Op, Verdict)>, Memory>
        ensures answer { IfOk result (IsRelease (released (state_of self.old))) }
        ensures effect { IfOk result (λ r. state_of self.new ≡ after_release (state_of self.old) (released (state_of self.old))) }
        ensures settled { IfOk result (λ r. IsNone r ↔ IsSettled (state_of self.old)) }
        ensures needed { OnErr result (IsSomeAnd (released (state_of self.old)) (λ r. r.verdict ≡ Integrated)) }
        ensures forms { OnOk result (KeepsForms self.old.forms self.new.forms) }
        ensures entries { OnOk result (self.new.history ≡ self.old.history → self.new.entries ≡ self.old.entries) }
        ensures err { OnErr result (IsAsBefore self.old self.new) }
    {
        let Some(place) = self.first_ready() else {
            return Ok(None);
        };
        let released = self.release(place)?;
        Ok(Some(released))
    }

    /// Releases until no waiting operation is ready, and appends each release, in order. After out of memory the
    /// first of these releases are done, and appended, and an operation is ready yet. Where nothing was integrated, the
    /// cache is as before, or, out of memory, empty.
    pub fn settle(&mut self, released: &mut Vec<Release>) -> Result<(), Memory>
        ensures state { OnOk result (state_of self.new ≡ settled (state_of self.old)) }
        ensures released { OnOk result (released.new.items ≡ released.old.items ++ map release_of (all_releases (state_of self.old))) }
        ensures forms { KeepsForms self.old.forms self.new.forms }
        ensures entries { OnOk result (self.new.history ≡ self.old.history → self.new.entries ≡ self.old.entries) }
        ensures cache { OnErr result (self.new.history ≡ self.old.history → AreKeptOrGone self.old.entries self.new.entries) }
        ensures err { OnErr result (IsPartlySettled (state_of self.old) (state_of self.new) released.old.items released.new.items) }
    {
        self.known();
        loop {
            if !self.release_into(released)? {
                return Ok(());
            }
        }
    }

    // Releases the first operation that is ready, and appends the release. Answers whether one was ready.
    fn release_into(&mut self, list: &mut Vec<Release>) -> Result<bool, Memory>
        ensures release { IfOk result (λ more. IsReleasedInto (state_of self.old) (state_of self.new) list.old.items list.new.items more) }
        ensures forms { OnOk result (KeepsForms self.old.forms self.new.forms) }
        ensures entries { OnOk result (self.new.history ≡ self.old.history → self.new.entries ≡ self.old.entries) }
        ensures unsettled { OnErr result (¬ IsSettled (state_of self.old)) }
        ensures err { OnErr result (IsAsBefore self.old self.new) }
        ensures list { OnErr result (list.new.items ≡ list.old.items) }
    {
        let Some(place) = self.first_ready() else {
            return Ok(false);
        };
        self.known();
        list.reserve(1)?;
        match self.release(place) {
            Ok((op, verdict)) => {
                list.push_reserved(Release {
                    member: op.member(),
                    verdict,
                });
                Ok(true)
            }
            Err(want) => Err(want),
        }
    }

    // The place of the first waiting operation that is ready.
    fn first_ready(&self) -> Option<u32>
        ensures { result ≡ first_ready self.now.history self.now.waiting }
    {
        self.known();
        self.pool().first_ready(self.vector())
    }

    // Takes out the operation at this place, which is ready, with its verdict and the verdict's effect.
    fn release(&mut self, place: u32) -> Result<(Op, Verdict), Memory>
        requires place { place < length self.old.waiting }
        requires ready { (o : OpData) → slice_get self.old.waiting place ≡ Some o → is_ready self.old.history o ≡ true }
        ensures op { IfOk result (λ p. slice_get self.old.waiting place ≡ Some (data_of p.0)) }
        ensures verdict { IfOk result (λ p. p.1 ≡ judged (without_waiting (state_of self.old) place) (data_of p.0)) }
        ensures effect { IfOk result (λ p. state_of self.new
            ≡ after_verdict p.1 (data_of p.0) (without_waiting (state_of self.old) place)) }
        ensures needed { OnErr result ((o : OpData) → slice_get self.old.waiting place ≡ Some o
            → judged (without_waiting (state_of self.old) place) o ≡ Integrated) }
        ensures forms { OnOk result (KeepsForms self.old.forms self.new.forms) }
        ensures entries { OnOk result (self.new.history ≡ self.old.history → self.new.entries ≡ self.old.entries) }
        ensures err { OnErr result (IsAsBefore self.old self.new) }
    {
        self.known();
        let Judgement { verdict, cells } = self.judgement_at(place);
        if is_integrated(&verdict) {
            let copy = self.copy_at(place)?;
            self.integrate(copy, cells)?;
            return Ok((self.take(place), Verdict::Integrated));
        }
        Ok((self.take(place), verdict))
    }

    // The verdict on the waiting operation at this place, with the cells of its context.
    fn judgement_at(&self, place: u32) -> Judgement
        requires { place < length self.now.waiting }
        ensures verdict { (o : OpData) → slice_get self.now.waiting place ≡ Some o
            → result.verdict ≡ judged (without_waiting (state_of self.now) place) o }
        ensures cells { (o : OpData) → slice_get self.now.waiting place ≡ Some o
            → result.verdict ≡ Integrated → HasCells self.now.history o result.cells }
    {
        self.known();
        match self.pool().get(place) {
            Some(op) => self.judge(op),
            None => unreachable!(),
        }
    }

    // Takes the waiting operation at this place out.
    fn take(&mut self, place: u32) -> Op
        requires { place < length self.old.waiting }
        ensures op { slice_get self.old.waiting place ≡ Some (data_of result) }
        ensures state { state_of self.new ≡ without_waiting (state_of self.old) place }
        ensures forms { self.new.forms ≡ self.old.forms }
        ensures entries { self.new.entries ≡ self.old.entries }
    {
        self.pool.take(place)
    }

    // A copy of the waiting operation at this place.
    fn copy_at(&self, place: u32) -> Result<Op, Memory>
        requires { place < length self.now.waiting }
        ensures { IfOk result (λ o. slice_get self.now.waiting place ≡ Some (data_of o)) }
    {
        match self.pool().get(place) {
            Some(op) => op.try_clone(),
            None => unreachable!(),
        }
    }
}

// Whether the operation is to be integrated.
fn is_integrated(verdict: &Verdict) -> bool
    ensures { IsTrue result ↔ (verdict.now ≡ Integrated) }
{
    matches!(verdict, Verdict::Integrated)
}
