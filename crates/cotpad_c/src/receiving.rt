//! Deliveries and releases.

ghost use Rattle.std.specs.Prelude.{◌≡◌, ◌≢◌, ◌⊎◌, [], Some, None, IsOk, IsSomeAnd, length, min, slice_get};
ghost use Rattle.context_diff.specs.Operations.{IsWellFormed};
ghost use Rattle.context_diff.specs.Ops.{data_of};
ghost use Rattle.site_answers.specs.declared.release.Release.{Release};
ghost use Rattle.site_answers.specs.declared.verdict.Verdict.TheVariants.{Integrated};
ghost use Rattle.wire_codec.specs.declared.version.Version.TheVariants.{Two};
ghost use Rattle.wire_codec.specs.Answers.{HasFrame};
ghost use Rattle.wire_codec.specs.Judging.{judge};
ghost use Rattle.cot_site.specs.Sites.{state_of};
ghost use Rattle.cot_site.specs.States.{judged, released, after_release, IsSettled};
ghost use Rattle.participant.specs.declared.taking.Taking.TheVariants.{All};
ghost use Rattle.participant.specs.Reached.{from, with_delivered, all_settled, IsHalfSettled};
ghost use Rattle.participant.specs.Taking.{taken_in};
ghost use Rattle.cotpad_c.specs.declared.status.TheConstants.{OK, NO_MEMORY, NONE, UNSETTLED};
ghost use Rattle.cotpad_c.specs.Hosting.{reached};
ghost use Rattle.cotpad_c.specs.Operations.{operation_told};
ghost use Rattle.cotpad_c.specs.Verdicts.{told, of_member, answered, received, IsHalfReceived, IsReleased};

use crate::hosted::Hosted;
use crate::operation::operation_told;
use crate::status::{NO_MEMORY, NONE, OK, UNSETTLED};
use crate::verdict::{CotpadVerdict, incomplete, malformed, of_member, told};
use context_diff::Op;
use participant::Untaken;
use std::alloc::Global;
use wire_codec::{Decoded, decode2};

/// Delivers the operation of the frame that the bytes begin with, tells its verdict, and releases.
pub(crate) fn receive(
    alloc: Global,
    hosted: &mut Hosted,
    bytes: &[u8],
    verdict: &mut CotpadVerdict,
) -> u32
    ensures status { (result ≡ OK) ⊎ (result ≡ UNSETTLED) ⊎ (result ≡ NO_MEMORY) }
    ensures verdict { result ≢ NO_MEMORY → verdict.new ≡ answered (state_of hosted.old.site) (judge Two bytes.now) }
    ensures done { result ≡ OK → reached hosted.new ≡ received (state_of hosted.old.site) (judge Two bytes.now) }
    ensures unsettled { result ≡ UNSETTLED → IsHalfReceived (state_of hosted.old.site) (judge Two bytes.now) (reached hosted.new) }
    ensures needed { result ≡ NO_MEMORY → HasFrame Two bytes.now }
    ensures err { result ≡ NO_MEMORY → (reached hosted.new ≡ from (state_of hosted.old.site)) × (verdict.new ≡ verdict.old) }
{
    hosted.forget();
    match decode2(alloc, bytes) {
        Ok(Decoded::Got { op, used }) => {
            let mut op = op;
            deliver(hosted, &mut op, used, verdict)
        }
        Ok(Decoded::More { at_least }) => {
            *verdict = incomplete(at_least);
            OK
        }
        Ok(Decoded::Bad { cause, offset }) => {
            *verdict = malformed(cause, offset);
            OK
        }
        Err(_) => NO_MEMORY,
    }
}

// Delivers the operation, whose frame has so many bytes, tells its verdict, and releases.
fn deliver(hosted: &mut Hosted, op: &mut Op, used: u32, verdict: &mut CotpadVerdict) -> u32
    requires { IsWellFormed (data_of op.old) }
    ensures status { (result ≡ OK) ⊎ (result ≡ UNSETTLED) ⊎ (result ≡ NO_MEMORY) }
    ensures verdict { result ≢ NO_MEMORY
        → verdict.new ≡ told (operation_told (data_of op.old)) used (judged (state_of hosted.old.site) (data_of op.old)) }
    ensures done { result ≡ OK → reached hosted.new ≡ taken_in All (reached hosted.old) (data_of op.old) }
    ensures unsettled { result ≡ UNSETTLED → IsHalfSettled (with_delivered (reached hosted.old) (data_of op.old)) (reached hosted.new) }
    ensures err { result ≡ NO_MEMORY → (reached hosted.new ≡ reached hosted.old) × (verdict.new ≡ verdict.old) }
{
    let operation = operation_told(op);
    match hosted.take_in(op) {
        Ok(answer) => {
            *verdict = told(operation, used, answer);
            OK
        }
        Err(Untaken::Unsettled { verdict: answer }) => {
            *verdict = told(operation, used, answer);
            UNSETTLED
        }
        Err(Untaken::Memory) => NO_MEMORY,
    }
}

/// Releases until no waiting operation is ready.
pub(crate) fn settle(hosted: &mut Hosted) -> u32
    ensures status { (result ≡ OK) ⊎ (result ≡ UNSETTLED) }
    ensures done { result ≡ OK → reached hosted.new ≡ all_settled (from (state_of hosted.old.site)) }
    ensures unsettled { result ≡ UNSETTLED → IsHalfSettled (from (state_of hosted.old.site)) (reached hosted.new) }
    ensures nothing { IsSettled (state_of hosted.old.site) → result ≡ OK }
{
    hosted.forget();
    hosted.settle()
}

/// Releases the first waiting operation that is ready, and tells its verdict.
pub(crate) fn release(hosted: &mut Hosted, verdict: &mut CotpadVerdict) -> u32
    ensures status { (result ≡ OK) ⊎ (result ≡ NO_MEMORY) ⊎ (result ≡ NONE) }
    ensures answer { result ≢ NO_MEMORY → IsReleased result (released (state_of hosted.old.site)) verdict.old verdict.new }
    ensures state { result ≢ NO_MEMORY
        → state_of hosted.new.site ≡ after_release (state_of hosted.old.site) (released (state_of hosted.old.site)) }
    ensures quiet { hosted.new.released ≡ [] }
    ensures needed { result ≡ NO_MEMORY → IsSomeAnd (released (state_of hosted.old.site)) (λ r. r.verdict ≡ Integrated) }
    ensures err { result ≡ NO_MEMORY → (state_of hosted.new.site ≡ state_of hosted.old.site) × (verdict.new ≡ verdict.old) }
{
    hosted.forget();
    match hosted.site_mut().release_next() {
        Ok(Some((op, answer))) => {
            *verdict = told(operation_told(&op), 0, answer);
            OK
        }
        Ok(None) => NONE,
        Err(_) => NO_MEMORY,
    }
}

/// How many operations were released, as far as the number goes.
pub(crate) fn released(hosted: &Hosted) -> u32
    ensures { result ≡ min (length hosted.now.released) 4294967295 }
{
    hosted.released().len().min(u32::MAX as usize) as u32
}

/// Tells the release at this index.
pub(crate) fn released_at(hosted: &Hosted, index: u32, verdict: &mut CotpadVerdict) -> u32
    ensures found { (r : Release) → slice_get hosted.now.released index ≡ Some r
        → (result ≡ OK) × (verdict.new ≡ of_member r.member r.verdict) }
    ensures none { slice_get hosted.now.released index ≡ None → (result ≡ NONE) × (verdict.new ≡ verdict.old) }
{
    match hosted.released().get(index as usize) {
        Some(release) => {
            *verdict = of_member(release.member, release.verdict);
            OK
        }
        None => NONE,
    }
}
