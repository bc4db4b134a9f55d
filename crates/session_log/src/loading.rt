//! Loading logs.

ghost use Rattle.std.specs.Prelude.{◌≡◌, ◌≢◌, ◌<◌, ◌≤◌, true, false, List, Some, None, Err, OnOk, IfOk, IfErr, length};
ghost use Rattle.context_diff.specs.Operations.{OpData, IsWellFormed};
ghost use Rattle.context_diff.specs.Ops.{data_of};
ghost use Rattle.cot_site.specs.Sites.{state_of};
ghost use Rattle.cot_site.specs.States.{judged};
ghost use Rattle.site_answers.specs.declared.release.Release.{Release};
ghost use Rattle.participant.specs.Taking.{is_refusal};
ghost use Rattle.session_log.specs.Logs.{IsLogOf};
ghost use Rattle.session_log.specs.Loadings.{first_refusal, verdicts_after, after_one, IsRefusal, IsCutShort, new_state, IsLoaded, IsUnloaded};

use crate::left::Left;
use crate::log_bad::LogBad;
use crate::placed::Placed;
use crate::reading::{MAX_LOG, check};
use context_diff::Op;
use cot_site::{Release, Site};
use op_name::SITES;
use participant::{Taking, is_refusal};
use std::alloc::Global;

/// Makes the site of this number from a log of at most `MAX_LOG` bytes: delivers its operations in the order of their
/// frames, and releases after each one until nothing is ready.
///
/// Refused by Header, Cut or Bad, the first fault of the bytes; then by Refused, where the delivery of an operation or a
/// release after it gets the first verdict Forged, NotClosed or PlaceOut; or by Memory, which comes only where the bytes
/// are a log. All bytes are judged before any operation is delivered.
pub fn load(alloc: Global, site: u16, bytes: &[u8]) -> Result<Site, LogBad>
    requires site { site < SITES }
    requires limit { length bytes.now ≤ MAX_LOG }
    ensures loaded { IfOk result (λ s. IsLoaded site bytes.now (state_of s)) }
    ensures refused { IfErr result (IsUnloaded site bytes.now) }
{
    check(bytes)?;
    let mut loaded = Site::new(alloc, site)?;
    deliver_all(alloc, &mut loaded, bytes)?;
    Ok(loaded)
}

// Takes in the operations of the log at a site that has done nothing.
fn deliver_all(alloc: Global, site: &mut Site, bytes: &[u8]) -> Result<(), LogBad>
    requires new { state_of site.old ≡ new_state site.old.number }
    requires limit { length bytes.now ≤ MAX_LOG }
    requires log { (os : List OpData) × IsLogOf bytes.now os }
    ensures loaded { OnOk result (IsLoaded site.old.number bytes.now (state_of site.new)) }
    ensures refused { IfErr result (IsUnloaded site.old.number bytes.now) }
{
    let mut left = Left::after_header(bytes)?;
    let mut released = Vec::new(alloc);
    while let Some(Placed { offset, op }) = left.next(alloc)? {
        take_in(site, offset, op, &mut released)?;
    }
    Ok(())
}

/// Takes in the operation whose frame begins at this offset of a log, as `participant` does: unless it is refused, it is
/// delivered, and what is ready then is released. The list is only room for the releases; what it holds is lost.
///
/// Refused by Refused, with this offset and the first verdict of the delivery and the releases that is Forged, NotClosed or
/// PlaceOut; or by Memory. Where the operation itself is refused, the site stays as it was. Where a release after it is, the
/// operation is taken in all the same. Out of memory, either nothing is done, or the operation is delivered and the first of
/// the releases are done.
pub fn take_in(
    site: &mut Site,
    offset: u32,
    op: Op,
    released: &mut Vec<Release>,
) -> Result<(), LogBad>
    requires { IsWellFormed (data_of op) }
    ensures taken { OnOk result (first_refusal (verdicts_after (state_of site.old) (data_of op)) ≡ None) }
    ensures state { OnOk result (state_of site.new ≡ after_one (state_of site.old) (data_of op)) }
    ensures refused { IfErr result (IsRefusal offset (verdicts_after (state_of site.old) (data_of op))) }

    // What the site is after a refusal: of the operation itself, of a release after it, and out of memory.
    ensures stays { is_refusal (judged (state_of site.old) (data_of op)) ≡ true → state_of site.new ≡ state_of site.old }
    ensures released { IfErr result (λ why. why ≢ LogBad.Memory → is_refusal (judged (state_of site.old) (data_of op)) ≡ false
        → state_of site.new ≡ after_one (state_of site.old) (data_of op)) }
    ensures memory { result ≡ Err LogBad.Memory → IsCutShort (state_of site.old) (data_of op) (state_of site.new) }
{
    let mut op = op;
    take_known(site, offset, &mut op, released)
}

// The same of an operation that the caller gives up: a match with many exits over an owned one makes its proof long.
fn take_known(
    site: &mut Site,
    offset: u32,
    op: &mut Op,
    released: &mut Vec<Release>,
) -> Result<(), LogBad>
    requires { IsWellFormed (data_of op.old) }
    ensures taken { OnOk result (first_refusal (verdicts_after (state_of site.old) (data_of op.old)) ≡ None) }
    ensures state { OnOk result (state_of site.new ≡ after_one (state_of site.old) (data_of op.old)) }
    ensures refused { IfErr result (IsRefusal offset (verdicts_after (state_of site.old) (data_of op.old))) }
    ensures stays { is_refusal (judged (state_of site.old) (data_of op.old)) ≡ true → state_of site.new ≡ state_of site.old }
    ensures released { IfErr result (λ why. why ≢ LogBad.Memory → is_refusal (judged (state_of site.old) (data_of op.old)) ≡ false
        → state_of site.new ≡ after_one (state_of site.old) (data_of op.old)) }
    ensures memory { result ≡ Err LogBad.Memory → IsCutShort (state_of site.old) (data_of op.old) (state_of site.new) }
{
    released.clear();
    match participant::take_in(site, op, Taking::Unrefused, released) {
        Ok(verdict) if is_refusal(&verdict) => Err(LogBad::Refused {
            offset,
            member: op.member(),
            verdict,
        }),
        Ok(_) => unless_refused(offset, first_refusal(released.as_slice())),
        Err(_) => Err(LogBad::Memory),
    }
}

// An error where there was a refusal.
fn unless_refused(offset: u32, refusal: Option<Release>) -> Result<(), LogBad>
    ensures ok { OnOk result (refusal ≡ None) }
    ensures refused { IfErr result (λ why. (r : Release) × (refusal ≡ Some r) × (why ≡ LogBad.Refused offset r.member r.verdict)) }
{
    match refusal {
        Some(Release { member, verdict }) => Err(LogBad::Refused {
            offset,
            member,
            verdict,
        }),
        None => Ok(()),
    }
}

// The first of the verdicts that is a refusal.
fn first_refusal(released: &[Release]) -> Option<Release>
    ensures { result ≡ first_refusal released.now }
{
    for release in released {
        if is_refusal(&release.verdict) {
            return Some(*release);
        }
    }
    None
}
