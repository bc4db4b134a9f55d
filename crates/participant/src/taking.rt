//! Operations that others sent.

ghost use Rattle.std.specs.Prelude.{◌≡◌, true, false, IfOk, IfErr, OnOk};
ghost use Rattle.context_diff.specs.Operations.{IsWellFormed};
ghost use Rattle.context_diff.specs.Ops.{data_of};
ghost use Rattle.cot_site.specs.Releases.{IsLater};
ghost use Rattle.cot_site.specs.Sites.{state_of};
ghost use Rattle.cot_site.specs.States.{judged, delivered, IsSettled};
ghost use Rattle.participant.specs.Reached.{at, all_settled, IsHalfSettled};
ghost use Rattle.participant.specs.Taking.{is_refusal, is_had, takes, taken_in, IsUntaken};

use crate::releases::release_all;
use context_diff::Op;
use cot_site::{Release, Site, Verdict};
use op_name::Memory;

/// Which operations are taken in, by their verdicts.
#[derive(Clone, Copy, Debug)]
pub enum Taking {
    /// Each one: it is delivered, whatever its verdict.
    All,
    /// One that isn't refused: it is integrated, it waits, or it is a repeat.
    Unrefused,
    /// One whose member the history has then: it is integrated, or it is a repeat.
    Had,
}

/// Why an operation wasn't taken in, or not wholly.
#[derive(Clone, Copy, Debug)]
pub enum Untaken {
    /// Out of memory: nothing was done.
    Memory,
    /// It was delivered, with this verdict, and memory ran out among the releases after it: a waiting operation is ready yet.
    Unsettled { verdict: Verdict },
}

/// Takes in an operation, which is well formed, and answers its verdict. Where that is one of those that are taken in, the operation
/// is delivered, and everything that is ready then is released, one after the other; else nothing changes. Each release is appended.
///
/// The operation stays the same; its context then shares the site's own list of undone names, where it has the same ones. Refused by
/// Memory, which comes only where the delivery was to change something, with nothing done; or by Unsettled, where the operation was
/// delivered and the first of the releases were made, which are appended.
pub fn take_in(
    site: &mut Site,
    op: &mut Op,
    taking: Taking,
    released: &mut Vec<Release>,
) -> Result<Verdict, Untaken>
    requires { IsWellFormed (data_of op.old) }
    ensures op { data_of op.new ≡ data_of op.old }
    ensures verdict { IfOk result (λ v. v ≡ judged (state_of site.old) (data_of op.old)) }
    ensures taken { IfOk result (λ v. at site.new released.new.items ≡ taken_in taking (at site.old released.old.items) (data_of op.old)) }
    ensures untaken { IfErr result (λ why. IsUntaken taking (at site.old released.old.items) (data_of op.old) why
        (at site.new released.new.items)) }
    ensures settled { IfOk result (λ v. takes taking v ≡ true → IsSettled (state_of site.new)) }
    ensures later { IsLater (state_of site.old) (state_of site.new) }
{
    op.share_with(site.vector());
    match taking {
        Taking::Had => {
            let verdict = site.check(op);
            if is_had(&verdict) {
                deliver(site, op, taking, released)
            } else {
                Ok(verdict)
            }
        }
        Taking::All | Taking::Unrefused => deliver(site, op, taking, released),
    }
}

// Delivers the operation, and releases if it is taken in: it is, or its delivery changes nothing.
fn deliver(
    site: &mut Site,
    op: &Op,
    taking: Taking,
    released: &mut Vec<Release>,
) -> Result<Verdict, Untaken>
    requires formed { IsWellFormed (data_of op.now) }
    requires harmless { takes taking (judged (state_of site.old) (data_of op.now)) ≡ false
        → delivered (state_of site.old) (data_of op.now) ≡ state_of site.old }
    ensures verdict { IfOk result (λ v. v ≡ judged (state_of site.old) (data_of op.now)) }
    ensures taken { IfOk result (λ v. at site.new released.new.items ≡ taken_in taking (at site.old released.old.items) (data_of op.now)) }
    ensures untaken { IfErr result (λ why. IsUntaken taking (at site.old released.old.items) (data_of op.now) why
        (at site.new released.new.items)) }
    ensures settled { IfOk result (λ v. takes taking v ≡ true → IsSettled (state_of site.new)) }
    ensures later { IsLater (state_of site.old) (state_of site.new) }
{
    match site.deliver(op) {
        Ok(verdict) => {
            if takes(taking, &verdict) {
                settle_after(site, verdict, released)
            } else {
                Ok(verdict)
            }
        }
        Err(Memory) => Err(Untaken::Memory),
    }
}

// Releases until none is ready, after a delivery with this verdict.
fn settle_after(
    site: &mut Site,
    verdict: Verdict,
    released: &mut Vec<Release>,
) -> Result<Verdict, Untaken>
    ensures verdict { IfOk result (λ v. v ≡ verdict) }
    ensures done { OnOk result (at site.new released.new.items ≡ all_settled (at site.old released.old.items)) }
    ensures half { IfErr result (λ why. (why ≡ Untaken.Unsettled verdict)
        × IsHalfSettled (at site.old released.old.items) (at site.new released.new.items)) }
    ensures settled { OnOk result (IsSettled (state_of site.new)) }
    ensures later { IsLater (state_of site.old) (state_of site.new) }
{
    match release_all(site, released) {
        Ok(()) => Ok(verdict),
        Err(Memory) => Err(Untaken::Unsettled { verdict }),
    }
}

// Whether an operation with this verdict is taken in.
fn takes(taking: Taking, verdict: &Verdict) -> bool
    ensures { result ≡ takes taking verdict.now }
{
    match taking {
        Taking::All => true,
        Taking::Unrefused => !is_refusal(verdict),
        Taking::Had => is_had(verdict),
    }
}

/// Whether the verdict refuses the operation.
pub fn is_refusal(verdict: &Verdict) -> bool
    ensures { result ≡ is_refusal verdict.now }
{
    match verdict {
        Verdict::Forged { .. } | Verdict::NotClosed { .. } | Verdict::PlaceOut { .. } => true,
        Verdict::Repeat | Verdict::Waits { .. } | Verdict::Integrated => false,
    }
}

/// Whether the history has the operation's member after this verdict.
pub fn is_had(verdict: &Verdict) -> bool
    ensures { result ≡ is_had verdict.now }
{
    matches!(verdict, Verdict::Repeat | Verdict::Integrated)
}
