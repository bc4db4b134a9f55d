//! The rules of frames, in the order in which they are tried.

ghost use Rattle.std.specs.Prelude.{◌≡◌, ◌≤◌, ◌+◌, ◌==◌, IfOk};
ghost use Rattle.std.specs.List.{flat_map};
ghost use Rattle.op_name.specs.declared.member.Member.TheVariants.{Original};
ghost use Rattle.context_vector.specs.Contexts.{count_in, has};
ghost use Rattle.context_diff.specs.Operations.{context_of};
ghost use Rattle.wire_codec.specs.Versions.{longest, own_at};
ghost use Rattle.wire_codec.specs.Runs.{names_in, runs_of, listing_of};
ghost use Rattle.wire_codec.specs.Reading.{context_at, op_at};
ghost use Rattle.wire_codec.specs.Judging.{is_own, has_target, stray_from, runs_in, runs_begin, body_at, judge};
ghost use Rattle.wire_codec.specs.Code.Lent.{after_as, context_seen, op_seen, seen_as, judged_as};

use crate::cause::Cause;
use crate::fault::{Fault, Refused};
use crate::head::Head;
use crate::left::{Left, check};
use crate::limits::{SITES_OF_ONE, SITES_OF_TWO};
use crate::originals::originals;
use crate::run_reading::listed;
use crate::runs::{NAME_LEN, RUN_LEN, Runs, generation_of};
use crate::sections::{COUNT_LEN, COUNT_LEN_TWO, Counts};
use crate::texts::CHARACTER_LEN;
use crate::version::Version;
use crate::{heads, listing};
use context_diff::UNDO_ENTRIES;
use op_name::{LETTERS, Name};

/// The greatest number of bytes of a body of version 1: that of an insert of `LETTERS` characters whose context has a count for each site
/// that such a frame can name, and as many undone names as there may be.
pub const LONGEST_BODY: u32 = 12
    + CHARACTER_LEN as u32 * LETTERS as u32
    + 1
    + COUNT_LEN as u32 * SITES_OF_ONE as u32
    + 2
    + NAME_LEN as u32 * UNDO_ENTRIES;

/// The same of version 2, each undone name a run of its own.
pub const LONGEST_BODY_TWO: u32 = 13
    + CHARACTER_LEN as u32 * LETTERS as u32
    + 2
    + COUNT_LEN_TWO as u32 * SITES_OF_TWO as u32
    + 2
    + RUN_LEN as u32 * UNDO_ENTRIES;

fn longest(version: Version) -> u32
    ensures { result ≡ longest version }
{
    match version {
        Version::One => LONGEST_BODY,
        Version::Two => LONGEST_BODY_TWO,
    }
}

// Where the number of an insert or delete, or the target of an undo, begins.
fn own_at(version: Version) -> u32
    ensures { result ≡ own_at version }
{
    match version {
        Version::One => 6,
        Version::Two => 7,
    }
}

/// A context, lent as it lies in a frame.
#[derive(Drop)]
pub(crate) struct LentContext<'a> {
    pub(crate) counts: Counts<'a>,
    pub(crate) runs: Runs<'a>,
}

/// An operation, its context lent as it lies in a frame.
#[derive(Drop)]
pub(crate) struct LentOp<'a> {
    pub(crate) head: Head<'a>,
    pub(crate) context: LentContext<'a>,
}

/// The counts and the undone names of a context.
#[tactic(auto, unfolding(crate::specs::Reading::context_at))]
pub(crate) fn context<'a>(left: &mut Left<'a>, version: Version) -> Result<LentContext<'a>, Fault>
    ensures read { after_as context_seen result left.new ≡ context_at version left.old }
    ensures apart { IfOk result (λ c. runs_of (listing_of version) (flat_map names_in c.runs) ≡ c.runs) }
{
    let counts = listing::counts(left, version)?;
    let runs = listed(left, version.listing())?;
    Ok(LentContext { counts, runs })
}

#[tactic(auto, unfolding(crate::specs::Reading::op_at))]
fn op<'a>(left: &mut Left<'a>, version: Version) -> Result<LentOp<'a>, Fault>
    ensures read { after_as op_seen result left.new ≡ op_at version left.old }
    ensures apart { IfOk result (λ o. runs_of (listing_of version) (flat_map names_in o.context.runs) ≡ o.context.runs) }
{
    let head = heads::head(left, version)?;
    let context = context(left, version)?;
    Ok(LentOp { head, context })
}

// How many originals of the site the context has.
pub(crate) fn count_of(context: &LentContext, site: u16) -> u32
    ensures { result ≡ count_in context.now.counts site }
{
    for (s, n) in context.counts.again() {
        if s == site {
            return n;
        }
    }
    0
}

fn has_original(context: &LentContext, name: &Name) -> bool
    ensures { result ≡ has (context_seen context.now) (Original name.now) }
{
    1 <= name.number && name.number <= count_of(context, name.site)
}

// Whether an insert or delete knows just the earlier ones of its site.
fn own(op: &LentOp) -> bool
    ensures { result ≡ is_own (op_seen op.now) }
{
    match &op.head {
        Head::Insert(name, _, _) => knows_own(&op.context, name),
        Head::Delete(name, _) => knows_own(&op.context, name),
        Head::Undo(_, _, _) => true,
    }
}

fn knows_own(context: &LentContext, name: &Name) -> bool
    ensures { result ≡ (count_in context.now.counts name.now.site + 1 == name.now.number) }
{
    u64::from(count_of(context, name.site)) + 1 == u64::from(name.number)
}

// Whether an undo knows its target, at the generation before its own.
fn target(op: &LentOp) -> bool
    ensures { result ≡ has_target (op_seen op.now) }
{
    match &op.head {
        Head::Insert(_, _, _) => true,
        Head::Delete(_, _) => true,
        Head::Undo(_, target, generation) => {
            has_original(&op.context, target)
                && u32::from(generation_of(&op.context.runs, target)) + 1 == u32::from(*generation)
        }
    }
}

// Whether each run at the end of a body that ends at `stop` has originals of the context alone.
fn stray(op: &LentOp, version: Version, stop: u32) -> Result<(), Fault>
    requires { runs_of (listing_of version) (flat_map names_in op.now.context.runs) ≡ op.now.context.runs }
    ensures { result ≡ stray_from (listing_of version) (context_of (op_seen op.now))
        (runs_begin version (op_seen op.now) stop) (runs_in version (op_seen op.now)) }
{
    let listing = version.listing();
    let begin = stop.saturating_sub(op.context.runs.size(listing));
    originals(&op.context, listing, begin)
}

// A whole body.
#[tactic(auto, unfolding(crate::specs::Judging::body_at))]
fn body<'a>(left: &mut Left<'a>, version: Version) -> Result<LentOp<'a>, Fault>
    ensures { seen_as op_seen result ≡ body_at version left.old }
{
    let op = op(left, version)?;
    let stop = left.at();
    check(left.is_empty(), Cause::Length, stop)?;
    check(own(&op), Cause::Own, own_at(version))?;
    check(target(&op), Cause::Target, own_at(version))?;
    stray(&op, version, stop)?;
    Ok(op)
}

/// The operation of the frame that the bytes begin with, and how many bytes it has.
#[tactic(auto, unfolding(crate::specs::Judging::judge))]
pub(crate) fn judge<'a>(version: Version, bytes: &'a [u8]) -> Result<(LentOp<'a>, u32), Refused>
    ensures exact { judged_as op_seen result ≡ judge version bytes.now }
{
    if bytes.len() < 4 {
        return Err(Refused::More(4));
    }
    let (front, rest) = bytes.split_at(4);
    let length = u32::from_be_bytes([front[0], front[1], front[2], front[3]]);
    if length > longest(version) {
        return Err(Refused::Bad(Fault {
            cause: Cause::TooLong,
            offset: 0,
        }));
    }
    let used = 4 + length;
    if bytes.len() < used as usize {
        return Err(Refused::More(used));
    }
    let mut left = Left::new(4, &rest[..length as usize]);
    match body(&mut left, version) {
        Ok(op) => Ok((op, used)),
        Err(fault) => Err(Refused::Bad(fault)),
    }
}
