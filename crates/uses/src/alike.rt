//! Whether two sites have the same operations, and the lines printed for them.

ghost use Rattle.std.specs.Prelude.{◌≡◌, ◌↔◌, ◌++◌, All, IfOk, IfErr, IsTrue, OnOk};
ghost use Rattle.context_diff.specs.Operations.{IsWellFormed};
ghost use Rattle.context_diff.specs.Ops.{data_of};
ghost use Rattle.context_diff.specs.Histories.{Same};
ghost use Rattle.context_diff.specs.Replays.{text_of};
ghost use Rattle.cot_site.specs.Verdicts.{IsRepeat};
ghost use Rattle.uses.specs.Report.{two_lines, IsUnreported};

use crate::stop::Stop;
use context_diff::{Book, Op};
use cot_site::{Site, Verdict};
use fixed_replay::{originals_are_told_apart, same_operations_same_text};
use op_name::Memory;
use std::alloc::Global;

/// A line for each site, with its text. Both have the same operations, so both lines show the one text that the
/// definition gives; if one has what the other lacks, the answer is `Stop::Apart`. Operations that wait don't count.
pub(crate) fn report(alloc: Global, ann: &Site, bob: &Site) -> Result<Vec<u8>, Stop>
    ensures lines { IfOk result (λ out. out.items ≡ two_lines (text_of ann.now.history)) }
    ensures same { OnOk result (Same ann.now.history bob.now.history) }
    ensures refused { IfErr result (IsUnreported ann.now.history bob.now.history) }
{
    if !have_the_same(ann, bob) {
        return Err(Stop::Apart);
    }
    let mut out = Vec::new(alloc);
    write_lines(ann, bob, &mut out)?;
    Ok(out)
}

/// Appends a line for each of two sites that have the same operations.
fn write_lines(ann: &Site, bob: &Site, out: &mut Vec<u8>) -> Result<(), Memory>
    requires { Same ann.now.history bob.now.history }
    ensures { OnOk result (out.new.items ≡ out.old.items ++ two_lines (text_of ann.now.history)) }
{
    // These four calls do nothing when the program runs: the proof uses what they ensure.
    originals_are_told_apart();
    same_operations_same_text();
    ann.known();
    bob.known();
    out.extend_from_slice(b"Ann: ")?;
    ann.text(out)?;
    out.extend_from_slice(b"\nBob: ")?;
    bob.text(out)?;
    out.extend_from_slice(b"\n")?;
    Ok(())
}

/// Whether both sites have the same operations: the same inserts and deletes, each undone and redone as often.
pub(crate) fn have_the_same(ann: &Site, bob: &Site) -> bool
    ensures { IsTrue result ↔ Same ann.now.history bob.now.history }
{
    ann.known();
    bob.known();
    has_all(bob, ann.book()) && has_all(ann, bob.book())
}

/// Whether a site has each operation of a book: it would be a repeat there.
fn has_all(site: &Site, book: &Book) -> bool
    ensures { IsTrue result ↔ All (IsRepeat site.now.history) book.now.ops }
{
    book.known();
    for i in 0..book.len() {
        match book.op(i) {
            Some(op) => {
                if !has(site, op) {
                    return false;
                }
            }
            None => unreachable!(),
        }
    }
    true
}

/// Whether a site has the operation; for an undo, whether it has reached that generation.
fn has(site: &Site, op: &Op) -> bool
    requires { IsWellFormed (data_of op.now) }
    ensures { IsTrue result ↔ IsRepeat site.now.history (data_of op.now) }
{
    site.known();
    matches!(site.check(op), Verdict::Repeat)
}
