//! Undo and redo of a range of the history.

ghost use Rattle.std.specs.Prelude.{◌≡◌, ◌≢◌, ◌+◌, ◌<◌, ◌≤◌, ◌∷◌, [], Err, MatchOption, length};
ghost use Rattle.context_diff.specs.Ops.{data_of};
ghost use Rattle.cot_site.specs.Releases.{IsLater};
ghost use Rattle.cot_site.specs.Sites.{state_of};
ghost use Rattle.cot_site.specs.States.{IsSettled};
ghost use Rattle.participant.specs.Reached.{at};
ghost use Rattle.participant.specs.Runs.{undos, redos, IsRun};
ghost use Rattle.site_ranges.specs.Originals.{originals_in, originals_at};
ghost use Rattle.site_ranges.specs.Code.Turns.{turns};

use context_diff::{Book, Op};
use cot_site::{Release, Site};
use op_name::Name;
use participant::{Run, Stopped, redo_all, undo_all};
use std::slice;

/// Undoes each insert and delete among so many operations of the history, from the one at index `from` on, the last one first, and
/// after each releases everything that is ready. One that is undone already is passed over, and so are undos and redos. Each release is
/// appended.
///
/// It stops at the first one that is refused, as `Site::undo` says, for another reason. What was undone before stays so, and is passed
/// over where the same range is given again: its operations stand where they stood. It takes no memory but for the undos.
pub fn undo_range(site: &mut Site, from: u32, count: u32, released: &mut Vec<Release>) -> Run
    requires { from + count ≤ length site.old.history }
    ensures run { IsRun (undos (originals_at site.old.history from count)) (at site.old released.old.items) result
        (at site.new released.new.items) }
    ensures within { result.made ≤ count }
    ensures settled { IsSettled (state_of site.old) → result.end ≢ Err Stopped.Unsettled → IsSettled (state_of site.new) }
    ensures later { IsLater (state_of site.old) (state_of site.new) }
{
    turn_range(site, from, count, false, released)
}

/// Redoes each insert and delete among so many operations of the history, from the one at index `from` on, the last one first, and
/// after each releases everything that is ready. One that isn't undone is passed over, and so are undos and redos. Each release is
/// appended.
///
/// It stops at the first one that is refused, as `Site::redo` says, for another reason. What was redone before stays so, and is passed
/// over where the same range is given again.
pub fn redo_range(site: &mut Site, from: u32, count: u32, released: &mut Vec<Release>) -> Run
    requires { from + count ≤ length site.old.history }
    ensures run { IsRun (redos (originals_at site.old.history from count)) (at site.old released.old.items) result
        (at site.new released.new.items) }
    ensures within { result.made ≤ count }
    ensures settled { IsSettled (state_of site.old) → result.end ≢ Err Stopped.Unsettled → IsSettled (state_of site.new) }
    ensures later { IsLater (state_of site.old) (state_of site.new) }
{
    turn_range(site, from, count, true, released)
}

// Undoes the originals of a range, the last one first; or redoes them. One is turned after the other, so that no list of their names is
// made.
fn turn_range(
    site: &mut Site,
    from: u32,
    count: u32,
    redo: bool,
    released: &mut Vec<Release>,
) -> Run
    requires { from + count ≤ length site.old.history }
    ensures run { IsRun (turns redo (originals_at site.old.history from count)) (at site.old released.old.items) result
        (at site.new released.new.items) }
    ensures within { result.made ≤ count }
    ensures settled { IsSettled (state_of site.old) → result.end ≢ Err Stopped.Unsettled → IsSettled (state_of site.new) }
    ensures later { IsLater (state_of site.old) (state_of site.new) }
{
    site.book().known();
    let mut made = 0;
    let mut left = count;
    while left > 0 {
        left -= 1;
        let run = turn_at(site, from + left, redo, released);
        made += run.made;
        if run.end.is_err() {
            return Run { made, end: run.end };
        }
    }
    Run { made, end: Ok(()) }
}

// Undoes the operation at an index of the history, or redoes it; nothing is done of an undo or redo.
fn turn_at(site: &mut Site, i: u32, redo: bool, released: &mut Vec<Release>) -> Run
    requires { i < length site.old.history }
    ensures run { IsRun (turns redo (originals_at site.old.history i 1)) (at site.old released.old.items) result
        (at site.new released.new.items) }
    ensures within { result.made ≤ 1 }
    ensures settled { IsSettled (state_of site.old) → result.end ≢ Err Stopped.Unsettled → IsSettled (state_of site.new) }
    ensures later { IsLater (state_of site.old) (state_of site.new) }
{
    match name_at(site.book(), i) {
        Some(name) => turn(site, slice::from_ref(&name), redo, released),
        None => Run {
            made: 0,
            end: Ok(()),
        },
    }
}

// The name of the operation at an index, if it is an insert or a delete.
fn name_at(book: &Book, i: u32) -> Option<Name>
    requires { i < length book.now.ops }
    ensures { MatchOption result (originals_at book.now.ops i 1 ≡ []) (λ n. originals_at book.now.ops i 1 ≡ n ∷ []) }
{
    match book.op(i) {
        Some(op) => name_of(op),
        None => None,
    }
}

// The name of an operation, if it is an insert or a delete.
fn name_of(op: &Op) -> Option<Name>
    ensures { MatchOption result (originals_in (data_of op.now ∷ []) ≡ []) (λ n. originals_in (data_of op.now ∷ []) ≡ n ∷ []) }
{
    match op {
        Op::Insert { name, .. } | Op::Delete { name, .. } => Some(*name),
        Op::Undo { .. } => None,
    }
}

// Undoes what has these names, the last of them first; or redoes it.
fn turn(site: &mut Site, names: &[Name], redo: bool, released: &mut Vec<Release>) -> Run
    ensures run { IsRun (turns redo names.now) (at site.old released.old.items) result
        (at site.new released.new.items) }
    ensures within { result.made ≤ length names.now }
    ensures settled { IsSettled (state_of site.old) → result.end ≢ Err Stopped.Unsettled → IsSettled (state_of site.new) }
    ensures later { IsLater (state_of site.old) (state_of site.new) }
{
    if redo {
        redo_all(site, names, released)
    } else {
        undo_all(site, names, released)
    }
}
