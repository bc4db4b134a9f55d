//! One edit of a site's user, with the releases after it.

ghost use Rattle.std.specs.Prelude.{◌≡◌, ◌+◌, ◌<◌, ◌≤◌, IfOk, OnOk, OnErr, length};
ghost use Rattle.context_diff.specs.Histories.{all_cells};
ghost use Rattle.context_diff.specs.Ops.{data_of};
ghost use Rattle.cot_site.specs.Commands.{IsAnswer};
ghost use Rattle.cot_site.specs.Releases.{IsLater};
ghost use Rattle.cot_site.specs.Sites.{state_of};
ghost use Rattle.cot_site.specs.States.{with_last, IsSettled};
ghost use Rattle.participant.specs.Reached.{at};
ghost use Rattle.participant.specs.Edits.{made_by, IsDone, HasMade};
ghost use Rattle.participant.specs.Code.Running.{IsReleased};

use crate::releases::release_all;
use context_diff::{Letters, Op};
use cot_site::{Local, Release, Site};
use op_name::{LETTERS, Memory, Name};

/// What the user of a site does. Places count shown characters.
#[derive(Drop)]
pub enum Edit {
    /// Inserts a text after so many shown characters.
    Insert { place: u32, text: Letters },
    /// Deletes the shown character at this place, from 0.
    Delete { place: u32 },
    /// Undoes the insert or delete of this name, whoever made it.
    Undo { name: Name },
    /// Redoes the insert or delete of this name, whoever undid it.
    Redo { name: Name },
}

/// Why edits stopped before all was done.
#[derive(Clone, Copy, Debug)]
pub enum Stopped {
    /// No operation was made, for this reason, and nothing was done for it.
    Refused { why: Local },
    /// The operation was made, and memory ran out among the releases after it: a waiting operation is ready yet.
    Unsettled,
}

/// Makes the operation of the edit, and answers a copy, with everything that was ready then released, one after the other. Each
/// release is appended.
///
/// Refused for the reasons of `Site::insert`, `delete`, `undo` and `redo`, with nothing done; or by Unsettled, where the operation was
/// made and the first of the releases were, which are appended.
pub fn do_edit(site: &mut Site, edit: &Edit, released: &mut Vec<Release>) -> Result<Op, Stopped>
    ensures done { IsDone (made_by edit.now (state_of site.old)) (at site.old released.old.items) result (at site.new released.new.items) }
    ensures settled { OnOk result (IsSettled (state_of site.new)) }
    ensures later { IsLater (state_of site.old) (state_of site.new) }
    ensures longer { HasMade result → length site.old.history < length site.new.history }
{
    match make(site, edit) {
        Ok(op) => release_after(site, op, released),
        Err(why) => Err(Stopped::Refused { why }),
    }
}

// The same of an insert of these characters. The text has those before it and its own, once it is made.
pub(crate) fn do_insert(
    site: &mut Site,
    place: u32,
    text: &[char],
    released: &mut Vec<Release>,
) -> Result<Op, Stopped>
    requires some { 1 ≤ length text.now }
    requires most { length text.now ≤ LETTERS }
    ensures done { IsDone (made_by (Edit.Insert place text.now) (state_of site.old)) (at site.old released.old.items) result
        (at site.new released.new.items) }
    ensures settled { OnOk result (IsSettled (state_of site.new)) }
    ensures later { IsLater (state_of site.old) (state_of site.new) }
    ensures longer { HasMade result → length site.old.history < length site.new.history }
    ensures room { OnOk result (place + length text.now ≤ all_cells site.new.history) }
{
    match site.insert_run(place, text) {
        Ok(op) => release_after(site, op, released),
        Err(why) => Err(Stopped::Refused { why }),
    }
}

// Makes the operation of the edit.
fn make(site: &mut Site, edit: &Edit) -> Result<Op, Local>
    ensures answer { IsAnswer (made_by edit.now (state_of site.old)) result }
    ensures made { IfOk result (λ o. state_of site.new ≡ with_last (state_of site.old) (data_of o)) }
    ensures err { OnErr result (state_of site.new ≡ state_of site.old) }
{
    match edit {
        Edit::Insert { place, text } => {
            text.known();
            site.insert_run(*place, text.as_slice())
        }
        Edit::Delete { place } => site.delete(*place),
        Edit::Undo { name } => site.undo(*name),
        Edit::Redo { name } => site.redo(*name),
    }
}

// Releases until none is ready, after this operation was made, which is answered.
fn release_after(site: &mut Site, op: Op, released: &mut Vec<Release>) -> Result<Op, Stopped>
    ensures done { IsReleased (data_of op) (at site.old released.old.items) result (at site.new released.new.items) }
    ensures settled { OnOk result (IsSettled (state_of site.new)) }
    ensures later { IsLater (state_of site.old) (state_of site.new) }
{
    match release_all(site, released) {
        Ok(()) => Ok(op),
        Err(Memory) => Err(Stopped::Unsettled),
    }
}
