//! Local commands as plain values, and deliveries with the releases after them.

use context_diff::Op;
use cot_site::Site;
use op_name::Name;
use site_answers::Verdict;
use std::test::Fail;

/// A local command.
#[derive(Clone, Copy)]
pub(crate) enum Edit {
    Insert(u32, char),
    /// The insert of a text of so many characters, of 1 to 256.
    Run(u32, u16),
    Delete(u32),
    Undo(Name),
    Redo(Name),
}

/// The operation of a command, if it isn't refused.
pub(crate) fn edited(site: &mut Site, edit: &Edit) -> Option<Op> {
    match edit {
        Edit::Insert(place, ch) => site.insert(*place, *ch).ok(),
        Edit::Run(place, len) => inserted(site, *place, *len),
        Edit::Delete(place) => site.delete(*place).ok(),
        Edit::Undo(name) => site.undo(*name).ok(),
        Edit::Redo(name) => site.redo(*name).ok(),
    }
}

fn inserted(site: &mut Site, place: u32, len: u16) -> Option<Op> {
    let text = ['x'; 256];
    let len = (len as usize).clamp(1, 256);
    site.insert_run(place, &text[..len]).ok()
}

/// Whether the site does all commands.
pub(crate) fn does_all(site: &mut Site, edits: &[Edit]) -> bool {
    for edit in edits {
        if edited(site, edit).is_none() {
            return false;
        }
    }
    true
}

/// Releases until nothing is ready.
pub(crate) fn settle(site: &mut Site) -> Result<(), Fail> {
    for _ in 0..site.pool().len() {
        site.release_next()?;
    }
    Ok(())
}

/// Delivers an operation that is well formed.
fn deliver(site: &mut Site, op: &Op) -> Result<Verdict, Fail> {
    if op.fault().is_some() {
        return Err(Fail::new("the operation isn't well formed"));
    }
    Ok(site.deliver(op)?)
}

/// Delivers an operation, with the releases after it.
pub(crate) fn take_in(site: &mut Site, op: &Op) -> Result<(), Fail> {
    match deliver(site, op) {
        Ok(_) => settle(site),
        Err(why) => Err(why),
    }
}
