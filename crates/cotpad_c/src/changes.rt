//! By what the shown text changed, and the text of a range.

ghost use Rattle.std.specs.Prelude.{◌≡◌, ◌⊎◌, ◌+◌, ◌++◌, ◌<◌, ◌≤◌, drop, length, map, take};
ghost use Rattle.context_diff.specs.Replays.{shown};
ghost use Rattle.cotpad_c.specs.declared.status.TheConstants.{NO_MEMORY, NONE};
ghost use Rattle.cotpad_c.specs.Changes.{change_told, WroteChanges};
ghost use Rattle.cotpad_c.specs.Statuses.{Wrote};

use crate::status;
use change_list::Change;
use cot_site::Site;
use std::alloc::Global;

/// A change as a host reads it: at a place so many characters are taken away, and then so many come in.
#[repr(C)]
#[derive(Clone, Copy)]
pub struct CotpadChange {
    pub place: u32,
    pub removed: u32,
    pub inserted: u32,
}

/// By what the shown text changed since the history had so many operations.
pub(crate) fn changes(
    alloc: Global,
    site: &Site,
    since: u32,
    out: &mut [CotpadChange],
    needed: &mut usize,
) -> u32
    ensures wrote { since ≤ length site.now.history → (result ≡ NO_MEMORY)
        ⊎ WroteChanges (shown (take since site.now.history)) (shown site.now.history) result out.old out.new needed.new }
    ensures none { length site.now.history < since → (result ≡ NONE) × (out.new ≡ out.old) × (needed.new ≡ needed.old) }
    ensures err { result ≡ NO_MEMORY → (out.new ≡ out.old) × (needed.new ≡ needed.old) }
{
    if site.book().len() < since {
        return status::NONE;
    }
    match site_changes::changes_since(alloc, site, since) {
        Ok(changes) => hand_out_changes(changes.as_slice(), out, needed),
        Err(_) => status::NO_MEMORY,
    }
}

// Tells the changes, if there is room for all, and answers their number.
fn hand_out_changes(changes: &[Change], out: &mut [CotpadChange], needed: &mut usize) -> u32
    ensures { Wrote result (map change_told changes.now) out.old out.new needed.new }
{
    *needed = changes.len();
    if out.len() < changes.len() {
        return status::TOO_SHORT;
    }
    tell_all(changes, out);
    status::OK
}

// Tells the changes in the front of a buffer that has room for them.
fn tell_all(changes: &[Change], out: &mut [CotpadChange])
    requires { length changes.now ≤ length out.old }
    ensures { out.new ≡ map change_told changes.now ++ drop (length changes.now) out.old }
{
    for (i, change) in changes.iter().enumerate() {
        out[i] = change_told(change);
    }
}

fn change_told(change: &Change) -> CotpadChange
    ensures { result ≡ change_told change.now }
{
    CotpadChange {
        place: change.place,
        removed: change.removed,
        inserted: change.inserted,
    }
}
