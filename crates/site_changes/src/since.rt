//! The changes of a site's text.

ghost use Rattle.std.specs.Prelude.{◌≤◌, length, take, IfOk};
ghost use Rattle.context_diff.specs.Replays.{shown};
ghost use Rattle.change_list.specs.Changes.{AreChanges};

use crate::earlier::Earlier;
use crate::telling::{all_changes, change_of, changes_at};
use change_list::Change;
use cot_site::Site;
use op_name::Memory;
use std::alloc::Global;
use touched_cells::{only_touched, touched};

/// What the shown text lost and gained since the site's history had its first `from` operations alone, from left to right: each change
/// has the place at which it stands in the text of now, counted in shown characters, and how many characters it removed and
/// inserted there.
///
/// Costs what finding the cells costs that the later operations touched (`touched`, and `only_touched` of one operation): then only these
/// are looked at, with what is kept of each chunk. Where they aren't found, each cell is looked at, shown or hidden, with the deletes that
/// hit it. Nothing is copied.
pub fn changes_since(alloc: Global, site: &Site, from: u32) -> Result<Vec<Change>, Memory>
    requires { from ≤ length site.now.history }
    ensures { IfOk result (λ cs. AreChanges cs.items (shown (take from site.now.history)) (shown site.now.history)) }
{
    site.known();
    match only_touched(site, from) {
        Some(touched) => {
            let at = Earlier::new(site.book(), from);
            change_of(alloc, site.cells(), &at, &touched)
        }
        None => several_since(alloc, site, from),
    }
}

// The same, where there may be several operations.
fn several_since(alloc: Global, site: &Site, from: u32) -> Result<Vec<Change>, Memory>
    requires { from ≤ length site.now.history }
    ensures { IfOk result (λ cs. AreChanges cs.items (shown (take from site.now.history)) (shown site.now.history)) }
{
    site.known();
    let at = Earlier::new(site.book(), from);
    match touched(alloc, site, from)? {
        Some(places) => changes_at(alloc, site.cells(), &at, &places),
        None => all_changes(alloc, site.cells(), &at),
    }
}
