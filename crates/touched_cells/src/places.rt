//! The cells that the last operations of a site touched.

ghost use Rattle.std.specs.Prelude.{◌≡◌, ◌*◌, ◌+◌, ◌/◌, ◌<◌, ◌≤◌, ◌↔◌, [], Some, IfOk, IfSome, IsTrue, length, min, slice_get};
ghost use Rattle.context_diff.specs.Operations.{OpData};
ghost use Rattle.context_diff.specs.Ops.{data_of};
ghost use Rattle.ttf_form.specs.Cells.{applied};
ghost use Rattle.transform_rec.specs.Executing.{executed};
ghost use Rattle.fixed_replay.specs.Replayed.{IsReplayed};
ghost use Rattle.touched_cells.specs.Touched.{name_touched, ArePlacesTouched, IsBearer};
ghost use Rattle.touched_cells.specs.Code.Seeking.{AreWith};

use crate::seeking::{add_deleted, add_insert};
use context_diff::{Book, Op};
use cot_site::Site;
use form_rows::Placed;
use op_name::{LETTERS, Memory, Name};
use std::alloc::Global;
use tombstone_text::Cells;

/// The places of the cells that the operations from the `from`-th on touched, counted from 0, rising: all cells of an insert, the cell
/// that a delete hit, and for an undo or a redo those of the insert or delete that it is of. None where a look at all cells costs less,
/// or where a cell isn't found where it is expected; then whoever asks looks at all cells.
///
/// To bring the place of one of k forms over those that were executed after it takes no more than k steps; nor than 512 and a search for
/// each stretch of 256 forms between, which counts for 32, where `Site::note_moves` was called. So None is answered at once where k times
/// the lesser of k and 512 + k / 8 is more than 16 times the number of cells, to which 256 are added. The cells of an insert are sought from its first one on, between others'
/// that stand among them: in all at no more cells is looked than there are, and 256 for each operation.
pub fn touched(alloc: Global, site: &Site, from: u32) -> Result<Option<Vec<u32>>, Memory>
    requires { from ≤ length site.now.history }
    ensures { IfOk result (λ found. IfSome found
        (λ places. ArePlacesTouched site.now.history from (executed applied [] site.now.forms) places.items)) }
{
    site.known();
    let end = site.book().len();
    let cells = site.cells().len();
    if !is_few(end - from, cells) {
        return Ok(None);
    }
    let reach = reach(end - from, cells);
    let mut places = Vec::new(alloc);
    for i in from..end {
        if !add_touched(site, i, reach, &mut places)? {
            return Ok(None);
        }
    }
    places.sort_unstable();
    places.dedup();
    Ok(Some(places))
}

// Whether to bring the places of so many operations to where they are now costs less than a look at all cells.
fn is_few(operations: u32, cells: u32) -> bool
    ensures { IsTrue result ↔ (operations * min operations (512 + operations / 8) ≤ 16 * (cells + 256)) }
{
    u64::from(operations) * u64::from(steps(operations)) <= 16 * (u64::from(cells) + 256)
}

// How many steps it takes at most to bring a place over so many forms: over those of two stretches one by one, and over each stretch
// between by a search.
fn steps(forms: u32) -> u32
    ensures { result ≡ min forms (512 + forms / 8) }
{
    forms.min(512 + forms / 8)
}

// At how many cells is looked for those of one operation, of so many: its share of all cells, and as many as an insert may have.
fn reach(operations: u32, cells: u32) -> u32 {
    (cells / operations.max(1)).saturating_add(u32::from(LETTERS))
}

// Adds the places of all cells that bear the name that the i-th operation touches; false where one isn't found.
fn add_touched(site: &Site, i: u32, reach: u32, places: &mut Vec<u32>) -> Result<bool, Memory>
    requires { i < length site.now.history }
    ensures { IfOk result (λ all. IsTrue all → ((o : OpData) → slice_get site.now.history i ≡ Some o
        → AreWith (IsBearer (executed applied [] site.now.forms) (name_touched o)) places.old.items places.new.items)) }
{
    site.known();
    let book = site.book();
    book.known();
    match book.op(i) {
        Some(op) => match site.executed(i) {
            Some(form) => {
                let place = site.moved(form.at(), i + 1);
                add_bearers(book, site.cells(), &name_touched(op), place, reach, places)
            }
            None => unreachable!(),
        },
        None => unreachable!(),
    }
}

// The name that the operation touches.
fn name_touched(op: &Op) -> Name
    ensures { result ≡ name_touched (data_of op.now) }
{
    match op {
        Op::Insert { name, .. } | Op::Delete { name, .. } => *name,
        Op::Undo { target, .. } => *target,
    }
}

// Adds the places of all cells that bear the name, which are sought from a place on; false where one isn't found.
fn add_bearers(
    book: &Book,
    cells: &Cells,
    name: &Name,
    place: u32,
    reach: u32,
    places: &mut Vec<u32>,
) -> Result<bool, Memory>
    requires { IsReplayed book.now.ops cells.now.cells }
    ensures { IfOk result (λ all. IsTrue all → AreWith (IsBearer cells.now.cells name.now) places.old.items places.new.items) }
{
    book.known();
    match book.original(name) {
        Some(Op::Insert { text, .. }) => {
            let end = cells.len().min(place.saturating_add(reach));
            add_insert(cells, name, text.len(), place, end, places)
        }
        Some(Op::Delete { .. }) => add_deleted(cells, name, place, places),
        _ => Ok(false),
    }
}
