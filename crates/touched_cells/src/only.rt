//! The only cell that one operation touched.

ghost use Rattle.std.specs.Prelude.{◌≡◌, ◌≤◌, [], ◌∷◌, Contains, Some, IfSome, IsTrue, length, slice_get, take};
ghost use Rattle.context_diff.specs.Ops.{data_of};
ghost use Rattle.ttf_form.specs.Cells.{applied};
ghost use Rattle.transform_rec.specs.Executing.{executed};
ghost use Rattle.fixed_replay.specs.Replayed.{IsReplayed};
ghost use Rattle.tombstone_text.specs.Chunks.{shown_in};
ghost use Rattle.touched_cells.specs.Touched.{name_touched, ArePlacesTouched, IsBearer};
ghost use Rattle.touched_cells.specs.Code.Seeking.{AreWith, IsOnlyOf};

use crate::looking::look;
use crate::seeking::is_deleted_by;
use context_diff::{Book, Op};
use cot_site::Site;
use form_rows::Placed;
use tombstone_text::{Cell, Cells};

/// A cell with its place among all cells, counted from 0, and the number of shown ones in front of it.
#[derive(Drop)]
pub struct Touched<'a> {
    pub place: u32,
    pub cell: Cell<'a>,
    pub shown: u32,
}

/// The only cell that the operations from the `from`-th on touched, where there is one operation, and it is an insert of one character or
/// a delete. None where there is another number of them, or another one, or where the cell isn't found where it is expected; then `touched`
/// tells the places.
///
/// It takes no memory, and the cell is sought once (`look`).
pub fn only_touched(site: &Site, from: u32) -> Option<Touched<'_>>
    requires { from ≤ length site.now.history }
    ensures touched { IfSome result (λ t. ArePlacesTouched site.now.history from (executed applied [] site.now.forms) (t.place ∷ [])) }
    ensures cell { IfSome result (λ t. slice_get (executed applied [] site.now.forms) t.place ≡ Some t.cell) }
    ensures shown { IfSome result (λ t. t.shown ≡ shown_in (take t.place (executed applied [] site.now.forms))) }
{
    site.known();
    let book = site.book();
    book.known();
    let later = book.len() - from;
    if later != 1 {
        return None;
    }
    match book.op(from) {
        Some(op) => match site.executed(from) {
            Some(form) => touched_at(book, site.cells(), op, form.at()),
            None => None,
        },
        None => None,
    }
}

// The cell at a place, if it is the only one that the operation touched.
fn touched_at<'a>(book: &Book, cells: &'a Cells, op: &Op, place: u32) -> Option<Touched<'a>>
    requires replayed { IsReplayed book.now.ops cells.now.cells }
    requires there { Contains book.now.ops (data_of op.now) }
    ensures touched { IfSome result (λ t. AreWith (IsBearer cells.now.cells (name_touched (data_of op.now))) [] (t.place ∷ [])) }
    ensures cell { IfSome result (λ t. slice_get cells.now.cells t.place ≡ Some t.cell) }
    ensures shown { IfSome result (λ t. t.shown ≡ shown_in (take t.place cells.now.cells)) }
{
    book.known();
    if cells.len() <= place {
        return None;
    }
    let (cell, shown) = look(cells, place);
    if is_only_of(op, &cell) {
        Some(Touched { place, cell, shown })
    } else {
        None
    }
}

// Whether the cell is the only one that the operation touched: that of an insert of one character, or the one that a delete hit.
fn is_only_of(op: &Op, cell: &Cell<'_>) -> bool
    ensures { IsTrue result → IsOnlyOf (data_of op.now) cell.now }
{
    match op {
        Op::Insert { name, text, .. } => text.len() == 1 && cell.id().name == *name,
        Op::Delete { name, .. } => is_deleted_by(cell, name),
        Op::Undo { .. } => false,
    }
}
