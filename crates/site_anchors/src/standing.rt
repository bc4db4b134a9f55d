//! Where a cell stands among all cells of a site.

ghost use Rattle.std.specs.Prelude.{◌≡◌, ◌<◌, ◌↔◌, true, Some, IsSome, IfSome, IsTrue, slice_get};
ghost use Rattle.std.specs.Option.{option_map_or};
ghost use Rattle.context_diff.specs.Operations.{cells_put};
ghost use Rattle.ttf_form.specs.Cells.{cells_of};
ghost use Rattle.fixed_replay.specs.Replayed.{IsReplayed};
ghost use Rattle.site_anchors.specs.Anchors.{cell_at, has_cell};

use context_diff::Book;
use cot_site::Site;
use op_name::Member;
use tombstone_text::{CellId, Cells};
use ttf_form::Form;

/// The place, among all cells of the site, of the cell with that name and offset; None exactly where its history hasn't the cell. If it
/// was seen at a place, and stands there, it isn't sought.
pub(crate) fn cell_place(site: &Site, cells: &Cells, id: &CellId, seen: Option<u32>) -> Option<u32>
    requires { IsReplayed site.now.history cells.now.cells }
    ensures there { IfSome result (λ p. slice_get (cells_of cells.now.cells) p ≡ Some (cell_at id.now)) }
    ensures some { IsSome result ↔ (has_cell site.now.history (cell_at id.now) ≡ true) }
{
    if let Some(at) = seen {
        if stands_at(cells, at, id) {
            site.known();
            return Some(at);
        }
    }
    sought_place(site, cells, id)
}

// The same, of a cell that was seen nowhere.
fn sought_place(site: &Site, cells: &Cells, id: &CellId) -> Option<u32>
    requires { IsReplayed site.now.history cells.now.cells }
    ensures there { IfSome result (λ p. slice_get (cells_of cells.now.cells) p ≡ Some (cell_at id.now)) }
    ensures some { IsSome result ↔ (has_cell site.now.history (cell_at id.now) ≡ true) }
{
    match insert_of(site.book(), id) {
        Some(index) => Some(place_since(site, cells, id, index)),
        None => None,
    }
}

// The place of a cell that the history has, of which the operation at an index may be the insert. The place that the executed forms
// tell is taken only where the cell stands there. That it always does no law here says; else all cells are looked at, one by one.
fn place_since(site: &Site, cells: &Cells, id: &CellId, index: u32) -> u32
    requires replayed { IsReplayed site.now.history cells.now.cells }
    requires has { has_cell site.now.history (cell_at id.now) ≡ true }
    ensures { slice_get (cells_of cells.now.cells) result ≡ Some (cell_at id.now) }
{
    site.known();
    let place = followed(site, index, id.offset);
    if stands_at(cells, place, id) {
        return place;
    }
    match cells.place_of(id) {
        Some(sought) => sought,
        None => unreachable!(),
    }
}

// Which operation of the book, counted from 0, is the insert that puts the cell; None exactly where the book has none.
fn insert_of(book: &Book, id: &CellId) -> Option<u32>
    ensures { IsSome result ↔ (has_cell book.now.ops (cell_at id.now) ≡ true) }
{
    book.known();
    match book.place_of(&Member::Original(id.name)) {
        Some(place) => {
            let index = place as u32;
            if brings(book, index, id.offset) {
                Some(index)
            } else {
                None
            }
        }
        None => None,
    }
}

// Whether the operation at an index puts a cell of this offset.
fn brings(book: &Book, index: u32, offset: u16) -> bool
    ensures { IsTrue result ↔ (offset < option_map_or cells_put (slice_get book.now.ops index) 0) }
{
    match book.op(index) {
        Some(op) => u32::from(offset) < op.cells(),
        None => false,
    }
}

// Where a cell came to stand: it was put at its offset behind the place of the executed insert, and each insert that was executed since
// moved it on by its cells, where it is in front of the cell. No clause says so: whoever calls it looks whether the cell stands there.
fn followed(site: &Site, index: u32, offset: u16) -> u32 {
    match site.executed(index) {
        Some(Form::Ins(ins)) => site.moved(
            ins.place.saturating_add(u32::from(offset)),
            index.saturating_add(1),
        ),
        _ => 0,
    }
}

// Whether the cell at the place is that one.
fn stands_at(cells: &Cells, place: u32, id: &CellId) -> bool
    ensures { IsTrue result → slice_get (cells_of cells.now.cells) place ≡ Some (cell_at id.now) }
{
    match cells.cell(place) {
        Some(cell) => cell.id() == *id,
        None => false,
    }
}
