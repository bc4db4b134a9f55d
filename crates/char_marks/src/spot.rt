//! Where a cell stands.

ghost use Rattle.std.specs.Prelude.{◌≡◌, Some, IsTrue, slice_get};
ghost use Rattle.context_diff.specs.Replays.{replay_of};
ghost use Rattle.ttf_form.specs.Cells.{cells_of};
ghost use Rattle.ttf_form.specs.Families.{IsIn};
ghost use Rattle.fixed_replay.specs.Replayed.{IsReplayed};
ghost use Rattle.char_marks.specs.Code.Cells.{cell_at};

use cot_site::Site;
use op_name::Member;
use tombstone_text::{CellId, Cells};
use ttf_form::Form;

/// A cell, and its place among all cells.
#[derive(Clone, Copy, Debug)]
pub(crate) struct Spot {
    pub(crate) id: CellId,
    pub(crate) at: u32,
}

/// The place, among all cells of the site, of a cell of its history. It costs what `Site::moved` costs from the insert of the cell on.
pub(crate) fn place_of_cell(site: &Site, cells: &Cells, id: &CellId) -> u32
    requires replayed { IsReplayed site.now.history cells.now.cells }
    requires there { IsIn (cell_at id.now) (replay_of site.now.history) }
    ensures { slice_get (cells_of cells.now.cells) result ≡ Some (cell_at id.now) }
{
    let place = guessed(site, id);
    if stands_at(cells, place, id) {
        return place;
    }
    match cells.place_of(id) {
        Some(sought) => sought,
        None => unreachable!(),
    }
}

// Where the executed forms say that the cell stands. No clause says so: whoever calls it looks.
fn guessed(site: &Site, id: &CellId) -> u32 {
    let book = site.book();
    book.known();
    match book.place_of(&Member::Original(id.name)) {
        Some(index) => followed(site, index as u32, id.offset),
        None => 0,
    }
}

// Where a cell came to stand: it was put at its offset behind the place of the executed insert, and each insert that was executed since
// moved it on by its cells, where it is in front of the cell.
fn followed(site: &Site, index: u32, offset: u16) -> u32 {
    match site.executed(index) {
        Some(Form::Ins(ins)) => site.moved(
            ins.place.saturating_add(u32::from(offset)),
            index.saturating_add(1),
        ),
        _ => 0,
    }
}

// Whether the cell at the place is that one.
fn stands_at(cells: &Cells, place: u32, id: &CellId) -> bool
    ensures { IsTrue result → slice_get (cells_of cells.now.cells) place ≡ Some (cell_at id.now) }
{
    match cells.cell(place) {
        Some(cell) => cell.id() == *id,
        None => false,
    }
}
