//! Cells that are sought from a place on.

ghost use Rattle.std.specs.Prelude.{◌≡◌, ◌<◌, ◌≤◌, ◌↔◌, ◌++◌, ◌∷◌, [], IfOk, IfSome, IsTrue, OnOk, length};
ghost use Rattle.std.specs.List.{list_any};
ghost use Rattle.op_name.specs.NameData.{name_eq};
ghost use Rattle.ttf_form.specs.Cells.{cells_of};
ghost use Rattle.touched_cells.specs.Touched.{IsDeletedBy};
ghost use Rattle.touched_cells.specs.Code.Seeking.{AreWith, AtMostOne, IsDeletedAt, IsOneOf, StandsAt, StandOnce};

use crate::looking::cell_at;
use op_name::{Memory, Name};
use tombstone_text::{Cell, Cells};

/// Adds the places of the first cells of an insert, so many of them, each of which is sought behind the one before it, from a place on
/// and up to another one; false where one isn't found.
pub(crate) fn add_insert(
    cells: &Cells,
    name: &Name,
    count: u16,
    from: u32,
    to: u32,
    places: &mut Vec<u32>,
) -> Result<bool, Memory>
    requires { StandOnce (cells_of cells.now.cells) }
    ensures { IfOk result (λ all. IsTrue all
        → AreWith (IsOneOf (cells_of cells.now.cells) name.now count) places.old.items places.new.items) }
{
    let mut next = from;
    for offset in 0..count {
        match find_cell(cells, name, offset, next, to) {
            Some(place) => {
                add_place(places, place)?;
                next = place + 1;
            }
            None => return Ok(false),
        }
    }
    Ok(true)
}

// The first place from one on and before another one at which the cell of this name and offset stands.
fn find_cell(cells: &Cells, name: &Name, offset: u16, from: u32, to: u32) -> Option<u32>
    ensures stands { IfSome result (StandsAt (cells_of cells.now.cells) (name.now, offset)) }
    ensures before { IfSome result (λ place. place < to) }
{
    for place in from..to {
        if stands_at(cells, name, offset, place) {
            return Some(place);
        }
    }
    None
}

// Whether the cell of this name and offset stands at the place.
fn stands_at(cells: &Cells, name: &Name, offset: u16, place: u32) -> bool
    ensures { IsTrue result ↔ StandsAt (cells_of cells.now.cells) (name.now, offset) place }
{
    match cell_at(cells, place) {
        Some(cell) => cell.id().name == *name && cell.id().offset == offset,
        None => false,
    }
}

/// Adds the place of the cell that the delete hit, if it is this one; else false.
pub(crate) fn add_deleted(
    cells: &Cells,
    name: &Name,
    place: u32,
    places: &mut Vec<u32>,
) -> Result<bool, Memory>
    requires { AtMostOne (IsDeletedAt cells.now.cells name.now) }
    ensures { IfOk result (λ all. IsTrue all → AreWith (IsDeletedAt cells.now.cells name.now) places.old.items places.new.items) }
{
    if !is_deleted_at(cells, name, place) {
        return Ok(false);
    }
    add_place(places, place)?;
    Ok(true)
}

// Whether the delete hit the cell at the place.
fn is_deleted_at(cells: &Cells, name: &Name, place: u32) -> bool
    ensures { IsTrue result ↔ IsDeletedAt cells.now.cells name.now place }
{
    match cell_at(cells, place) {
        Some(cell) => is_deleted_by(&cell, name),
        None => false,
    }
}

/// Whether the delete hit the cell.
pub(crate) fn is_deleted_by(cell: &Cell<'_>, name: &Name) -> bool
    ensures { IsTrue result ↔ IsDeletedBy cell.now name.now }
{
    is_among(cell.deleters(), name)
}

// Whether the name is one of these deletes.
fn is_among(deleters: &[(Name, u16)], name: &Name) -> bool
    ensures { result ≡ list_any (λ e. name_eq e.0 name.now) deleters.now }
{
    deleters.iter().any(|e| e.0 == *name)
}

// Adds one place.
fn add_place(places: &mut Vec<u32>, place: u32) -> Result<(), Memory>
    ensures { OnOk result (places.new.items ≡ places.old.items ++ place ∷ []) }
{
    places.push(place)?;
    Ok(())
}
