//! Changes that are told of cells, from left to right.

ghost use Rattle.std.specs.Prelude.{◌≡◌, ◌+◌, ◌<◌, [], ◌∷◌, Some, All, drop, length, take, slice_get, OnOk, IfOk};
ghost use Rattle.std.specs.List.Sorted.{IsStrictlyIncreasing};
ghost use Rattle.tombstone_text.specs.Chunks.{flat, shown_in};
ghost use Rattle.change_list.specs.Told.{told, HasRoom};
ghost use Rattle.site_changes.specs.Code.Marks.{mark_of, marks_of, IsQuietBut, TellsOneMore};

use crate::earlier::Earlier;
use change_list::{Change, tell};
use op_name::Memory;
use std::alloc::Global;
use tombstone_text::{Cell, Cells, ChunkCells};
use touched_cells::{Touched, look};

/// The changes of all cells since the set.
pub(crate) fn all_changes(
    alloc: Global,
    cells: &Cells,
    at: &Earlier<'_>,
) -> Result<Vec<Change>, Memory>
    ensures { IfOk result (λ cs. cs.items ≡ told (marks_of at.now cells.now.cells)) }
{
    cells.known();
    let mut changes = Vec::new(alloc);
    let mut place = 0;
    for i in 0..cells.chunk_count() {
        tell_chunk(cells, i, at, place, &mut changes)?;
        place += cells.chunk_shown(i);
    }
    Ok(changes)
}

/// The changes of all cells since the set, where each cell that stands at none of the places was shown exactly if it is shown. Only the cells at
/// the places are looked at.
pub(crate) fn changes_at(
    alloc: Global,
    cells: &Cells,
    at: &Earlier<'_>,
    places: &[u32],
) -> Result<Vec<Change>, Memory>
    requires rising { IsStrictlyIncreasing places.now }
    requires within { All (λ p. p < length cells.now.cells) places.now }
    requires quiet { IsQuietBut at.now cells.now.cells places.now }
    ensures { IfOk result (λ cs. cs.items ≡ told (marks_of at.now cells.now.cells)) }
{
    cells.known();
    let mut changes = Vec::new(alloc);
    for place in places {
        let (cell, shown) = look(cells, *place);
        tell_cell(&cell, at, shown, &mut changes)?;
    }
    Ok(changes)
}

/// The changes of all cells since the set, where each cell but this one was shown exactly if it is shown.
pub(crate) fn change_of(
    alloc: Global,
    cells: &Cells,
    at: &Earlier<'_>,
    touched: &Touched<'_>,
) -> Result<Vec<Change>, Memory>
    requires quiet { IsQuietBut at.now cells.now.cells (touched.now.place ∷ []) }
    requires there { slice_get cells.now.cells touched.now.place ≡ Some touched.now.cell }
    requires front { touched.now.shown ≡ shown_in (take touched.now.place cells.now.cells) }
    ensures { IfOk result (λ cs. cs.items ≡ told (marks_of at.now cells.now.cells)) }
{
    cells.known();
    let mut changes = Vec::new(alloc);
    tell_cell(&touched.cell, at, touched.shown, &mut changes)?;
    Ok(changes)
}

// Tells the cells of a chunk, where those of the chunks in front of it were told, of which so many are shown.
fn tell_chunk(
    cells: &Cells,
    chunk: u32,
    at: &Earlier<'_>,
    front: u32,
    changes: &mut Vec<Change>,
) -> Result<(), Memory>
    requires there { chunk < length cells.now.chunks }
    requires front { front ≡ shown_in (flat (take chunk cells.now.chunks)) }
    requires told { changes.old.items ≡ told (marks_of at.now (flat (take chunk cells.now.chunks))) }
    ensures { OnOk result (changes.new.items ≡ told (marks_of at.now (flat (take (chunk + 1) cells.now.chunks)))) }
{
    cells.known();
    let flags = cells.chunk_flags(chunk);
    let mut left = cells.chunk_cells(chunk);
    let mut place = front;
    for i in 0..flags.len() {
        tell_cell(&next_cell(&mut left), at, place, changes)?;
        place += u32::from(flags[i]);
    }
    Ok(())
}

// Takes the first cell that is left, where one is.
fn next_cell<'a>(left: &mut ChunkCells<'a>) -> Cell<'a>
    requires { 0 < length left.old }
    ensures first { slice_get left.old 0 ≡ Some result }
    ensures rest { left.new ≡ drop 1 left.old }
{
    match left.next() {
        Some(cell) => cell,
        None => unreachable!(),
    }
}

// Tells a cell, in front of which so many are shown: only where it was shown and isn't, or is and wasn't.
fn tell_cell(
    cell: &Cell<'_>,
    at: &Earlier<'_>,
    place: u32,
    changes: &mut Vec<Change>,
) -> Result<(), Memory>
    requires { HasRoom place changes.old.items }
    ensures { OnOk result (TellsOneMore place (mark_of at.now cell.now) changes.old.items changes.new.items) }
{
    let shown = cell.shown();
    if at.showed(cell) == shown {
        return Ok(());
    }
    tell(changes, place, shown)
}
