//! The places of cells: the interval into which an insert goes, and the replay of all inserts.

ghost use Rattle.std.specs.Prelude.{◌≡◌, ◌≤◌, IfOk, OnOk, [], length, map};
ghost use Rattle.std.specs.List.{insert, list_any};
ghost use Rattle.ttf_form.specs.Cells.{put_in};
ghost use Rattle.context_diff.specs.Replays.{first_of, last_of, cells_from, narrowed_by, gap_of, replay};
ghost use Rattle.context_diff.specs.Code.GapEnds.{up_to_nth, before_first, up_to_last, gap_between};
ghost use Rattle.fixed_replay.specs.Code.PlainCells.{insertion_of, sees};

use super::cells::CellName;
use super::order::Inserted;
use op_name::Memory;
use std::alloc::Global;

/// An interval of a list of cells: what stands between two places, of which the first is not the greater.
#[derive(Clone, Copy)]
struct Stretch {
    left: usize,
    right: usize,
}

/// The cells of the inserts, put one after the other.
pub fn replay(alloc: Global, order: &[Inserted]) -> Result<Vec<CellName>, Memory>
    ensures { IfOk result (λ cells. cells.items ≡ replay [] [] (map insertion_of order.now)) }
{
    let mut cells = Vec::new(alloc);
    for i in 0..order.len() {
        let inserted = &order[i];
        let stretch = stretch_of(inserted, &order[..i], cells.as_slice());
        put_cells(&mut cells, stretch.right, inserted)?;
    }
    Ok(cells)
}

// Puts the cells of the insert, in the order of their offsets, the first of them at the place: from the last one on, each before
// those behind it.
fn put_cells(cells: &mut Vec<CellName>, place: usize, inserted: &Inserted) -> Result<(), Memory>
    requires { place ≤ length cells.old.items }
    ensures { OnOk result (cells.new.items ≡ put_in place (cells_from (insertion_of inserted.now)) cells.old.items) }
{
    for offset in (0..inserted.len()).rev() {
        put_at(cells, place, CellName::new(inserted.name(), offset))?;
    }
    Ok(())
}

fn put_at(cells: &mut Vec<CellName>, place: usize, cell: CellName) -> Result<(), Memory>
    requires { place ≤ length cells.old.items }
    ensures { OnOk result (cells.new.items ≡ insert cells.old.items place cell) }
{
    match cells.insert(place, cell) {
        Ok(()) => Ok(()),
        Err(_) => Err(Memory),
    }
}

// Where the insert goes: between its two neighbours among the cells that it knows, and on the right side of
// each earlier insert that it doesn't know.
fn stretch_of(inserted: &Inserted, earlier: &[Inserted], cells: &[CellName]) -> Stretch
    ensures stretch { gap_of (insertion_of inserted.now) (map insertion_of earlier.now) cells.now
        ≡ gap_between cells.now result.left result.right }
    ensures rising { result.left ≤ result.right }
    ensures within { result.right ≤ length cells.now }
{
    let left = left_neighbour(inserted, cells);
    let right = left + first_known(inserted, &cells[left..]);
    let mut stretch = Stretch { left, right };
    for other in earlier {
        stretch = narrowed_by(inserted, other, stretch, cells);
    }
    stretch
}

// How many cells stand up to and with the left neighbour, the one at the insert's place among those that it
// knows, counted from 1; all where it knows fewer.
fn left_neighbour(inserted: &Inserted, cells: &[CellName]) -> usize
    ensures place { result ≡ up_to_nth (sees inserted.now) inserted.now.place cells.now }
    ensures within { result ≤ length cells.now }
{
    let mut more = inserted.place();
    for i in 0..cells.len() {
        if more == 0 {
            return i;
        }
        if inserted.sees(&cells[i]) {
            more -= 1;
        }
    }
    cells.len()
}

// How many cells stand before the first that the insert knows; all where it knows none.
fn first_known(inserted: &Inserted, cells: &[CellName]) -> usize
    ensures place { result ≡ before_first (sees inserted.now) cells.now }
    ensures within { result ≤ length cells.now }
{
    for i in 0..cells.len() {
        if inserted.sees(&cells[i]) {
            return i;
        }
    }
    cells.len()
}

// The part of the interval on the insert's side of another, which it doesn't know: of the two, that of the smaller
// site stands in front. All of the interval where the first cell of the other doesn't lie in it.
fn narrowed_by(
    inserted: &Inserted,
    other: &Inserted,
    stretch: Stretch,
    cells: &[CellName],
) -> Stretch
    requires rising { stretch.left ≤ stretch.right }
    requires within { stretch.right ≤ length cells.now }
    ensures stretch { narrowed_by (insertion_of inserted.now) (insertion_of other.now) (gap_between cells.now stretch.left stretch.right)
        ≡ gap_between cells.now result.left result.right }
    ensures rising { result.left ≤ result.right }
    ensures within { result.right ≤ length cells.now }
{
    if inserted.knows(other) {
        return stretch;
    }
    let Stretch { left, right } = stretch;
    let between = &cells[left..right];
    if !has_first(other, between) {
        return stretch;
    }
    if inserted.goes_after(other) {
        Stretch {
            left: left + past_last(other, between),
            right,
        }
    } else {
        Stretch {
            left,
            right: left + before_first(other, between),
        }
    }
}

// Whether the insert's first cell is among these.
fn has_first(inserted: &Inserted, cells: &[CellName]) -> bool
    ensures { result ≡ list_any (first_of inserted.now.name) cells.now }
{
    for cell in cells {
        if inserted.is_first(cell) {
            return true;
        }
    }
    false
}

// How many cells stand up to and with the insert's last one; none where it isn't there.
fn past_last(inserted: &Inserted, cells: &[CellName]) -> usize
    ensures place { result ≡ up_to_last (last_of (insertion_of inserted.now)) cells.now }
    ensures within { result ≤ length cells.now }
{
    let mut past = 0;
    for i in 0..cells.len() {
        if inserted.is_last(&cells[i]) {
            past = i + 1;
        }
    }
    past
}

// How many cells stand before the insert's first one; all where it isn't there.
fn before_first(inserted: &Inserted, cells: &[CellName]) -> usize
    ensures place { result ≡ before_first (first_of inserted.now.name) cells.now }
    ensures within { result ≤ length cells.now }
{
    for i in 0..cells.len() {
        if inserted.is_first(&cells[i]) {
            return i;
        }
    }
    cells.len()
}
