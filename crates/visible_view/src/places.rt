//! Positions among the shown characters, and the places of their cells.

ghost use Rattle.std.specs.Prelude.{◌≡◌, ℕ, suc, ◌<◌, ◌≤◌, ◌↔◌, length, take, slice_get, slice_index_or, IsSome, IfSome};
ghost use Rattle.ttf_form.specs.Cells.{CellData, cell_shown};
ghost use Rattle.visible_view.specs.View.{shown_cells, shown_places, places_after};

use lane_rank::{prefix_ones, select};
use tombstone_text::Cells;

/// The number of shown cells. It is kept with the cells and not counted.
pub fn visible_len(cells: &Cells) -> u32
    ensures { result ≡ length (shown_cells cells.now.cells) }
{
    cells.shown_len()
}

/// The place, among all cells, of the `v`-th shown cell, counted from 0; None exactly where `v` isn't below
/// `visible_len`. The chunk of the cell is found by the kept numbers of shown cells, and its place there by the
/// flags of that chunk, so that no other cell is looked at.
pub fn cell_of_visible(cells: &Cells, v: u32) -> Option<u32>
    ensures place { result ≡ slice_get (shown_places cells.now.cells) v }
    ensures cell { IfSome result (λ p. slice_get cells.now.cells p ≡ slice_get (shown_cells cells.now.cells) v) }
    ensures found { IsSome result ↔ (v < length (shown_cells cells.now.cells)) }
{
    place_of_visible(cells, v)
}

/// The place, among all cells, for a text that is to come after `v` shown ones: 0 for `v` = 0, else
/// one past the place of the shown cell `v` - 1; None exactly where `v` is above `visible_len`. It costs what
/// `cell_of_visible` costs.
pub fn model_place(cells: &Cells, v: u32) -> Option<u32>
    ensures place { result ≡ slice_get (places_after (shown_places cells.now.cells)) v }
    ensures within { IfSome result (λ p. p ≤ length cells.now.cells) }
    ensures found { IsSome result ↔ (v ≤ length (shown_cells cells.now.cells)) }
{
    if v == 0 {
        return Some(0);
    }
    cells.known();
    match cell_of_visible(cells, v - 1) {
        Some(place) => Some(place + 1),
        None => None,
    }
}

/// How many shown cells stand before a place, which counts all cells and may be their end. The chunk of the place is found by the kept
/// numbers of cells, and the shown ones of the chunks before it by those of shown cells, so that only the flags of that chunk are
/// looked at.
pub fn visible_before(cells: &Cells, place: u32) -> u32
    requires { place ≤ length cells.now.cells }
    ensures { result ≡ length (shown_cells (take place cells.now.cells)) }
{
    if place < cells.len() {
        shown_before_cell(cells, place)
    } else {
        cells.shown_len()
    }
}

/// The place of the `v`-th shown cell, if there is one.
fn place_of_visible(cells: &Cells, v: u32) -> Option<u32>
    ensures { result ≡ slice_get (shown_places cells.now.cells) v }
{
    if v < cells.shown_len() {
        Some(place_of_shown(cells, v))
    } else {
        None
    }
}

/// The place of the `v`-th shown cell, which there is.
fn place_of_shown(cells: &Cells, v: u32) -> u32
    requires { v < length (shown_cells cells.now.cells) }
    ensures { slice_get (shown_places cells.now.cells) v ≡ Some result }
{
    cells.known();
    let (i, before) = cells.shown_chunk(v);
    let start = cells.chunk_start(i);
    match select(cells.chunk_flags(i), before) {
        Some(at) => start + at,
        None => unreachable!(),
    }
}

/// How many shown cells stand before the cell at a place.
fn shown_before_cell(cells: &Cells, place: u32) -> u32
    requires { place < length cells.now.cells }
    ensures { result ≡ length (shown_cells (take place cells.now.cells)) }
{
    cells.known();
    let (i, at) = cells.place_chunk(place);
    cells.shown_start(i) + prefix_ones(cells.chunk_flags(i), at)
}
