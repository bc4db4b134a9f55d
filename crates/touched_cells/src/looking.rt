//! The cell at a place, and how many shown ones stand in front of it.

ghost use Rattle.std.specs.Prelude.{◌≡◌, ◌+◌, ◌<◌, ◌≤◌, ◌^◌, [], Some, length, map, take, slice_get, slice_index_or};
ghost use Rattle.lane_rank.specs.Ones.{ones_of};
ghost use Rattle.tombstone_text.specs.Chunks.{flat, flag_of, shown_in};
ghost use Rattle.tombstone_text.specs.Sums.{IsPart};

use lane_rank::{ones, prefix_ones};
use tombstone_text::{Cell, Cells};

/// The cell at a place, which is there, and how many shown cells stand in front of it. Its chunk is sought by the kept numbers of cells,
/// and the shown ones of the chunks in front are added up, but in the last chunk, where whoever types at the end of a text is, neither is
/// done. Of the flags of that chunk, those in front of the place are counted or those behind, whichever are fewer.
pub fn look(cells: &Cells, place: u32) -> (Cell<'_>, u32)
    requires { place < length cells.now.cells }
    ensures cell { slice_get cells.now.cells place ≡ Some result.0 }
    ensures shown { result.1 ≡ shown_in (take place cells.now.cells) }
{
    cells.known();
    let (chunk, at) = place_chunk(cells, place);
    let shown = shown_before(cells, chunk, at);
    match cells.chunk_cell(chunk, at as usize) {
        Some(cell) => (cell, shown),
        None => unreachable!(),
    }
}

/// The cell at a place; None exactly past the end.
pub(crate) fn cell_at(cells: &Cells, place: u32) -> Option<Cell<'_>>
    ensures { result ≡ slice_get cells.now.cells place }
{
    cells.known();
    if place < cells.len() {
        let (chunk, at) = place_chunk(cells, place);
        cells.chunk_cell(chunk, at as usize)
    } else {
        None
    }
}

// The chunk in which the cell at a place stands, and how many cells of that chunk come before it. The last chunk is tried first.
fn place_chunk(cells: &Cells, place: u32) -> (u32, u32)
    requires { place < length cells.now.cells }
    ensures { IsPart (map length cells.now.chunks) result.0 result.1 place }
{
    cells.known();
    let last = cells.chunk_count() - 1;
    let start = cells.len() - cells.chunk_flags(last).len() as u32;
    if start <= place {
        (last, place - start)
    } else {
        cells.place_chunk(place)
    }
}

// How many shown cells stand in front of the cell at a place of a chunk: those of the chunks in front of it, and those that its flags tell.
fn shown_before(cells: &Cells, chunk: u32, at: u32) -> u32
    requires chunk { chunk < length cells.now.chunks }
    requires at { at < length (slice_index_or cells.now.chunks chunk []) }
    ensures { result ≡ shown_in (flat (take chunk cells.now.chunks)) + ones_of (take at (map flag_of (slice_index_or cells.now.chunks chunk []))) }
{
    cells.known();
    let front = shown_start(cells, chunk);
    front + ones_before(cells.chunk_flags(chunk), cells.chunk_shown(chunk), at)
}

// How many shown cells the chunks in front of one have: in front of the last one, all but its own.
fn shown_start(cells: &Cells, chunk: u32) -> u32
    requires { chunk < length cells.now.chunks }
    ensures { result ≡ shown_in (flat (take chunk cells.now.chunks)) }
{
    cells.known();
    if chunk == cells.chunk_count() - 1 {
        cells.shown_len() - cells.chunk_shown(chunk)
    } else {
        cells.shown_start(chunk)
    }
}

// How many of the flags in front of a place are 1, where so many of all are: those in front of it are counted or those behind, whichever
// are fewer.
fn ones_before(flags: &[u8], all: u32, at: u32) -> u32
    requires within { at ≤ length flags.now }
    requires short { length flags.now < 2 ^ 32 }
    requires all { all ≡ ones_of flags.now }
    ensures { result ≡ ones_of (take at flags.now) }
{
    let behind = &flags[at as usize..];
    if (at as usize) < behind.len() {
        prefix_ones(flags, at)
    } else {
        all - ones(behind)
    }
}
