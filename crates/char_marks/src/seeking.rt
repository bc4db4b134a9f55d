//! The end cells of a mark.

ghost use Rattle.std.specs.Prelude.{◌≡◌, ◌+◌, ◌<◌, ◌≤◌, [], length, option_map, slice_get, slice_index_or};
ghost use Rattle.ttf_form.specs.Cells.{cells_of};
ghost use Rattle.char_marks.specs.Covered.{seen_in};
ghost use Rattle.char_marks.specs.Code.Cells.{cell_at, seen_among, IsSought, AreEnds};

use context_vector::Vector;
use cot_site::Site;
use op_name::Member;
use tombstone_text::{CellId, Cells};

/// The first and the last cell of a mark.
#[derive(Clone, Copy, Debug)]
pub(crate) struct Ends {
    pub(crate) first: CellId,
    pub(crate) last: CellId,
}

// A cell that was sought by how many others come before it, or how many more there have to be.
enum Sought {
    Found(CellId),
    Passed(u32),
}

/// The first and the last of the cells from a place on, so many of them, among those that the context has. The text is gone over once for
/// each.
pub(crate) fn ends_of(site: &Site, context: &Vector, place: u32, len: u32) -> Ends
    requires some { 1 ≤ len }
    requires range { place + len < 4294967296 }
    requires within { place + len ≤ length (seen_in site.now.history context.now.set) }
    ensures { AreEnds site.now.history context.now.set place len result }
{
    Ends {
        first: seen_at(site, context, place),
        last: seen_at(site, context, place + (len - 1)),
    }
}

// The n-th cell among those that the context has, of which there are more.
fn seen_at(site: &Site, context: &Vector, n: u32) -> CellId
    requires { n < length (seen_in site.now.history context.now.set) }
    ensures { slice_get (seen_in site.now.history context.now.set) n ≡ Some (cell_at result) }
{
    match nth_seen(site.cells(), context, n) {
        Some(id) => id,
        None => unreachable!(),
    }
}

// The n-th cell among those that the context has, if there is one.
fn nth_seen(cells: &Cells, context: &Vector, n: u32) -> Option<CellId>
    ensures { option_map cell_at result ≡ slice_get (seen_among context.now.set (cells_of cells.now.cells)) n }
{
    cells.known();
    let mut left = n;
    for i in 0..cells.chunk_count() {
        match seek(cells, i, context, left) {
            Sought::Found(id) => return Some(id),
            Sought::Passed(more) => left = more,
        }
    }
    None
}

// The same in a chunk.
fn seek(cells: &Cells, chunk: u32, context: &Vector, n: u32) -> Sought
    requires { chunk < length cells.now.chunks }
    ensures { IsSought context.now.set (cells_of (slice_index_or cells.now.chunks chunk [])) n result }
{
    let mut more = n;
    let mut left = cells.chunk_cells(chunk);
    while let Some(cell) = left.next() {
        let id = cell.id();
        if context.contains(&Member::Original(id.name)) {
            if more == 0 {
                return Sought::Found(id);
            }
            more -= 1;
        }
    }
    Sought::Passed(more)
}
