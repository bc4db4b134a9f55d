//! Places among the shown characters of cells, by what those in front of them weigh.

ghost use Rattle.std.specs.Prelude.{◌≡◌, ◌<◌, ◌≤◌, length, filter, take, MatchOption};
ghost use Rattle.ttf_form.specs.Cells.{cell_shown};
ghost use Rattle.tombstone_text.specs.Measures.{weight_of};
ghost use Rattle.text_positions.specs.Offsets.{offset_at, HasNoPlace, IsFirstPlace};
ghost use Rattle.text_positions.specs.Code.{characters_in};

use crate::characters::{find, weigh_first};
use tombstone_text::{Cells, Measure};

/// What the first `v` shown characters weigh. None exactly where fewer are shown.
pub(crate) fn offset(cells: &Cells, measure: Measure, v: u32) -> Option<u64>
    ensures { result ≡ offset_at measure (characters_in cells.now) v }
{
    cells.known();
    let shown = cells.shown_len();
    if v < shown {
        Some(offset_within(cells, measure, v))
    } else if v == shown {
        Some(cells.weight(measure))
    } else {
        None
    }
}

// What they weigh, where more are shown: those of the chunks in front of the v-th one's, and the first ones of its chunk.
fn offset_within(cells: &Cells, measure: Measure, v: u32) -> u64
    requires { v < length (filter cell_shown cells.now.cells) }
    ensures { result ≡ weight_of measure (take v (characters_in cells.now)) }
{
    cells.known();
    let (i, before) = cells.shown_chunk(v);
    let front = cells.weight_start(measure, i);
    front + weigh_first(cells.chunk_flags(i), cells.chunk_text(i), measure, before)
}

/// The first place with this offset. None exactly where no place has it.
pub(crate) fn first_place(cells: &Cells, measure: Measure, offset: u64) -> Option<u32>
    ensures { let cs = characters_in cells.now in
        MatchOption result (HasNoPlace measure cs offset) (IsFirstPlace measure cs offset) }
{
    if offset == 0 {
        return Some(0);
    }
    if offset > cells.weight(measure) {
        return None;
    }
    place_within(cells, measure, offset)
}

// The same of an offset within the text: the last unit in front of the place lies in a chunk, by whose characters it is found.
fn place_within(cells: &Cells, measure: Measure, offset: u64) -> Option<u32>
    requires some { 0 < offset }
    requires within { offset ≤ weight_of measure (characters_in cells.now) }
    ensures { let cs = characters_in cells.now in
        MatchOption result (HasNoPlace measure cs offset) (IsFirstPlace measure cs offset) }
{
    cells.known();
    let (i, before) = cells.weight_chunk(measure, offset - 1);
    let count = find(
        cells.chunk_flags(i),
        cells.chunk_text(i),
        measure,
        u64::from(before) + 1,
    )?;
    Some(cells.shown_start(i) + count)
}
