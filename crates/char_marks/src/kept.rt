//! Kept marks by their names.

ghost use Rattle.std.specs.Prelude.{◌≡◌, ◌<◌, Some, None, IfNone, IfSome, length, option_map, slice_get};
ghost use Rattle.char_marks.specs.Marks.{KeptData, AreRising, mark_named};
ghost use Rattle.char_marks.specs.Code.Cells.{cell_at};
ghost use Rattle.char_marks.specs.Code.Kept.{GoesTo, IsWhere, name_at};

use crate::mark::Mark;
use op_name::Name;
use std::marker::Model;
use tombstone_text::CellId;

/// A mark, with the first and the last cell that it covers.
#[derive(Drop)]
pub(crate) struct Kept {
    pub(crate) mark: Mark,
    pub(crate) first: CellId,
    pub(crate) last: CellId,
}

impl Model for Kept {
    ghost use Rattle.char_marks.specs.Marks.{KeptData};

    ghost Value = { KeptData };

    ghost view = { λ k. record { mark = k.mark; first = (k.first.name, k.first.offset); last = (k.last.name, k.last.offset) } };
}

impl Kept {
    /// The mark.
    pub(crate) fn mark(&self) -> &Mark
        ensures { result.now ≡ self.now.mark }
    {
        &self.mark
    }

    /// The first cell that it covers.
    pub(crate) fn first(&self) -> CellId
        ensures { cell_at result ≡ self.now.first }
    {
        self.first
    }

    /// The last cell that it covers.
    pub(crate) fn last(&self) -> CellId
        ensures { cell_at result ≡ self.now.last }
    {
        self.last
    }
}

// The name of the i-th kept mark.
fn name_at(kept: &[Kept], i: usize) -> Name
    requires { i < length kept.now }
    ensures { (d : KeptData) → result ≡ name_at kept.now i d }
{
    let kept = &kept[i];
    kept.mark().name
}

/// Where the mark of the name stands among kept ones, or where it would go: how many have lesser names. Found by bisection.
pub(crate) fn place_by_name(kept: &[Kept], name: &Name) -> usize
    requires { AreRising kept.now }
    ensures { GoesTo kept.now name.now result }
{
    let mut low = 0;
    let mut high = kept.len();
    while low < high {
        let middle = low + (high - low) / 2;
        if name_at(kept, middle).is_before(name) {
            low = middle + 1;
        } else {
            high = middle;
        }
    }
    low
}

/// Where the mark of the name stands; None exactly where none is kept.
pub(crate) fn find(kept: &[Kept], name: &Name) -> Option<usize>
    requires { AreRising kept.now }
    ensures there { IfSome result (IsWhere kept.now name.now) }
    ensures none { IfNone result (mark_named kept.now name.now ≡ None) }
{
    let place = place_by_name(kept, name);
    if place < kept.len() && name_at(kept, place) == *name {
        Some(place)
    } else {
        None
    }
}
