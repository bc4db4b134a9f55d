//! The values of cells.

ghost use Rattle.std.specs.Prelude.{◌≡◌, ◌&&◌, nat_le, List, Option, option_map, slice_get};
ghost use Rattle.context_diff.specs.Operations.{OpData};
ghost use Rattle.context_diff.specs.Replays.{replay_of};
ghost use Rattle.fixed_replay.specs.Replayed.{IsReplayed};
ghost use Rattle.op_name.specs.NameData.{NameData};
ghost use Rattle.char_marks.specs.Marks.{MarksData};
ghost use Rattle.char_marks.specs.Covered.{AreFit, IsFit, covers_cell};
ghost use Rattle.char_marks.specs.Values.{is_of, is_bold, is_italic, colour_in, is_in_force, value_of, values_of};
ghost use Rattle.char_marks.specs.Code.Cells.{cell_at, Stands};
ghost use Rattle.char_marks.specs.Code.Tops.{is_after, top_of, top_with};

use crate::kept::Kept;
use crate::mark::Mark;
use crate::marks::Marks;
use crate::spot::{Spot, place_of_cell};
use crate::value::{Kind, Value, Values};
use context_vector::Vector;
use cot_site::Site;
use op_name::Name;
use site_anchors::each_cell_stands_once;
use tombstone_text::Cells;

// What is kept of the last mark so far.
#[derive(Clone, Copy, Debug)]
pub(crate) struct Top {
    rank: u32,
    name: Name,
    value: Value,
}

impl Marks {
    /// The values of the i-th cell of the site, shown or hidden, from 0: of each kind that of the last mark, by rank, site and number, that
    /// is in force and covers the cell. None exactly where the site has no more cells. It takes no memory.
    ///
    /// Each kept mark is looked at, and of those that would count the end cells are sought, which costs what `Site::moved` costs.
    pub fn cell_values(&self, site: &Site, i: u32) -> Option<Values>
        requires { AreFit site.now.history self.now.kept }
        ensures { result ≡ option_map (values_of site.now.history self.now) (slice_get (replay_of site.now.history) i) }
    {
        let cells = site.cells();
        match cells.cell(i) {
            Some(cell) => {
                let spot = Spot {
                    id: cell.id(),
                    at: i,
                };
                Some(self.values_at(site, cells, &spot))
            }
            None => None,
        }
    }

    // The values of a cell.
    fn values_at(&self, site: &Site, cells: &Cells, spot: &Spot) -> Values
        requires fit { AreFit site.now.history self.now.kept }
        requires replayed { IsReplayed site.now.history cells.now.cells }
        requires there { Stands site.now.history spot.now }
        ensures { result ≡ values_of site.now.history self.now (cell_at spot.now.id) }
    {
        let marks = self.kept.as_slice();
        let weight = last_value(marks, &self.raised, &Kind::Weight, site, cells, spot);
        let slope = last_value(marks, &self.raised, &Kind::Slope, site, cells, spot);
        let hue = last_value(marks, &self.raised, &Kind::Hue, site, cells, spot);
        Values {
            bold: is_bold(&weight),
            italic: is_italic(&slope),
            colour: colour_in(&hue),
        }
    }
}

// Whether a value says bold.
pub(crate) fn is_bold(value: &Option<Value>) -> bool
    ensures { result ≡ is_bold value.now }
{
    match value {
        Some(Value::Bold(bold)) => *bold,
        _ => false,
    }
}

// Whether it says italic.
pub(crate) fn is_italic(value: &Option<Value>) -> bool
    ensures { result ≡ is_italic value.now }
{
    match value {
        Some(Value::Italic(italic)) => *italic,
        _ => false,
    }
}

// The colour that it says.
pub(crate) fn colour_in(value: &Option<Value>) -> Option<u32>
    ensures { result ≡ colour_in value.now }
{
    match value {
        Some(Value::Colour(colour)) => Some(*colour),
        _ => None,
    }
}

// The value of the kind that the marks give a cell.
fn last_value(
    marks: &[Kept],
    raised: &Vector,
    kind: &Kind,
    site: &Site,
    cells: &Cells,
    spot: &Spot,
) -> Option<Value>
    requires fit { AreFit site.now.history marks.now }
    requires replayed { IsReplayed site.now.history cells.now.cells }
    requires there { Stands site.now.history spot.now }
    ensures { result ≡ value_of kind.now site.now.history (record { kept = marks.now; raised = raised.now.set.entries })
        (cell_at spot.now.id) }
{
    let mut top = None;
    for kept in marks {
        top = next_top(top, kept, raised, kind, site, cells, spot);
    }
    value_in(&top)
}

// The value of the last mark, if there is one.
pub(crate) fn value_in(top: &Option<Top>) -> Option<Value>
    ensures { result ≡ option_map (λ t. t.value) top.now }
{
    match top {
        Some(top) => Some(top.value),
        None => None,
    }
}

// The last mark so far, with one more.
fn next_top(
    top: Option<Top>,
    kept: &Kept,
    raised: &Vector,
    kind: &Kind,
    site: &Site,
    cells: &Cells,
    spot: &Spot,
) -> Option<Top>
    requires fit { IsFit site.now.history kept.now }
    requires replayed { IsReplayed site.now.history cells.now.cells }
    requires there { Stands site.now.history spot.now }
    ensures { result ≡ top_with kind.now site.now.history raised.now.set.entries (cell_at spot.now.id) top kept.now }
{
    let mark = kept.mark();
    if !is_after(&top, mark) {
        return top;
    }
    if !is_of(kind, &mark.value) {
        return top;
    }
    if !is_in_force(raised, &mark.name) {
        return top;
    }
    if covers(kept, site, cells, spot) {
        Some(top_of(mark))
    } else {
        top
    }
}

// What is kept of a mark.
pub(crate) fn top_of(mark: &Mark) -> Top
    ensures { result ≡ top_of mark.now }
{
    Top {
        rank: mark.rank,
        name: mark.name,
        value: mark.value,
    }
}

// Whether a mark comes after the last one so far.
pub(crate) fn is_after(top: &Option<Top>, mark: &Mark) -> bool
    ensures { result ≡ is_after top.now mark.now }
{
    match top {
        Some(top) => {
            top.rank < mark.rank || (top.rank == mark.rank && top.name.is_before(&mark.name))
        }
        None => true,
    }
}

// Whether a value is of the kind.
pub(crate) fn is_of(kind: &Kind, value: &Value) -> bool
    ensures { result ≡ is_of kind.now value.now }
{
    match kind {
        Kind::Weight => matches!(value, Value::Bold(_)),
        Kind::Slope => matches!(value, Value::Italic(_)),
        Kind::Hue => matches!(value, Value::Colour(_)),
    }
}

// Whether the mark of the name is in force.
pub(crate) fn is_in_force(raised: &Vector, name: &Name) -> bool
    ensures { result ≡ is_in_force raised.now.set.entries name.now }
{
    raised.entry(name) % 2 == 0
}

// Whether a kept mark covers a cell: its context has the cell's insert, and the cell stands between its end cells.
fn covers(kept: &Kept, site: &Site, cells: &Cells, spot: &Spot) -> bool
    requires fit { IsFit site.now.history kept.now }
    requires replayed { IsReplayed site.now.history cells.now.cells }
    requires there { Stands site.now.history spot.now }
    ensures { result ≡ covers_cell site.now.history kept.now.mark (cell_at spot.now.id) }
{
    site.known();
    each_cell_stands_once();
    if !kept.mark().knows(&spot.id.name) {
        return false;
    }
    let from = place_of_cell(site, cells, &kept.first());
    let to = place_of_cell(site, cells, &kept.last());
    is_between(from, spot.at, to)
}

// Whether a place is between two others, or one of them.
fn is_between(from: u32, at: u32, to: u32) -> bool
    ensures { result ≡ (nat_le from at && nat_le at to) }
{
    from <= at && at <= to
}
