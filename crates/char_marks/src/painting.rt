//! The values of all cells at once.

ghost use Rattle.std.specs.Prelude.{◌≡◌, ◌<◌, List, Some, None, IfOk, length, map, slice_get, slice_set, slice_index_or};
ghost use Rattle.context_diff.specs.Operations.{OpData};
ghost use Rattle.context_diff.specs.Replays.{Cell, replay_of};
ghost use Rattle.ttf_form.specs.Cells.{cells_of};
ghost use Rattle.fixed_replay.specs.Replayed.{IsReplayed};
ghost use Rattle.char_marks.specs.Covered.{AreFit, IsFit};
ghost use Rattle.char_marks.specs.Values.{values_of};
ghost use Rattle.char_marks.specs.Code.Painting.{AreNone, ArePainted, AreTold, IsPainted, Knows, told};
ghost use Rattle.char_marks.specs.Code.Tops.{top_with};

use crate::kept::Kept;
use crate::marks::Marks;
use crate::reading::{
    Top, colour_in, is_after, is_bold, is_in_force, is_italic, is_of, top_of, value_in,
};
use crate::spot::place_of_cell;
use crate::value::{Kind, Values};
use context_vector::Vector;
use cot_site::Site;
use op_name::{Memory, Name};
use site_anchors::each_cell_stands_once;
use std::alloc::Global;
use tombstone_text::Cells;

impl Marks {
    /// The values of all cells of the site, shown or hidden, in their order: of each what `cell_values` answers. It costs by the cells that
    /// each mark in force covers, and not by all marks for each cell.
    pub fn all_values(&self, alloc: Global, site: &Site) -> Result<Vec<Values>, Memory>
        requires { AreFit site.now.history self.now.kept }
        ensures { IfOk result (λ vs. vs.items ≡ map (values_of site.now.history self.now) (replay_of site.now.history)) }
    {
        values_over(alloc, self.kept.as_slice(), &self.raised, site)
    }
}

// The values of all cells by these marks.
fn values_over(
    alloc: Global,
    marks: &[Kept],
    raised: &Vector,
    site: &Site,
) -> Result<Vec<Values>, Memory>
    requires { AreFit site.now.history marks.now }
    ensures { IfOk result (λ vs. vs.items ≡ map (values_of site.now.history (record { kept = marks.now; raised = raised.now.set.entries }))
        (replay_of site.now.history)) }
{
    let cells = site.cells();
    let weights = painted(alloc, marks, raised, &Kind::Weight, site, cells)?;
    let slopes = painted(alloc, marks, raised, &Kind::Slope, site, cells)?;
    let hues = painted(alloc, marks, raised, &Kind::Hue, site, cells)?;
    combined(
        alloc,
        weights.as_slice(),
        slopes.as_slice(),
        hues.as_slice(),
    )
}

// The values that the last marks of the kinds give, cell by cell.
fn combined(
    alloc: Global,
    weights: &[Option<Top>],
    slopes: &[Option<Top>],
    hues: &[Option<Top>],
) -> Result<Vec<Values>, Memory>
    requires slopes { length slopes.now ≡ length weights.now }
    requires hues { length hues.now ≡ length weights.now }
    ensures { IfOk result (λ vs. AreTold weights.now slopes.now hues.now (length weights.now) vs.items) }
{
    let mut values = Vec::new(alloc);
    for i in 0..weights.len() {
        let told = values_told(&weights[i], &slopes[i], &hues[i]);
        values.push(told)?;
    }
    Ok(values)
}

// The values that the last marks of the kinds give a cell.
fn values_told(weight: &Option<Top>, slope: &Option<Top>, hue: &Option<Top>) -> Values
    ensures { result ≡ told weight.now slope.now hue.now }
{
    Values {
        bold: is_bold(&value_in(weight)),
        italic: is_italic(&value_in(slope)),
        colour: colour_in(&value_in(hue)),
    }
}

// The last mark of the kind for each cell.
fn painted(
    alloc: Global,
    marks: &[Kept],
    raised: &Vector,
    kind: &Kind,
    site: &Site,
    cells: &Cells,
) -> Result<Vec<Option<Top>>, Memory>
    requires fit { AreFit site.now.history marks.now }
    requires replayed { IsReplayed site.now.history cells.now.cells }
    ensures { IfOk result (λ ts. ArePainted kind.now site.now.history raised.now.set.entries marks.now ts.items) }
{
    cells.known();
    let mut tops = no_tops(alloc, cells.len())?;
    paint_all(tops.as_mut_slice(), marks, raised, kind, site, cells);
    Ok(tops)
}

// No mark for each of so many cells.
fn no_tops(alloc: Global, count: u32) -> Result<Vec<Option<Top>>, Memory>
    ensures { IfOk result (λ ts. AreNone count ts.items) }
{
    let mut tops = Vec::new(alloc);
    for i in 0..count {
        let _ = i;
        tops.push(None)?;
    }
    Ok(tops)
}

// Lets each mark count for the cells that it covers.
fn paint_all(
    tops: &mut [Option<Top>],
    marks: &[Kept],
    raised: &Vector,
    kind: &Kind,
    site: &Site,
    cells: &Cells,
)
    requires fit { AreFit site.now.history marks.now }
    requires replayed { IsReplayed site.now.history cells.now.cells }
    requires none { AreNone (length cells.now.cells) tops.old }
    ensures { ArePainted kind.now site.now.history raised.now.set.entries marks.now tops.new }
{
    for kept in marks {
        paint(tops, kept, raised, kind, site, cells);
    }
}

// Lets a mark count for each cell that it covers.
fn paint(
    tops: &mut [Option<Top>],
    kept: &Kept,
    raised: &Vector,
    kind: &Kind,
    site: &Site,
    cells: &Cells,
)
    requires fit { IsFit site.now.history kept.now }
    requires replayed { IsReplayed site.now.history cells.now.cells }
    requires long { length tops.old ≡ length cells.now.cells }
    ensures { IsPainted kind.now site.now.history raised.now.set.entries kept.now tops.old tops.new }
{
    site.known();
    cells.known();
    each_cell_stands_once();
    let from = place_of_cell(site, cells, &kept.first());
    let to = place_of_cell(site, cells, &kept.last());
    for i in from..to + 1 {
        paint_cell(tops, i, kept, raised, kind, cells);
    }
}

// Lets a mark count for a cell that it covers if its context has the cell's insert.
fn paint_cell(
    tops: &mut [Option<Top>],
    i: u32,
    kept: &Kept,
    raised: &Vector,
    kind: &Kind,
    cells: &Cells,
)
    requires inside { i < length tops.old }
    requires long { length tops.old ≡ length cells.now.cells }
    ensures { (h : List OpData) (c : Cell) → slice_get (cells_of cells.now.cells) i ≡ Some c → Knows h kept.now c
        → tops.new ≡ slice_set tops.old i (top_with kind.now h raised.now.set.entries c (slice_index_or tops.old i None) kept.now) }
{
    match cells.cell(i) {
        Some(cell) => {
            let name = cell.id().name;
            tops[i as usize] = next_known(tops[i as usize], kept, raised, kind, &name);
        }
        None => unreachable!(),
    }
}

// The last mark so far, with one more that covers a cell if its context has the cell's insert.
fn next_known(
    top: Option<Top>,
    kept: &Kept,
    raised: &Vector,
    kind: &Kind,
    name: &Name,
) -> Option<Top>
    ensures { (h : List OpData) (c : Cell) → c.0 ≡ name.now → Knows h kept.now c
        → result ≡ top_with kind.now h raised.now.set.entries c top kept.now }
{
    let mark = kept.mark();
    if !is_after(&top, mark) {
        return top;
    }
    if !is_of(kind, &mark.value) {
        return top;
    }
    if !is_in_force(raised, &mark.name) {
        return top;
    }
    if mark.knows(name) {
        Some(top_of(mark))
    } else {
        top
    }
}
