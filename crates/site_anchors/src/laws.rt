//! The law that stands beside anchors.

ghost use Rattle.site_anchors.specs.Laws.{EachCellStandsOnce};

/// A valid history has each cell of its inserts once in its replay, and no other cell: so an anchor is beside one cell at most. It does
/// nothing.
pub fn each_cell_stands_once()
    ensures { EachCellStandsOnce }
{}
