//! Laws of marks: each says what its definitions give, and does nothing.

ghost use Rattle.char_marks.specs.Laws.{CoveredCellsStay, FitMarksStayFit, NoMarksFit, LastMarkIsLast, NoMarkNoLast, SameOperationsSameValues, SeenCellsAreCounted, AnyOrderIsOne};

/// The cells of a mark, and its closed context, stay what they were when the history grows.
pub fn covered_cells_stay()
    ensures { CoveredCellsStay }
{}

/// So marks that fit a history fit it when it grows, whatever call of the site made it grow.
pub fn fit_marks_stay_fit()
    ensures { FitMarksStayFit }
{}

/// Without marks there is nothing to fit.
pub fn no_marks_fit()
    ensures { NoMarksFit }
{}

/// The last of some marks is the one that none of them comes after, by rank, site and number; there is one unless there is no mark.
pub fn last_mark_is_last()
    ensures last { LastMarkIsLast }
    ensures none { NoMarkNoLast }
{}

/// Histories with the same operations give the same values to each cell, by the same marks and generations.
pub fn same_operations_same_values()
    ensures { SameOperationsSameValues }
{}

/// A context sees as many cells as its inserts put.
pub fn seen_cells_are_counted()
    ensures { SeenCellsAreCounted }
{}

/// From one state all orders of the same marks and undos lead to the same marks and the same generations, if each mark is kept in
/// the end.
pub fn any_order_is_one()
    ensures { AnyOrderIsOne }
{}
