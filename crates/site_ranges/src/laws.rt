//! A law of undoers.

ghost use Rattle.site_ranges.specs.Laws.{LastUndoersAreOne};

/// In a valid history at most one site is the last to undo or redo an original: an undo group that two sites made is there once, as the
/// undo or redo that came first.
pub fn last_undoers_are_one()
    ensures { LastUndoersAreOne }
{}
