//! Laws of flat histories: each says what its definitions give, and does nothing.

ghost use Rattle.flat_history.specs.Laws.{CheckpointsAreValid, HistoriesHaveCheckpoints, FlatIsAlike, FlatExtends};

/// A checkpoint is opened as a valid history.
pub fn checkpoints_are_valid()
    ensures { CheckpointsAreValid }
{}

/// A valid history has a checkpoint, if it has at most 4,294,967,295 cells: a place counts no more.
pub fn histories_have_checkpoints()
    ensures { HistoriesHaveCheckpoints }
{}

/// The flat history of a valid one is valid, has its members, and shows the same.
pub fn flat_is_alike()
    ensures { FlatIsAlike }
{}

/// Operations that are new, and whose originals know all of a history, may follow it exactly if they may follow
/// its flat one. Then both show the same, and any further operation of that kind gets one verdict.
pub fn flat_extends()
    ensures { FlatExtends }
{}
