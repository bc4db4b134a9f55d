//! The law that stands beside lines and columns.

ghost use Rattle.past_view.specs.Laws.{OnePlace};

/// A line and a column have at most one place, and a place has at most one line and column: each is found by the other. It does
/// nothing.
pub fn one_place()
    ensures { OnePlace }
{}
