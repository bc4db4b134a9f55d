//! Laws of histories: each says what its definitions give, and does nothing.

ghost use Rattle.context_diff.specs.Differences.{LastMayBeTakenOut, TwoMayBeTakenOut, DifferenceIsReady};

/// The last member of a difference of closed contexts, in the history's order, may be taken out of the
/// greater one: what is left is closed, and has the smaller one.
pub fn last_may_be_taken_out()
    ensures { LastMayBeTakenOut }
{}

/// Two members of a context, each of which may be taken out alone, are unrelated, and may be taken out one
/// after the other, in either order.
pub fn two_may_be_taken_out()
    ensures { TwoMayBeTakenOut }
{}

/// A difference up to a closed context, in the history's order, may be added one member after the other: the
/// base context of each lies in the smaller context with the members before it.
pub fn difference_is_ready()
    ensures { DifferenceIsReady }
{}
