//! The law of what is told.

ghost use Rattle.change_list.specs.Laws.{ToldAreChanges};

/// Where no element stands twice, the changes that are told of a list make what was shown what is shown: they take away what is not shown
/// any more and nothing else, and let come in what was not shown and nothing else. None is empty, and neighbours are one change. It does
/// nothing.
pub fn told_are_changes<A>()
    ensures { ToldAreChanges A }
{}
