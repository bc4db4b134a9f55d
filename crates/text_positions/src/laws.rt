//! The law that stands beside offsets.

ghost use Rattle.text_positions.specs.Laws.{OnePlace};

/// In bytes and in units an offset has at most one place: each is found by the other. It does nothing.
pub fn one_place()
    ensures { OnePlace }
{}
