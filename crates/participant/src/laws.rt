//! A law of texts that are inserted by pieces.

ghost use Rattle.participant.specs.Laws.{PiecesAreTheText};

/// The pieces that a text is cut into are the text, one after the other; each but the last has `LETTERS` characters, and the last 1 to
/// `LETTERS`.
pub fn pieces_are_the_text()
    ensures { PiecesAreTheText }
{}
