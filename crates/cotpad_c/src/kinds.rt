//! The numbers by which a host is told what an operation or an anchor is, and what became of a delivery, and says in what it counts.

/// An operation that inserts a text.
pub const INSERT: u32 = 1;

/// An operation that deletes a character.
pub const DELETE: u32 = 2;

/// An operation that undoes an insert or a delete.
pub const UNDO: u32 = 3;

/// An operation that redoes an insert or a delete.
pub const REDO: u32 = 4;

/// An anchor at the front of the text.
pub const START: u32 = 1;

/// An anchor at the end of the text.
pub const END: u32 = 2;

/// An anchor behind a character.
pub const AFTER: u32 = 3;

/// An anchor in front of a character.
pub const BEFORE: u32 = 4;

/// The place of an anchor, among those of many, that has none at the site. It is a place only of a text of so many shown characters.
pub const NO_PLACE: u32 = u32::MAX;

/// Offsets are counted in bytes of UTF-8.
pub const BYTES: u32 = 1;

/// Offsets are counted in units of UTF-16.
pub const UNITS: u32 = 2;

/// It is part of the site's history now.
pub const INTEGRATED: u32 = 1;

/// It was made after something that the site lacks, and is held until that comes.
pub const WAITS: u32 = 2;

/// The site has it already.
pub const REPEAT: u32 = 3;

/// The site knows another operation of its name.
pub const FORGED: u32 = 4;

/// Its context can't be.
pub const NOT_CLOSED: u32 = 5;

/// Its place can't be.
pub const PLACE_OUT: u32 = 6;

/// The bytes end before the frame that they begin with.
pub const INCOMPLETE: u32 = 7;

/// The bytes begin with no frame, whatever follows them.
pub const MALFORMED: u32 = 8;
