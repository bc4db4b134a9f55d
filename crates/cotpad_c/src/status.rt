//! What a call answers: 0 where it did what was asked, or a number that says why not.

/// Done.
pub const OK: u32 = 0;

/// Out of memory.
pub const NO_MEMORY: u32 = 1;

/// There is no site of this number.
pub const SITE_OUT: u32 = 2;

/// The text has no such place.
pub const PLACE_OUT: u32 = 3;

/// The number is no Unicode scalar value, or the bytes are no UTF-8 (RFC 3629).
pub const NO_CHARACTER: u32 = 4;

/// The site has integrated no insert or delete of this name; or it lacks this member of a set.
pub const UNKNOWN: u32 = 5;

/// It is undone already.
pub const NOT_IN_FORCE: u32 = 6;

/// It isn't undone.
pub const IN_FORCE: u32 = 7;

/// It was undone and redone as often as can be.
pub const GENERATION_FULL: u32 = 8;

/// The site has made as many inserts and deletes as can be.
pub const NUMBER_FULL: u32 = 9;

/// More names are undone than the context of an operation carries.
pub const CONTEXT_FULL: u32 = 10;

/// No insert or delete can have this name; or no anchor and no measure is told by these numbers.
pub const NO_NAME: u32 = 11;

/// There is nothing to tell: no operation at this index, none that is ready, no character at this place.
pub const NONE: u32 = 12;

/// The buffer is too short.
pub const TOO_SHORT: u32 = 13;

/// The bytes are more than are read at a time.
pub const TOO_LONG: u32 = 14;

/// The bytes don't begin as a log or as this message does.
pub const NO_HEAD: u32 = 15;

/// The bytes end before the log or the message does.
pub const CUT: u32 = 16;

/// There is a fault in the bytes.
pub const MALFORMED: u32 = 17;

/// Bytes follow the message.
pub const EXTRA: u32 = 18;

/// An operation of the log or of the message isn't taken.
pub const REFUSED: u32 = 19;

/// A waiting operation is ready: memory ran out before it was released, though what was asked is done; or, of a site that is
/// to be saved, it has to be released first.
pub const UNSETTLED: u32 = 20;

/// The lists spell no set of members.
pub const NO_SET: u32 = 21;

/// The set has undos of an insert or delete that it lacks.
pub const STRAY: u32 = 22;

/// The set lacks what one of its inserts and deletes was made after.
pub const NOT_CLOSED: u32 = 23;
