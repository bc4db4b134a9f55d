//! The limit of texts of inserts, which operations, forms, cells and frames share.

/// The greatest number of characters of one insert, and so of the cells that it puts: one for each character. A longer text is cut
/// into several inserts.
pub const LETTERS: u16 = 256;
