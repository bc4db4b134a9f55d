//! The laws of listings and digests: each says what its definitions give, and does nothing.

ghost use Rattle.log_listings.specs.Laws.{OneHit, MembersAreListed, SameOperationsSameBytes, SameBytesSameOperations};

/// A delete hits the cell that `history` tells of it, and no other.
pub fn one_hit()
    ensures { OneHit }
{}

/// The members of which `digest` hashes the contents are those of the history, each once, in the order of members.
pub fn members_are_listed()
    ensures { MembersAreListed }
{}

/// Valid histories of the same operations, in whatever order they came and whoever made their undos, have the same bytes, so the same
/// hash.
pub fn same_operations_same_bytes()
    ensures { SameOperationsSameBytes }
{}

/// Valid histories that have the same bytes have the same operations: where a name has two contents, or one history has an operation
/// more, the bytes differ.
pub fn each_content_is_told()
    ensures { SameBytesSameOperations }
{}
