//! Releases of waiting operations.

use crate::verdict::Verdict;
use op_name::Member;

/// An operation that left the waiting ones, by its member, with the verdict that it got: never `Waits`.
#[derive(Clone, Copy, Debug, PartialEq, Eq, Drop)]
pub struct Release {
    pub member: Member,
    pub verdict: Verdict,
}
