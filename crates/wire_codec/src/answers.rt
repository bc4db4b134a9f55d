//! What bytes are judged to be.

use crate::cause::Cause;
use context_diff::Op;

/// What bytes begin with.
#[derive(Clone, Copy, Debug, PartialEq, Eq)]
pub enum Scan {
    /// The frame of a well-formed operation, which has `used` bytes.
    Frame { used: u32 },
    /// Nothing that can be told yet: at least `at_least` bytes are needed.
    More { at_least: u32 },
    /// No frame. The offset counts from the first byte.
    Bad { cause: Cause, offset: u32 },
}

/// What bytes begin with, and the operation where it is a frame.
#[derive(Drop)]
pub enum Decoded {
    /// The frame of this well-formed operation, which has `used` bytes.
    Got { op: Op, used: u32 },
    /// Nothing that can be told yet: at least `at_least` bytes are needed.
    More { at_least: u32 },
    /// No frame. The offset counts from the first byte.
    Bad { cause: Cause, offset: u32 },
}
