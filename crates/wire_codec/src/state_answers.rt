//! What bytes are judged to be, where a state is read.

use crate::cause::Cause;
use context_vector::Vector;

/// What bytes begin with, where a state is read.
#[derive(Clone, Copy, Debug, PartialEq, Eq)]
pub enum StateScan {
    /// A state, which has `used` bytes.
    State { used: u32 },
    /// Nothing that can be told yet: at least `at_least` bytes are needed.
    More { at_least: u64 },
    /// No state. The offset counts from the first byte.
    Bad { cause: Cause, offset: u32 },
}

/// What bytes begin with, and the set of members where it is a state.
#[derive(Drop)]
pub enum DecodedState {
    /// This state, which has `used` bytes.
    Got { vector: Vector, used: u32 },
    /// Nothing that can be told yet: at least `at_least` bytes are needed.
    More { at_least: u64 },
    /// No state. The offset counts from the first byte.
    Bad { cause: Cause, offset: u32 },
}
