//! The one answer that every call which allocates may give.

use std::alloc::{AllocError, AllocFailed};

/// Out of memory: an allocation that the call needed was refused.
#[derive(Clone, Copy, Debug, PartialEq, Eq)]
pub struct Memory;

impl From<AllocError> for Memory {
    fn from(_: AllocError) -> Memory {
        Memory
    }
}

// A collection that refuses a value hands it back; it is dropped here.
impl<T: Drop> From<AllocFailed<T>> for Memory {
    fn from(_: AllocFailed<T>) -> Memory {
        Memory
    }
}
