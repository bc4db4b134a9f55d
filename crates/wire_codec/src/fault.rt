//! Faults: causes with the places where they are.

use crate::cause::Cause;

/// A cause, and the offset of the byte at which it is, counted from the first byte of the frame.
#[derive(Clone, Copy, Debug, PartialEq, Eq)]
pub struct Fault {
    pub cause: Cause,
    pub offset: u32,
}

/// Why bytes begin with no frame: at least so many bytes are needed to tell, or there is a fault.
#[derive(Clone, Copy, Debug, PartialEq, Eq)]
pub enum Refused {
    More(u32),
    Bad(Fault),
}

/// Why bytes begin with no state: at least so many bytes are needed to tell, or there is a fault.
#[derive(Clone, Copy, Debug, PartialEq, Eq)]
pub enum Unread {
    More(u64),
    Bad(Fault),
}
