//! The parts of a message, one after the other.

use crate::messages::{Measure, PeerCause};

/// Which part of a message comes next.
#[derive(Clone, Copy, Debug, PartialEq, Eq)]
pub(crate) enum Stage {
    /// The head, before a state, which frames follow or not.
    Head { frames: bool },
    /// A state, which frames follow or not.
    State { frames: bool },
    /// A frame or the end mark.
    Frames,
}

/// What the bytes from the front of a part say of it.
#[derive(Clone, Copy, Debug, PartialEq, Eq)]
pub(crate) enum Piece {
    /// The part is there, and another one follows it.
    Got { next: Stage, used: u32 },
    /// The part is there, and is the last one.
    Whole { used: u32 },
    /// The part has at least so many bytes.
    More { at_least: u64 },
    /// There is no such part.
    Bad { offset: u32, cause: PeerCause },
}

/// How far a message was judged: the part that comes next, and the offset at which it begins.
#[derive(Clone, Copy, Debug, PartialEq, Eq)]
pub(crate) struct Place {
    pub(crate) stage: Stage,
    pub(crate) at: usize,
}

/// What judging the part at a place gives: the place after it, or what the bytes say of the message.
pub(crate) enum Judged {
    On(Place),
    Says(Measure),
}
