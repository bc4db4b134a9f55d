//! The messages of an exchange, and what bytes say of one.

use wire_codec::Cause;

/// The most bytes that a message may have: 64 MiB.
pub const MAX_MESSAGE: usize = 67_108_864;

/// Which message of an exchange.
#[derive(Clone, Copy, Debug, PartialEq, Eq)]
pub enum Which {
    /// The joiner's: a head, and its state.
    First,
    /// The server's answer: a head, its state, and frames up to an end mark.
    Second,
    /// The joiner's answer: frames up to an end mark.
    Third,
}

/// Why bytes aren't a message.
#[derive(Clone, Copy, Debug, PartialEq, Eq)]
pub enum PeerCause {
    /// The first eight bytes aren't the head; a peer of version 1 has another one.
    Head,
    /// A field of a state or of a frame is bad.
    Frame(Cause),
    /// The bytes end inside the message.
    Cut,
    /// Bytes follow the message.
    Extra,
    /// The message is longer than a message may be.
    Limit,
}

/// What the bytes from the front of a message say of it.
#[derive(Clone, Copy, Debug, PartialEq, Eq)]
pub enum Measure {
    /// The message is there, and has `used` bytes.
    Whole { used: u32 },
    /// The message has at least so many bytes, which aren't all there.
    More { at_least: u64 },
    /// There is no message. The offset of the fault counts from the first byte.
    Bad { offset: u32, cause: PeerCause },
}
