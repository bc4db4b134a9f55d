//! What a wire is asked to link.

/// Which side of a link to a peer this process takes.
#[derive(Clone, Copy, Debug, PartialEq, Eq)]
pub enum Role {
    /// Waits for the peer.
    Listen,
    /// Goes to the peer.
    Connect,
}

/// The last link that a wire was asked for.
#[derive(Clone, Copy, Debug, PartialEq, Eq)]
pub enum Asked {
    /// None so far.
    Nothing,
    /// End 0 to a peer, at a port.
    Peer(Role, u16),
    /// Ends 0 and 1 to each other.
    Pair,
}
