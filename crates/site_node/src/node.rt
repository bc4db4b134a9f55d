//! Why an exchange stops.

ghost use Rattle.std.specs.Prelude.{◌≡◌};
ghost use Rattle.site_node.specs.Stops.{node_of};

use peer_exchange::Peer;

/// Why an exchange over a wire stopped.
#[derive(Clone, Copy, Debug, PartialEq, Eq, Drop)]
pub enum Node {
    /// The wire failed.
    Link,
    /// What the peer sent is refused: its bytes, or an operation.
    Peer(Peer),
    /// There was no memory.
    Memory,
}

/// The same reason, of an exchange.
pub(crate) fn node_of(why: Peer) -> Node
    ensures { result ≡ node_of why }
{
    match why {
        Peer::Bytes { offset, cause } => Node::Peer(Peer::Bytes { offset, cause }),
        Peer::Op { member, verdict } => Node::Peer(Peer::Op { member, verdict }),
        Peer::Memory => Node::Memory,
    }
}
