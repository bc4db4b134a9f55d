//! Why a message isn't taken.

use crate::messages::PeerCause;
use cot_site::Verdict;
use op_name::{Member, Memory};

/// Why a call didn't take a message.
#[derive(Clone, Copy, Debug, PartialEq, Eq, Drop)]
pub enum Peer {
    /// The bytes aren't one whole message. The offset counts from the first byte.
    Bytes { offset: u32, cause: PeerCause },
    /// An operation of the message is neither integrated nor a repeat: its member, and the verdict on it.
    Op { member: Member, verdict: Verdict },
    /// There was no memory.
    Memory,
}

impl From<Memory> for Peer {
    ghost use Rattle.std.specs.Prelude.{◌≡◌};
    ghost use Rattle.peer_exchange.specs.declared.peer.Peer.TheVariants as peer;

    ghost from_gives = { λ _ e. e ≡ peer.Memory };

    fn from(_: Memory) -> Peer {
        Peer::Memory
    }
}
