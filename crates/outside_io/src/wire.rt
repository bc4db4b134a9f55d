//! A connection to a peer.

ghost use Rattle.std.specs.Prelude.{Option, ◌≡◌, ◌≢◌, ℕ, List, ◌+◌, ◌-◌, ◌<◌, ◌≤◌, min, true, false, length, IfOk, OnOk, OnErr};
ghost use Rattle.outside_io.specs.Faults.{last_count, HasCause};
ghost use Rattle.outside_io.specs.Ends.{End, IsUnlinked, linked_to, nothing_of, shut_of, ReadsEnd, WritesEnd, BringsEnd};
ghost use Rattle.outside_io.specs.declared.link.Asked.{Asked};

use crate::failed::Failed;
use crate::link::{Asked, Role};

/// Two ends, 0 and 1, at which bytes are sent and received. End 0 may be linked to a peer, or both ends to
/// each other as a pair: what the one sends is to come at the other.
///
/// The bytes sent and received at an end go on over all its links. Reading and writing at an end needs the
/// end to be linked, and linking needs both ends to be unlinked.
pub trait Wire {
    /// An end by its number, which is 0 or 1.
    ghost ends: { Self → ℕ → End };

    /// The bytes that come from the peer at each link to it, or `None` where the wire doesn't tell them.
    /// No call changes them.
    ghost peer: { Self → Option (List ℕ) };

    /// The last link asked for.
    ghost asked: { Self → Asked };

    /// How many links were asked for, which at `u64::MAX` stays.
    ghost asks: { Self → ℕ };

    /// How often the wire has failed: a number that never falls, and at `u64::MAX` stays.
    ghost faults: { Self → ℕ };

    /// Links end 0 to the peer, whose bytes are to come there then. On failure no end is linked.
    fn link(&mut self, role: Role, port: u16) -> Result<(), Failed>
        requires { IsUnlinked (ends self.old) }

        ensures linked { OnOk result (ends self.new 0 ≡ linked_to (peer self.old) (ends self.old 0)) }
        ensures other_end { ends self.new 1 ≡ ends self.old 1 }
        ensures failed { OnErr result (ends self.new 0 ≡ ends self.old 0) }

        ensures asked { asked self.new ≡ Asked.Peer role port }
        ensures asks { asks self.new ≡ min (asks self.old + 1) last_count }
        ensures peer { peer self.new ≡ peer self.old }
        ensures cause { HasCause (faults self.old) (faults self.new) result };

    /// Links ends 0 and 1 to each other, with nothing to come at either. On failure no end is linked.
    fn link_pair(&mut self) -> Result<(), Failed>
        requires { IsUnlinked (ends self.old) }

        ensures linked { OnOk result ((end : ℕ) → end < 2 →
            ends self.new end ≡ linked_to (nothing_of (ends self.old end).to_come) (ends self.old end)) }
        ensures failed { OnErr result ((end : ℕ) → end < 2 → ends self.new end ≡ ends self.old end) }

        ensures asked { asked self.new ≡ Asked.Pair }
        ensures asks { asks self.new ≡ min (asks self.old + 1) last_count }
        ensures peer { peer self.new ≡ peer self.old }
        ensures cause { HasCause (faults self.old) (faults self.new) result };

    /// Tells whether an end is linked. There are no ends but 0 and 1.
    fn linked(&self, end: u8) -> bool
        ensures value { result ≡ (ends self.now end).linked }
        ensures no_third { 1 < end → result ≡ false };

    /// Reads at an end, as a source is read: moves bytes from the front of those to come into the front of
    /// `buf`, and answers how many. A failed read leaves the bytes as they were.
    fn read(&mut self, end: u8, buf: &mut [u8]) -> Result<usize, Failed>
        requires { (ends self.old end).linked ≡ true }

        ensures bound { IfOk result (λ n. n ≤ length buf.new) }
        ensures bytes { ReadsEnd (ends self.old end) (ends self.new end) result buf.new }
        ensures other_end { (other : ℕ) → other ≢ end → ends self.new other ≡ ends self.old other }

        ensures asked { asked self.new ≡ asked self.old }
        ensures asks { asks self.new ≡ asks self.old }
        ensures peer { peer self.new ≡ peer self.old }
        ensures cause { HasCause (faults self.old) (faults self.new) result };

    /// Writes at an end, as to a sink: sends bytes from the front of `piece`, at least one where there is
    /// one, and answers how many. On a pair they are to come at the other end, while that is linked. A
    /// failed write leaves the bytes as they were.
    fn write(&mut self, end: u8, piece: &[u8]) -> Result<usize, Failed>
        requires { (ends self.old end).linked ≡ true }

        ensures bound { IfOk result (λ n. n ≤ length piece.now) }
        ensures some { IfOk result (λ n. 0 < length piece.now → 0 < n) }
        ensures bytes { WritesEnd (ends self.old end) (ends self.new end) result piece.now }
        ensures other_end { BringsEnd (asked self.old) (ends self.old (1 - end)) (ends self.new (1 - end))
            result piece.now }

        ensures asked { asked self.new ≡ asked self.old }
        ensures asks { asks self.new ≡ asks self.old }
        ensures peer { peer self.new ≡ peer self.old }
        ensures cause { HasCause (faults self.old) (faults self.new) result };

    /// Unlinks an end. Nothing is to come at it then, and the other end stays as it was.
    fn shut(&mut self, end: u8)
        ensures unlinked { ends self.new end ≡ shut_of (ends self.old end) }
        ensures other_end { (other : ℕ) → other ≢ end → ends self.new other ≡ ends self.old other }

        ensures asked { asked self.new ≡ asked self.old }
        ensures asks { asks self.new ≡ asks self.old }
        ensures peer { peer self.new ≡ peer self.old }
        ensures faults { faults self.new ≡ faults self.old };
}
