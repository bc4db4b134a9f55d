//! Where bytes go.

ghost use Rattle.std.specs.Prelude.{Option, ℕ, List, ◌≤◌, ◌<◌, length, IfOk};
ghost use Rattle.std.specs.Io.KnownBytes.{WriteAppends};
ghost use Rattle.outside_io.specs.Faults.{HasCause};

use crate::failed::Failed;

/// Bytes that are written once, each after those before it.
pub trait Sink {
    /// The bytes that the sink holds, or `None` where it doesn't tell them.
    ghost held: { Self → Option (List ℕ) };

    /// How often the sink has failed: a number that never falls, and at `u64::MAX` stays.
    ghost faults: { Self → ℕ };

    /// Appends bytes from the front of `piece`, at least one where there is one, and answers how many. A
    /// failed write leaves what the sink held.
    fn write(&mut self, piece: &[u8]) -> Result<usize, Failed>
        ensures bound { IfOk result (λ n. n ≤ length piece.now) }
        ensures some { IfOk result (λ n. 0 < length piece.now → 0 < n) }
        ensures bytes { WriteAppends (held self.old) (held self.new) result piece.now }
        ensures cause { HasCause (faults self.old) (faults self.new) result };
}
