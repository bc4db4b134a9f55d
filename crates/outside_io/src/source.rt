//! Where bytes come from.

ghost use Rattle.std.specs.Prelude.{Option, ℕ, List, ◌≤◌, length, IfOk};
ghost use Rattle.std.specs.Io.KnownBytes.{ReadConsumes};
ghost use Rattle.outside_io.specs.Faults.{HasCause};

use crate::failed::Failed;

/// Bytes that are read once, from the front to the end.
pub trait Source {
    /// The bytes that are left to read, or `None` where the source doesn't tell them.
    ghost left: { Self → Option (List ℕ) };

    /// How often the source has failed: a number that never falls, and at `u64::MAX` stays.
    ghost faults: { Self → ℕ };

    /// Moves bytes from the front of those left into the front of `buf`, and answers how many. Where `buf`
    /// has room, 0 is the end of input: nothing is left. A failed read leaves what was left.
    fn read(&mut self, buf: &mut [u8]) -> Result<usize, Failed>
        ensures bound { IfOk result (λ n. n ≤ length buf.new) }
        ensures bytes { ReadConsumes (left self.old) (left self.new) result buf.new }
        ensures cause { HasCause (faults self.old) (faults self.new) result };
}
