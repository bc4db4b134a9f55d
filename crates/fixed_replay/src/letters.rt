//! The characters of operations.

ghost use Rattle.std.specs.Prelude.{◌≡◌};
ghost use Rattle.context_diff.specs.Ops.{data_of};
ghost use Rattle.fixed_replay.specs.Replayed.{letters_of};

use context_diff::Op;

/// The characters that an operation brings: those of an insert; a delete or an undo brings none. It takes no memory.
pub fn letters_of(op: &Op) -> &[char]
    ensures { result.now ≡ letters_of (data_of op.now) }
{
    match op {
        Op::Insert { text, .. } => text.as_slice(),
        Op::Delete { .. } | Op::Undo { .. } => &[],
    }
}
