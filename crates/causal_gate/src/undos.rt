//! The index of waiting undos and redos.

ghost use Rattle.std.specs.Prelude.{◌≡◌, ◌++◌, ◌∷◌, [], ℕ, List, Some, OnOk, OnErr, remove, slice_get};
ghost use Rattle.context_diff.specs.Operations.{OpData, is_original};
ghost use Rattle.context_diff.specs.Ops.{data_of};
ghost use Rattle.causal_gate.specs.Waiting.{AreApart};
ghost use Rattle.causal_gate.specs.Undos.{AreUndos};

use context_diff::Op;
use indexmap::IndexSet;
use op_name::Memory;

/// Puts a copy of an undo, which comes last, into the index; of an insert or delete it puts nothing. Out of memory, the
/// index stays.
pub(crate) fn note_undo(undos: &mut IndexSet<Op>, op: &Op) -> Result<(), Memory>
    ensures noted { OnOk result ((os : List OpData) → AreUndos undos.old.keys os → AreUndos undos.new.keys (os ++ data_of op.now ∷ [])) }
    ensures err { OnErr result (undos.new.keys ≡ undos.old.keys) }
{
    if is_original(op) {
        return Ok(());
    }
    put(undos, op)
}

/// Takes an undo, which was the i-th of the list, out of the index; of an insert or delete it takes nothing.
pub(crate) fn forget_undo(undos: &mut IndexSet<Op>, op: &Op)
    ensures { (os : List OpData) (i : ℕ) → AreApart os → slice_get os i ≡ Some (data_of op.now) → AreUndos undos.old.keys os
        → AreUndos undos.new.keys (remove os i) }
{
    if is_original(op) {
        return;
    }
    undos.swap_remove(op);
}

// Puts a copy of an operation into the index. Out of memory, the index stays.
fn put(undos: &mut IndexSet<Op>, op: &Op) -> Result<(), Memory>
    ensures noted { OnOk result ((os : List OpData) → AreUndos undos.old.keys os → AreUndos undos.new.keys (os ++ data_of op.now ∷ [])) }
    ensures err { OnErr result (undos.new.keys ≡ undos.old.keys) }
{
    let copy = op.try_clone()?;
    undos.insert(copy)?;
    Ok(())
}

// Whether the operation is an insert or a delete.
fn is_original(op: &Op) -> bool
    ensures { result ≡ is_original (data_of op.now) }
{
    matches!(op, Op::Insert { .. } | Op::Delete { .. })
}
