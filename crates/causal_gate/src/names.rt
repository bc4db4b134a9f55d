//! The index of waiting operations by name.

ghost use Rattle.std.specs.Prelude.{◌≡◌, ◌<◌, ◌++◌, ◌∷◌, [], ℕ, List, Some, None, if◌then◌else◌, remove, slice_get};
ghost use Rattle.std.specs.Map.{lookup};
ghost use Rattle.indexmap.specs.IndexMap.{spare};
ghost use Rattle.op_name.specs.NameData.{NameData, name_eq};
ghost use Rattle.context_diff.specs.Operations.{OpData};
ghost use Rattle.context_diff.specs.Ops.{data_of};
ghost use Rattle.causal_gate.specs.Waiting.{AreApart};
ghost use Rattle.causal_gate.specs.Names.{AreNamed};

use context_diff::Op;
use indexmap::IndexMap;
use op_name::Name;

/// Puts an insert or delete, which comes last, into the index under its number; of an undo it puts nothing.
pub(crate) fn note(names: &mut IndexMap<Name, u64>, op: &Op, number: u64)
    requires room { 0 < spare names.old }
    ensures { (os : List OpData) → AreNamed names.old.entries os → AreNamed names.new.entries (os ++ data_of op.now ∷ []) }
{
    match op {
        Op::Insert { name, .. } | Op::Delete { name, .. } => put(names, *name, number),
        Op::Undo { .. } => {}
    }
}

/// Takes an insert or delete, which was the i-th of the list, out of the index; of an undo it takes nothing.
pub(crate) fn forget(names: &mut IndexMap<Name, u64>, op: &Op)
    ensures { (os : List OpData) (i : ℕ) → AreApart os → slice_get os i ≡ Some (data_of op.now) → AreNamed names.old.entries os
        → AreNamed names.new.entries (remove os i) }
{
    match op {
        Op::Insert { name, .. } | Op::Delete { name, .. } => drop_name(names, name),
        Op::Undo { .. } => {}
    }
}

/// Puts a number under a name, in the room that was made for it.
fn put(names: &mut IndexMap<Name, u64>, name: Name, number: u64)
    requires room { 0 < spare names.old }
    ensures { (q : NameData)
        → lookup (name_eq q) names.new.entries ≡ (if name_eq name q then Some number else lookup (name_eq q) names.old.entries) }
{
    match names.insert(name, number) {
        Ok(_) => {}
        Err(_) => unreachable!(),
    }
}

/// Takes a name out.
fn drop_name(names: &mut IndexMap<Name, u64>, name: &Name)
    ensures { (q : NameData)
        → lookup (name_eq q) names.new.entries ≡ (if name_eq name.now q then None else lookup (name_eq q) names.old.entries) }
{
    names.swap_remove(name);
}
