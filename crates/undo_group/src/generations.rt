//! Generations of originals in a set of members.

ghost use Rattle.std.specs.Prelude.{◌≡◌, ◌+◌, ◌↔◌, List, IsNone, IfSome};
ghost use Rattle.op_name.specs.declared.member.TheConstants.{GENERATIONS};
ghost use Rattle.context_vector.specs.Contexts.{entry_of};
ghost use Rattle.context_diff.specs.Operations.{OpData};
ghost use Rattle.context_diff.specs.Histories.{in_force, generation_in, context_of_all, IsValid};
ghost use Rattle.op_name.specs.Members.{is_even};

use context_vector::Vector;
use op_name::Name;

/// The greatest generation at which `have` has an undo group of the name, 0 if it has none: odd after an
/// undo, even after a redo. It takes no memory.
pub fn generation(have: &Vector, name: &Name) -> u16
    ensures entry { result ≡ entry_of have.now.set name.now }
    ensures history { (h : List OpData) → IsValid h → have.now.set ≡ context_of_all h → result ≡ generation_in h name.now }
{
    have.entry(name)
}

/// Whether the original of this name is in force: not undone, or redone. It takes no memory.
pub fn in_force(have: &Vector, name: &Name) -> bool
    ensures even { result ≡ is_even (entry_of have.now.set name.now) }
    ensures history { (h : List OpData) → IsValid h → have.now.set ≡ context_of_all h → result ≡ in_force h name.now }
{
    generation(have, name) % 2 == 0
}

/// The generation of the next undo or redo of the name; None exactly at `GENERATIONS`, the greatest one. It
/// takes no memory.
pub fn next_generation(have: &Vector, name: &Name) -> Option<u16>
    ensures full { IsNone result ↔ (entry_of have.now.set name.now ≡ GENERATIONS) }
    ensures next { IfSome result (λ g. g ≡ entry_of have.now.set name.now + 1) }
    ensures history { (h : List OpData) → IsValid h → have.now.set ≡ context_of_all h
        → IfSome result (λ g. g ≡ generation_in h name.now + 1) }
{
    generation(have, name).checked_add(1)
}
