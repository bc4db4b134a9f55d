//! Where the undo groups of a book stand in its order.

ghost use Rattle.std.specs.Prelude.{◌≡◌, ◌<◌, ◌++◌, ◌∷◌, [], false, List, Some, None, if◌then◌else◌, length};
ghost use Rattle.std.specs.Map.{lookup};
ghost use Rattle.indexmap.specs.IndexMap.{spare};
ghost use Rattle.op_name.specs.declared.member.Member.{Member};
ghost use Rattle.op_name.specs.Members.{member_eq};
ghost use Rattle.context_diff.specs.Operations.{OpData, member_of};
ghost use Rattle.context_diff.specs.Histories.{is_known};
ghost use Rattle.context_diff.specs.Code.Kept.{AreGroups};

use indexmap::IndexMap;
use op_name::Member;

/// Takes in the last member of a book, which stands at this place, if it is an undo group. There is room for it.
pub(crate) fn note(groups: &mut IndexMap<Member, u32>, m: &Member, place: u32)
    requires room { 0 < spare groups.old }
    ensures { (h : List OpData) (o : OpData) → member_of o ≡ m.now → place ≡ length h → AreGroups h groups.old.entries
        → AreGroups (h ++ o ∷ []) groups.new.entries }
{
    match m {
        Member::Original(_) => {}
        Member::Group(_, _) => put(groups, *m, place),
    }
}

/// Forgets the last member of a book, if it is an undo group.
pub(crate) fn forget(groups: &mut IndexMap<Member, u32>, m: &Member)
    ensures { (h : List OpData) (o : OpData) → member_of o ≡ m.now → is_known h m.now ≡ false → AreGroups (h ++ o ∷ []) groups.old.entries
        → AreGroups h groups.new.entries }
{
    match m {
        Member::Original(_) => {}
        Member::Group(_, _) => take(groups, m),
    }
}

/// The place that is kept for the member.
pub(crate) fn place_of(groups: &IndexMap<Member, u32>, m: &Member) -> Option<u32>
    ensures { result ≡ lookup (member_eq m.now) groups.now.entries }
{
    groups.get(m).copied()
}

// Keeps a place for the member, in the room that was made for it.
#[tactic(auto, using(crate::proofs::Derived::changed_by_member))]
fn put(groups: &mut IndexMap<Member, u32>, m: Member, place: u32)
    requires room { 0 < spare groups.old }
    ensures { (q : Member)
        → lookup (member_eq q) groups.new.entries ≡ (if member_eq m q then Some place else lookup (member_eq q) groups.old.entries) }
{
    match groups.insert(m, place) {
        Ok(_) => {}
        Err(_) => unreachable!(),
    }
}

// Takes the member out.
#[tactic(auto, using(crate::proofs::Derived::changed_by_member))]
fn take(groups: &mut IndexMap<Member, u32>, m: &Member)
    ensures { (q : Member)
        → lookup (member_eq q) groups.new.entries ≡ (if member_eq m.now q then None else lookup (member_eq q) groups.old.entries) }
{
    groups.swap_remove(m);
}
