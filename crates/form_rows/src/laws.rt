//! The laws of rows, each as the contract of a function that does nothing.

ghost use Rattle.transform_rec.specs.Family.{IsCausalFamily};
ghost use Rattle.transform_rec.specs.Laws.{inclusion_of, family_of};
ghost use Rattle.transform_rec.specs.Derived.{IsInclusion, IsFamily};
ghost use Rattle.form_rows.specs.Laws.{FollowersFollow, MembersMoveToTheFront, AlikeSetsHaveOneRow, FirstMembersHaveRows, GroupsFollow, PassesKeepRows};

use ttf_form::{Bases, Exclude, Include};

/// What derived forms rest on, from the laws of the traits.
pub(crate) fn derives<F: Include, B: Bases<F>>(bases: &B)
    requires causal { IsCausalFamily (family_of ⟦<B as Bases<F>>⟧ bases.now) }
    ensures inclusion { IsInclusion (inclusion_of ⟦<F as Include>⟧) }
    ensures family { IsFamily (inclusion_of ⟦<F as Include>⟧) (family_of ⟦<B as Bases<F>>⟧ bases.now) }
{
    bases.known();
}

/// A form that is brought over a row becomes its member's form after the row, and the row that of the set with the member.
pub fn passes_keep_rows<F: Exclude, B: Bases<F>>(bases: &B)
    requires causal { IsCausalFamily (family_of ⟦<B as Bases<F>>⟧ bases.now) }
    ensures { PassesKeepRows (inclusion_of ⟦<F as Include>⟧) F.IsInert (family_of ⟦<B as Bases<F>>⟧ bases.now) }
{
    derives::<F, B>(bases);
}

/// A member that follows another one has the form that follows the other's executed form, after the inclusion of what was
/// executed since.
pub fn followers_follow<F: Include, B: Bases<F>>(bases: &B)
    requires causal { IsCausalFamily (family_of ⟦<B as Bases<F>>⟧ bases.now) }
    ensures { FollowersFollow (inclusion_of ⟦<F as Include>⟧) (family_of ⟦<B as Bases<F>>⟧ bases.now) }
{
    derives::<F, B>(bases);
}

/// A member of a row may be moved to its front.
pub fn members_move<F: Exclude, B: Bases<F>>(bases: &B)
    requires causal { IsCausalFamily (family_of ⟦<B as Bases<F>>⟧ bases.now) }
    ensures { MembersMoveToTheFront (inclusion_of ⟦<F as Include>⟧) F.IsInert F.back (family_of ⟦<B as Bases<F>>⟧ bases.now) }
{
    derives::<F, B>(bases);
}

/// Closed sets that differ by inert members have one row.
pub fn alike_sets_have_one_row<F: Exclude, B: Bases<F>>(bases: &B)
    requires causal { IsCausalFamily (family_of ⟦<B as Bases<F>>⟧ bases.now) }
    ensures { AlikeSetsHaveOneRow (inclusion_of ⟦<F as Include>⟧) F.IsInert (family_of ⟦<B as Bases<F>>⟧ bases.now) }
{
    derives::<F, B>(bases);
}

/// The groups of a history follow the member before them.
pub fn groups_follow()
    ensures { GroupsFollow }
{}

/// The first members of a list have the row without forms, which has looked at them.
pub fn first_members_have_rows<F: Exclude, B: Bases<F>>(bases: &B)
    requires causal { IsCausalFamily (family_of ⟦<B as Bases<F>>⟧ bases.now) }
    ensures { FirstMembersHaveRows (inclusion_of ⟦<F as Include>⟧) F.IsInert (family_of ⟦<B as Bases<F>>⟧ bases.now) }
{
    derives::<F, B>(bases);
}
