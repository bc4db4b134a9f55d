//! The laws of derived forms and of executing them, each as the contract of a function that does nothing.
//!
//! They hold of every type that meets `Include`, or `Applies` where states are spoken of, and of every bases over it,
//! on these conditions: the bases list their members in causal order, with closed base contexts; and, where states are
//! spoken of, the cells that a base form adds have the name of its member, those of a group none.

ghost use Rattle.transform_rec.specs.Family.{IsCausalFamily};
ghost use Rattle.transform_rec.specs.Derived.{DerivationsNameMembers, IsInclusion, IsFamily};
ghost use Rattle.transform_rec.specs.Executing.{AddsAtPlace, HasOwnNames, IsTable};
ghost use Rattle.transform_rec.specs.Laws.{table_of, inclusion_of, family_of, OneForm, CausalListsHaveForms, AddableFormFits, Swap, ToTheFront, OrderIndependence, Restriction, OneMoreMember};
ghost use Rattle.transform_rec.specs.Histories.{SameOperationsSameForm};
ghost use Rattle.transform_rec.specs.Entries.{NoEntriesAreForms, NextOperationKeepsForms};

use ttf_form::{Applies, Bases, Include};

/// What derived forms rest on, from the laws of the traits.
pub(crate) fn derives<F: Include, B: Bases<F>>(bases: &B)
    requires causal { IsCausalFamily (family_of ⟦<B as Bases<F>>⟧ bases.now) }
    ensures inclusion { IsInclusion (inclusion_of ⟦<F as Include>⟧) }
    ensures family { IsFamily (inclusion_of ⟦<F as Include>⟧) (family_of ⟦<B as Bases<F>>⟧ bases.now) }
{
    bases.known();
}

/// What executing rests on, from the laws of the traits.
fn executes<F: Applies, B: Bases<F>>(bases: &B)
    requires causal { IsCausalFamily (family_of ⟦<B as Bases<F>>⟧ bases.now) }
    ensures table { IsTable (table_of ⟦<F as Include>⟧ F.Fits F.added F.cells F.apply) }
    ensures family { IsFamily (inclusion_of ⟦<F as Include>⟧) (family_of ⟦<B as Bases<F>>⟧ bases.now) }
{
    derives::<F, B>(bases);
}

/// Each member has exactly one derived form at each closed set that holds its base context and lacks the member.
pub fn one_form<F: Include, B: Bases<F>>(bases: &B)
    requires causal { IsCausalFamily (family_of ⟦<B as Bases<F>>⟧ bases.now) }
    ensures { OneForm (inclusion_of ⟦<F as Include>⟧) (family_of ⟦<B as Bases<F>>⟧ bases.now) }
{
    derives::<F, B>(bases);
}

/// A derivation of a member at a set names that member and the members of the set alone: it holds over every family
/// that lists these, with the base contexts and the base forms that they have.
pub fn derivations_name_members<F: Include>()
    ensures { DerivationsNameMembers F.over }
{}

/// The only form of a member over one valid history is the only one over every valid history with the same operations, in
/// whatever order and with whatever authors and contexts of undos, if the base forms agree.
pub fn same_operations_same_form<F: Include>()
    ensures { SameOperationsSameForm F.over }
{}

/// A cache without entries holds forms alone, whatever the members.
pub fn no_entries_are_forms<F: Include>()
    ensures { NoEntriesAreForms F.over }
{}

/// Entries of a cache that are the forms of their keys over a history are so over the history with its next
/// operation, if the base forms of its members stay.
pub fn next_operation_keeps_forms<F: Include>()
    ensures { NextOperationKeepsForms F.over }
{}

/// The list of the bases is causal from the empty set, and each causal list has its derived forms.
pub fn causal_lists_have_forms<F: Include, B: Bases<F>>(bases: &B)
    requires causal { IsCausalFamily (family_of ⟦<B as Bases<F>>⟧ bases.now) }
    ensures { CausalListsHaveForms (inclusion_of ⟦<F as Include>⟧) (family_of ⟦<B as Bases<F>>⟧ bases.now) }
{
    derives::<F, B>(bases);
}

/// The form of a member that may be added to a set fits each state at the set, and leaves a state at the set with
/// that member.
pub fn addable_form_fits<F: Applies, B: Bases<F>>(bases: &B)
    requires causal { IsCausalFamily (family_of ⟦<B as Bases<F>>⟧ bases.now) }
    requires own_names { HasOwnNames (table_of ⟦<F as Include>⟧ F.Fits F.added F.cells F.apply) (family_of ⟦<B as Bases<F>>⟧ bases.now) }
    ensures { AddableFormFits (table_of ⟦<F as Include>⟧ F.Fits F.added F.cells F.apply) (family_of ⟦<B as Bases<F>>⟧ bases.now) }
{
    executes::<F, B>(bases);
}

/// Two neighbours of a causal list that may each be added where they stand may change places, and the state stays.
pub fn swap<F: Applies, B: Bases<F>>(bases: &B)
    requires causal { IsCausalFamily (family_of ⟦<B as Bases<F>>⟧ bases.now) }
    requires own_names { HasOwnNames (table_of ⟦<F as Include>⟧ F.Fits F.added F.cells F.apply) (family_of ⟦<B as Bases<F>>⟧ bases.now) }
    ensures { Swap (table_of ⟦<F as Include>⟧ F.Fits F.added F.cells F.apply) (family_of ⟦<B as Bases<F>>⟧ bases.now) }
{
    executes::<F, B>(bases);
}

/// A member of a causal list whose base context is in the set that the list starts from may be executed first, and the
/// state stays.
pub fn to_the_front<F: Applies, B: Bases<F>>(bases: &B)
    requires causal { IsCausalFamily (family_of ⟦<B as Bases<F>>⟧ bases.now) }
    requires own_names { HasOwnNames (table_of ⟦<F as Include>⟧ F.Fits F.added F.cells F.apply) (family_of ⟦<B as Bases<F>>⟧ bases.now) }
    ensures { ToTheFront (table_of ⟦<F as Include>⟧ F.Fits F.added F.cells F.apply) (family_of ⟦<B as Bases<F>>⟧ bases.now) }
{
    executes::<F, B>(bases);
}

/// Two causal lists with the same members give the same state.
pub fn order_independence<F: Applies, B: Bases<F>>(bases: &B)
    requires causal { IsCausalFamily (family_of ⟦<B as Bases<F>>⟧ bases.now) }
    requires own_names { HasOwnNames (table_of ⟦<F as Include>⟧ F.Fits F.added F.cells F.apply) (family_of ⟦<B as Bases<F>>⟧ bases.now) }
    ensures { OrderIndependence (table_of ⟦<F as Include>⟧ F.Fits F.added F.cells F.apply) (family_of ⟦<B as Bases<F>>⟧ bases.now) }
{
    executes::<F, B>(bases);
}

/// The cells whose names lie in a closed set are, in order, those that the members of the set alone give.
pub fn restriction<F: Applies, B: Bases<F>>(bases: &B)
    requires causal { IsCausalFamily (family_of ⟦<B as Bases<F>>⟧ bases.now) }
    requires own_names { HasOwnNames (table_of ⟦<F as Include>⟧ F.Fits F.added F.cells F.apply) (family_of ⟦<B as Bases<F>>⟧ bases.now) }
    ensures { Restriction (table_of ⟦<F as Include>⟧ F.Fits F.added F.cells F.apply) (family_of ⟦<B as Bases<F>>⟧ bases.now) }
{
    executes::<F, B>(bases);
}

/// The cells of a closed set with one member more are the cells of the set, with the cells of that member at the place
/// of its form at the set, if each form adds its cells at its place.
pub fn one_more_member<F: Applies, B: Bases<F>>(bases: &B)
    requires causal { IsCausalFamily (family_of ⟦<B as Bases<F>>⟧ bases.now) }
    requires own_names { HasOwnNames (table_of ⟦<F as Include>⟧ F.Fits F.added F.cells F.apply) (family_of ⟦<B as Bases<F>>⟧ bases.now) }
    requires at_place { AddsAtPlace (table_of ⟦<F as Include>⟧ F.Fits F.added F.cells F.apply) }
    ensures { OneMoreMember (table_of ⟦<F as Include>⟧ F.Fits F.added F.cells F.apply) (family_of ⟦<B as Bases<F>>⟧ bases.now) }
{
    executes::<F, B>(bases);
}
