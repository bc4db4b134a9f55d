//! The one form that each member has at each context, and the laws of executing such forms.
//!
//! A family is a list of members, each with a base form and a base context. From it a form of a member at a
//! greater context is derived by inclusion steps between equal contexts (COT 2009), and there is exactly one.
//! Executed in any causal order these forms give one state.
#![tactic(auto)]

mod derivation;
mod laws;
mod pending;
mod work_list;

pub use derivation::transform;
pub use laws::{
    addable_form_fits, causal_lists_have_forms, derivations_name_members,
    next_operation_keeps_forms, no_entries_are_forms, one_form, one_more_member,
    order_independence, restriction, same_operations_same_form, swap, to_the_front,
};
pub use work_list::transform_with;
