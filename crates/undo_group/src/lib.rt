//! Undo groups: generations, and the base forms of the members of a history.
//!
//! A generation *is* a count of how often an original was undone or redone: the original is in force where
//! it is even. `TextBases` *is* the family of the editor over one book: each insert and delete with what it
//! does to the cells of its own context, and each undo group as a mark of a greater generation on the cell of
//! its original. A group *follows* the group before it, or its original: its form is a mark on that one's cell, at each
//! set of members.
#![tactic(auto)]

mod following;
mod generations;
mod text_bases;

pub use following::{followed, groups_follow};
pub use generations::{generation, in_force, next_generation};
pub use text_bases::TextBases;
