//! Forms: what an operation does to a list of cells, and how a form changes when another form was
//! applied first.
//!
//! A `Form` is a change of a list of cells that is meant for one state of it: `Ins` puts new cells at a
//! place, `Cover` marks the cell at a place and stands for deletes, undos and redos alike. Places count all
//! cells, shown or hidden. `Include` is the inclusion of one form in another, `Exclude` takes one back,
//! `Applies` is the rule of applying forms to states, and `Bases` a finite family of members with their first
//! forms and contexts. Whatever is said about orders of execution rests on the laws of these traits alone.
#![tactic(auto)]

mod applies;
mod bases;
mod cover;
mod exclude;
mod form;
mod include;
mod ins;
mod rows;

pub use applies::Applies;
pub use bases::Bases;
pub use cover::{Cover, Mark};
pub use exclude::Exclude;
pub use form::Form;
pub use include::{CELLS, Include};
pub use ins::Ins;
