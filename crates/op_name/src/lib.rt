//! Names of operations and members of contexts.
//!
//! A `Name` is a site with a number: the one name that an insert or a delete has in a session. A
//! `Member` is what a context may hold: an original by its name, or a group of undos (or redos) of one
//! original. Both are ordered, so that sets of them have one listing.
#![tactic(auto)]

mod limits;
mod member;
mod memory;
mod name;

pub use limits::LETTERS;
pub use member::{GENERATIONS, Member};
pub use memory::Memory;
pub use name::{NUMBERS, Name, NameBad, SITES};
