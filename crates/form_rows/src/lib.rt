//! Rows of forms: what a set of members lacks, each insert with its form after the set and those before it.
//!
//! A row of a set of members *is* the list of the forms of the inserts that the set lacks, in the order of a book, each
//! at the set with the members of the book before it. A new form is brought over a row by one `pass`: each form of the
//! row is included in it as it comes by, and it in each of these; so one pass finds the form of a member at all members
//! of a book, and leaves the row of the set with that member. Covers are in no row, since their inclusion changes
//! nothing.
//!
//! A row is kept in blocks of a few forms with bounds of their places. A form whose place is greater than all places of
//! a block moves by the cells of that block in one step and leaves it as it is; one whose place is smaller than all of
//! them stays, and they move by its cells. Only within the bounds are the forms passed one by one.
#![tactic(auto)]

mod block;
mod blocks;
mod first_members;
mod groups;
mod had;
mod laws;
mod named;
mod originals;
mod passages;
mod passes;
mod placed;
mod row;
mod rows;

pub use groups::executed_group;
pub use laws::{
    alike_sets_have_one_row, first_members_have_rows, followers_follow, groups_follow,
    members_move, passes_keep_rows,
};
pub use named::Named;
pub use originals::executed_original;
pub use passages::{Passages, STRETCH};
pub use passes::{after, front, pass};
pub use placed::Placed;
pub use row::Row;
pub use rows::{Rows, executed_form};
