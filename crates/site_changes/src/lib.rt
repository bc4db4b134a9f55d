//! What the shown text of a site lost and gained since the site had fewer operations.
//!
//! The cells of a site tell it: a cell was shown exactly where the first operations, so many of them, have its insert in force and no
//! delete of it. So nothing of the text of that time has to be kept. The crate has no value of its own.
#![tactic(auto)]

mod earlier;
mod since;
mod telling;

pub use since::changes_since;
