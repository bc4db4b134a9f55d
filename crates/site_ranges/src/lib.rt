//! Ranges of a site's text and history, for editors: what is shown from a place on, and what was done from an operation on.
//!
//! A range *is* so many elements of a list from one on: of the shown characters, or of the history.
#![tactic(auto)]

mod chunks;
mod generations;
mod inserts;
mod laws;
mod outbox;
#[cfg(test)]
mod tests;
mod texts;
mod turns;

pub use generations::{generation_of, is_in_force, last_undoer};
pub use inserts::names_in;
pub use laws::last_undoers_are_one;
pub use outbox::{frames_for, frames_from};
pub use texts::write_range;
pub use turns::{redo_range, undo_range};
