//! A site as a participant: what its user does, and what others send it, each with the releases after it.
//!
//! A call *is* a way from one state of a site to another, with what was released on it, which is told whatever the answer. It leaves
//! a settled site settled, or says that it isn't.
#![tactic(auto)]

mod edits;
mod laws;
mod releases;
mod runs;
mod taking;

pub use edits::{Edit, Stopped, do_edit};
pub use laws::pieces_are_the_text;
pub use runs::{Run, delete_range, insert_runs, insert_text, redo_all, undo_all};
pub use taking::{Taking, Untaken, is_had, is_refusal, take_in};
