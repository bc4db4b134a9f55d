//! Histories without their contexts.
//!
//! A checkpoint tells the originals of a history in order, each at the place at which it was executed, and how
//! often each was undone. It is opened as a flat history, in which each original was made after all before it. This crate has no
//! value of its own: it shows that a history and its flat one show the same, also when later operations follow.
#![tactic(auto)]

mod laws;

pub use laws::{checkpoints_are_valid, flat_extends, flat_is_alike, histories_have_checkpoints};
