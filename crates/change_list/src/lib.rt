//! By which changes an old list became a new one.
//!
//! A `Change` is a place, how many elements are taken away there, and how many come in. Changes are made one after the other, from
//! left to right, each in what the changes before it left; so what comes in stands in the new list at the place of its change.
#![tactic(auto)]

mod change;
mod laws;
mod telling;
#[cfg(test)]
mod tests;

pub use change::Change;
pub use laws::told_are_changes;
pub use telling::tell;
