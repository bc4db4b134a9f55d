//! Operations that wait.
//!
//! A `Pool` *is* a list of operations in the order in which they arrived, no two of them equal: those of a
//! site that came before their contexts. It finds the first of them that waits for nothing any more.
#![tactic(auto)]

mod names;
mod pool;
mod rows;
mod undos;

pub use pool::Pool;
