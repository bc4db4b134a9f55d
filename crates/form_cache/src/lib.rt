//! Forms that were computed before, for the members and contexts that they are forms of.
//!
//! A `Cache` *is* a list of entries, the next to be dropped last, and a capacity. An entry is a key with its form, and
//! whether that is kept for one use. A `Key` *is* a member with a context.
#![tactic(auto)]

mod cache;
mod key;

pub use cache::{Cache, Kept};
pub use key::Key;
