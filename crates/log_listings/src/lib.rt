//! The commands `history` and `digest`: each reads the log of a site, and tells what its history is.
//!
//! `history` writes a line for each operation, so that a person finds what to undo. `digest` writes hashes by which two people see
//! whether their copies agree. A command says what it replies to the state (the trait `Replies`), and `answer` reads, replies and
//! writes; so the bytes of the log decide the reply.
#![tactic(auto)]

mod characters;
mod digesting;
mod hashing;
mod hits;
mod laws;
mod listing;
mod quoting;

pub use digesting::Digesting;
pub use laws::{each_content_is_told, members_are_listed, one_hit, same_operations_same_bytes};
pub use listing::Listing;
