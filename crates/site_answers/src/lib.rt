//! What a site answers, and the words for it.
//!
//! A value of it is an answer: a `Verdict` on a delivered operation, a `Local` refusal of an operation that was to be
//! made, or a `Release` of one that waited.
#![tactic(auto)]

mod local;
mod members;
pub mod put;
mod reasons;
mod release;
mod verdict;
mod verdicts;

pub use local::Local;
pub use members::{put_group, put_member, put_name};
pub use reasons::put_reason;
pub use release::Release;
pub use verdict::Verdict;
pub use verdicts::put_verdict;
