//! Vectors: sets of members of a session's history.
//!
//! A `Vector` *is* a set of members that holds, with the n-th original of a site, all earlier ones of that
//! site, and with an undo group of a name, all groups of that name at lower generations. It is kept as a
//! count for each site that wrote and a greatest generation for each undone name.
#![tactic(auto)]

mod vector;

pub use vector::{AddBad, Count, Entry, Names, SiteCounts, Vector};
