//! Anchors: cursors that stay where they belong while others edit.
//!
//! A place of a text counts its shown characters, so it means something else after each edit. An anchor is beside a cell, which never
//! goes: it has a place at each site that has the cell, also where the cell is hidden. The crate has no value of its own.
#![tactic(auto)]

mod anchors;
mod laws;
mod many;
mod seen;
mod standing;

pub use anchors::{Anchor, Side, anchor_at, place_of};
pub use laws::each_cell_stands_once;
pub use many::places_of;
