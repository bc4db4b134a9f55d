//! Places of a site's shown text as editors count them, and back.
//!
//! A place of the shown text is a number of characters in front of it, from 0 on. Editors tell it by an offset, in bytes of UTF-8 or in
//! units of UTF-16, or by a line and a column. Both are found by sums that are kept over the chunks of the text, and within one chunk by
//! its characters. The crate has no value of its own.
#![tactic(auto)]

mod characters;
mod laws;
mod lines;
mod offsets;
mod shown;

pub use laws::one_place;
pub use lines::{line_of, place_in};
pub use offsets::{offset_of, place_at};
