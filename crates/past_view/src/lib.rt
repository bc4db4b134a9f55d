//! What a text was, and where its places are.
//!
//! The text at each closed set of members of a site's history is read from the cells that the site has: it leaves out those whose
//! insert isn't in the set, and those that the undos and deletes in the set hide. The texts after each operation of the history are
//! played by executing its forms again, one after the other. And a place of a text is seen as a line and a column, and these as the
//! place. The crate has no value of its own.
#![tactic(auto)]

mod counted;
mod laws;
mod lines;
mod past;
mod player;
mod playing;

pub use laws::one_place;
pub use lines::{line_of_place, place_of_line};
pub use past::{AtBad, text_at};
pub use playing::{PlayBad, playback, text_before};
