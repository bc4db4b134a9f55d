//! Frames: operations as bytes.
//!
//! A frame is the one spelling of a well-formed operation in a version of the format: four bytes of length and a body of that
//! length. `encode` writes it in version 1, `encode2` in version 2. `scan` and `decode`, and `scan2` and `decode2`, judge bytes from
//! anywhere: they begin with a frame, or more bytes are needed to tell, or they are bad, with a cause and the offset of the first fault.
//! All numbers are big-endian.
#![tactic(auto)]

mod answers;
mod cause;
mod context_answers;
mod fault;
mod front;
mod head;
mod heads;
mod laws;
mod left;
mod limits;
mod listing;
mod lone_contexts;
mod originals;
mod rules;
mod run_reading;
mod run_writing;
mod runs;
mod sections;
mod state_answers;
mod states;
mod stream;
mod texts;
mod vectors;
mod version;
mod writing;

pub use answers::{Decoded, Scan};
pub use cause::Cause;
pub use context_answers::DecodedContext;
pub use front::{decode, decode_in, decode2, scan, scan_in, scan2};
pub use laws::{a_fault_stays, frames_apart, judgement_is_the_frames, whole_stream};
pub use lone_contexts::{decode_context, encode_context};
pub use rules::{LONGEST_BODY, LONGEST_BODY_TWO};
pub use state_answers::{DecodedState, StateScan};
pub use states::{decode_state, scan_state};
pub use stream::{FrameStream, StreamBad};
pub use version::Version;
pub use writing::{encode, encode_state, encode2, fits1};
