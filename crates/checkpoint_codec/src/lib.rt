//! Checkpoints as bytes: a history without its contexts.
//!
//! A `Checkpoint` *is* the originals of a history in order, each with its place among all cells that those before it put, and the undone
//! names with their greatest generations. `write_checkpoint` writes the one spelling of it, and `read_checkpoint` judges bytes from
//! anywhere: they begin with a checkpoint, or they are refused with a cause and an offset. Frames of later operations, of version 2, may
//! follow it to the end; `check_frames` tells the first fault among them. All numbers are big-endian.
#![tactic(auto)]

mod checkpoint;
mod fields;
mod flaw;
mod frames;
mod left;
mod originals;
mod placed;
mod reading;
mod refusal;
mod texts;
mod undone;
mod writing;

pub use checkpoint::Checkpoint;
pub use frames::check_frames;
pub use placed::Placed;
pub use reading::{Front, read_checkpoint};
pub use refusal::CheckpointBad;
pub use undone::GROUPS;
pub use writing::write_checkpoint;
