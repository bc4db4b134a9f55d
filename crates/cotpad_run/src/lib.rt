//! The whole program but its `main`: a script or a log comes in, and a report, a text or a log goes out.
//!
//! `run` is the program over any source, sink and wire. Each command has its row in the relation of words to commands, a
//! definition of what it replies or writes, and a file of its own here, in `log_replies` or in `log_listings`; its table says
//! which answer comes when, and what it leaves.
#![tactic(auto)]

mod command;
mod generator;
mod help;
mod laws;
mod looped;
mod meeting;
mod refusals;
mod replay;
mod saying;
mod version;
mod whole;

pub use command::MAX_PORT;
pub use generator::GENERATED_SITES;
pub use log_replies::{Status, code_of};
pub use looped::{LOOP_EVENTS, LOOP_SITES};
pub use whole::run;
