//! Logs: a session as bytes that outlive it.
//!
//! A log *is* the header of a version and, after it, the frames of operations in that version: those that a site integrated, in the
//! order of integration, and then those that wait, in the order of arrival. `write_log` writes it, in version 2, `load` makes a site
//! of it, and `read_log` lists its operations with their offsets. A reader takes a log of either version, and frames in any order.
//!
//! `LogReader` takes in a log that comes in pieces, cut anywhere, and ends with the site, or the refusal, that `load` answers for
//! all of it.
#![tactic(auto)]

mod front;
mod headers;
mod intake;
mod laws;
mod left;
mod loading;
mod log_bad;
mod next_frame;
mod placed;
mod reader;
mod reading;
mod stream;
mod words;
mod writing;

pub use headers::{HEADER_LEN, header};
pub use laws::{
    logs_have_no_fault, one_fault, one_loading, one_reading, one_refusal, round_trip,
    what_is_kept_decides,
};
pub use loading::{load, take_in};
pub use log_bad::LogBad;
pub use placed::Placed;
pub use reader::LogReader;
pub use reading::{MAX_LOG, read_log};
pub use words::refused_log_line;
pub use writing::write_log;
