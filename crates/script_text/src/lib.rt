//! The lines of scripts and of reports, as texts.
//!
//! A script line is the bytes of one line without its line feed; what it says is read by one call. A report
//! line is appended to the bytes of a report by a call of its own, with its line feed.
#![tactic(auto)]

mod reading;
mod report;

pub use reading::{
    Chars, LONGEST, Line, LineBad, LineStream, MAX_SCRIPT, Octets, each_line_has_a_spelling,
    lines_stay_the_same, parse_line, parse_long, parse_member, parse_name, parse_number,
    parse_site, read_set, spells_set,
};
pub use report::{
    Event, Refusal, base_line, local_line, op_line, put_form, put_made, raw_bad_line,
    raw_more_line, refused_line, shown_lines, state_line, step_line, verdict_line,
};
