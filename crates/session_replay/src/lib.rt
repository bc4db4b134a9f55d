//! Sessions of many sites: a script is done line by line, and its report is written.
//!
//! A session *is* the states of its sites and the list of messages that their local operations became. Each
//! line of a script is a list of steps, and each step is what one site does at once: a local operation, a
//! delivery or a release. The report is what the steps of all lines write.
#![tactic(auto)]

mod causes;
mod draws;
mod generated;
mod generator;
mod laws;
mod message;
mod releases;
mod script;
mod session;
mod sites;

pub use draws::{Draw, Draws};
pub use generated::Generated;
pub use generator::{MAX_EVENTS, MAX_WINDOW, generate};
pub use laws::{
    deliveries_settle, derived_reports_are_there, local_operations_settle, no_release_says_waits,
    one_derived_report, one_transcript, sessions_stay_sound, sites_stay_alone,
    transcripts_are_there,
};
pub use script::{Next, ScriptReader, replay};
pub use session::{Session, StepBad};
