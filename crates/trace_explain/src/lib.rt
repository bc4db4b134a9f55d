//! Traces: the steps that derive the form in which an operation is executed.
//!
//! A trace *is* a list of lines, each of which says in which form a member stands at a context: a base says the
//! member's base form at its base context, and a step includes the form of one earlier line in that of another, whose
//! contexts are equal (COT 2009). The last line has the form in which the operation was executed.
#![tactic(auto)]

mod checking;
mod contexts;
mod laws;
mod line;
mod listing;
mod row;
mod same;
mod tasks;
mod tracing;
mod work;

pub use checking::check_trace;
pub use laws::{ends_in_executed_form, one_trace};
pub use line::TraceLine;
pub use tracing::trace;
