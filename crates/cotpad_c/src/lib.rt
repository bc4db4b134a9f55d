//! The core for hosts in C, and in languages that call C.
//!
//! A host has a handle of each site, and calls the exports with it. A handle *is* nothing, or a site with what the last call
//! released. Each export states again what the call of the site promises; `include/cotpad.h` says it in words, and what a host
//! owes.
//!
//! A call that can change the site releases what is ready before it answers, and tells what it released; so a site whose calls
//! had memory enough is settled between them, and what is saved is loaded again.
#![tactic(auto)]

mod anchors;
mod cause;
mod changes;
mod edits;
mod exchange;
mod exports;
mod frames;
mod handle;
mod hosted;
mod kinds;
mod lending;
mod making;
mod operation;
mod parts;
mod pasts;
mod positions;
mod ranges;
mod reading;
mod receiving;
mod refusals;
mod runs;
mod sets;
mod spelling;
mod status;
#[cfg(test)]
mod tests;
mod turns;
mod verdict;
