//! Tests of a site and of what stands on it (histories, frames, logs, scripts, messages, exchanges, drawn sessions), by
//! calls that no command reaches: single fields, forms, measures, streams that are fed by hand, and each law once.
//!
//! What a command shows of its words and its input is a row of a table, and no test.
#![tactic(auto)]

#[cfg(test)]
mod cached;
#[cfg(test)]
mod calls;
#[cfg(test)]
mod checkpoints;
#[cfg(test)]
mod derived;
#[cfg(test)]
mod drawn;
#[cfg(test)]
mod edits;
#[cfg(test)]
mod frames;
#[cfg(test)]
mod generated;
#[cfg(test)]
mod histories;
#[cfg(test)]
mod judged;
#[cfg(test)]
mod laws;
#[cfg(test)]
mod logs;
#[cfg(test)]
mod made;
#[cfg(test)]
mod marks;
#[cfg(test)]
mod messages;
#[cfg(test)]
mod participants;
#[cfg(test)]
mod printed;
#[cfg(test)]
mod scripts;
#[cfg(test)]
mod streams;
#[cfg(test)]
mod wires;
