//! A site that exchanges with another one over a wire.
//!
//! `serve` waits for a peer, `join` goes to one, and `loop_run` lets two sites of this process exchange over the pair of a
//! wire. Each reads and writes the messages of an exchange, takes in what it lacked, and shuts what it linked. A message is
//! read up to its last byte and not past it.
#![tactic(auto)]

mod carrying;
mod joining;
mod looping;
mod node;
mod receiving;
mod sending;
mod serving;

pub use joining::join;
pub use looping::loop_run;
pub use node::Node;
pub use serving::serve;
