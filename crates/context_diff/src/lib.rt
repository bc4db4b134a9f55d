//! Operations and books of them.
//!
//! A `Book` is a valid history: a list of operations in the order in which a site integrated them, each
//! of which might come next after those before it.
#![tactic(auto)]

mod book;
mod closed_part;
mod coverage;
mod gathering;
mod groups;
mod growth;
mod judged;
mod laws;
mod letters;
mod next_op;
mod op;
mod tally;

pub use book::Book;
pub use coverage::{base_context, closed};
pub use gathering::difference;
pub use growth::reserve_one;
pub use laws::{difference_is_ready, last_may_be_taken_out, two_may_be_taken_out};
pub use letters::{Letters, LettersBad};
pub use op::{Op, OpFault, PLACES, UNDO_ENTRIES};
