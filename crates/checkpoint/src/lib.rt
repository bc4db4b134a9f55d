//! Sites without the contexts of their histories.
//!
//! `flatten` writes the checkpoint of a site: its originals in order, each at the place at which it was executed, and the undone names
//! with their greatest generations. The history that a checkpoint is opened as shows the same text, and takes the same later operations.
#![tactic(auto)]

mod flat_bad;
mod flattening;
mod originals;

pub use flat_bad::FlatBad;
pub use flattening::flatten;
