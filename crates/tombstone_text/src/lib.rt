//! The cells of a text: the characters that inserts put, in the order in which they stand, shown or hidden.
//!
//! A `Cells` is a list of cells beside a list of as many characters. Each cell has the name of its insert, its offset
//! among the cells of that insert, and the marks that covers left on it. Forms are applied to it: an insert adds its
//! cells with their characters, a cover marks one, or all that one insert added, and no cell ever goes, so that places
//! keep their meaning. A hidden cell is a tombstone.
//!
//! The cells are kept in chunks, each in spans of cells that follow one another, with a column of flags that tell which of
//! its cells are shown, and one of characters; the calls on chunks lend these to those that look for shown cells and
//! write them.
#![tactic(auto)]

mod cell;
mod cells;
mod chunk;
mod chunk_cells;
mod chunks;
mod counts;
mod deleters;
mod measure;
mod sought;
mod span;
mod spans;
mod sums;
mod weights;

pub use cell::{Cell, CellId};
pub use cells::Cells;
pub use chunk_cells::ChunkCells;
pub use measure::Measure;
