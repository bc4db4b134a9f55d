//! Marks of characters: bold, italic and colour.
//!
//! `Marks` *are* marks of different names, each with the first and the last cell that it covers, and for each name how often its mark was
//! undone and redone. Anyone may undo and redo each. They stand beside the text of a site, and change nothing of it.
#![tactic(auto)]

mod kept;
mod laws;
mod making;
mod mark;
mod marks;
mod painting;
mod reading;
mod seeking;
mod spot;
mod taking;
mod value;

pub use laws::{
    any_order_is_one, covered_cells_stay, fit_marks_stay_fit, last_mark_is_last, no_marks_fit,
    same_operations_same_values, seen_cells_are_counted,
};
pub use making::RANKS;
pub use mark::Mark;
pub use marks::{MarkBad, Marks};
pub use taking::MarkVerdict;
pub use value::{COLOURS, Kind, Value, Values};
