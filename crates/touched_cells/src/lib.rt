//! Which cells of a site's text its last operations touched.
//!
//! An insert touched the cells that it put, a delete the cell that it hit, and an undo or a redo those of the insert or delete that it is
//! of. Where each stands now is guessed from the forms in which the operations were executed, and then verified at the cells. So what a
//! new stretch of operations changed in a text is found without a look at all of it. And of the cell at a place it is told how many shown
//! ones stand in front. The crate has no value of its own.
#![tactic(auto)]

mod looking;
mod only;
mod places;
mod seeking;

pub use looking::look;
pub use only::{Touched, only_touched};
pub use places::touched;
