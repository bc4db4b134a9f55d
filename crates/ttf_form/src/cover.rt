//! Covers, with the marks that they leave.

use op_name::Name;

/// What a cover leaves on its cell.
///
/// `Own` raises the generation of the cell's own insert to at least `generation`; `By` records the delete
/// `name` among the cell's deleters, at `generation` or above. A delete itself has generation 0; an odd
/// generation is an undo, an even one above 0 a redo.
#[derive(Clone, Copy, Debug, PartialEq, Eq, Hash)]
pub enum Mark {
    Own { generation: u16 },
    By { name: Name, generation: u16 },
}

/// A mark for the cell at a place, which counts all cells, shown or hidden, from 0. It stands for deletes,
/// undos and redos alike.
#[derive(Clone, Copy, Debug, PartialEq, Eq, Hash)]
pub struct Cover {
    pub place: u32,
    pub mark: Mark,
}
