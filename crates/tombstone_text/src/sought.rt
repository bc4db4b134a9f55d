//! What a search among cells looks for, and what it finds of an insert.

ghost use Rattle.std.specs.Prelude.{◌≡◌};
ghost use Rattle.tombstone_text.specs.Code.Cells.{is_sought};

use crate::cell::{Cell, CellId};
use op_name::Name;

/// What some cells have of an insert of several: nothing, cells but perhaps not the last one, or the last one too.
#[derive(Clone, Copy, Drop)]
pub(crate) enum Found {
    Nothing,
    Cells,
    Last,
}

/// What is looked for: any cell of an insert, or a certain one.
#[derive(Clone, Copy, Drop)]
pub(crate) enum Sought {
    Any(Name),
    One(CellId),
}

impl Sought {
    /// Whether the cell is one that is looked for.
    pub(crate) fn is(&self, cell: &Cell<'_>) -> bool
        ensures { result ≡ is_sought self.now cell.now }
    {
        let id = cell.id();
        match self {
            Sought::Any(name) => id.name == *name,
            Sought::One(one) => id.name == one.name && id.offset == one.offset,
        }
    }
}
