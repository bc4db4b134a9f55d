//! Cells, by the inserts that put them.

ghost use Rattle.std.specs.Prelude.{◌≡◌, ◌&&◌, ◌==◌};
ghost use Rattle.op_name.specs.NameData.{name_eq};
ghost use Rattle.op_name.specs.declared.member.Member.TheVariants.{Original};
ghost use Rattle.context_vector.specs.Contexts.{has};
ghost use Rattle.context_diff.specs.Replays.{of_name, first_of};

use context_vector::Vector;
use op_name::{Member, Name};
use std::marker::Model;

/// Which cell: its insert's name, and its offset among the cells of that insert, from 0.
#[derive(Drop)]
pub struct CellName {
    name: Name,
    offset: u16,
}

impl Model for CellName {
    ghost use Rattle.context_diff.specs.Replays.{Cell};

    ghost Value = { Cell };

    ghost view = { λ c. (c.name, c.offset) };
}

impl CellName {
    /// The cell of this insert at this offset.
    pub fn new(name: Name, offset: u16) -> CellName
        ensures { result ≡ (name, offset) }
    {
        CellName { name, offset }
    }

    /// The name of the cell's insert.
    pub fn name(&self) -> &Name
        ensures { result.now ≡ self.now.0 }
    {
        &self.name
    }

    /// Which of its insert's cells it is, from 0.
    pub fn offset(&self) -> u16
        ensures { result ≡ self.now.1 }
    {
        self.offset
    }

    /// Whether the insert of this name put the cell.
    pub fn is_of(&self, name: &Name) -> bool
        ensures { result ≡ of_name name.now self.now }
    {
        *name == self.name
    }

    /// Whether it is the first cell of the insert of this name.
    pub fn is_first_of(&self, name: &Name) -> bool
        ensures { result ≡ first_of name.now self.now }
    {
        self.is_of(name) && self.offset == 0
    }

    /// Whether the context holds the cell's insert.
    pub fn is_in(&self, context: &Vector) -> bool
        ensures { result ≡ has context.now.set (Original self.now.0) }
    {
        context.contains(&Member::Original(self.name))
    }

    /// Whether it is the same cell.
    pub fn is(&self, other: &CellName) -> bool
        ensures { result ≡ (name_eq self.now.0 other.now.0 && (self.now.1 == other.now.1)) }
    {
        self.name == other.name && self.offset == other.offset
    }
}
