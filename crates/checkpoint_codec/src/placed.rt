//! Originals without their contexts.

ghost use Rattle.std.specs.Prelude.{◌≡◌, Some, None, option_copied};
ghost use Rattle.flat_history.specs.Checkpoints.{inserted, deleted, name_of};
ghost use Rattle.checkpoint_codec.specs.Code.Views.{placed_as, place_of, text_of};

use context_diff::Letters;
use op_name::Name;
use std::marker::Model;

/// An insert or a delete without its context. Its place counts, from 0, all cells that the originals before it put.
#[derive(Drop)]
pub struct Placed {
    name: Name,
    place: u32,
    text: Option<Letters>,
}

impl Model for Placed {
    ghost use Rattle.flat_history.specs.Checkpoints as flat;
    ghost use Rattle.checkpoint_codec.specs.Code.Views.{placed_as};

    ghost Value = { flat.Placed };

    ghost view = { λ p. placed_as p.name p.place p.text };
}

impl Placed {
    /// An insert of this text.
    pub fn insert(name: Name, place: u32, text: Letters) -> Placed
        ensures { result ≡ inserted name place text }
    {
        Placed {
            name,
            place,
            text: Some(text),
        }
    }

    /// A delete.
    pub fn delete(name: Name, place: u32) -> Placed
        ensures { result ≡ deleted name place }
    {
        Placed {
            name,
            place,
            text: None,
        }
    }

    /// The name.
    pub fn name(&self) -> Name
        ensures { result ≡ name_of self.now }
    {
        self.name
    }

    /// The place: an insert puts its cells before the cell there, or after the last one, and a delete hides it.
    pub fn place(&self) -> u32
        ensures { result ≡ place_of self.now }
    {
        self.place
    }

    /// The text of an insert, and None for a delete.
    pub fn text(&self) -> Option<&Letters>
        ensures { option_copied result ≡ text_of self.now }
    {
        self.text.as_ref()
    }
}
