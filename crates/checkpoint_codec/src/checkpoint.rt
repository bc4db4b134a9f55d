//! Checkpoints.

ghost use Rattle.std.specs.Prelude.{◌≡◌};

use crate::placed::Placed;
use context_vector::Entry;
use std::marker::Model;

/// The originals of a history in order, without their contexts, and the undone names, rising, each with its greatest generation.
#[derive(Drop)]
pub struct Checkpoint {
    originals: Vec<Placed>,
    undone: Vec<Entry>,
}

impl Model for Checkpoint {
    ghost use Rattle.flat_history.specs.Checkpoints as flat;

    ghost Value = { flat.Checkpoint };

    ghost view = { λ c. record { originals = c.originals.items; undone = c.undone.items } };
}

impl Checkpoint {
    /// These originals, and these undone names with their generations.
    pub fn new(originals: Vec<Placed>, undone: Vec<Entry>) -> Checkpoint
        ensures originals { result.originals ≡ originals.items }
        ensures undone { result.undone ≡ undone.items }
    {
        Checkpoint { originals, undone }
    }

    /// The originals, in order.
    pub fn originals(&self) -> &[Placed]
        ensures { result.now ≡ self.now.originals }
    {
        self.originals.as_slice()
    }

    /// The undone names with their greatest generations, rising.
    pub fn undone(&self) -> &[Entry]
        ensures { result.now ≡ self.now.undone }
    {
        self.undone.as_slice()
    }
}
