//! An undone name with its greatest generation, in 64 bits.

ghost use Rattle.std.specs.Prelude.{◌≡◌};
ghost use Rattle.context_vector.specs.Equality.{entry_eq, entry_per, entry_equiv};

use op_name::Name;
use std::marker::Model;

/// An undone name with its greatest generation in a set, side by side in 64 bits, which are compared at once.
#[derive(Clone, Copy, Debug)]
pub struct Entry {
    bits: u64,
}

impl Model for Entry {
    ghost use Rattle.std.specs.Prelude.{ℕ, ◌+◌, ◌*◌, ◌/◌, ◌%◌, ◌^◌};
    ghost use Rattle.op_name.specs.NameData.{NameData, IsName};
    ghost use Rattle.context_vector.specs.Code.Packed.{entry_again};

    ghost Value = { NameData × ℕ };

    ghost view = { λ e. (record { site = e.bits / 2 ^ 36; number = e.bits / 2 ^ 16 % 2 ^ 20 }, e.bits % 2 ^ 16) };

    ghost invariant = { λ e. IsName (e.bits / 2 ^ 36) (e.bits / 2 ^ 16 % 2 ^ 20) };

    ghost inverse = { λ e. record { bits = (e.0.site * 2 ^ 20 + e.0.number) * 2 ^ 16 + e.1 } };

    ghost inverse_ok = { λ e h i. record { bits = entry_again e.bits i } };
}

impl Entry {
    /// The name and the generation side by side.
    pub fn new(name: Name, generation: u16) -> Entry
        ensures { result ≡ (name, generation) }
    {
        name.known();
        Entry {
            bits: (u64::from(name.site) * 1_048_576 + u64::from(name.number)) * 65_536
                + u64::from(generation),
        }
    }

    /// The name with the generation.
    pub fn pair(&self) -> (Name, u16)
        ensures { result ≡ self.now }
    {
        (self.name(), self.generation())
    }

    /// The name.
    pub fn name(&self) -> Name
        ensures { result ≡ self.now.0 }
    {
        Name {
            site: (self.bits >> 36) as u16,
            number: (self.bits >> 16) as u32 % 1_048_576,
        }
    }

    /// The generation.
    pub fn generation(&self) -> u16
        ensures { result ≡ self.now.1 }
    {
        (self.bits % 65_536) as u16
    }
}

impl PartialEq for Entry {
    ghost eq = { entry_eq };

    ghost laws = { entry_per };

    fn eq(&self, other: &Entry) -> bool {
        self.bits == other.bits
    }
}

impl Eq for Entry {
    ghost laws = { entry_equiv };
}
