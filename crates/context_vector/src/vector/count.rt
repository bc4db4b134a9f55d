//! A site with its count, in 32 bits.

ghost use Rattle.std.specs.Prelude.{◌≡◌, ◌<◌, ◌≤◌, ◌^◌, ◌↔◌, IsTrue};
ghost use Rattle.context_vector.specs.Equality.{count_eq, count_per, count_equiv};

use std::marker::Model;

/// A site with the number of its originals in a set, side by side in 32 bits: a list of them takes half of the room that pairs take,
/// and two lists are compared several counts at a time.
#[derive(Clone, Copy, Debug)]
pub struct Count {
    bits: u32,
}

impl Model for Count {
    ghost use Rattle.std.specs.Prelude.{ℕ, ◌+◌, ◌*◌, ◌/◌, ◌%◌, ◌^◌};
    ghost use Rattle.context_vector.specs.Code.Packed.{count_again};

    ghost Value = { ℕ × ℕ };

    ghost view = { λ c. (c.bits / 2 ^ 20, c.bits % 2 ^ 20) };

    ghost inverse = { λ p. record { bits = p.0 * 2 ^ 20 + p.1 } };

    ghost inverse_ok = { λ c h i. record { bits = count_again c.bits i } };
}

impl Count {
    /// The site, below 4,096, and the number, below 1,048,576, side by side.
    pub fn new(site: u16, number: u32) -> Count
        requires site { site < 2 ^ 12 }
        requires number { number < 2 ^ 20 }
        ensures { result ≡ (site, number) }
    {
        Count {
            bits: u32::from(site) * 1_048_576 + number,
        }
    }

    /// The site with the number.
    pub fn pair(&self) -> (u16, u32)
        ensures { result ≡ self.now }
    {
        (self.site(), self.number())
    }

    /// The site.
    pub fn site(&self) -> u16
        ensures { result ≡ self.now.0 }
    {
        (self.bits >> 20) as u16
    }

    /// Whether the other is of the same site, and counts no less.
    pub fn is_at_most(&self, other: &Count) -> bool
        ensures { IsTrue result ↔ ((self.now.0 ≡ other.now.0) × (self.now.1 ≤ other.now.1)) }
    {
        (self.bits >> 20 == other.bits >> 20) & (self.bits <= other.bits)
    }

    /// The number of originals.
    pub fn number(&self) -> u32
        ensures { result ≡ self.now.1 }
    {
        self.bits % 1_048_576
    }
}

impl PartialEq for Count {
    ghost eq = { count_eq };

    ghost laws = { count_per };

    fn eq(&self, other: &Count) -> bool {
        self.bits == other.bits
    }
}

impl Eq for Count {
    ghost laws = { count_equiv };
}
