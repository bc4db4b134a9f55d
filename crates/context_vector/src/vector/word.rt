//! Eight neighbouring names with the digits of their generations, in 64 bits.

ghost use Rattle.std.specs.Prelude.{◌≡◌, ◌<◌, ◌^◌};
ghost use Rattle.context_vector.specs.Code.Words.{digit, with_digit};
ghost use Rattle.context_vector.specs.Equality.{count_eq, count_per, count_equiv};

use std::marker::Model;

/// The undone ones of eight neighbouring names: the key of the eight, and eight digits to the base 16, side by side in 64 bits. Two lists
/// of them are compared several words at a time.
#[derive(Clone, Copy, Debug)]
pub struct Word {
    bits: u64,
}

impl Model for Word {
    ghost use Rattle.std.specs.Prelude.{ℕ, ◌+◌, ◌*◌, ◌/◌, ◌%◌, ◌^◌};
    ghost use Rattle.context_vector.specs.Code.Packed.{word_again};

    ghost Value = { ℕ × ℕ };

    ghost view = { λ w. (w.bits / 2 ^ 32, w.bits % 2 ^ 32) };

    ghost inverse = { λ p. record { bits = p.0 * 2 ^ 32 + p.1 } };

    ghost inverse_ok = { λ w h i. record { bits = word_again w.bits i } };
}

impl Word {
    /// The key and the digits side by side.
    pub fn new(key: u32, digits: u32) -> Word
        ensures { result ≡ (key, digits) }
    {
        Word {
            bits: u64::from(key) * 4_294_967_296 + u64::from(digits),
        }
    }

    /// The key: the code of the first name, over 8.
    pub fn key(&self) -> u32
        ensures { result ≡ self.now.0 }
    {
        (self.bits >> 32) as u32
    }

    /// The digits in one number, that of the first name lowest.
    pub fn digits(&self) -> u32
        ensures { result ≡ self.now.1 }
    {
        (self.bits % 4_294_967_296) as u32
    }

    /// The digit at the place.
    pub fn digit(&self, place: u32) -> u16
        requires { place < 8 }
        ensures digit { result ≡ digit self.now.1 place }
        ensures range { result < 16 }
    {
        ((self.digits() >> (4 * place)) % 16) as u16
    }

    /// The word with this digit at the place.
    pub fn with(&self, place: u32, digit: u16) -> Word
        requires place { place < 8 }
        requires digit { digit < 16 }
        ensures { result ≡ (self.now.0, with_digit self.now.1 place digit) }
    {
        let at = 4 * place;
        let had = u32::from(self.digit(place)) << at;
        Word::new(self.key(), self.digits() - had + (u32::from(digit) << at))
    }
}

impl PartialEq for Word {
    ghost eq = { count_eq };

    ghost laws = { count_per };

    fn eq(&self, other: &Word) -> bool {
        self.bits == other.bits
    }
}

impl Eq for Word {
    ghost laws = { count_equiv };
}
