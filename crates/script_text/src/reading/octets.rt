//! Bytes that a line spells in hexadecimal.

ghost use Rattle.std.specs.Prelude.{◌≡◌, ℕ, List, is_ok};
ghost use Rattle.hex.specs.Hex.{decode_of, is_hex_digit};

use crate::reading::line::LineBad;
use hex::FromHexError;
use std::alloc::Global;
use std::marker::Model;

/// The bytes of a line `raw` or `raw2`, in their order.
#[derive(Debug, Drop)]
pub struct Octets {
    list: Vec<u8>,
}

impl Model for Octets {
    ghost Value = { List ℕ };

    ghost view = { λ o. o.list.items };
}

impl Octets {
    ghost use Rattle.script_text.specs.Fields.{octets_of};
    ghost use Rattle.script_text.specs.Answers.{FormAnswers};

    /// The bytes that a field spells in hexadecimal, two digits each in either case; one byte at least.
    #[tactic(auto, using(crate::proofs::HexLaws::octets_there, crate::proofs::HexLaws::octets_none), unfolding(crate::specs::Fields::octets_of))]
    pub(crate) fn of_hex(alloc: Global, field: &str) -> Result<Octets, LineBad>
        ensures { FormAnswers result (octets_of field.now) }
    {
        if field.is_empty() {
            return Err(LineBad::Form);
        }
        match hex::decode(alloc, field) {
            Ok(list) => Ok(Octets { list }),
            Err(FromHexError::OutOfMemory) => {
                if is_hex(field.as_bytes()) {
                    Err(LineBad::Memory)
                } else {
                    Err(LineBad::Form)
                }
            }
            Err(_) => Err(LineBad::Form),
        }
    }

    /// The bytes, first to last.
    pub fn as_slice(&self) -> &[u8]
        ensures { result.now ≡ self.now }
    {
        self.list.as_slice()
    }
}

// Whether the bytes are pairs of hexadecimal digits, of either case.
#[tactic(auto, using(crate::proofs::HexLaws::hex_stops, crate::proofs::HexLaws::hex_goes_on, crate::proofs::HexLaws::hex_ends))]
fn is_hex(digits: &[u8]) -> bool
    ensures { result ≡ is_ok (decode_of digits.now) }
{
    if digits.len() % 2 == 1 {
        return false;
    }
    for &digit in digits {
        if !is_digit(digit) {
            return false;
        }
    }
    true
}

fn is_digit(digit: u8) -> bool
    ensures { result ≡ is_hex_digit digit }
{
    if b'A' <= digit && digit <= b'F' {
        true
    } else if b'a' <= digit && digit <= b'f' {
        true
    } else {
        b'0' <= digit && digit <= b'9'
    }
}
