//! The text of an insert, lent as it lies in a frame.

ghost use Rattle.std.specs.Prelude.{◌≡◌, ◌*◌, ◌≤◌, ◌∷◌, [], true, length, IfSome};
ghost use Rattle.std.specs.Iterator.{YieldsFirst, item_count};
ghost use Rattle.std.specs.Str.{all_scalars};
ghost use Rattle.wire_codec.specs.Reading.{after, length_at, character_at, characters_at};
ghost use Rattle.wire_codec.specs.Code.Elements.{elements, character_len, raw_character};

use crate::cause::Cause;
use crate::fault::Fault;
use crate::left::Left;
use op_name::LETTERS;
use std::marker::Model;

pub(crate) const CHARACTER_LEN: usize = 4;

/// Characters side by side, seen as the list of those that are left.
#[derive(Drop)]
pub struct Characters<'a> {
    len: u16,
    bytes: &'a [u8],
}

impl<'a> Model for Characters<'a> {
    ghost use Rattle.std.specs.Prelude.{◌≡◌, ℕ, List, ◌*◌, ◌≤◌, true, length};
    ghost use Rattle.std.specs.Str.{all_scalars};
    ghost use Rattle.wire_codec.specs.Code.Elements.{elements, character_len, raw_character};

    ghost Value = { List ℕ };

    ghost view = { λ c. elements raw_character character_len c.len c.bytes.now };

    ghost invariant = { λ c. (character_len * c.len ≤ length c.bytes.now)
        × (all_scalars (elements raw_character character_len c.len c.bytes.now) ≡ true) };
}

impl<'a> Characters<'a> {
    pub(crate) fn new(len: u16, bytes: &'a [u8]) -> Characters<'a>
        requires long { character_len * len ≤ length bytes.now }
        requires scalars { all_scalars (elements raw_character character_len len bytes.now) ≡ true }
        ensures { result ≡ elements raw_character character_len len bytes.now }
    {
        Characters { len, bytes }
    }

    /// The same characters once more.
    pub(crate) fn again(&self) -> Characters<'a>
        ensures { result ≡ self.now }
    {
        Characters {
            len: self.len,
            bytes: self.bytes,
        }
    }

    /// How many are left.
    #[tactic(auto, using(crate::proofs::Elements::length_elements))]
    pub(crate) fn len(&self) -> u16
        ensures { result ≡ length self.now }
    {
        self.len
    }
}

impl<'a> Iterator for Characters<'a> {
    type Item = char;

    ghost next_gives = { YieldsFirst (λ rest. rest) };

    ghost remaining = { item_count (λ rest. rest) };

    // Each number of these is a character, so the last line finds one.
    #[tactic(auto, using(crate::proofs::Elements::elements_none, crate::proofs::Elements::elements_step))]
    fn next(&mut self) -> Option<char> {
        if self.len == 0 {
            return None;
        }
        let (first, rest) = self.bytes.split_at(CHARACTER_LEN);
        self.len -= 1;
        self.bytes = rest;
        char::from_u32(u32::from_be_bytes([first[0], first[1], first[2], first[3]]))
    }
}

fn character(left: &mut Left) -> Result<char, Fault>
    ensures { after result left.new ≡ character_at tt left.old }
{
    let offset = left.at();
    let code = left.number32()?;
    match char::from_u32(code) {
        Some(ch) => Ok(ch),
        None => Err(Fault {
            cause: Cause::Char,
            offset,
        }),
    }
}

/// How many characters an insert of this kind has.
pub(crate) fn text_len(left: &mut Left, kind: u8) -> Result<u16, Fault>
    ensures { after result left.new ≡ length_at kind left.old }
{
    if kind == 1 {
        Ok(1)
    } else {
        left.bounded16(2, LETTERS, Cause::Range)
    }
}

/// So many characters, which stay where they are.
pub(crate) fn characters_of<'a>(left: &mut Left<'a>, len: u16) -> Result<Characters<'a>, Fault>
    ensures { after result left.new ≡ characters_at len left.old }
{
    let bytes = left.bytes();
    for _ in 0..len {
        character(left)?;
    }
    Ok(Characters::new(len, bytes))
}
