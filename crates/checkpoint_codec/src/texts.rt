//! Reading the texts of inserts.

ghost use Rattle.std.specs.Prelude.{◌≡◌, ◌≤◌, length, IfOk, IfErr};
ghost use Rattle.wire_codec.specs.Reading.{character_at, characters_at, length_at};
ghost use Rattle.checkpoint_codec.specs.Code.Reads.{after, IsRead};

use crate::flaw::{Flaw, Stop};
use crate::left::Left;
use context_diff::{Letters, LettersBad};
use op_name::LETTERS;
use std::alloc::Global;
use wire_codec::Cause;

fn character(left: &mut Left) -> Result<char, Flaw>
    ensures { after result left.new ≡ character_at tt left.old }
{
    let offset = left.at();
    let code = left.number32()?;
    match char::from_u32(code) {
        Some(ch) => Ok(ch),
        None => Err(Flaw {
            cause: Cause::Char,
            offset,
        }),
    }
}

/// How many characters an insert of this kind has.
pub(crate) fn text_len(left: &mut Left, kind: u8) -> Result<u16, Flaw>
    ensures read { after result left.new ≡ length_at kind left.old }
    ensures some { IfOk result (λ n. 1 ≤ n) }
    ensures most { IfOk result (λ n. n ≤ LETTERS) }
{
    if kind == 1 {
        Ok(1)
    } else {
        left.bounded16(2, LETTERS, Cause::Range)
    }
}

// So many characters.
fn characters(alloc: Global, left: &mut Left, len: u16) -> Result<Vec<char>, Stop>
    ensures read { IsRead (λ v. v.items) result left.new (characters_at len left.old) }
    ensures len { IfOk result (λ v. length v.items ≡ len) }
{
    let mut chars = Vec::with_capacity(alloc, usize::from(len))?;
    for _ in 0..len {
        let ch = character(left)?;
        chars.push(ch)?;
    }
    Ok(chars)
}

// The only character, which takes no memory.
fn one(left: &mut Left) -> Result<Letters, Flaw>
    ensures { after result left.new ≡ characters_at 1 left.old }
{
    let ch = character(left)?;
    Ok(Letters::one(ch))
}

// These characters as a text.
fn letters(alloc: Global, chars: &[char]) -> Result<Letters, Stop>
    requires some { 1 ≤ length chars.now }
    requires most { length chars.now ≤ LETTERS }
    ensures text { IfOk result (λ text. text ≡ chars.now) }
    ensures stop { IfErr result (λ why. why ≡ Stop.Memory) }
{
    match Letters::new(alloc, chars) {
        Ok(text) => Ok(text),
        Err(LettersBad::Memory) => Err(Stop::Memory),
        Err(LettersBad::Empty | LettersBad::Long) => unreachable!(),
    }
}

// Two characters and more.
fn several(alloc: Global, left: &mut Left, len: u16) -> Result<Letters, Stop>
    requires some { 1 ≤ len }
    requires most { len ≤ LETTERS }
    ensures { IsRead (λ text. text) result left.new (characters_at len left.old) }
{
    let chars = characters(alloc, left, len)?;
    letters(alloc, chars.as_slice())
}

/// A text of so many characters.
pub(crate) fn text(alloc: Global, left: &mut Left, len: u16) -> Result<Letters, Stop>
    requires some { 1 ≤ len }
    requires most { len ≤ LETTERS }
    ensures { IsRead (λ text. text) result left.new (characters_at len left.old) }
{
    if len == 1 {
        let text = one(left)?;
        return Ok(text);
    }
    several(alloc, left, len)
}
