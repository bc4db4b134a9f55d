//! The part of the bytes that is not read yet.

ghost use Rattle.std.specs.Prelude.{◌≡◌, ◌+◌, ◌<◌, ◌^◌, ◌≤◌, length, IfOk};
ghost use Rattle.std.specs.Int.{w8, w16, w32};
ghost use Rattle.wire_codec.specs.Reading.{left_at, want, number, bounded};
ghost use Rattle.checkpoint_codec.specs.Code.Reads.{after, flawed};

use crate::flaw::Flaw;
use std::marker::Model;
use wire_codec::Cause;

/// The bytes that are left, and the offset of the first of them.
#[derive(Drop)]
pub(crate) struct Left<'a> {
    at: u32,
    bytes: &'a [u8],
}

impl<'a> Model for Left<'a> {
    ghost use Rattle.std.specs.Prelude.{◌+◌, ◌<◌, ◌^◌, length};
    ghost use Rattle.wire_codec.specs.Reading.{LeftData};

    ghost Value = { LeftData };

    ghost view = { λ l. record { at = l.at; bytes = l.bytes.now } };

    ghost invariant = { λ l. l.at + length l.bytes.now < 2 ^ 32 };
}

/// The fault, unless the fact holds.
pub(crate) fn check(holds: bool, cause: Cause, offset: u32) -> Result<(), Flaw>
    ensures { flawed result ≡ want holds cause offset }
{
    if holds {
        Ok(())
    } else {
        Err(Flaw { cause, offset })
    }
}

impl<'a> Left<'a> {
    pub(crate) fn new(at: u32, bytes: &'a [u8]) -> Left<'a>
        requires { at + length bytes.now < 2 ^ 32 }
        ensures { result ≡ left_at at bytes.now }
    {
        Left { at, bytes }
    }

    /// The offset of the next byte.
    pub(crate) fn at(&self) -> u32
        ensures { result ≡ self.now.at }
    {
        self.at
    }

    pub(crate) fn number8(&mut self) -> Result<u8, Flaw>
        ensures { after result self.new ≡ number w8 self.old }
    {
        check(self.bytes.len() >= 1, Cause::Length, self.at)?;
        let (front, rest) = self.bytes.split_at(1);
        self.at += 1;
        self.bytes = rest;
        Ok(front[0])
    }

    pub(crate) fn number16(&mut self) -> Result<u16, Flaw>
        ensures { after result self.new ≡ number w16 self.old }
    {
        check(self.bytes.len() >= 2, Cause::Length, self.at)?;
        let (front, rest) = self.bytes.split_at(2);
        self.at += 2;
        self.bytes = rest;
        Ok(u16::from_be_bytes([front[0], front[1]]))
    }

    pub(crate) fn number32(&mut self) -> Result<u32, Flaw>
        ensures { after result self.new ≡ number w32 self.old }
    {
        check(self.bytes.len() >= 4, Cause::Length, self.at)?;
        let (front, rest) = self.bytes.split_at(4);
        self.at += 4;
        self.bytes = rest;
        Ok(u32::from_be_bytes([front[0], front[1], front[2], front[3]]))
    }

    pub(crate) fn bounded16(&mut self, low: u16, high: u16, cause: Cause) -> Result<u16, Flaw>
        ensures read { after result self.new ≡ bounded w16 low high cause self.old }
        ensures within { IfOk result (λ n. n ≤ high) }
    {
        let start = self.at;
        let n = self.number16()?;
        check(low <= n && n <= high, cause, start)?;
        Ok(n)
    }

    pub(crate) fn bounded32(&mut self, low: u32, high: u32, cause: Cause) -> Result<u32, Flaw>
        ensures { after result self.new ≡ bounded w32 low high cause self.old }
    {
        let start = self.at;
        let n = self.number32()?;
        check(low <= n && n <= high, cause, start)?;
        Ok(n)
    }
}
