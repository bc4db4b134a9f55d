//! What is kept of the lines that are left of an input.

ghost use Rattle.std.specs.Prelude.{◌≡◌, ◌+◌, ◌<◌, ◌≤◌, ◌^◌, ◌++◌, ◌∷◌, [], List, IfSome, IfNone, OnOk, OnErr, MatchOption, length, take, drop, min};
ghost use Rattle.script_text.specs.LeftLines.{LeftLine};
ghost use Rattle.script_text.specs.Streams.{lines_in, followed_by};
ghost use Rattle.script_text.specs.Code.Keeping.{lines_kept, with_part, with_end, AreKept, IsFrontOf, HasNoFeed, HasFrontLine, kept_of, size_of};

use crate::reading::parse::LONGEST;
use bytes::BytesMut;
use op_name::Memory;
use std::alloc::Global;
use std::collections::VecDeque;
use std::marker::Model;

// The most bytes that are kept of a line: one more than a line may have.
const MOST_KEPT: usize = LONGEST + 1;

/// The first bytes of each line, one line after the other; further bytes of a line are only counted.
#[derive(Drop)]
pub(crate) struct Kept {
    bytes: BytesMut,
    // the length of each line that a line feed ended
    ended: VecDeque<u32>,
    // the length of the line after them, which no line feed ended; 0 where there is none
    last: u32,
}

impl Model for Kept {
    ghost use Rattle.script_text.specs.KeptData.{KeptData};

    ghost Value = { KeptData };

    ghost use Rattle.script_text.specs.Code.Keeping.{AreKept};

    ghost view = { λ k. record { bytes = k.bytes.items; ended = k.ended.items; last = k.last } };

    ghost invariant = { λ k. AreKept (record { bytes = k.bytes.items; ended = k.ended.items; last = k.last }) };
}

/// The front line: its first bytes, and whether a line feed ended it.
#[derive(Drop)]
pub(crate) struct Front<'a> {
    pub(crate) bytes: &'a [u8],
    pub(crate) ended: bool,
}

impl Kept {
    /// No line; takes no memory.
    pub(crate) fn new(alloc: Global) -> Kept
        ensures { result ≡ record { bytes = []; ended = []; last = 0 } }
    {
        Kept {
            bytes: BytesMut::new(alloc),
            ended: VecDeque::new(alloc),
            last: 0,
        }
    }

    /// Appends the lines of a piece, of which the first goes on with a last line that none ended. A refused call leaves
    /// the lines as they were.
    pub(crate) fn add(&mut self, piece: &[u8]) -> Result<(), Memory>
        requires { self.old.last + length piece.now < 2 ^ 32 }
        ensures ok { OnOk result (lines_kept self.new ≡ followed_by (lines_kept self.old) (lines_in piece.now)) }
        ensures needed { OnErr result (0 < length piece.now) }
        ensures err { OnErr result (self.new ≡ self.old) }
    {
        let bytes = self.bytes.len();
        let ended = self.ended.len();
        let last = self.last;
        let done = self.add_lines(piece);
        if done.is_err() {
            self.cut_back(bytes, ended, last);
        }
        done
    }

    // The same, but a refused call may leave some of the piece after what was there.
    fn add_lines(&mut self, piece: &[u8]) -> Result<(), Memory>
        requires { self.old.last + length piece.now < 2 ^ 32 }
        ensures ok { OnOk result (lines_kept self.new ≡ followed_by (lines_kept self.old) (lines_in piece.now)) }
        ensures needed { OnErr result (0 < length piece.now) }
        ensures front { IsFrontOf self.old self.new }
    {
        let mut rest = piece;
        while let Some((part, after)) = split_line(rest) {
            rest = after;
            self.known();
            self.add_part(part)?;
            self.end_line()?;
        }
        self.known();
        self.add_part(rest)
    }

    // Bytes without a line feed go on with the last line.
    fn add_part(&mut self, part: &[u8]) -> Result<(), Memory>
        requires { self.old.last + length part.now < 2 ^ 32 }
        ensures ok { OnOk result (self.new ≡ with_part part.now self.old) }
        ensures needed { OnErr result (0 < length part.now) }
        ensures err { OnErr result (self.new ≡ self.old) }
    {
        let room = MOST_KEPT - kept_of(self.last);
        self.bytes.extend_from_slice(first(room, part))?;
        self.last += part.len() as u32;
        Ok(())
    }

    // A line feed ends the last line.
    fn end_line(&mut self) -> Result<(), Memory>
        ensures ok { OnOk result (self.new ≡ with_end self.old) }
        ensures err { OnErr result (self.new ≡ self.old) }
    {
        self.ended.push_back(self.last)?;
        self.last = 0;
        Ok(())
    }

    // Takes back what was added after so many bytes and lines.
    fn cut_back(&mut self, bytes: usize, ended: usize, last: u32)
        requires { AreKept (record { bytes = take bytes self.old.bytes; ended = take ended self.old.ended; last = last }) }
        ensures { self.new ≡ record { bytes = take bytes self.old.bytes; ended = take ended self.old.ended; last = last } }
    {
        self.bytes.truncate(bytes);
        self.ended.truncate(ended);
        self.last = last;
    }

    /// Nothing but what the type keeps.
    pub(crate) fn known(&self)
        ensures kept { AreKept self.now }
        ensures front { HasFrontLine (lines_kept self.now) }
        ensures size { self.now.last ≤ size_of (lines_kept self.now) }
    {
        let _ = &self.bytes;
    }

    /// How many lines are left.
    pub(crate) fn len(&self) -> usize
        ensures { result ≡ length (lines_kept self.now) }
    {
        if self.last > 0 {
            self.ended.len() + 1
        } else {
            self.ended.len()
        }
    }

    /// The front line; None where no line is left.
    pub(crate) fn front(&self) -> Option<Front<'_>>
        ensures { MatchOption result (lines_kept self.now ≡ []) (λ f. (line : LeftLine) × (rest : List LeftLine)
            × (lines_kept self.now ≡ line ∷ rest) × (line.bytes ≡ f.bytes.now) × (line.ended ≡ f.ended)) }
    {
        match self.ended.front() {
            Some(len) => Some(Front {
                bytes: first(kept_of(*len), self.bytes.as_slice()),
                ended: true,
            }),
            None if self.last > 0 => Some(Front {
                bytes: self.bytes.as_slice(),
                ended: false,
            }),
            None => None,
        }
    }

    /// Takes the front line away, if a line is left.
    pub(crate) fn drop_front(&mut self)
        ensures { lines_kept self.new ≡ drop 1 (lines_kept self.old) }
    {
        match self.ended.pop_front() {
            Some(len) => self.bytes.advance(kept_of(len)),
            None => {
                self.bytes.clear();
                self.last = 0;
            }
        }
    }
}

// How many bytes are kept of a line of this length.
fn kept_of(len: u32) -> usize
    ensures { result ≡ kept_of len }
{
    MOST_KEPT.min(len as usize)
}

/// The first `most` bytes, or all where there are fewer.
pub(crate) fn first(most: usize, bytes: &[u8]) -> &[u8]
    ensures { result.now ≡ take most bytes.now }
{
    match bytes.split_at_checked(most) {
        Some((front, _)) => front,
        None => bytes,
    }
}

// The first line without its line feed, and what stands after that. None exactly where there is no line feed.
fn split_line(bytes: &[u8]) -> Option<(&[u8], &[u8])>
    ensures found { IfSome result (λ p. bytes.now ≡ p.0.now ++ 10 ∷ p.1.now) }
    ensures first { IfSome result (λ p. HasNoFeed p.0.now) }
    ensures none { IfNone result (HasNoFeed bytes.now) }
{
    let end = bytes.iter().position(|b| *b == b'\n')?;
    let (line, rest) = bytes.split_at(end);
    let (_, after) = rest.split_at(1);
    Some((line, after))
}
