//! Streams of frames that come in pieces.

ghost use Rattle.std.specs.Prelude.{◌≡◌, ◌≢◌, ◌++◌, [], length, Err, OnOk, OnErr, IfOk, IsOk};
ghost use Rattle.wire_codec.specs.declared.version.Version.TheVariants.{One, Two};
ghost use Rattle.wire_codec.specs.Judging.{judge};
ghost use Rattle.wire_codec.specs.Answers.{HasFrame};
ghost use Rattle.wire_codec.specs.Streams.{Feeds, TakesAnswer, IsAnswer};

use crate::answers::Decoded;
use crate::cause::Cause;
use crate::front::decode_in;
use crate::version::Version;
use bytes::BytesMut;
use context_diff::Op;
use op_name::Memory;
use std::alloc::Global;
use std::marker::Model;

/// Why no operation could be taken.
#[derive(Debug, Drop)]
pub enum StreamBad {
    /// The bytes left begin with no frame. The offset counts from the first byte fed.
    Bad { cause: Cause, offset: u64 },
    /// Out of memory; the bytes left begin with a frame.
    Memory,
}

impl From<Memory> for StreamBad {
    ghost use Rattle.wire_codec.specs.declared.stream.StreamBad.TheVariants as refusals;

    ghost from_gives = { λ _ e. e ≡ refusals.Memory };

    fn from(_: Memory) -> StreamBad {
        StreamBad::Memory
    }
}

/// The frames, all of one version, of a stream of bytes, which is fed in pieces that may be cut anywhere: the bytes that are
/// not taken yet, and how many were taken.
#[derive(Drop)]
pub struct FrameStream {
    version: Version,
    taken: u64,
    left: BytesMut,
    alloc: Global,
}

impl Model for FrameStream {
    ghost use Rattle.std.specs.Prelude.{◌+◌, ◌<◌, ◌^◌, length};
    ghost use Rattle.wire_codec.specs.StreamData.{StreamData};

    ghost Value = { StreamData };

    ghost view = { λ s. record { version = s.version; taken = s.taken; left = s.left.items } };

    ghost invariant = { λ s. (s.taken + length s.left.items < 2 ^ 64) × (length s.left.items < 2 ^ 32) };
}

impl FrameStream {
    /// A stream of which nothing is there yet; takes no memory, so it is always made.
    pub fn of(alloc: Global, version: Version) -> Result<FrameStream, Memory>
        ensures fresh { IfOk result (λ s. s ≡ record { version = version; taken = 0; left = [] }) }
        ensures made { IsOk result }
    {
        Ok(FrameStream {
            version,
            taken: 0,
            left: BytesMut::new(alloc),
            alloc,
        })
    }

    /// The same of version 1.
    pub fn new(alloc: Global) -> Result<FrameStream, Memory>
        ensures fresh { IfOk result (λ s. s ≡ record { version = One; taken = 0; left = [] }) }
        ensures made { IsOk result }
    {
        FrameStream::of(alloc, Version::One)
    }

    /// The same of version 2.
    pub fn new2(alloc: Global) -> Result<FrameStream, Memory>
        ensures fresh { IfOk result (λ s. s ≡ record { version = Two; taken = 0; left = [] }) }
        ensures made { IsOk result }
    {
        FrameStream::of(alloc, Version::Two)
    }

    /// Appends a piece of the stream.
    ///
    /// Memory for more than 4,294,967,295 bytes left, or for more than 18,446,744,073,709,551,615 bytes,
    /// taken and left together, is never there. A piece without a byte takes none.
    pub fn feed(&mut self, piece: &[u8]) -> Result<(), Memory>
        ensures ok { OnOk result (Feeds self.old piece.now self.new) }
        ensures needed { OnErr result (piece.now ≢ []) }
        ensures err { OnErr result (self.new ≡ self.old) }
    {
        let most = u64::from(u32::MAX).min(u64::MAX - self.taken);
        if piece.len() as u64 > most - self.left.len() as u64 {
            return Err(Memory);
        }
        self.left.extend_from_slice(piece)?;
        Ok(())
    }

    /// Takes the next operation: None where more bytes are needed to tell, and an error where the bytes
    /// left begin with no frame. Then nothing is taken, and each later call finds the same fault.
    ///
    /// It costs a constant where the frame isn't whole yet.
    pub fn take(&mut self) -> Result<Option<Op>, StreamBad>
        ensures taken { TakesAnswer self.old result self.new }
        ensures exact { IsAnswer self.old.version self.old.taken result (judge self.old.version self.old.left) }
        ensures memory { result ≡ Err StreamBad.Memory → HasFrame self.old.version self.old.left }
    {
        match decode_in(self.version, self.alloc, self.left.as_slice())? {
            Decoded::Got { op, used } => {
                self.left.advance(used as usize);
                self.taken += u64::from(used);
                Ok(Some(op))
            }
            Decoded::More { .. } => Ok(None),
            Decoded::Bad { cause, offset } => Err(StreamBad::Bad {
                cause,
                offset: self.taken + u64::from(offset),
            }),
        }
    }

    /// The number of bytes that are fed and not taken yet.
    pub fn rest(&self) -> u32
        ensures { result ≡ length self.now.left }
    {
        self.left.len() as u32
    }
}
