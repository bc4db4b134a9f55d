//! Why bytes begin with no checkpoint.

ghost use Rattle.std.specs.Prelude.{◌≡◌};
ghost use Rattle.checkpoint_codec.specs.Refusals.{refusal_at};
ghost use Rattle.checkpoint_codec.specs.Code.Reads.{refusal_of};

use crate::flaw::{Flaw, Stop};
use wire_codec::Cause;

/// Why bytes begin with no checkpoint, the first fault of them. Offsets count from the first byte.
#[derive(Clone, Copy, Debug, PartialEq, Eq)]
pub enum CheckpointBad {
    /// They don't begin with the header.
    Header,
    /// They end in the field that begins at this offset.
    Cut { offset: u32 },
    /// A field is wrong. `Kind`: it is none of an insert of one character, a delete and an insert of more. `Range`: a number is out of
    /// its range, or a limit is passed. `Char`: a character is no Unicode scalar value. `Zero`: a generation is 0. At the offset of an
    /// original, `Own`: its number isn't the next of its site. At the offset of an undone name, `Order`: it isn't above the one before;
    /// `Stray`: it is none of the originals.
    Bad { offset: u32, cause: Cause },
    /// Out of memory.
    Memory,
}

// What is answered to a fault.
fn refusal_at(flaw: Flaw) -> CheckpointBad
    ensures { result ≡ refusal_at flaw.cause flaw.offset }
{
    let offset = flaw.offset;
    match flaw.cause {
        Cause::Length => CheckpointBad::Cut { offset },
        cause => CheckpointBad::Bad { offset, cause },
    }
}

/// What is answered where reading stops.
pub(crate) fn refusal_of(stop: Stop) -> CheckpointBad
    ensures { result ≡ refusal_of stop }
{
    match stop {
        Stop::At(flaw) => refusal_at(flaw),
        Stop::Memory => CheckpointBad::Memory,
    }
}
