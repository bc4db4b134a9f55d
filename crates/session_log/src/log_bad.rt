//! Why a log is refused.

use cot_site::Verdict;
use op_name::{Member, Memory};
use wire_codec::Cause;

/// Why bytes are no log, or why no site can be made of them. Offsets count bytes from the first byte of the log.
#[derive(Clone, Copy, Debug, PartialEq, Eq, Drop)]
pub enum LogBad {
    /// The first eight bytes aren't the header of a version.
    Header,
    /// The bytes end within the frame that begins at this offset.
    Cut {
        offset: u32,
    },
    /// What stands where a frame should is none; the fault is at this offset.
    Bad {
        offset: u32,
        cause: Cause,
    },
    /// The delivery of the operation whose frame begins at this offset, or a release after it, got the verdict Forged,
    /// NotClosed or PlaceOut, as the first of the log; `member` is that of the operation that got it.
    Refused {
        offset: u32,
        member: Member,
        verdict: Verdict,
    },
    /// Out of memory.
    Memory,
}

impl From<Memory> for LogBad {
    ghost use Rattle.std.specs.Prelude.{◌≡◌};
    ghost use Rattle.session_log.specs.declared.log_bad.LogBad.TheVariants as bad;

    ghost from_gives = { λ _ e. e ≡ bad.Memory };

    fn from(_: Memory) -> LogBad {
        LogBad::Memory
    }
}
