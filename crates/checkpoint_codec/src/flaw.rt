//! Faults of bytes, and why reading stops.

use op_name::Memory;
use std::alloc::{AllocError, AllocFailed};
use wire_codec::Cause;

/// A cause, and the offset of the byte at which it is. `Length` says that the bytes end in the field that begins there.
#[derive(Clone, Copy, Debug, PartialEq, Eq)]
pub(crate) struct Flaw {
    pub(crate) cause: Cause,
    pub(crate) offset: u32,
}

/// Why reading stops: at a fault, or out of memory.
#[derive(Clone, Copy, Debug, PartialEq, Eq)]
pub(crate) enum Stop {
    At(Flaw),
    Memory,
}

impl From<Flaw> for Stop {
    ghost use Rattle.std.specs.Prelude.{◌≡◌};
    ghost use Rattle.checkpoint_codec.specs.declared.flaw.Stop.TheVariants as stops;

    ghost from_gives = { λ flaw e. e ≡ stops.At flaw };

    fn from(flaw: Flaw) -> Stop {
        Stop::At(flaw)
    }
}

impl From<Memory> for Stop {
    ghost use Rattle.std.specs.Prelude.{◌≡◌};
    ghost use Rattle.checkpoint_codec.specs.declared.flaw.Stop.TheVariants as stops;

    ghost from_gives = { λ _ e. e ≡ stops.Memory };

    fn from(_: Memory) -> Stop {
        Stop::Memory
    }
}

impl From<AllocError> for Stop {
    ghost use Rattle.std.specs.Prelude.{◌≡◌};
    ghost use Rattle.checkpoint_codec.specs.declared.flaw.Stop.TheVariants as stops;

    ghost from_gives = { λ _ e. e ≡ stops.Memory };

    fn from(_: AllocError) -> Stop {
        Stop::Memory
    }
}

// A list that refuses an element hands it back; it is dropped here.
impl<T: Drop> From<AllocFailed<T>> for Stop {
    ghost use Rattle.std.specs.Prelude.{◌≡◌};
    ghost use Rattle.checkpoint_codec.specs.declared.flaw.Stop.TheVariants as stops;

    ghost from_gives = { λ _ e. e ≡ stops.Memory };

    fn from(_: AllocFailed<T>) -> Stop {
        Stop::Memory
    }
}
