//! Why a site has no checkpoint.

ghost use Rattle.std.specs.Prelude.{◌≡◌};

use op_name::Memory;

/// Why a site has no checkpoint, the first of these that holds.
#[derive(Clone, Copy, Debug, PartialEq, Eq)]
pub enum FlatBad {
    /// So many operations wait.
    Waiting { count: u32 },
    /// So many names were ever undone, more than `UNDO_ENTRIES`.
    NamesFull { names: u32 },
    /// Their greatest generations add up to so much, more than `GROUPS`.
    GroupsFull { sum: u64 },
    /// Out of memory.
    Memory,
}

impl From<Memory> for FlatBad {
    ghost use Rattle.std.specs.Prelude.{◌≡◌};
    ghost use Rattle.checkpoint.specs.declared.flat_bad.FlatBad.TheVariants as refusals;

    ghost from_gives = { λ _ e. e ≡ refusals.Memory };

    fn from(_: Memory) -> FlatBad {
        FlatBad::Memory
    }
}
