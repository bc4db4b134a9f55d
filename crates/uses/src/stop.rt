//! Why the program may end early.

use cot_site::Local;
use op_name::Memory;
use std::io;

/// Why the program ends before it is done.
#[derive(Debug, Drop)]
pub(crate) enum Stop {
    /// Out of memory.
    Memory,
    /// A site refused what its user asked for, and changed nothing; `Local` lists the reasons.
    Edit,
    /// The bytes that came don't begin with a frame.
    NoFrame,
    /// A site refused an operation that came: it knows another of that name, or the operation's context or place doesn't
    /// fit its history.
    Refused,
    /// One of the two sites has operations that the other lacks.
    Apart,
    /// Writing the output failed.
    Output(io::Error),
}

impl From<Memory> for Stop {
    ghost use Rattle.std.specs.Prelude.{◌≡◌};
    ghost use Rattle.uses.specs.declared.stop.Stop.TheVariants as stops;

    ghost from_gives = { λ _ stop. stop ≡ stops.Memory };

    fn from(_: Memory) -> Stop {
        Stop::Memory
    }
}

impl From<Local> for Stop {
    ghost use Rattle.std.specs.Prelude.{◌≡◌, ◌≢◌};
    ghost use Rattle.uses.specs.declared.stop.Stop.TheVariants as stops;
    ghost use Rattle.site_answers.specs.declared.local.Local.TheVariants as locals;

    ghost from_gives = { λ why stop. (why ≡ locals.Memory → stop ≡ stops.Memory) × (why ≢ locals.Memory → stop ≡ stops.Edit) };

    fn from(why: Local) -> Stop {
        match why {
            Local::Memory => Stop::Memory,
            _ => Stop::Edit,
        }
    }
}

impl From<io::Error> for Stop {
    ghost use Rattle.std.specs.Prelude.{◌≡◌};
    ghost use Rattle.uses.specs.declared.stop.Stop.TheVariants as stops;

    ghost from_gives = { λ why stop. stop ≡ stops.Output why };

    fn from(why: io::Error) -> Stop {
        Stop::Output(why)
    }
}
