//! Why the program ends with a status that isn't 0, as a line for people.

ghost use Rattle.std.specs.Prelude.{◌≡◌, ◌↔◌, IsNone};

use cotpad_run::Status;
use thiserror::Error;

/// What went wrong, and what to do about it.
#[derive(Debug, Drop, Error)]
pub(crate) enum Stop {
    #[error("the input was refused: the last line of the output says why")]
    Refused,
    #[error("these words are no command (`cotpad help` lists the commands)")]
    Words,
    #[error("the standard input couldn't be read")]
    Reading,
    #[error("the standard output couldn't be written (is the disk full, or its reader gone?)")]
    Writing,
    #[error("there wasn't enough memory")]
    Memory,
    #[error("the connection failed: nobody waits at that port (is `cotpad serve` running?), another program has it, or the other side left")]
    Link,
    #[error("what the other side sent was refused: the last line of the output says why")]
    Peer,
}

/// What to say of this status; nothing where the command was done.
pub(crate) fn stop_of(status: Status) -> Option<Stop>
    ensures { IsNone result ↔ (status ≡ Status.Done) }
{
    match status {
        Status::Done => None,
        Status::Refused => Some(Stop::Refused),
        Status::Words => Some(Stop::Words),
        Status::ReadFault => Some(Stop::Reading),
        Status::WriteFault => Some(Stop::Writing),
        Status::Memory => Some(Stop::Memory),
        Status::LinkFault => Some(Stop::Link),
        Status::PeerRefused => Some(Stop::Peer),
    }
}
