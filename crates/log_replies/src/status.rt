//! How a call of the program ends.

ghost use Rattle.std.specs.Prelude.{◌≡◌};
ghost use Rattle.log_replies.specs.Statuses.{code};

/// How a call of `run` ended. The exit status is the variant's place, from 0.
#[derive(Clone, Copy, Debug, PartialEq, Eq)]
pub enum Status {
    /// The command was done, and nothing was refused.
    Done,
    /// What was read is refused; the last line written says why.
    Refused,
    /// The words aren't those of a command.
    Words,
    /// The source failed.
    ReadFault,
    /// The sink failed.
    WriteFault,
    /// Out of memory.
    Memory,
    /// The wire failed.
    LinkFault,
    /// What a peer sent is refused.
    PeerRefused,
}

/// The exit status of the process, 0 to 7.
pub fn code_of(status: Status) -> u8
    ensures { result ≡ code status }
{
    match status {
        Status::Done => 0,
        Status::Refused => 1,
        Status::Words => 2,
        Status::ReadFault => 3,
        Status::WriteFault => 4,
        Status::Memory => 5,
        Status::LinkFault => 6,
        Status::PeerRefused => 7,
    }
}
