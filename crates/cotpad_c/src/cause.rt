//! The numbers of the causes for which bytes are no frame.

ghost use Rattle.std.specs.Prelude.{◌≡◌};
ghost use Rattle.cotpad_c.specs.Verdicts.{cause_number};

use wire_codec::Cause;

/// The number by which a host is told the cause.
pub(crate) fn cause_number(cause: Cause) -> u32
    ensures { result ≡ cause_number cause }
{
    match cause {
        Cause::TooLong => 1,
        Cause::Kind => 2,
        Cause::Range => 3,
        Cause::Char => 4,
        Cause::Order => 5,
        Cause::Zero => 6,
        Cause::Length => 7,
        Cause::Own => 8,
        Cause::Target => 9,
        Cause::Stray => 10,
    }
}
