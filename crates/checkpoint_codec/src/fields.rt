//! Reading names and kinds.

ghost use Rattle.std.specs.Prelude.{◌≡◌, ◌<◌, IfOk};
ghost use Rattle.wire_codec.specs.declared.version.Version.TheVariants.{Two};
ghost use Rattle.wire_codec.specs.Reading.{site_at, name_at, place_at};
ghost use Rattle.checkpoint_codec.specs.Reading.{is_kind, kind_at};
ghost use Rattle.checkpoint_codec.specs.Code.Reads.{after};

use crate::flaw::Flaw;
use crate::left::{Left, check};
use op_name::{NUMBERS, Name, SITES};
use wire_codec::Cause;

fn site(left: &mut Left) -> Result<u16, Flaw>
    ensures read { after result left.new ≡ site_at Two left.old }
    ensures within { IfOk result (λ s. s < SITES) }
{
    left.bounded16(0, SITES - 1, Cause::Range)
}

/// A name.
#[tactic(auto, unfolding(wire_codec::specs::Reading::name_at))]
pub(crate) fn name(left: &mut Left) -> Result<Name, Flaw>
    ensures { after result left.new ≡ name_at Two left.old }
{
    let site = site(left)?;
    let number = left.bounded32(1, NUMBERS, Cause::Range)?;
    Ok(Name { site, number })
}

/// A place.
pub(crate) fn place(left: &mut Left) -> Result<u32, Flaw>
    ensures { after result left.new ≡ place_at left.old }
{
    left.number32()
}

fn is_kind(kind: u8) -> bool
    ensures { result ≡ is_kind kind }
{
    matches!(kind, 1 | 2 | 4)
}

/// The kind of an original.
pub(crate) fn kind(left: &mut Left) -> Result<u8, Flaw>
    ensures { after result left.new ≡ kind_at left.old }
{
    let start = left.at();
    let kind = left.number8()?;
    check(is_kind(kind), Cause::Kind, start)?;
    Ok(kind)
}
