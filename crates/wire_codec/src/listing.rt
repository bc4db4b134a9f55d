//! Reading the sites of a context with their counts, one after the other.

ghost use Rattle.std.specs.Prelude.{◌≡◌, ◌<◌, ◌≤◌, IfOk};
ghost use Rattle.wire_codec.specs.declared.cause.Cause.TheVariants.{Range};
ghost use Rattle.wire_codec.specs.Versions.{site_width, sites};
ghost use Rattle.wire_codec.specs.Reading.{after, bounded, many, count_at, site_after, counts_at};

use crate::cause::Cause;
use crate::fault::Fault;
use crate::heads::site;
use crate::left::{Left, check};
use crate::limits::{SITES_OF_ONE, SITES_OF_TWO};
use crate::sections::Counts;
use crate::version::Version;
use op_name::NUMBERS;

/// How undone names are listed: each by itself as in frames of version 1, in runs as in those of version 2, or in runs of any length as in
/// states.
#[derive(Clone, Copy)]
pub(crate) enum Listing {
    Names,
    Runs,
    LongRuns,
}

#[tactic(auto, unfolding(crate::specs::Reading::count_at))]
fn count(left: &mut Left, version: Version, low: u16) -> Result<(u16, u32), Fault>
    ensures read { after result left.new ≡ count_at version low left.old }
    ensures within { IfOk result (λ p. p.0 < SITES_OF_TWO) }
{
    let start = left.at();
    let site = site(left, version)?;
    check(low <= site, Cause::Order, start)?;
    let start = left.at();
    let count = left.number32()?;
    check(count > 0, Cause::Zero, start)?;
    check(count <= NUMBERS, Cause::Range, start)?;
    Ok((site, count))
}

/// So many sites with their counts, which stay where they are.
pub(crate) fn counts_of<'a>(
    left: &mut Left<'a>,
    version: Version,
    len: u16,
) -> Result<Counts<'a>, Fault>
    ensures { after result left.new ≡ many (count_at version) site_after len 0 left.old }
{
    let bytes = left.bytes();
    let mut low = 0;
    for _ in 0..len {
        let (site, _) = count(left, version, low)?;
        low = site + 1;
    }
    Ok(Counts::new(version, len, bytes))
}

// How many sites have counts.
fn sites_len(left: &mut Left, version: Version) -> Result<u16, Fault>
    ensures { after result left.new ≡ bounded (site_width version) 0 (sites version) Range left.old }
{
    match version {
        Version::One => {
            let len = left.bounded8(0, SITES_OF_ONE as u8, Cause::Range)?;
            Ok(u16::from(len))
        }
        Version::Two => left.bounded16(0, SITES_OF_TWO, Cause::Range),
    }
}

/// The sites with their counts, and before them how many they are.
#[tactic(auto, unfolding(crate::specs::Reading::counts_at))]
pub(crate) fn counts<'a>(left: &mut Left<'a>, version: Version) -> Result<Counts<'a>, Fault>
    ensures { after result left.new ≡ counts_at version left.old }
{
    let len = sites_len(left, version)?;
    counts_of(left, version, len)
}
