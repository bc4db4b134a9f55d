//! Reading runs of undone names, one after the other.

ghost use Rattle.std.specs.Prelude.{◌≡◌, ◌+◌, ◌*◌, ◌<◌, ◌≤◌, ◌^◌, IfOk};
ghost use Rattle.std.specs.List.{flat_map};
ghost use Rattle.op_name.specs.declared.name.TheConstants.{NUMBERS};
ghost use Rattle.context_diff.specs.declared.op.TheConstants.{UNDO_ENTRIES};
ghost use Rattle.wire_codec.specs.declared.cause.Cause.TheVariants.{Range};
ghost use Rattle.wire_codec.specs.declared.listing.Listing.TheVariants as listings;
ghost use Rattle.wire_codec.specs.Runs.{names_in, joins, goes_on, runs_of, runs_width, version_of};
ghost use Rattle.wire_codec.specs.Reading.{after, bounded, many, is_above, run_length_at, is_apart, next_run_at, run_at, runs_at, before_next, nothing_before};
ghost use Rattle.wire_codec.specs.Judging.{run_len};

use crate::cause::Cause;
use crate::fault::Fault;
use crate::heads::name;
use crate::left::{Left, check};
use crate::listing::Listing;
use crate::runs::{Run, Runs};
use crate::version::Version;
use context_diff::UNDO_ENTRIES;
use op_name::{NUMBERS, Name};

const MOST_RUNS: u16 = UNDO_ENTRIES as u16;

/// The version whose sites the listing has.
pub(crate) fn version_of(listing: Listing) -> Version
    ensures { result ≡ version_of listing }
{
    match listing {
        Listing::Names => Version::One,
        Listing::Runs | Listing::LongRuns => Version::Two,
    }
}

/// Whether a run may have several names.
pub(crate) fn joins(listing: Listing) -> bool
    ensures { result ≡ joins listing }
{
    match listing {
        Listing::Names => false,
        Listing::Runs | Listing::LongRuns => true,
    }
}

/// Whether the second run directly continues the first.
pub(crate) fn goes_on(first: &Run, second: &Run) -> bool
    ensures { result ≡ goes_on first.now second.now }
{
    first.known();
    first.first.site == second.first.site
        && first.first.number + first.len == second.first.number
        && first.generation == second.generation
}

// Whether the name is above the last one of the run before, if there is one.
fn above(before: &Option<Run>, name: Name) -> bool
    ensures { result ≡ is_above before.now name }
{
    match before {
        None => true,
        Some(before) => {
            before.known();
            let site = before.first.site;
            let last = before.first.number + (before.len - 1);
            site < name.site || (site == name.site && last < name.number)
        }
    }
}

// Whether the run doesn't directly continue the one before, if there is one.
fn apart(listing: Listing, before: &Option<Run>, run: &Run) -> bool
    ensures { result ≡ is_apart listing before.now run.now }
{
    match before {
        None => true,
        Some(before) => !(joins(listing) && goes_on(before, run)),
    }
}

// How many names a run of a context has from this one on, after so many names.
fn short_length(left: &mut Left, names: u64, first: &Name) -> Result<u32, Fault>
    requires { names < 2 ^ 63 }
    ensures read { after result left.new ≡ run_length_at listings.Runs names first.now left.old }
    ensures within { IfOk result (λ len. (1 ≤ len) × (first.now.number + len ≤ NUMBERS + 1)) }
{
    first.known();
    let start = left.at();
    let len = u32::from(left.number16()?);
    check(len > 0, Cause::Zero, start)?;
    let numbered = first.number + len <= NUMBERS + 1;
    let few = names + u64::from(len) <= u64::from(UNDO_ENTRIES);
    check(numbered && few, Cause::Range, start)?;
    Ok(len)
}

// How many names a run of a state has from this one on.
fn long_length(left: &mut Left, names: u64, first: &Name) -> Result<u32, Fault>
    ensures read { after result left.new ≡ run_length_at listings.LongRuns names first.now left.old }
    ensures within { IfOk result (λ len. (1 ≤ len) × (first.now.number + len ≤ NUMBERS + 1)) }
{
    let _ = names;
    first.known();
    let start = left.at();
    let len = left.number32()?;
    check(len > 0, Cause::Zero, start)?;
    check(len <= NUMBERS + 1 - first.number, Cause::Range, start)?;
    Ok(len)
}

// How many names a run has from this one on, after so many names.
fn run_length(left: &mut Left, listing: Listing, names: u64, first: &Name) -> Result<u32, Fault>
    requires { names < 2 ^ 63 }
    ensures read { after result left.new ≡ run_length_at listing names first.now left.old }
    ensures within { IfOk result (λ len. (1 ≤ len) × (first.now.number + len ≤ NUMBERS + 1)) }
{
    match listing {
        Listing::Names => {
            first.known();
            Ok(1)
        }
        Listing::Runs => short_length(left, names, first),
        Listing::LongRuns => long_length(left, names, first),
    }
}

// A run, whatever the one before is.
#[tactic(auto, unfolding(crate::specs::Reading::next_run_at))]
fn next_run(
    left: &mut Left,
    listing: Listing,
    before: &Option<Run>,
    names: u64,
) -> Result<Run, Fault>
    requires { names < 2 ^ 63 }
    ensures { after result left.new ≡ next_run_at listing (record { run = before.now; names = names }) left.old }
{
    let start = left.at();
    let first = name(left, version_of(listing))?;
    check(above(before, first), Cause::Order, start)?;
    let len = run_length(left, listing, names, &first)?;
    let start = left.at();
    let generation = left.number16()?;
    check(generation > 0, Cause::Zero, start)?;
    Ok(Run::new(first, len, generation))
}

// A run above the one before it, which it doesn't go on.
fn run(left: &mut Left, listing: Listing, before: &Option<Run>, names: u64) -> Result<Run, Fault>
    requires { names < 2 ^ 63 }
    ensures { after result left.new ≡ run_at listing (record { run = before.now; names = names }) left.old }
{
    let start = left.at();
    let run = next_run(left, listing, before, names)?;
    check(apart(listing, before, &run), Cause::Order, start)?;
    Ok(run)
}

/// So many runs, which stay where they are.
pub(crate) fn runs_of<'a>(
    left: &mut Left<'a>,
    listing: Listing,
    len: u32,
) -> Result<Runs<'a>, Fault>
    requires { run_len listings.LongRuns * len < 2 ^ 32 }
    ensures read { after result left.new ≡ many (run_at listing) before_next len nothing_before left.old }
    ensures apart { IfOk result (λ rs. runs_of listing (flat_map names_in rs) ≡ rs) }
{
    let bytes = left.bytes();
    let mut before = None;
    let mut names = 0u64;
    for _ in 0..len {
        let next = run(left, listing, &before, names)?;
        next.known();
        names += u64::from(next.len);
        before = Some(next);
    }
    Ok(Runs::new(listing, len, bytes))
}

// How many runs there are.
fn runs_len(left: &mut Left, listing: Listing) -> Result<u32, Fault>
    ensures read { after result left.new ≡ bounded (runs_width listing) 0 UNDO_ENTRIES Range left.old }
    ensures within { IfOk result (λ len. len ≤ UNDO_ENTRIES) }
{
    match listing {
        Listing::Names | Listing::Runs => {
            let len = left.bounded16(0, MOST_RUNS, Cause::Range)?;
            Ok(u32::from(len))
        }
        Listing::LongRuns => left.bounded32(0, UNDO_ENTRIES, Cause::Range),
    }
}

/// The runs, and before them how many they are.
#[tactic(auto, unfolding(crate::specs::Reading::runs_at))]
pub(crate) fn listed<'a>(left: &mut Left<'a>, listing: Listing) -> Result<Runs<'a>, Fault>
    ensures read { after result left.new ≡ runs_at listing left.old }
    ensures apart { IfOk result (λ rs. runs_of listing (flat_map names_in rs) ≡ rs) }
{
    let len = runs_len(left, listing)?;
    runs_of(left, listing, len)
}
