//! Undone names to runs, and these to bytes.

ghost use Rattle.std.specs.Prelude.{◌≡◌, ◌+◌, ◌*◌, ◌<◌, ◌≤◌, ◌^◌, ◌&&◌, true, length, Some, None, if◌then◌else◌};
ghost use Rattle.std.specs.List.{flat_map};
ghost use Rattle.std.specs.Int.{byte_len, to_be_bytes};
ghost use Rattle.op_name.specs.NameData.{NameData};
ghost use Rattle.wire_codec.specs.declared.version.Version.TheVariants.{One};
ghost use Rattle.wire_codec.specs.declared.listing.Listing.TheVariants.{Names, Runs, LongRuns};
ghost use Rattle.wire_codec.specs.Versions.{sites};
ghost use Rattle.wire_codec.specs.Runs.{RunData, run_of, joins, goes_on, in_front, runs_of, runs_width, version_of};
ghost use Rattle.wire_codec.specs.Spelling.{run_bytes, entries_bytes};
ghost use Rattle.wire_codec.specs.Reading.{may_have};
ghost use Rattle.wire_codec.specs.Judging.{run_len};
ghost use Rattle.wire_codec.specs.Code.Puts.{HasRoom, Puts, EntriesIn};
ghost use Rattle.wire_codec.specs.Code.RunLists.{FitOut};

use crate::listing::Listing;
use crate::run_reading::{goes_on, joins};
use crate::runs::Run;
use crate::version::Version;
use crate::writing::{put, put_name};
use context_vector::Entry;

// A run of one name.
fn single(entry: &Entry) -> Run
    ensures { result ≡ run_of entry.now.0 1 entry.now.1 }
{
    let name = entry.name();
    name.known();
    Run::new(name, 1, entry.generation())
}

// The run with the name, if this goes on the run.
fn longer(listing: Listing, run: &Run, next: &Run) -> Option<Run>
    requires { next.now.len ≡ 1 }
    ensures { result ≡ (if joins listing && goes_on run.now next.now
        then Some (run_of run.now.first (run.now.len + next.now.len) run.now.generation)
        else None) }
{
    if joins(listing) && goes_on(run, next) {
        run.known();
        next.known();
        Some(Run::new(run.first, run.len + next.len, run.generation))
    } else {
        None
    }
}

// How many runs there are with this one in front of the names.
fn count_from(listing: Listing, first: Run, entries: &[Entry]) -> u32
    requires { length entries.now + 1 < 2 ^ 32 }
    ensures { result ≡ length (in_front listing first (runs_of listing entries.now)) }
{
    let mut run = first;
    let mut count = 1;
    for entry in entries {
        let next = single(entry);
        run = match longer(listing, &run, &next) {
            Some(run) => run,
            None => {
                count += 1;
                next
            }
        };
    }
    count
}

/// How many runs the names have.
pub(crate) fn count(listing: Listing, entries: &[Entry]) -> u32
    requires { length entries.now < 2 ^ 32 }
    ensures { result ≡ length (runs_of listing entries.now) }
{
    match entries {
        [] => 0,
        [first, rest @ ..] => count_from(listing, single(first), rest),
    }
}

// A name with its generation, as version 1 lists it.
fn put_single(out: &mut Vec<u8>, run: &Run)
    requires room { HasRoom out.old (run_len Names) }
    requires site { run.now.first.site < sites One }
    ensures { Puts out.old out.new (run_bytes Names run.now) }
{
    put_name(out, Version::One, &run.first());
    put(out, &run.generation().to_be_bytes());
}

// A run of a frame of version 2, in one piece: such runs are most of a log in which much is undone.
fn put_short_run(out: &mut Vec<u8>, run: &Run)
    requires room { HasRoom out.old (run_len Runs) }
    requires few { may_have Runs run.now.len ≡ true }
    ensures { Puts out.old out.new (run_bytes Runs run.now) }
{
    let site = run.first.site.to_be_bytes();
    let number = run.first.number.to_be_bytes();
    let len = (run.len as u16).to_be_bytes();
    let generation = run.generation.to_be_bytes();
    put(
        out,
        &[
            site[0],
            site[1],
            number[0],
            number[1],
            number[2],
            number[3],
            len[0],
            len[1],
            generation[0],
            generation[1],
        ],
    );
}

// A run of a state, in one piece.
fn put_long_run(out: &mut Vec<u8>, run: &Run)
    requires room { HasRoom out.old (run_len LongRuns) }
    ensures { Puts out.old out.new (run_bytes LongRuns run.now) }
{
    let site = run.first.site.to_be_bytes();
    let number = run.first.number.to_be_bytes();
    let len = run.len.to_be_bytes();
    let generation = run.generation.to_be_bytes();
    put(
        out,
        &[
            site[0],
            site[1],
            number[0],
            number[1],
            number[2],
            number[3],
            len[0],
            len[1],
            len[2],
            len[3],
            generation[0],
            generation[1],
        ],
    );
}

fn put_run(out: &mut Vec<u8>, listing: Listing, run: &Run)
    requires room { HasRoom out.old (run_len listing) }
    requires few { may_have listing run.now.len ≡ true }
    requires site { run.now.first.site < sites (version_of listing) }
    ensures { Puts out.old out.new (run_bytes listing run.now) }
{
    match listing {
        Listing::Names => put_single(out, run),
        Listing::Runs => put_short_run(out, run),
        Listing::LongRuns => put_long_run(out, run),
    }
}

// Puts the runs that there are with this one in front of the names.
fn put_from(out: &mut Vec<u8>, listing: Listing, first: Run, entries: &[Entry])
    requires room { HasRoom out.old (run_len listing * length (in_front listing first (runs_of listing entries.now))) }
    requires fit { FitOut listing (in_front listing first (runs_of listing entries.now)) }
    ensures { Puts out.old out.new (flat_map (run_bytes listing) (in_front listing first (runs_of listing entries.now))) }
{
    let mut run = first;
    for entry in entries {
        let next = single(entry);
        run = match longer(listing, &run, &next) {
            Some(run) => run,
            None => {
                put_run(out, listing, &run);
                next
            }
        };
    }
    put_run(out, listing, &run);
}

fn put_runs_len(out: &mut Vec<u8>, listing: Listing, len: u32)
    requires room { HasRoom out.old (byte_len (runs_width listing)) }
    requires few { may_have listing len ≡ true }
    ensures { Puts out.old out.new (to_be_bytes (runs_width listing) len) }
{
    match listing {
        Listing::Names | Listing::Runs => put(out, &(len as u16).to_be_bytes()),
        Listing::LongRuns => put(out, &len.to_be_bytes()),
    }
}

/// Puts the names as so many runs, and before them how many they are.
pub(crate) fn put_names(out: &mut Vec<u8>, listing: Listing, runs: u32, entries: &[Entry])
    requires runs { runs ≡ length (runs_of listing entries.now) }
    requires room { HasRoom out.old (byte_len (runs_width listing) + run_len listing * runs) }
    requires few { may_have listing (length entries.now) ≡ true }
    requires sites { EntriesIn (version_of listing) entries.now }
    ensures { Puts out.old out.new (entries_bytes listing entries.now) }
{
    put_runs_len(out, listing, runs);
    match entries {
        [] => {}
        [first, rest @ ..] => put_from(out, listing, single(first), rest),
    }
}
