//! The report line of what a site has.

ghost use Rattle.std.specs.Prelude.{◌≡◌, ◌++◌, OnOk, OnErr, map, length, take};
ghost use Rattle.site_answers.specs.Names.{group_text};
ghost use Rattle.context_vector.specs.Contexts.{ContextData};
ghost use Rattle.script_text.specs.Report.{count_text, listed, with_commas, state_text};

use context_vector::{Count, Entry, Vector};
use op_name::Memory;
use site_answers::{put, put_group};

/// Appends the report line of a site's state: `state S have LIST groups LIST waiting COUNT` and a line feed.
///
/// The first list is `S:COUNT` for each site that has originals in the set, the second `S.N/G` for each undone
/// name with its greatest generation; both rise. Commas stand between items, and an empty list is `-`. A refused
/// call leaves `out` as it was.
pub fn state_line(site: u16, have: &Vector, waiting: u32, out: &mut Vec<u8>) -> Result<(), Memory>
    ensures ok { OnOk result (out.new.items ≡ out.old.items ++ state_text site have.now.set waiting) }
    ensures err { OnErr result (out.new.items ≡ out.old.items) }
{
    let counts = have.listed()?;
    let groups = have.named()?;
    let start = out.len();
    let done = state_parts(site, counts.as_slice(), groups.as_slice(), waiting, out);
    put::take_back(out, start, done)
}

// The same, but a refused call may leave some of it after what `out` held.
fn state_parts(
    site: u16,
    counts: &[Count],
    groups: &[Entry],
    waiting: u32,
    out: &mut Vec<u8>,
) -> Result<(), Memory>
    ensures ok { let have : ContextData = record { counts = counts.now; entries = groups.now } in
        OnOk result (out.new.items ≡ out.old.items ++ state_text site have waiting) }
    ensures err { OnErr result (take (length out.old.items) out.new.items ≡ out.old.items) }
{
    put::number(out, b"state ", u64::from(site))?;
    put::text(out, b" have ")?;
    put_counts(counts, out)?;
    put::text(out, b" groups ")?;
    put_groups(groups, out)?;
    put::number(out, b" waiting ", u64::from(waiting))?;
    put::text(out, b"\n")
}

// The sites with their counts, as a list.
fn put_counts(counts: &[Count], out: &mut Vec<u8>) -> Result<(), Memory>
    ensures ok { OnOk result (out.new.items ≡ out.old.items ++ listed (map count_text counts.now)) }
    ensures err { OnErr result (out.new.items ≡ out.old.items) }
{
    let start = out.len();
    let done = counts_parts(counts, out);
    put::take_back(out, start, done)
}

fn counts_parts(counts: &[Count], out: &mut Vec<u8>) -> Result<(), Memory>
    ensures ok { OnOk result (out.new.items ≡ out.old.items ++ listed (map count_text counts.now)) }
    ensures err { OnErr result (take (length out.old.items) out.new.items ≡ out.old.items) }
{
    match counts.split_first() {
        None => put::text(out, b"-"),
        Some((first, others)) => {
            put_count(b"", first, out)?;
            more_counts(others, out)
        }
    }
}

// Each with a comma before it.
fn more_counts(counts: &[Count], out: &mut Vec<u8>) -> Result<(), Memory>
    ensures ok { OnOk result (out.new.items ≡ out.old.items ++ with_commas count_text counts.now) }
    ensures err { OnErr result (out.new.items ≡ out.old.items) }
{
    let start = out.len();
    let done = more_counts_parts(counts, out);
    put::take_back(out, start, done)
}

#[tactic(auto, using(crate::proofs::Listings::listed_none, crate::proofs::Listings::listed_more, crate::proofs::Listings::listed_end))]
fn more_counts_parts(counts: &[Count], out: &mut Vec<u8>) -> Result<(), Memory>
    ensures ok { OnOk result (out.new.items ≡ out.old.items ++ with_commas count_text counts.now) }
    ensures err { OnErr result (take (length out.old.items) out.new.items ≡ out.old.items) }
{
    for count in counts {
        put_count(b",", count, out)?;
    }
    Ok(())
}

// The undone names with their greatest generations, as a list.
fn put_groups(groups: &[Entry], out: &mut Vec<u8>) -> Result<(), Memory>
    ensures ok { OnOk result (out.new.items ≡ out.old.items ++ listed (map (λ e. group_text e.0 e.1) groups.now)) }
    ensures err { OnErr result (out.new.items ≡ out.old.items) }
{
    let start = out.len();
    let done = groups_parts(groups, out);
    put::take_back(out, start, done)
}

fn groups_parts(groups: &[Entry], out: &mut Vec<u8>) -> Result<(), Memory>
    ensures ok { OnOk result (out.new.items ≡ out.old.items ++ listed (map (λ e. group_text e.0 e.1) groups.now)) }
    ensures err { OnErr result (take (length out.old.items) out.new.items ≡ out.old.items) }
{
    match groups.split_first() {
        None => put::text(out, b"-"),
        Some((first, others)) => {
            put_undone(b"", first, out)?;
            more_groups(others, out)
        }
    }
}

// Each with a comma before it.
fn more_groups(groups: &[Entry], out: &mut Vec<u8>) -> Result<(), Memory>
    ensures ok { OnOk result (out.new.items ≡ out.old.items ++ with_commas (λ e. group_text e.0 e.1) groups.now) }
    ensures err { OnErr result (out.new.items ≡ out.old.items) }
{
    let start = out.len();
    let done = more_groups_parts(groups, out);
    put::take_back(out, start, done)
}

#[tactic(auto, using(crate::proofs::Listings::listed_none, crate::proofs::Listings::listed_more, crate::proofs::Listings::listed_end))]
fn more_groups_parts(groups: &[Entry], out: &mut Vec<u8>) -> Result<(), Memory>
    ensures ok { OnOk result (out.new.items ≡ out.old.items ++ with_commas (λ e. group_text e.0 e.1) groups.now) }
    ensures err { OnErr result (take (length out.old.items) out.new.items ≡ out.old.items) }
{
    for group in groups {
        put_undone(b",", group, out)?;
    }
    Ok(())
}

// `S:COUNT` with what stands before it
fn put_count(before: &[u8], count: &Count, out: &mut Vec<u8>) -> Result<(), Memory>
    ensures ok { OnOk result (out.new.items ≡ out.old.items ++ (before.now ++ count_text count.now)) }
    ensures err { OnErr result (out.new.items ≡ out.old.items) }
{
    let start = out.len();
    let done = count_parts(before, count, out);
    put::take_back(out, start, done)
}

// The same, but a refused call may leave some of it after what `out` held.
fn count_parts(before: &[u8], count: &Count, out: &mut Vec<u8>) -> Result<(), Memory>
    ensures ok { OnOk result (out.new.items ≡ out.old.items ++ (before.now ++ count_text count.now)) }
    ensures err { OnErr result (take (length out.old.items) out.new.items ≡ out.old.items) }
{
    put::number(out, before, u64::from(count.site()))?;
    put::number(out, b":", u64::from(count.number()))
}

// `S.N/G` with what stands before it
fn put_undone(before: &[u8], group: &Entry, out: &mut Vec<u8>) -> Result<(), Memory>
    ensures ok { OnOk result (out.new.items ≡ out.old.items ++ (before.now ++ group_text group.now.0 group.now.1)) }
    ensures err { OnErr result (out.new.items ≡ out.old.items) }
{
    let start = out.len();
    let done = undone_parts(before, group, out);
    put::take_back(out, start, done)
}

// The same, but a refused call may leave some of it after what `out` held.
fn undone_parts(before: &[u8], group: &Entry, out: &mut Vec<u8>) -> Result<(), Memory>
    ensures ok { OnOk result (out.new.items ≡ out.old.items ++ (before.now ++ group_text group.now.0 group.now.1)) }
    ensures err { OnErr result (take (length out.old.items) out.new.items ≡ out.old.items) }
{
    put::text(out, before)?;
    put_group(group.name(), group.generation(), out)
}
