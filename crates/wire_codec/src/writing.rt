//! Operations to bytes.

ghost use Rattle.std.specs.Prelude.{◌≡◌, ◌+◌, ◌*◌, ◌≤◌, ◌<◌, ◌++◌, ◌↔◌, length, IsTrue, OnOk, OnErr};
ghost use Rattle.std.specs.List.{flat_map};
ghost use Rattle.std.specs.Int.{w8, to_be_bytes};
ghost use Rattle.context_diff.specs.Operations.{IsWellFormed, context_of};
ghost use Rattle.context_diff.specs.Ops.{data_of};
ghost use Rattle.wire_codec.specs.declared.head.Head.TheVariants.{Insert, Delete, Undo};
ghost use Rattle.wire_codec.specs.declared.version.Version.TheVariants.{One, Two};
ghost use Rattle.wire_codec.specs.declared.listing.Listing.TheVariants.{LongRuns};
ghost use Rattle.wire_codec.specs.Versions.{site_width, site_len, sites, Fits};
ghost use Rattle.wire_codec.specs.Spelling.{head_of, insert_kind, site_bytes, name_bytes, length_bytes, character_bytes, text_bytes, count_bytes, counts_bytes, head_bytes, frame};
ghost use Rattle.wire_codec.specs.Judging.{count_len, run_len};
ghost use Rattle.wire_codec.specs.States.{state_bytes};
ghost use Rattle.wire_codec.specs.Code.Elements.{character_len};
ghost use Rattle.wire_codec.specs.Code.Puts.{HasRoom, Puts, HeadFits, CountsIn, EntriesIn, text_len, head_len, context_len};

use crate::limits::SITES_OF_ONE;
use crate::listing::Listing;
use crate::run_writing::{count, put_names};
use crate::runs::{LONG_RUN_LEN, run_len};
use crate::sections::{COUNT_LEN_TWO, count_len};
use crate::version::Version;
use context_diff::{Letters, Op, UNDO_ENTRIES};
use context_vector::{SiteCounts, Vector};
use op_name::{Memory, Name};

/// Puts bytes for which there is room.
pub(crate) fn put(out: &mut Vec<u8>, bytes: &[u8])
    requires { HasRoom out.old (length bytes.now) }
    ensures { Puts out.old out.new bytes.now }
{
    match out.extend_from_slice(bytes) {
        Ok(()) => {}
        Err(_) => unreachable!(),
    }
}

fn put_site(out: &mut Vec<u8>, version: Version, site: u16)
    requires room { HasRoom out.old (site_len version) }
    requires site { site < sites version }
    ensures { Puts out.old out.new (site_bytes version site) }
{
    match version {
        Version::One => put(out, &(site as u8).to_be_bytes()),
        Version::Two => put(out, &site.to_be_bytes()),
    }
}

/// Puts a name, for which there is room.
pub(crate) fn put_name(out: &mut Vec<u8>, version: Version, name: &Name)
    requires room { HasRoom out.old (site_len version + 4) }
    requires site { name.now.site < sites version }
    ensures { Puts out.old out.new (name_bytes version name.now) }
{
    put_site(out, version, name.site);
    put(out, &name.number.to_be_bytes());
}

fn text_len(text: &Letters) -> u32
    ensures value { result ≡ text_len (length text.now) }
    ensures bound { result ≤ 1026 }
{
    text.known();
    match text.len() {
        1 => 4,
        len => 2 + 4 * u32::from(len),
    }
}

// How many bytes of the operation stand before its context.
fn head_len(version: Version, op: &Op) -> u32
    ensures value { result ≡ head_len version (head_of (data_of op.now)) }
    ensures bound { result ≤ 1037 }
{
    let site = version.site_len();
    match op {
        Op::Insert { text, .. } => 9 + site + text_len(text),
        Op::Delete { .. } => 9 + site,
        Op::Undo { .. } => 7 + 2 * site,
    }
}

fn put_character(out: &mut Vec<u8>, ch: char)
    requires { HasRoom out.old 4 }
    ensures { Puts out.old out.new (character_bytes ch) }
{
    put(out, &u32::from(ch).to_be_bytes());
}

fn put_each_character(out: &mut Vec<u8>, chars: &[char])
    requires { HasRoom out.old (character_len * length chars.now) }
    ensures { Puts out.old out.new (flat_map character_bytes chars.now) }
{
    for ch in chars {
        put_character(out, *ch);
    }
}

// How many characters follow, which isn't said of one.
fn put_length(out: &mut Vec<u8>, len: u16)
    requires { HasRoom out.old 2 }
    ensures { Puts out.old out.new (length_bytes len) }
{
    if len != 1 {
        put(out, &len.to_be_bytes());
    }
}

fn put_text(out: &mut Vec<u8>, text: &Letters)
    requires { HasRoom out.old (text_len (length text.now)) }
    ensures { Puts out.old out.new (text_bytes text.now) }
{
    text.known();
    put_length(out, text.len());
    put_each_character(out, text.as_slice());
}

fn put_insert_kind(out: &mut Vec<u8>, len: u16)
    requires { HasRoom out.old 1 }
    ensures { Puts out.old out.new (to_be_bytes w8 (insert_kind len)) }
{
    if len == 1 {
        put(out, &[1]);
    } else {
        put(out, &[4]);
    }
}

#[tactic(auto, unfolding(crate::specs::Spelling::head_bytes))]
fn put_insert(out: &mut Vec<u8>, version: Version, name: &Name, place: u32, text: &Letters)
    requires room { HasRoom out.old (head_len version (Insert name.now place text.now)) }
    requires site { name.now.site < sites version }
    ensures { Puts out.old out.new (head_bytes version (Insert name.now place text.now)) }
{
    put_insert_kind(out, text.len());
    put_name(out, version, name);
    put(out, &place.to_be_bytes());
    put_text(out, text);
}

#[tactic(auto, unfolding(crate::specs::Spelling::head_bytes))]
fn put_delete(out: &mut Vec<u8>, version: Version, name: &Name, place: u32)
    requires room { HasRoom out.old (head_len version (Delete name.now place)) }
    requires site { name.now.site < sites version }
    ensures { Puts out.old out.new (head_bytes version (Delete name.now place)) }
{
    put(out, &[2]);
    put_name(out, version, name);
    put(out, &place.to_be_bytes());
}

#[tactic(auto, unfolding(crate::specs::Spelling::head_bytes))]
fn put_undo(out: &mut Vec<u8>, version: Version, author: u16, target: &Name, generation: u16)
    requires room { HasRoom out.old (head_len version (Undo author target.now generation)) }
    requires author { author < sites version }
    requires site { target.now.site < sites version }
    ensures { Puts out.old out.new (head_bytes version (Undo author target.now generation)) }
{
    put(out, &[3]);
    put_site(out, version, author);
    put_name(out, version, target);
    put(out, &generation.to_be_bytes());
}

// The operation without its context.
fn put_head(out: &mut Vec<u8>, version: Version, op: &Op)
    requires room { HasRoom out.old (head_len version (head_of (data_of op.now))) }
    requires fits { HeadFits version (head_of (data_of op.now)) }
    ensures { Puts out.old out.new (head_bytes version (head_of (data_of op.now))) }
{
    match op {
        Op::Insert {
            name,
            place,
            text,
            ..
        } => put_insert(out, version, name, *place, text),
        Op::Delete { name, place, .. } => put_delete(out, version, name, *place),
        Op::Undo {
            author,
            target,
            generation,
            ..
        } => put_undo(out, version, *author, target, *generation),
    }
}

fn put_count(out: &mut Vec<u8>, version: Version, site: u16, number: u32)
    requires room { HasRoom out.old (count_len version) }
    requires site { site < sites version }
    ensures { Puts out.old out.new (count_bytes version (site, number)) }
{
    put_site(out, version, site);
    put(out, &number.to_be_bytes());
}

fn put_each_count(out: &mut Vec<u8>, version: Version, counts: SiteCounts<'_>)
    requires room { HasRoom out.old (count_len version * length counts) }
    requires sites { CountsIn version counts }
    ensures { Puts out.old out.new (flat_map (count_bytes version) counts.entry) }
{
    let mut left = counts;
    while let Some((site, number)) = left.next() {
        put_count(out, version, site, number);
    }
}

fn put_sites_len(out: &mut Vec<u8>, version: Version, len: u32)
    requires room { HasRoom out.old (site_len version) }
    requires few { len ≤ sites version }
    ensures { Puts out.old out.new (to_be_bytes (site_width version) len) }
{
    match version {
        Version::One => put(out, &(len as u8).to_be_bytes()),
        Version::Two => put(out, &(len as u16).to_be_bytes()),
    }
}

/// Puts the sites with their counts, and before them how many they are.
pub(crate) fn put_counts(out: &mut Vec<u8>, version: Version, context: &Vector)
    requires room { HasRoom out.old (site_len version + count_len version * length context.now.set.counts) }
    requires few { length context.now.set.counts ≤ sites version }
    requires sites { CountsIn version context.now.set.counts }
    ensures { Puts out.old out.new (counts_bytes version context.now.set.counts) }
{
    put_sites_len(out, version, context.sites());
    put_each_count(out, version, context.sites_read());
}

// How many bytes a body has whose context has so many runs.
fn body_len(version: Version, op: &Op, runs: u32) -> u32
    requires { runs ≤ UNDO_ENTRIES }
    ensures { result ≡ head_len version (head_of (data_of op.now)) + context_len version (context_of (data_of op.now)) runs }
{
    let counts = count_len(version) as u32 * op.context().sites();
    let runs = run_len(version.listing()) as u32 * runs;
    head_len(version, op) + (version.site_len() + counts) + (2 + runs)
}

// Appends the one frame of the operation in this version.
fn encode_in(version: Version, op: &Op, out: &mut Vec<u8>) -> Result<(), Memory>
    requires well { IsWellFormed (data_of op.now) }
    requires fits { Fits version (data_of op.now) }
    ensures ok { OnOk result (out.new.items ≡ out.old.items ++ frame version (data_of op.now)) }
    ensures err { OnErr result (out.new.items ≡ out.old.items) }
{
    let entries = op.context().named()?;
    let runs = count(version.listing(), entries.as_slice());
    let body = body_len(version, op, runs);
    out.reserve(4 + body as usize)?;
    put(out, &body.to_be_bytes());
    put_head(out, version, op);
    put_counts(out, version, op.context());
    put_names(out, version.listing(), runs, entries.as_slice());
    Ok(())
}

// Whether version 1 can name the last site with a count, and so each of them.
fn counts_fit1(context: &Vector) -> bool
    ensures { IsTrue result ↔ CountsIn One context.now.set.counts }
{
    context.known();
    let last = context.sites().saturating_sub(1);
    match context.site_at(last) {
        Some((site, _)) => site < SITES_OF_ONE,
        None => true,
    }
}

// The same of the site of the last undone name.
fn entries_fit1(context: &Vector) -> bool
    ensures { IsTrue result ↔ EntriesIn One context.now.set.entries }
{
    context.known();
    let last = context.entries().saturating_sub(1);
    match context.entry_at(last) {
        Some((name, _)) => name.site < SITES_OF_ONE,
        None => true,
    }
}

fn head_fits1(op: &Op) -> bool
    ensures { IsTrue result ↔ HeadFits One (head_of (data_of op.now)) }
{
    match op {
        Op::Insert { name, .. } | Op::Delete { name, .. } => name.site < SITES_OF_ONE,
        Op::Undo { author, target, .. } => *author < SITES_OF_ONE && target.site < SITES_OF_ONE,
    }
}

/// Whether version 1 can name all sites of the operation and of its context.
pub fn fits1(op: &Op) -> bool
    ensures { IsTrue result ↔ Fits One (data_of op.now) }
{
    if !head_fits1(op) {
        return false;
    }
    if !counts_fit1(op.context()) {
        return false;
    }
    entries_fit1(op.context())
}

/// Appends the one frame of the operation in version 1, which can name the first 64 sites.
///
/// On `Memory` nothing is appended: room for the whole frame is made first.
pub fn encode(op: &Op, out: &mut Vec<u8>) -> Result<(), Memory>
    requires well { IsWellFormed (data_of op.now) }
    requires fits { Fits One (data_of op.now) }
    ensures ok { OnOk result (out.new.items ≡ out.old.items ++ frame One (data_of op.now)) }
    ensures err { OnErr result (out.new.items ≡ out.old.items) }
{
    encode_in(Version::One, op, out)
}

/// Appends the one frame of the operation in version 2.
///
/// On `Memory` nothing is appended: room for the whole frame is made first.
pub fn encode2(op: &Op, out: &mut Vec<u8>) -> Result<(), Memory>
    requires { IsWellFormed (data_of op.now) }
    ensures ok { OnOk result (out.new.items ≡ out.old.items ++ frame Two (data_of op.now)) }
    ensures err { OnErr result (out.new.items ≡ out.old.items) }
{
    encode_in(Version::Two, op, out)
}

fn state_len(members: &Vector, runs: u32) -> usize
    requires { runs ≤ length members.now.set.entries }
    ensures { result ≡ 6 + count_len Two * length members.now.set.counts + run_len LongRuns * runs }
{
    6 + COUNT_LEN_TWO * members.sites() as usize + LONG_RUN_LEN * runs as usize
}

/// Appends the one spelling of a set of members as a state.
///
/// On `Memory` nothing is appended: room for all of it is made first.
pub fn encode_state(members: &Vector, out: &mut Vec<u8>) -> Result<(), Memory>
    ensures ok { OnOk result (out.new.items ≡ out.old.items ++ state_bytes members.now.set) }
    ensures err { OnErr result (out.new.items ≡ out.old.items) }
{
    members.known();
    let entries = members.named()?;
    let runs = count(Listing::LongRuns, entries.as_slice());
    out.reserve(state_len(members, runs))?;
    put_counts(out, Version::Two, members);
    put_names(out, Listing::LongRuns, runs, entries.as_slice());
    Ok(())
}
