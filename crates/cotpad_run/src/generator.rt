//! The command `gen`.

ghost use Rattle.std.specs.Prelude.{◌≡◌, ◌⊎◌, ◌≤◌, ◌++◌, ℕ, List, Option, Contains, OnOk, IfOk, bytes_eq, decimal, length};
ghost use Rattle.context_diff.specs.Replays.{text_of};
ghost use Rattle.cot_site.specs.Sites.{state_of};
ghost use Rattle.session_replay.specs.Generating.{HaveTheSame};
ghost use Rattle.log_replies.specs.Outside.{told};
ghost use Rattle.cotpad_run.specs.Made.{IsMade};
ghost use Rattle.cotpad_run.specs.Generating.{gen_text, counts_text, alike, IsCounted};
ghost use Rattle.cotpad_run.specs.Code.Generated.{first_of, shown_of};

use cot_site::Site;
use itoa::Buffer;
use log_replies::{Status, show_text};
use op_name::Memory;
use outside_io::{Failed, Sink, write_whole};
use session_replay::{Generated, MAX_EVENTS, MAX_WINDOW, generate};
use std::alloc::Global;

/// The number of sites of a session that `gen` makes.
pub const GENERATED_SITES: u8 = 4;

/// Generates a session, and writes what it did and what site 0 shows.
pub(crate) fn answer_generated<K: Sink>(
    alloc: Global,
    start: u64,
    events: u32,
    window: u32,
    sink: &mut K,
) -> Status
    requires events { events ≤ MAX_EVENTS }
    requires window { (1 ≤ window) × (window ≤ MAX_WINDOW) }
    ensures answer { (left : Option (List ℕ)) → (faults : ℕ) → IsMade (gen_text start events window)
        (told left faults (K.held sink.old) (K.faults sink.old))
        (told left faults (K.held sink.new) (K.faults sink.new))
        result }
    ensures counted { result ≡ Status.Done → IsCounted start events window }
    ensures untouched { (result ≡ Status.ReadFault) ⊎ ((result ≡ Status.Memory) ⊎ (result ≡ Status.LinkFault)) → sink.new ≡ sink.old }
{
    let mut out = Vec::new(alloc);
    match put_generated(alloc, start, events, window, &mut out) {
        Ok(()) => {}
        Err(Memory) => return Status::Memory,
    }
    match write_whole(sink, &out) {
        Ok(()) => Status::Done,
        Err(Failed) => Status::WriteFault,
    }
}

// Appends what a generated session did and shows.
fn put_generated(
    alloc: Global,
    start: u64,
    events: u32,
    window: u32,
    out: &mut Vec<u8>,
) -> Result<(), Memory>
    requires events { events ≤ MAX_EVENTS }
    requires window { (1 ≤ window) × (window ≤ MAX_WINDOW) }
    ensures written { OnOk result (out.new.items ≡ out.old.items ++ gen_text start events window) }
    ensures counted { OnOk result (IsCounted start events window) }
{
    match generate(alloc, start, events, window, GENERATED_SITES, true) {
        Ok(generated) => {
            put_counts(start, events, &generated, out)?;
            put_shown(alloc, &generated, out)
        }
        Err(memory) => Err(memory),
    }
}

// Appends the line of how many operations of each kind were made.
fn put_counts(
    start: u64,
    events: u32,
    generated: &Generated,
    out: &mut Vec<u8>,
) -> Result<(), Memory>
    ensures { OnOk result (out.new.items ≡ out.old.items ++ counts_text start events generated.now.counts) }
{
    put_number(b"gen ", start, out)?;
    put_number(b" events ", u64::from(events), out)?;
    put_number(b" inserts ", u64::from(generated.inserts()), out)?;
    put_number(b" deletes ", u64::from(generated.deletes()), out)?;
    put_number(b" undos ", u64::from(generated.undos()), out)?;
    put_number(b" redos ", u64::from(generated.redos()), out)?;
    out.extend_from_slice(b"\n")?;
    Ok(())
}

// Appends how many sites show the text of site 0, and the lines of that text.
fn put_shown(alloc: Global, generated: &Generated, out: &mut Vec<u8>) -> Result<(), Memory>
    requires sites { length generated.now.sites ≡ GENERATED_SITES }
    requires same { HaveTheSame generated.now.sites }
    ensures written { OnOk result (out.new.items ≡ out.old.items ++ shown_of generated.now.sites) }
    ensures equal { OnOk result (alike (first_of generated.now.sites) generated.now.sites ≡ GENERATED_SITES) }
{
    match generated.site(0) {
        Some(first) => {
            let equal = count_alike(alloc, first, generated)?;
            put_number(b"equal ", u64::from(equal), out)?;
            out.extend_from_slice(b"\n")?;
            show_text(alloc, first, out)
        }
        None => unreachable!(),
    }
}

// How many sites show the same text as this one, which is one of them: all do.
fn count_alike(alloc: Global, site: &Site, generated: &Generated) -> Result<u8, Memory>
    requires sites { length generated.now.sites ≡ GENERATED_SITES }
    requires same { HaveTheSame generated.now.sites }
    requires one { Contains generated.now.sites (state_of site.now) }
    ensures count { IfOk result (λ n. n ≡ alike (state_of site.now) generated.now.sites) }
    ensures all { IfOk result (λ n. n ≡ GENERATED_SITES) }
{
    let mut text = Vec::new(alloc);
    site.known();
    site.text(&mut text)?;
    let mut equal = 0;
    for number in 0..u16::from(GENERATED_SITES) {
        match generated.site(number) {
            Some(other) => {
                other.known();
                if shows(alloc, other, &text)? {
                    equal += 1;
                }
            }
            None => unreachable!(),
        }
    }
    Ok(equal)
}

/// Whether the site shows this text.
pub(crate) fn shows(alloc: Global, site: &Site, text: &[u8]) -> Result<bool, Memory>
    ensures { IfOk result (λ same. same ≡ bytes_eq (text_of site.now.history) text.now) }
{
    let mut own = Vec::new(alloc);
    site.text(&mut own)?;
    Ok(own.as_slice() == text)
}

/// Appends a text and a number.
pub(crate) fn put_number(before: &[u8], number: u64, out: &mut Vec<u8>) -> Result<(), Memory>
    ensures { OnOk result (out.new.items ≡ out.old.items ++ (before.now ++ decimal number)) }
{
    let mut digits = Buffer::new();
    out.extend_from_slice(before)?;
    out.extend_from_slice(digits.format(number).as_bytes())?;
    Ok(())
}
