//! What a site's history showed after each of its operations.

ghost use Rattle.std.specs.Prelude.{◌≡◌, ◌+◌, ◌<◌, ◌≤◌, ◌++◌, [], ℕ, List, codes, length, take, OnOk, OnErr, IsErrOf, IfErr, IsTrue};
ghost use Rattle.std.specs.Io.KnownBytes.{Appends};
ghost use Rattle.outside_io.specs.Faults.{Rose, HasCause};
ghost use Rattle.outside_io.specs.Writing.{WritesFront};
ghost use Rattle.site_answers.specs.Names.{member_text};
ghost use Rattle.visible_view.specs.View.{shown_text as shown_text_of};
ghost use Rattle.script_text.specs.Report.{shown_text};
ghost use Rattle.context_diff.specs.Replays.{text_of};
ghost use Rattle.past_view.specs.Playing.{played};
ghost use Rattle.past_view.specs.Code.Playing.{IsAfter, IsPlayed, HasWritten};

use crate::player::play;
use cot_site::Site;
use fixed_replay::letters_of;
use op_name::{Member, Memory};
use outside_io::{Failed, Sink, write_whole};
use script_text::shown_lines;
use site_answers::{put, put_member};
use std::alloc::Global;
use tombstone_text::Cells;
use visible_view::write_text;

/// Once so many bytes stand ready, they are written before the next operation is played.
const ENOUGH: usize = 65_536;

/// Why a playback stopped.
#[derive(Clone, Copy, Debug, PartialEq, Eq, Drop)]
pub enum PlayBad {
    /// A write failed.
    Fault,
    /// There was no memory.
    Memory,
}

impl From<Memory> for PlayBad {
    ghost use Rattle.std.specs.Prelude.{◌≡◌};
    ghost use Rattle.past_view.specs.declared.playing.PlayBad.TheVariants as bad;

    ghost from_gives = { λ _ e. e ≡ bad.Memory };

    fn from(_: Memory) -> PlayBad {
        PlayBad::Memory
    }
}

impl From<Failed> for PlayBad {
    ghost use Rattle.std.specs.Prelude.{◌≡◌};
    ghost use Rattle.past_view.specs.declared.playing.PlayBad.TheVariants as bad;

    ghost from_gives = { λ _ e. e ≡ bad.Fault };

    fn from(_: Failed) -> PlayBad {
        PlayBad::Fault
    }
}

/// Writes, for each operation of the site's history in its order, `after MEMBER` and a line feed, and the lines of the text that the
/// operations up to and with it show: `text CHARS BYTES`, a line feed, the text and a line feed. What was written before a
/// playback stopped is a front of that.
///
/// From one text to the next only what the operation changed is changed, at its place. So a playback costs what executing the
/// operations once costs, a look at each chunk of 512 cells and the move of the bytes behind the place for each of them, and the
/// writing of all texts; once an insert brought several characters, each undo or redo of an insert makes the text anew. It keeps one copy
/// of the cells, one of the text, and what is to be written, up to one text and 65,536 bytes.
pub fn playback<K: Sink>(alloc: Global, site: &Site, sink: &mut K) -> Result<(), PlayBad>
    ensures whole { OnOk result (Appends (K.held sink.old) (K.held sink.new) (played site.now.history)) }
    ensures front { OnErr result (WritesFront (K.held sink.old) (K.held sink.new) (played site.now.history)) }
    ensures fault { IsErrOf result PlayBad.Fault → Rose (K.faults sink.old) (K.faults sink.new) }
    ensures no_fault { (IsErrOf result PlayBad.Fault → ⊥) → K.faults sink.new ≡ K.faults sink.old }
    ensures later { K.faults sink.old ≤ K.faults sink.new }
{
    let mut cells = Cells::new(alloc);
    let mut text = Vec::new(alloc);
    let mut out = Vec::new(alloc);
    let mut apart = true;
    for i in 0..site.book().len() {
        play_next(site, i, &mut cells, &mut text, &mut apart)?;
        put_moment(site, i, &cells, &text, &mut out)?;
        flush(sink, &mut out, ENOUGH)?;
    }
    flush(sink, &mut out, 1)?;
    Ok(())
}

/// Appends the text, in UTF-8, that the first `index` operations of the site's history show; an index past the last operation counts
/// as all. `out` stays as it was where there is no memory. Costs executing so many operations once, by the forms that the site keeps, and
/// writing the text.
pub fn text_before(alloc: Global, site: &Site, index: u32, out: &mut Vec<u8>) -> Result<(), Memory>
    ensures ok { OnOk result (out.new.items ≡ out.old.items ++ text_of (take index site.now.history)) }
    ensures err { OnErr result (out.new.items ≡ out.old.items) }
{
    site.known();
    let mut cells = Cells::new(alloc);
    for i in 0..index.min(site.book().len()) {
        execute_next(site, i, &mut cells)?;
    }
    write_text(&cells, out)
}

// Executes the i-th operation of the site after those before it.
fn execute_next(site: &Site, i: u32, cells: &mut Cells) -> Result<(), Memory>
    requires there { i < length site.now.history }
    requires before { IsAfter site.now.history site.now.forms i cells.old.cells cells.old.text }
    ensures { OnOk result (IsAfter site.now.history site.now.forms (i + 1) cells.new.cells cells.new.text) }
{
    site.known();
    match site.book().op(i) {
        Some(op) => match site.executed(i) {
            Some(form) => {
                cells.reserve(form)?;
                cells.apply(form, letters_of(op));
                Ok(())
            }
            None => unreachable!(),
        },
        None => unreachable!(),
    }
}

// Plays the i-th operation of the site after those before it; `apart` tells whether each insert so far had one cell.
fn play_next(
    site: &Site,
    i: u32,
    cells: &mut Cells,
    text: &mut Vec<u8>,
    apart: &mut bool,
) -> Result<(), Memory>
    requires there { i < length site.now.history }
    requires before { IsPlayed site.now.history site.now.forms i cells.old.cells cells.old.text text.old.items apart.old }
    ensures { OnOk result
        (IsPlayed site.now.history site.now.forms (i + 1) cells.new.cells cells.new.text text.new.items apart.new) }
{
    site.known();
    match site.book().op(i) {
        Some(op) => match site.executed(i) {
            Some(form) => {
                let letters = letters_of(op);
                play(cells, text, form, letters, *apart)?;
                *apart = stays_apart(*apart, letters);
                Ok(())
            }
            None => unreachable!(),
        },
        None => unreachable!(),
    }
}

// Whether each insert so far had one cell, also that of these characters.
fn stays_apart(apart: bool, letters: &[char]) -> bool
    ensures { IsTrue result → IsTrue apart × (length letters.now ≤ 1) }
{
    apart && letters.len() <= 1
}

// Appends what is played after the i-th operation of the site, whose text this is.
fn put_moment(
    site: &Site,
    i: u32,
    cells: &Cells,
    text: &[u8],
    out: &mut Vec<u8>,
) -> Result<(), Memory>
    requires there { i < length site.now.history }
    requires after { IsAfter site.now.history site.now.forms (i + 1) cells.now.cells cells.now.text }
    requires shown { text.now ≡ shown_text_of cells.now.cells cells.now.text }
    ensures { OnOk result ((front : List ℕ) → played (take i site.now.history) ≡ front ++ out.old.items
        → played (take (i + 1) site.now.history) ≡ front ++ out.new.items) }
{
    site.known();
    match site.book().member(i) {
        Some(member) => put_text(member, cells.shown_len(), text, out),
        None => unreachable!(),
    }
}

// Appends `after MEMBER` and the lines of a text of so many characters.
fn put_text(member: Member, chars: u32, text: &[u8], out: &mut Vec<u8>) -> Result<(), Memory>
    ensures { OnOk result (out.new.items ≡ out.old.items
        ++ (codes "after " ++ (member_text member ++ (codes "\n" ++ shown_text chars text.now)))) }
{
    put::text(out, b"after ")?;
    put_member(member, out)?;
    put::text(out, b"\n")?;
    shown_lines(chars, text, out)
}

// Writes what stands in `out`, and empties it, if that is `least` bytes or more.
fn flush<K: Sink>(sink: &mut K, out: &mut Vec<u8>, least: usize) -> Result<(), Failed>
    ensures passed { OnOk result (HasWritten (K.held sink.old) (K.held sink.new) out.old.items out.new.items) }
    ensures empty { least ≤ 1 → OnOk result (out.new.items ≡ []) }
    ensures front { OnErr result (WritesFront (K.held sink.old) (K.held sink.new) out.old.items) }
    ensures cause { HasCause (K.faults sink.old) (K.faults sink.new) result }
{
    if out.len() < least {
        return Ok(());
    }
    write_whole(sink, out)?;
    out.clear();
    Ok(())
}
