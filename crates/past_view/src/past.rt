//! The text at a set of members.

ghost use Rattle.std.specs.Prelude.{◌≡◌, ◌∷◌, ◌++◌, ◌<◌, [], Some, drop, length, slice_get, slice_index_or, take, vec_len, encode_utf8, OnOk, OnErr, IfErr, IfSome, IfNone};
ghost use Rattle.std.specs.List.{list_any};
ghost use Rattle.context_diff.specs.Replays.{text_of};
ghost use Rattle.context_diff.specs.ClosedContexts.{IsClosedContext};
ghost use Rattle.fixed_replay.specs.Replayed.{IsReplayed, AreCharacters};
ghost use Rattle.past_view.specs.Pasts.{sub, first_stray, IsRefusal};
ghost use Rattle.past_view.specs.Code.PastCells.{is_in_force_at, is_past, past_text};

use context_diff::{Book, closed};
use context_vector::Vector;
use cot_site::Site;
use op_name::{Member, Memory, Name};
use tombstone_text::{Cell, Cells, ChunkCells};
use undo_group::in_force;

/// Why a set of members has no text at a site: the first case that holds.
#[derive(Clone, Copy, Debug, PartialEq, Eq, Drop)]
pub enum AtBad {
    /// The site's history lacks members of the set; this is the first of them, in the order of members.
    Unknown { member: Member },
    /// The set lacks the originals of undo entries; this is the first of these names.
    Stray { name: Name },
    /// The set isn't closed: of this site, the least such one, it has a last original that was made after something that it hasn't.
    NotClosed { site: u16 },
    /// There was no memory.
    Memory,
}

impl From<Memory> for AtBad {
    ghost use Rattle.std.specs.Prelude.{◌≡◌};
    ghost use Rattle.past_view.specs.declared.past.AtBad.TheVariants as bad;

    ghost from_gives = { λ _ e. e ≡ bad.Memory };

    fn from(_: Memory) -> AtBad {
        AtBad::Memory
    }
}

/// Appends the text, in UTF-8, that the operations of `at` show: those of the site's history whose members are in it, and no others. The
/// set has to be closed, as the contexts of inserts and deletes are, and as what a site has is. `out` stays as it was where there is
/// no text. Costs a look at each cell of the site, shown or hidden, and at the deletes that hit it, each held against the set.
pub fn text_at(site: &Site, at: &Vector, out: &mut Vec<u8>) -> Result<(), AtBad>
    ensures text { OnOk result (out.new.items ≡ out.old.items ++ text_of (sub site.now.history at.now.set)) }
    ensures closed { OnOk result (IsClosedContext site.now.history at.now.set) }
    ensures refused { IfErr result (IsRefusal site.now.history at.now.set) }
    ensures kept { OnErr result (out.new.items ≡ out.old.items) }
{
    site.known();
    append_text(site.book(), site.cells(), at, out)
}

// Appends the text at the set, by the cells of the book's history.
fn append_text(book: &Book, cells: &Cells, at: &Vector, out: &mut Vec<u8>) -> Result<(), AtBad>
    requires cells { IsReplayed book.now.ops cells.now.cells }
    requires text { AreCharacters book.now.ops cells.now.cells cells.now.text }
    ensures text { OnOk result (out.new.items ≡ out.old.items ++ text_of (sub book.now.ops at.now.set)) }
    ensures closed { OnOk result (IsClosedContext book.now.ops at.now.set) }
    ensures refused { IfErr result (IsRefusal book.now.ops at.now.set) }
    ensures kept { OnErr result (out.new.items ≡ out.old.items) }
{
    book.known();
    if let Some(bad) = refusal(book, at) {
        return Err(bad);
    }
    write_past(cells, at, out)?;
    Ok(())
}

// Why the set has no text in the book's history, if it has none.
fn refusal(book: &Book, at: &Vector) -> Option<AtBad>
    ensures refused { IfSome result (IsRefusal book.now.ops at.now.set) }
    ensures closed { IfNone result (IsClosedContext book.now.ops at.now.set) }
{
    book.known();
    if let Some(member) = book.have().first_missing(at) {
        return Some(AtBad::Unknown { member });
    }
    if let Some(name) = first_stray(at) {
        return Some(AtBad::Stray { name });
    }
    match closed(book, at) {
        Some(site) => Some(AtBad::NotClosed { site }),
        None => None,
    }
}

// The first undone name whose original the set hasn't.
fn first_stray(at: &Vector) -> Option<Name>
    ensures { result ≡ first_stray at.now.set at.now.set.entries }
{
    let mut left = at.names_read();
    while let Some(undone) = left.next() {
        if !at.contains(&Member::Original(undone.0)) {
            return Some(undone.0);
        }
    }
    None
}

// Appends the characters of the cells that are of the past text; when out of memory, `out` is as it was.
fn write_past(cells: &Cells, at: &Vector, out: &mut Vec<u8>) -> Result<(), Memory>
    ensures ok { OnOk result (out.new.items ≡ out.old.items ++ past_text at.now.set cells.now.cells cells.now.text) }
    ensures err { OnErr result (out.new.items ≡ out.old.items) }
{
    let start = out.len();
    match push_past(cells, at, out) {
        Ok(()) => Ok(()),
        Err(memory) => {
            out.truncate(start);
            Err(memory)
        }
    }
}

// Appends the characters of the cells that are of the past text; when out of memory, those of some of them.
fn push_past(cells: &Cells, at: &Vector, out: &mut Vec<u8>) -> Result<(), Memory>
    ensures ok { OnOk result (out.new.items ≡ out.old.items ++ past_text at.now.set cells.now.cells cells.now.text) }
    ensures err { OnErr result (take (vec_len out.old) out.new.items ≡ out.old.items) }
{
    cells.known();
    for i in 0..cells.chunk_count() {
        push_chunk(cells, i, at, out)?;
    }
    Ok(())
}

// The same of the cells of a chunk with the characters beside them.
fn push_chunk(cells: &Cells, chunk: u32, at: &Vector, out: &mut Vec<u8>) -> Result<(), Memory>
    requires there { chunk < length cells.now.chunks }
    requires beside { length (slice_index_or cells.now.texts chunk []) ≡ length (slice_index_or cells.now.chunks chunk []) }
    ensures ok { OnOk result (out.new.items
        ≡ out.old.items ++ past_text at.now.set (slice_index_or cells.now.chunks chunk []) (slice_index_or cells.now.texts chunk [])) }
    ensures err { OnErr result (take (vec_len out.old) out.new.items ≡ out.old.items) }
{
    let text = cells.chunk_text(chunk);
    let mut left = cells.chunk_cells(chunk);
    for i in 0..text.len() {
        push_cell(&next_cell(&mut left), text[i], at, out)?;
    }
    Ok(())
}

// Takes the first cell that is left, where one is.
fn next_cell<'a>(left: &mut ChunkCells<'a>) -> Cell<'a>
    requires { 0 < length left.old }
    ensures first { slice_get left.old 0 ≡ Some result }
    ensures rest { left.new ≡ drop 1 left.old }
{
    match left.next() {
        Some(cell) => cell,
        None => unreachable!(),
    }
}

// Appends the character of a cell if it is of the past text.
fn push_cell(cell: &Cell<'_>, ch: char, at: &Vector, out: &mut Vec<u8>) -> Result<(), Memory>
    ensures ok { OnOk result (out.new.items ≡ out.old.items ++ past_text at.now.set (cell.now ∷ []) (ch ∷ [])) }
    ensures err { OnErr result (out.new.items ≡ out.old.items) }
{
    if is_past(cell, at) {
        push_char(ch, out)
    } else {
        Ok(())
    }
}

/// Appends the bytes of a character.
pub(crate) fn push_char(ch: char, out: &mut Vec<u8>) -> Result<(), Memory>
    ensures ok { OnOk result (out.new.items ≡ out.old.items ++ encode_utf8 ch) }
    ensures err { OnErr result (out.new.items ≡ out.old.items) }
{
    let mut bytes = [0; 4];
    out.extend_from_slice(ch.encode_utf8(&mut bytes).as_bytes())?;
    Ok(())
}

// Whether the cell is of the text at the set: its insert is in force there, and none of its deletes is.
fn is_past(cell: &Cell<'_>, at: &Vector) -> bool
    ensures { result ≡ is_past at.now.set cell.now }
{
    is_in_force_at(at, &cell.id().name) && !any_in_force_at(at, cell.deleters())
}

// Whether one of the deletes is in force at the set.
fn any_in_force_at(at: &Vector, deleters: &[(Name, u16)]) -> bool
    ensures { result ≡ list_any (λ e. is_in_force_at at.now.set e.0) deleters.now }
{
    deleters.iter().any(|e| is_in_force_at(at, &e.0))
}

// Whether the original is in the set, and in force by the undos that the set has.
fn is_in_force_at(at: &Vector, name: &Name) -> bool
    ensures { result ≡ is_in_force_at at.now.set name.now }
{
    at.contains(&Member::Original(*name)) && in_force(at, name)
}
