//! A chunk: some of the cells of a text that stand side by side, with their characters.

ghost use Rattle.std.specs.Prelude.{◌≡◌, ℕ, ◌+◌, ◌-◌, ◌<◌, ◌≤◌, List, [], ◌∷◌, length, map, take, drop, insert, position, replicate, sum, min, vec_len, vec_capacity, slice_index_or, slice_get, slice_set, IfOk, OnOk, OnErr, if◌then◌else◌};
ghost use Rattle.ttf_form.specs.Cells.{CellData, cell_shown, bare_cells, change_at, marked, put_in};
ghost use Rattle.tombstone_text.specs.Cells.{HasRoomOn};
ghost use Rattle.tombstone_text.specs.Chunks.{flag_of, shown_in};
ghost use Rattle.tombstone_text.specs.Measures.{weight_shown};
ghost use Rattle.tombstone_text.specs.Code.Weights.{Weighs};
ghost use Rattle.tombstone_text.specs.Code.Cells.{is_sought};
ghost use Rattle.tombstone_text.specs.Code.Chunks.{ChunkData, IsChunk, blank};
ghost use Rattle.tombstone_text.specs.Code.Inserts.{IsFound};
ghost use Rattle.tombstone_text.specs.Code.Spans.{cells_in, raised_run};
ghost use Rattle.tombstone_text.specs.declared.chunk.TheConstants.{FULL, GAPS};

use crate::cell::Cell;
use crate::chunk_cells::ChunkCells;
use crate::deleters::Spare;
use crate::measure::{Weight, weigh_shown};
use crate::sought::{Found, Sought};
use crate::span::Span;
use crate::spans;
use lane_rank::ones;
use op_name::{Memory, Name};
use std::alloc::Global;
use std::marker::Model;
use ttf_form::{Ins, Mark};

/// A chunk has at most so many cells. An insert moves those after the new one in its chunk, so more of them cost
/// more; with fewer, more chunks are searched and cut.
pub(crate) const FULL: usize = 512;

/// The least room that a chunk is made with.
const LEAST: usize = 16;

/// A change of a chunk adds at most so many spans.
pub(crate) const GAPS: usize = 2;

/// The room for a chunk of `len` cells that needs room for `least`: half as much again as it has cells, so that a chunk
/// moves to more room a few times only while it fills.
fn grown(len: usize, least: usize) -> usize
    requires len { len ≤ FULL }
    requires least { least ≤ FULL }
    ensures more { least ≤ result }
    ensures most { result ≤ FULL }
{
    (len + len / 2).max(LEAST).max(least).min(FULL)
}

/// The room for so many cells of a chunk that is made new, or cut in two: a quarter as much again.
pub(crate) fn room_for(len: usize) -> usize
    requires { len ≤ FULL }
    ensures more { len ≤ result }
    ensures most { result ≤ FULL }
{
    (len + len / 4).max(LEAST).min(FULL)
}

/// Up to 512 cells, kept in spans, with a column of flags, 1 for a shown cell and 0 for a hidden one, and a column of
/// characters. A chunk may have room for more cells than it has, and for more spans. Out of memory, only `with_room` and
/// `grow` fail.
#[derive(Drop)]
pub(crate) struct Chunk {
    spans: Vec<Span>,
    flags: Vec<u8>,
    text: Vec<char>,
}

impl Model for Chunk {
    ghost Value = { ChunkData };

    ghost view = { λ c. record {
      cells = cells_in c.spans.items;
      text = c.text.items;
      room = min FULL (min (vec_capacity c.flags) (vec_capacity c.text));
      gaps = vec_capacity c.spans - vec_len c.spans;
    } };

    ghost invariant = { λ c. IsChunk c.spans.items c.flags.items c.text.items };
}

impl Chunk {
    /// No cells, with room for so many, and for so many spans.
    pub(crate) fn with_room(room: usize, gaps: usize, alloc: Global) -> Result<Chunk, Memory>
        requires { room ≤ FULL }
        ensures cells { IfOk result (λ c. c.cells ≡ []) }
        ensures text { IfOk result (λ c. c.text ≡ []) }
        ensures room { IfOk result (λ c. c.room ≡ room) }
        ensures gaps { IfOk result (λ c. c.gaps ≡ gaps) }
    {
        let spans = Vec::with_capacity(alloc, gaps)?;
        let flags = Vec::with_capacity(alloc, room)?;
        let text = Vec::with_capacity(alloc, room)?;
        Ok(Chunk { spans, flags, text })
    }

    /// The number of cells.
    pub(crate) fn len(&self) -> usize
        ensures len { result ≡ length self.now.cells }
        ensures most { result ≤ FULL }
    {
        let _ = &self.spans;
        self.text.len()
    }

    /// For how many cells there is room, those that it has among them.
    pub(crate) fn room(&self) -> usize
        ensures { result ≡ self.now.room }
    {
        FULL.min(self.flags.capacity().min(self.text.capacity()))
    }

    /// For how many spans there is room, beside those that it has.
    pub(crate) fn gaps(&self) -> usize
        ensures { result ≡ self.now.gaps }
    {
        self.spans.capacity() - self.spans.len()
    }

    /// The cell at a place of the chunk; None exactly past the end.
    pub(crate) fn cell(&self, at: usize) -> Option<Cell<'_>>
        ensures { result ≡ slice_get self.now.cells at }
    {
        let (i, inside) = spans::find(self.spans.as_slice(), at);
        if i < self.spans.len() {
            Some(self.spans[i].cell(inside))
        } else {
            None
        }
    }

    /// The cells, to be read one after the other.
    pub(crate) fn cells(&self) -> ChunkCells<'_>
        ensures { result ≡ self.now.cells }
    {
        let _ = &self.flags;
        ChunkCells::new(self.spans.as_slice())
    }

    /// The first place of the chunk at which a cell is one that is looked for.
    pub(crate) fn position(&self, sought: &Sought) -> Option<usize>
        ensures { result ≡ position (is_sought sought.now) self.now.cells }
    {
        let _ = &self.flags;
        spans::position_of(self.spans.as_slice(), sought)
    }

    /// What the chunk has of an insert that has several cells.
    pub(crate) fn found(&self, name: &Name) -> Found
        ensures { IsFound result name.now self.now.cells }
    {
        let _ = &self.flags;
        spans::found(self.spans.as_slice(), name)
    }

    /// The flags of the cells, in their order.
    pub(crate) fn flags(&self) -> &[u8]
        ensures flags { result.now ≡ map flag_of self.now.cells }
        ensures most { length result.now ≤ FULL }
    {
        let _ = &self.spans;
        self.flags.as_slice()
    }

    /// The characters of the cells, in their order.
    pub(crate) fn text(&self) -> &[char]
        ensures text { result.now ≡ self.now.text }
        ensures long { length result.now ≡ length self.now.cells }
    {
        let _ = &self.spans;
        self.text.as_slice()
    }

    /// The number of shown cells, counted by the flags.
    pub(crate) fn shown(&self) -> u32
        ensures { result ≡ shown_in self.now.cells }
    {
        ones(self.flags())
    }

    /// What the shown characters weigh, each of which is looked at.
    pub(crate) fn weight(&self) -> Weight
        ensures { Weighs result (λ m. weight_shown m self.now.cells self.now.text) }
    {
        weigh_shown(self.flags(), self.text())
    }

    /// Makes room for so many cells in all, those that the chunk has among them, for their characters, and for two spans
    /// more than there are. Nothing else changes, also when out of memory.
    pub(crate) fn grow(&mut self, room: usize) -> Result<(), Memory>
        requires { room ≤ FULL }
        ensures cells { self.new.cells ≡ self.old.cells }
        ensures text { self.new.text ≡ self.old.text }
        ensures room { OnOk result (room ≤ self.new.room) }
        ensures gaps { OnOk result (GAPS ≤ self.new.gaps) }
    {
        let _ = self.len();
        grow_list(&mut self.flags, room)?;
        grow_list(&mut self.text, room)?;
        grow_spans(&mut self.spans)
    }

    /// Makes room for two spans more than there are; out of memory comes only where it isn't there yet. Nothing else
    /// changes.
    pub(crate) fn make_gaps(&mut self) -> Result<(), Memory>
        ensures cells { self.new.cells ≡ self.old.cells }
        ensures text { self.new.text ≡ self.old.text }
        ensures gaps { OnOk result (GAPS ≤ self.new.gaps) }
        ensures memory { OnErr result (self.old.gaps < GAPS) }
    {
        let _ = self.len();
        grow_spans(&mut self.spans)
    }

    /// Puts the cells of an insert with their characters at a place of the chunk, in their order.
    pub(crate) fn put_all(&mut self, at: usize, ins: &Ins, text: &[char])
        requires room { length self.old.cells + ins.now.len ≤ self.old.room }
        requires gaps { GAPS ≤ self.old.gaps }
        requires within { at ≤ length self.old.cells }
        requires text { length text.now ≡ ins.now.len }
        ensures cells { self.new.cells ≡ put_in at (bare_cells ins.now) self.old.cells }
        ensures text { self.new.text ≡ put_in at text.now self.old.text }
        ensures long { length self.new.text ≡ length self.new.cells }
    {
        spans::put(&mut self.spans, at, ins);
        put_shown(&mut self.flags, at, usize::from(ins.len));
        put_text(&mut self.text, at, text);
    }

    /// Marks the cell at a place of the chunk. A deleter that is added may take the list of `spare`.
    pub(crate) fn cover(&mut self, at: usize, mark: Mark, spare: &mut Spare)
        requires within { at < length self.old.cells }
        requires gaps { GAPS ≤ self.old.gaps }
        requires room { HasRoomOn mark (slice_index_or self.old.cells at blank) spare.old }
        ensures cells { self.new.cells ≡ change_at at (marked mark) self.old.cells }
        ensures text { self.new.text ≡ self.old.text }
    {
        let flag = spans::mark(&mut self.spans, at, mark, spare);
        self.flags[at] = flag;
    }

    /// Raises all cells of an insert in the chunk, if it has several.
    pub(crate) fn raise(&mut self, name: &Name, generation: u16)
        ensures cells { self.new.cells ≡ map (raised_run generation name.now) self.old.cells }
        ensures text { self.new.text ≡ self.old.text }
    {
        spans::raise(&mut self.spans, self.flags.as_mut_slice(), name, generation);
    }

    /// Keeps the first `keep` cells and moves the others, with their characters, to another chunk, which was empty. Of
    /// the room that the moved cells leave a part is kept, for new cells, and room for `least` cells in all where there
    /// is so much; the rest is given back. Where there is no memory for the move to less room, all is kept. Both parts
    /// have room for two spans more.
    pub(crate) fn split(&mut self, keep: usize, least: usize, upper: &mut Chunk)
        requires some { 1 ≤ keep }
        requires less { keep < length self.old.cells }
        requires gaps { GAPS ≤ self.old.gaps }
        requires empty { upper.old.cells ≡ [] }
        requires room { length self.old.cells ≤ keep + upper.old.room }
        requires upper_gaps { FULL + GAPS ≤ upper.old.gaps }
        ensures lower { self.new.cells ≡ take keep self.old.cells }
        ensures upper { upper.new.cells ≡ drop keep self.old.cells }
        ensures lower_text { self.new.text ≡ take keep self.old.text }
        ensures upper_text { upper.new.text ≡ drop keep self.old.text }
        ensures lower_long { length self.new.text ≡ length self.new.cells }
        ensures upper_long { length upper.new.text ≡ length upper.new.cells }
        ensures lower_room { least ≤ self.old.room → least ≤ self.new.room }
        ensures upper_room { upper.old.room ≤ upper.new.room }
        ensures lower_gaps { GAPS ≤ self.new.gaps }
        ensures upper_gaps { GAPS ≤ upper.new.gaps }
    {
        let i = spans::border(&mut self.spans, keep);
        move_spans(&mut self.spans, i, &mut upper.spans);
        move_column(&mut self.flags, keep, &mut upper.flags);
        move_column(&mut self.text, keep, &mut upper.text);
        let room = room_for(keep).max(least);
        self.flags.shrink_to(room);
        self.text.shrink_to(room);
        shrink_spans(&mut self.spans);
        shrink_spans(&mut upper.spans);
    }
}

/// Makes room for two spans more than a list has, a half as much again as it has where there is none.
fn grow_spans(spans: &mut Vec<Span>) -> Result<(), Memory>
    ensures items { spans.new.items ≡ spans.old.items }
    ensures room { OnOk result (vec_len spans.new + GAPS ≤ vec_capacity spans.new) }
    ensures memory { OnErr result (vec_capacity spans.old < vec_len spans.old + GAPS) }
{
    let len = spans.len();
    if spans.capacity() - len < GAPS {
        spans.reserve_exact(GAPS.max(len / 2))?;
    }
    Ok(())
}

/// Gives back most of the room of a list, and keeps that for two spans more, where it is there.
fn shrink_spans(spans: &mut Vec<Span>)
    requires { vec_len spans.old + GAPS ≤ vec_capacity spans.old }
    ensures items { spans.new.items ≡ spans.old.items }
    ensures room { vec_len spans.new + GAPS ≤ vec_capacity spans.new }
{
    let len = spans.len();
    spans.shrink_to(len + GAPS.max(len / 4));
}

/// Makes room for so many elements in all in a list of a chunk.
fn grow_list<T>(list: &mut Vec<T>, room: usize) -> Result<(), Memory>
    requires len { vec_len list.old ≤ FULL }
    requires room { room ≤ FULL }
    ensures items { list.new.items ≡ list.old.items }
    ensures room { OnOk result (room ≤ vec_capacity list.new) }
{
    let len = list.len();
    if list.capacity() < room {
        list.reserve_exact(grown(len, room) - len)?;
    }
    Ok(())
}

/// Puts the flags of so many shown cells at a place of a column.
fn put_shown(flags: &mut Vec<u8>, at: usize, count: usize)
    requires within { at ≤ vec_len flags.old }
    requires room { vec_len flags.old + count ≤ vec_capacity flags.old }
    ensures { flags.new.items ≡ put_in at (replicate count 1) flags.old.items }
{
    if count == 1 {
        put_one(flags, at, 1);
        return;
    }
    open_gap(flags, at, count, 1);
    flags[at..at + count].fill(1);
}

/// Puts characters at a place of a column.
fn put_text(column: &mut Vec<char>, at: usize, text: &[char])
    requires within { at ≤ vec_len column.old }
    requires room { vec_len column.old + length text.now ≤ vec_capacity column.old }
    ensures { column.new.items ≡ put_in at text.now column.old.items }
{
    if text.len() == 1 {
        put_one(column, at, text[0]);
        return;
    }
    open_gap(column, at, text.len(), '\0');
    column[at..at + text.len()].copy_from_slice(text);
}

/// Puts one element at a place of a column.
fn put_one<T>(column: &mut Vec<T>, at: usize, element: T)
    requires within { at ≤ vec_len column.old }
    requires room { vec_len column.old < vec_capacity column.old }
    ensures { column.new.items ≡ put_in at (element ∷ []) column.old.items }
{
    match column.insert(at, element) {
        Ok(()) => {}
        Err(_) => unreachable!(),
    }
}

/// Moves the elements from a place of a column so many places up. In the gap, which the caller fills, anything may stand.
fn open_gap<T: Copy>(column: &mut Vec<T>, at: usize, count: usize, any: T)
    requires within { at ≤ vec_len column.old }
    requires room { vec_len column.old + count ≤ vec_capacity column.old }
    ensures before { take at column.new.items ≡ take at column.old.items }
    ensures behind { drop (at + count) column.new.items ≡ drop at column.old.items }
    ensures len { vec_len column.new ≡ vec_len column.old + count }
{
    let len = column.len();
    match column.resize(len + count, any) {
        Ok(()) => {}
        Err(_) => unreachable!(),
    }
    column.copy_within(at..len, at + count);
}

/// Moves the spans from place `keep` on to an empty list, in their order.
fn move_spans(from: &mut Vec<Span>, keep: usize, to: &mut Vec<Span>)
    requires within { keep ≤ vec_len from.old }
    requires empty { to.old.items ≡ [] }
    requires room { vec_len from.old ≤ keep + vec_capacity to.old }
    ensures lower { from.new.items ≡ take keep from.old.items }
    ensures upper { to.new.items ≡ drop keep from.old.items }
    ensures from_room { vec_capacity from.old ≤ vec_capacity from.new }
    ensures to_room { vec_capacity to.old ≤ vec_capacity to.new }
{
    while from.len() > keep {
        match from.pop() {
            Some(span) => to.push_reserved(span),
            None => unreachable!(),
        }
    }
    to.reverse();
}

/// Moves the part of a column from place `keep` on to an empty list, in its order.
fn move_column<T: Copy>(from: &mut Vec<T>, keep: usize, to: &mut Vec<T>)
    requires within { keep ≤ vec_len from.old }
    requires empty { to.old.items ≡ [] }
    requires room { vec_len from.old ≤ keep + vec_capacity to.old }
    ensures lower { from.new.items ≡ take keep from.old.items }
    ensures upper { to.new.items ≡ drop keep from.old.items }
    ensures from_room { vec_capacity from.old ≤ vec_capacity from.new }
    ensures to_room { vec_capacity to.old ≤ vec_capacity to.new }
{
    match to.extend_from_slice(&from[keep..]) {
        Ok(()) => {}
        Err(_) => unreachable!(),
    }
    from.truncate(keep);
}
