//! The chunks of a text, beside the columns of their lengths, of their numbers of shown cells, and of what these weigh.

ghost use Rattle.std.specs.Prelude.{◌≡◌, ℕ, ◌+◌, ◌-◌, ◌<◌, ◌≤◌, ◌^◌, ◌↔◌, [], length, filter, map, take, min, position, slice_get, slice_index, slice_index_or, vec_len, vec_capacity, IfSome, IfOk, OnOk, OnErr, IsTrue, IsFalse, option_map, if◌then◌else◌};
ghost use Rattle.op_name.specs.declared.limits.TheConstants.{LETTERS};
ghost use Rattle.ttf_form.specs.Cells.{cell_shown, bare_cells, change_at, marked, put_in};
ghost use Rattle.ttf_form.specs.declared.include.TheConstants.{CELLS};
ghost use Rattle.tombstone_text.specs.Cells.{HasGaps, HasRoomOn};
ghost use Rattle.tombstone_text.specs.Chunks.{flat, flag_of, joined, shown_in};
ghost use Rattle.tombstone_text.specs.Sums.{IsPart};
ghost use Rattle.tombstone_text.specs.Measures.{chunk_weights, weight_shown};
ghost use Rattle.tombstone_text.specs.Code.Weights.{AreWeights, column_of};
ghost use Rattle.tombstone_text.specs.Code.Cells.{AreBeside, ChunksData, cut, fresh_gaps, fresh_room, HasPlaces, IsReady, IsSeat, IsText, IsWay, MayBeCut, is_sought};
ghost use Rattle.tombstone_text.specs.Code.Chunks.{blank, bodies, gaps_of, rooms_of, texts_of};
ghost use Rattle.tombstone_text.specs.Code.Inserts.{AreInserts, HasLast, IsFound, LacksRun};
ghost use Rattle.tombstone_text.specs.Code.Spans.{raised_run};
ghost use Rattle.tombstone_text.specs.declared.chunk.TheConstants.{FULL, GAPS};

use crate::cell::Cell;
use crate::chunk::{Chunk, FULL, GAPS, room_for};
use crate::chunk_cells::ChunkCells;
use crate::counts::Counts;
use crate::deleters::Spare;
use crate::measure::{Measure, Weight, turned, weigh};
use crate::sought::{Found, Sought};
use crate::weights::Weights;
use op_name::{Memory, Name};
use std::alloc::Global;
use std::marker::Model;
use ttf_form::{CELLS, Cover, Ins};

/// How new cells may come in without memory.
#[derive(Clone, Copy, Drop)]
pub(crate) enum Way {
    /// Into the fresh chunk, as the first cells of the text.
    First,
    /// Into a chunk that has room for them, at place `at` of that chunk.
    Into {
        chunk: usize,
        at: usize,
    },
    /// At place `at` of a chunk that may not have so many cells more, and is cut in two first: its first `keep` cells
    /// stay, the others move.
    Cut {
        chunk: usize,
        at: usize,
        keep: usize,
    },
}

/// The place at which so many cells may come in without memory, and the way.
#[derive(Clone, Copy, Drop)]
pub(crate) struct Ready {
    place: u32,
    len: u16,
    way: Way,
}

impl Ready {
    /// Whether it is for the cells of this insert: as many, at its place.
    pub(crate) fn is_for(&self, ins: &Ins) -> bool
        ensures { IsTrue result ↔ (self.now.place ≡ ins.now.place) × (self.now.len ≡ ins.now.len) }
    {
        self.place == ins.place && self.len == ins.len
    }
}

/// The cells of a text in chunks of 1 to 512 cells. The lengths of the chunks, their numbers of shown cells and what the
/// characters of these weigh are columns of sums, by which the chunk of a place is found; so an insert moves cells of one
/// chunk alone, and changes the sums by what comes in, as a mark does by its cell. The room of a
/// chunk grows as it fills. A chunk that would have too many cells is cut in two for an insert into it, and the upper
/// part goes to a fresh chunk, which is made before.
#[derive(Drop)]
pub(crate) struct Chunks {
    list: Vec<Chunk>,
    lens: Counts,
    shown: Counts,
    weights: Weights,
    fresh: Option<Chunk>,
}

impl Model for Chunks {
    ghost Value = { ChunksData };

    ghost view = { λ c. record {
      chunks = bodies c.list.items;
      cells = flat (bodies c.list.items);
      texts = texts_of c.list.items;
      text = joined (texts_of c.list.items);
      rooms = rooms_of c.list.items;
      gaps = gaps_of c.list.items;
      fresh = fresh_room c.fresh;
      fresh_gaps = fresh_gaps c.fresh;
      spare = min (vec_capacity c.list - vec_len c.list) (min c.lens.spare (min c.shown.spare c.weights.spare));
    } };

    ghost invariant = { λ c. IsText (bodies c.list.items) c.lens.parts c.shown.parts c.fresh
        × AreBeside (texts_of c.list.items) c.lens.parts × AreWeights (column_of c.weights) c.list.items };
}

impl Chunks {
    /// No cells; takes no memory.
    pub(crate) fn new(alloc: Global) -> Chunks
        ensures cells { result.cells ≡ [] }
        ensures text { result.text ≡ [] }
    {
        Chunks {
            list: Vec::new(alloc),
            lens: Counts::new(alloc),
            shown: Counts::new(alloc),
            weights: Weights::new(alloc),
            fresh: None,
        }
    }

    /// Where the chunks take their memory.
    pub(crate) fn allocator(&self) -> Global {
        *self.list.allocator()
    }

    /// The number of cells, shown or hidden.
    pub(crate) fn len(&self) -> u32
        ensures { result ≡ length self.now.cells }
    {
        let _ = &self.list;
        self.lens.total()
    }

    /// The number of shown cells.
    pub(crate) fn shown_len(&self) -> u32
        ensures { result ≡ length (filter cell_shown self.now.cells) }
    {
        let _ = &self.list;
        self.shown.total()
    }

    /// Does nothing; its contract says what the chunks of a text keep.
    pub(crate) fn known(&self)
        ensures most { length self.now.cells < 2 ^ 32 }
        ensures few { length self.now.chunks < 2 ^ 32 }
        ensures chunks { flat self.now.chunks ≡ self.now.cells }
        ensures texts { joined self.now.texts ≡ self.now.text }
        ensures beside { map length self.now.texts ≡ map length self.now.chunks }
        ensures long { length self.now.text ≡ length self.now.cells }
    {
        let _ = &self.list;
        let _ = self.lens.total();
    }

    /// The cell at place `i`; None exactly past the end.
    pub(crate) fn cell(&self, i: u32) -> Option<Cell<'_>>
        ensures { result ≡ slice_get self.now.cells i }
    {
        if i < self.lens.total() {
            let (k, at) = self.lens.find(i);
            self.list[k].cell(at as usize)
        } else {
            None
        }
    }

    /// The number of chunks.
    pub(crate) fn chunk_count(&self) -> u32
        ensures { result ≡ length self.now.chunks }
    {
        let _ = self.lens.total();
        self.list.len() as u32
    }

    /// The flags of the cells of chunk `i`.
    pub(crate) fn chunk_flags(&self, i: u32) -> &[u8]
        requires { i < length self.now.chunks }
        ensures flags { result.now ≡ map flag_of (slice_index_or self.now.chunks i []) }
        ensures least { 1 ≤ length result.now }
        ensures most { length result.now ≤ FULL }
    {
        let _ = &self.lens;
        self.list[i as usize].flags()
    }

    /// The number of shown cells of chunk `i`.
    pub(crate) fn chunk_shown(&self, i: u32) -> u32
        requires { i < length self.now.chunks }
        ensures { result ≡ shown_in (slice_index_or self.now.chunks i []) }
    {
        let _ = &self.list;
        self.shown.part(i as usize)
    }

    /// The cell at a place of chunk `i`; None exactly past its end.
    pub(crate) fn chunk_cell(&self, i: u32, at: usize) -> Option<Cell<'_>>
        requires { i < length self.now.chunks }
        ensures { result ≡ slice_get (slice_index_or self.now.chunks i []) at }
    {
        self.list[i as usize].cell(at)
    }

    /// The cells of chunk `i`, to be read one after the other.
    pub(crate) fn chunk_cells(&self, i: u32) -> ChunkCells<'_>
        requires { i < length self.now.chunks }
        ensures { result ≡ slice_index_or self.now.chunks i [] }
    {
        let _ = &self.lens;
        self.list[i as usize].cells()
    }

    /// The characters of the cells of chunk `i`.
    pub(crate) fn chunk_text(&self, i: u32) -> &[char]
        requires { i < length self.now.chunks }
        ensures { result.now ≡ slice_index_or self.now.texts i [] }
    {
        self.list[i as usize].text()
    }

    /// The place of the first cell of chunk `i`; for `chunk_count` the number of all cells.
    pub(crate) fn chunk_start(&self, i: u32) -> u32
        requires { i ≤ length self.now.chunks }
        ensures { result ≡ length (flat (take i self.now.chunks)) }
    {
        let _ = &self.list;
        self.lens.start_of(i as usize)
    }

    /// The chunk that holds the `v`-th shown cell, and how many shown cells of that chunk come before it.
    pub(crate) fn shown_chunk(&self, v: u32) -> (u32, u32)
        requires { v < length (filter cell_shown self.now.cells) }
        ensures { IsPart (map shown_in self.now.chunks) result.0 result.1 v }
    {
        let _ = self.lens.total();
        let _ = &self.list;
        let (i, before) = self.shown.find(v);
        (i as u32, before)
    }

    /// The number of shown cells of the chunks before chunk `i`; for `chunk_count` that of all.
    pub(crate) fn shown_start(&self, i: u32) -> u32
        requires { i ≤ length self.now.chunks }
        ensures { result ≡ shown_in (flat (take i self.now.chunks)) }
    {
        let _ = &self.list;
        self.shown.start_of(i as usize)
    }

    /// The chunk in which the cell at place `i` stands, and how many cells of that chunk come before it.
    pub(crate) fn place_chunk(&self, i: u32) -> (u32, u32)
        requires { i < length self.now.cells }
        ensures { IsPart (map length self.now.chunks) result.0 result.1 i }
    {
        let _ = self.lens.total();
        let _ = &self.list;
        let (k, before) = self.lens.find(i);
        (k as u32, before)
    }

    /// What all shown characters weigh.
    pub(crate) fn weight(&self, m: Measure) -> u64
        ensures { result ≡ weight_shown m self.now.cells self.now.text }
    {
        let _ = &self.list;
        self.weights.column(m).total()
    }

    /// What the shown characters of the chunks before chunk `i` weigh; for `chunk_count` what all do.
    pub(crate) fn weight_start(&self, m: Measure, i: u32) -> u64
        requires { i ≤ length self.now.chunks }
        ensures { result ≡ weight_shown m (flat (take i self.now.chunks)) (joined (take i self.now.texts)) }
    {
        let _ = &self.list;
        self.weights.column(m).start_of(i as usize)
    }

    /// The chunk that holds the `n`-th unit of weight, and how many units of that chunk come before it.
    pub(crate) fn weight_chunk(&self, m: Measure, n: u64) -> (u32, u32)
        requires { n < weight_shown m self.now.cells self.now.text }
        ensures { IsPart (chunk_weights m self.now.chunks self.now.texts) result.0 result.1 n }
    {
        let _ = self.lens.total();
        let _ = &self.list;
        let (k, before) = self.weights.column(m).find(n);
        let _ = self.list[k].len();
        (k as u32, before as u32)
    }

    /// The first place at which a cell is one that is looked for.
    pub(crate) fn first_place(&self, sought: &Sought) -> Option<u32>
        ensures { result ≡ position (is_sought sought.now) self.now.cells }
    {
        let _ = self.lens.total();
        let mut start = 0;
        let mut i = 0;
        while i < self.list.len() {
            let chunk = &self.list[i];
            match chunk.position(sought) {
                Some(at) => return Some((start + at) as u32),
                None => {}
            }
            start += chunk.len();
            i += 1;
        }
        None
    }

    /// Makes room for the cells of an insert at its place, and for their characters, and answers the way by which they
    /// then come in; a place past the end counts as the end. Nothing else changes, also when out of memory.
    pub(crate) fn reserve(&mut self, ins: &Ins) -> Result<Ready, Memory>
        ensures chunks { self.new.chunks ≡ self.old.chunks }
        ensures cells { self.new.cells ≡ self.old.cells }
        ensures text { self.new.text ≡ self.old.text }
        ensures place { IfOk result (λ r. r.place ≡ ins.now.place) }
        ensures len { IfOk result (λ r. r.len ≡ ins.now.len) }
        ensures ready { IfOk result (λ r. IsReady self.new r) }
    {
        let way = self.reserve_way(ins.place, ins.len as usize)?;
        Ok(Ready {
            place: ins.place,
            len: ins.len,
            way,
        })
    }

    /// Makes room for `n` new cells at a place.
    fn reserve_way(&mut self, place: u32, n: usize) -> Result<Way, Memory>
        requires { n ≤ LETTERS }
        ensures chunks { self.new.chunks ≡ self.old.chunks }
        ensures cells { self.new.cells ≡ self.old.cells }
        ensures text { self.new.text ≡ self.old.text }
        ensures way { IfOk result (λ w. IsWay self.new w (min place (length self.new.cells)) n) }
    {
        self.known();
        if self.chunk_count() == 0 {
            self.reserve_chunk(room_for(n), GAPS)?;
            return Ok(Way::First);
        }
        let all = self.len();
        let (chunk, at) = self.seat(place.min(all));
        let len = self.len_of(chunk);
        if len + n <= FULL {
            self.grow(chunk, len + n)?;
            Ok(Way::Into { chunk, at })
        } else {
            let keep = kept(len, place >= all);
            self.reserve_cut(chunk, at, keep, n)?;
            Ok(Way::Cut { chunk, at, keep })
        }
    }

    /// The chunk for new cells at a place, and the place in that chunk: right after the cell before them, or at
    /// the front of the first chunk.
    fn seat(&self, place: u32) -> (usize, usize)
        requires some { 1 ≤ length self.now.chunks }
        requires within { place ≤ length self.now.cells }
        ensures { IsSeat self.now.chunks result.0 result.1 place }
    {
        let _ = &self.list;
        if place == 0 {
            (0, 0)
        } else {
            let (i, at) = self.lens.find(place - 1);
            (i, at as usize + 1)
        }
    }

    /// The number of cells of chunk `i`.
    fn len_of(&self, i: usize) -> usize
        requires { i < length self.now.chunks }
        ensures len { result ≡ length (slice_index_or self.now.chunks i []) }
        ensures most { result ≤ FULL }
    {
        self.list[i].len()
    }

    /// Makes room for one chunk more: a fresh one with room for so many cells, and for so many spans, and a place for it in
    /// the list and in each column.
    fn reserve_chunk(&mut self, room: usize, gaps: usize) -> Result<(), Memory>
        requires { room ≤ FULL }
        ensures chunks { self.new.chunks ≡ self.old.chunks }
        ensures cells { self.new.cells ≡ self.old.cells }
        ensures text { self.new.text ≡ self.old.text }
        ensures rooms { self.new.rooms ≡ self.old.rooms }
        ensures gaps { self.new.gaps ≡ self.old.gaps }
        ensures fresh { OnOk result (room ≤ self.new.fresh) }
        ensures fresh_gaps { OnOk result (gaps ≤ self.new.fresh_gaps) }
        ensures spare { OnOk result (1 ≤ self.new.spare) }
    {
        self.list.reserve(1)?;
        self.lens.reserve()?;
        self.shown.reserve()?;
        self.weights.make_place()?;
        if !has_room(&self.fresh, room, gaps) {
            self.fresh = Some(Chunk::with_room(room, gaps, *self.list.allocator())?);
        }
        Ok(())
    }

    /// Makes room in chunk `i` for so many cells in all, and for the spans that a change of it adds.
    fn grow(&mut self, i: usize, room: usize) -> Result<(), Memory>
        requires chunk { i < length self.old.chunks }
        requires most { room ≤ FULL }
        ensures chunks { self.new.chunks ≡ self.old.chunks }
        ensures cells { self.new.cells ≡ self.old.cells }
        ensures text { self.new.text ≡ self.old.text }
        ensures room { OnOk result (room ≤ slice_index_or self.new.rooms i 0) }
        ensures gaps { OnOk result (GAPS ≤ slice_index_or self.new.gaps i 0) }
    {
        let _ = &self.lens;
        self.list[i].grow(room)
    }

    /// Makes room for the spans that a mark at a place adds to its chunk; out of memory comes only where it isn't there
    /// yet. Nothing else changes.
    pub(crate) fn make_gaps(&mut self, place: u32) -> Result<(), Memory>
        requires { place < length self.old.cells }
        ensures chunks { self.new.chunks ≡ self.old.chunks }
        ensures cells { self.new.cells ≡ self.old.cells }
        ensures texts { self.new.texts ≡ self.old.texts }
        ensures text { self.new.text ≡ self.old.text }
        ensures gaps { OnOk result (HasGaps self.new.chunks self.new.gaps place) }
        ensures memory { OnErr result (¬ HasGaps self.old.chunks self.old.gaps place) }
    {
        let _ = self.lens.total();
        let (i, _) = self.lens.find(place);
        self.list[i].make_gaps()
    }

    /// Makes room for the cut of chunk `i` behind its first `keep` cells, and for `n` new cells in the part that gets
    /// them.
    fn reserve_cut(&mut self, i: usize, at: usize, keep: usize, n: usize) -> Result<(), Memory>
        requires chunk { i < length self.old.chunks }
        requires some { 1 ≤ keep }
        requires less { keep < length (slice_index_or self.old.chunks i []) }
        requires low { at ≤ keep → keep + n ≤ FULL }
        requires high { length (slice_index_or self.old.chunks i []) + n ≤ keep + FULL }
        ensures chunks { self.new.chunks ≡ self.old.chunks }
        ensures cells { self.new.cells ≡ self.old.cells }
        ensures text { self.new.text ≡ self.old.text }
        ensures cut { OnOk result (MayBeCut self.new i at keep n) }
    {
        let moved = self.len_of(i) - keep;
        if at <= keep {
            self.grow(i, keep + n)?;
            self.reserve_chunk(room_for(moved), FULL + GAPS)
        } else {
            self.grow(i, keep)?;
            self.reserve_chunk(room_for(moved).max(moved + n), FULL + GAPS)
        }
    }

    /// Puts the cells of an insert with their characters at the place for which `reserve` made room.
    pub(crate) fn put(&mut self, ready: Ready, ins: &Ins, text: &[char])
        requires ready { IsReady self.old ready }
        requires len { ready.len ≡ ins.now.len }
        requires place { ready.place ≤ length self.old.cells }
        requires bound { length self.old.cells + ins.now.len ≤ CELLS }
        requires text { length text.now ≡ ins.now.len }
        ensures cells { self.new.cells ≡ put_in ready.place (bare_cells ins.now) self.old.cells }
        ensures text { self.new.text ≡ put_in ready.place text.now self.old.text }
    {
        self.known();
        match ready.way {
            Way::First => self.put_first(ins, text),
            Way::Into { chunk, at } => self.put_at(chunk, at, ins, text),
            Way::Cut { chunk, at, keep } => {
                self.split(chunk, keep, room_below(at, keep, ins.len as usize));
                if at <= keep {
                    self.put_at(chunk, at, ins, text);
                } else {
                    self.put_at(chunk + 1, at - keep, ins, text);
                }
            }
        }
    }

    /// Puts the first cells of a text into the fresh chunk.
    fn put_first(&mut self, ins: &Ins, text: &[char])
        requires fresh { ins.now.len ≤ self.old.fresh }
        requires gaps { GAPS ≤ self.old.fresh_gaps }
        requires spare { 1 ≤ self.old.spare }
        requires empty { self.old.chunks ≡ [] }
        requires text { length text.now ≡ ins.now.len }
        ensures cells { self.new.cells ≡ put_in 0 (bare_cells ins.now) [] }
        ensures text { self.new.text ≡ put_in 0 text.now [] }
    {
        match self.fresh.take() {
            Some(mut chunk) => {
                chunk.put_all(0, ins, text);
                self.lens.insert(0, ins.len as u32);
                self.shown.insert(0, ins.len as u32);
                self.weights.add(0, weigh(text));
                self.list.push_reserved(chunk);
            }
            None => unreachable!(),
        }
    }

    /// Puts the cells of an insert with their characters into chunk `i`, which has room, at place `at` of the chunk.
    fn put_at(&mut self, i: usize, at: usize, ins: &Ins, text: &[char])
        requires chunk { i < length self.old.chunks }
        requires within { at ≤ length (slice_index_or self.old.chunks i []) }
        requires room { HasPlaces self.old i ins.now.len }
        requires bound { length self.old.cells + ins.now.len ≤ CELLS }
        requires text { length text.now ≡ ins.now.len }
        ensures cells { (p : ℕ) → IsSeat self.old.chunks i at p → self.new.cells ≡ put_in p (bare_cells ins.now) self.old.cells }
        ensures text { (p : ℕ) → IsSeat self.old.chunks i at p → self.new.text ≡ put_in p text.now self.old.text }
    {
        let len = self.lens.part(i);
        let shown = self.shown.part(i);
        let had = self.weights.at(i);
        let more = weigh(text);
        let weight = had.plus(more);
        let chunk = &mut self.list[i];
        chunk.put_all(at, ins, text);
        self.lens.set(i, len + ins.len as u32);
        self.shown.set(i, shown + ins.len as u32);
        self.weights.change(i, weight);
    }

    /// Cuts chunk `i` in two: its first `keep` cells stay, the others become the next chunk. The lower part keeps room
    /// for `least` cells in all, where it has so much. Neither cells nor text change.
    fn split(&mut self, i: usize, keep: usize, least: usize)
        requires room { length (slice_index_or self.old.chunks i []) ≤ keep + self.old.fresh }
        requires gaps { GAPS ≤ slice_index_or self.old.gaps i 0 }
        requires fresh_gaps { FULL + GAPS ≤ self.old.fresh_gaps }
        requires spare { 1 ≤ self.old.spare }
        requires chunk { i < length self.old.chunks }
        requires some { 1 ≤ keep }
        requires less { keep < length (slice_index_or self.old.chunks i []) }
        requires bound { length self.old.cells ≤ CELLS }
        ensures chunks { self.new.chunks ≡ cut self.old.chunks i keep }
        ensures cells { self.new.cells ≡ self.old.cells }
        ensures text { self.new.text ≡ self.old.text }
        ensures lower { least ≤ slice_index_or self.old.rooms i 0 → least ≤ slice_index_or self.new.rooms i 0 }
        ensures upper { self.old.fresh ≤ slice_index_or self.new.rooms (i + 1) 0 }
        ensures lower_gaps { GAPS ≤ slice_index_or self.new.gaps i 0 }
        ensures upper_gaps { GAPS ≤ slice_index_or self.new.gaps (i + 1) 0 }
    {
        let len = self.lens.part(i);
        match self.fresh.take() {
            Some(mut upper) => {
                let lower = &mut self.list[i];
                lower.split(keep, least, &mut upper);
                let low = lower.shown();
                let high = upper.shown();
                let lower_weight = lower.weight();
                let upper_weight = upper.weight();
                self.lens.set(i, keep as u32);
                self.lens.insert(i + 1, len - keep as u32);
                self.shown.set(i, low);
                self.shown.insert(i + 1, high);
                self.weights.change(i, lower_weight);
                self.weights.add(i + 1, upper_weight);
                match self.list.insert(i + 1, upper) {
                    Ok(()) => {}
                    Err(_) => unreachable!(),
                }
            }
            None => unreachable!(),
        }
    }

    /// Marks the cell at the place of a cover, by which the number and the weight of the shown cells of its chunk change.
    pub(crate) fn mark(&mut self, cover: &Cover, spare: &mut Spare)
        requires room { IfSome (slice_get self.old.cells cover.now.place) (λ d. HasRoomOn cover.now.mark d spare.old) }
        requires place { cover.now.place < length self.old.cells }
        requires gaps { HasGaps self.old.chunks self.old.gaps cover.now.place }
        ensures cells { self.new.cells ≡ change_at cover.now.place (marked cover.now.mark) self.old.cells }
        ensures text { self.new.text ≡ self.old.text }
    {
        let _ = self.lens.total();
        let (i, at) = self.lens.find(cover.place);
        let shown = self.shown.part(i);
        let chunk = &mut self.list[i];
        let before = flag_at(chunk, at as usize);
        chunk.cover(at as usize, cover.mark, spare);
        let after = flag_at(chunk, at as usize);
        let one = Weight::of(char_at(chunk, at as usize));
        self.shown.set(i, shown - before + after);
        let had = self.weights.at(i);
        let weight = turned(had, one, before, after);
        self.weights.change(i, weight);
    }

    /// Raises all cells of an insert, if it has several. Where its first cell is that at the place, this costs by the
    /// chunks from that cell to the insert's last one; else by those from the front of the text on.
    pub(crate) fn raise(&mut self, place: u32, name: &Name, generation: u16)
        requires place { place < length self.old.cells }
        requires inserts { AreInserts self.old.cells }
        ensures cells { self.new.cells ≡ map (raised_run generation name.now) self.old.cells }
        ensures text { self.new.text ≡ self.old.text }
    {
        self.known();
        let first = self.first_of(place, name);
        self.raise_from(first, name, generation);
        self.known();
    }

    /// A chunk in front of which no cell is of an insert that has several: that of the place, where the insert's first cell
    /// stands there, else the first one.
    fn first_of(&self, place: u32, name: &Name) -> usize
        requires place { place < length self.now.cells }
        requires inserts { AreInserts self.now.cells }
        ensures { LacksRun name.now (flat (take result self.now.chunks)) }
    {
        let _ = self.lens.total();
        let (i, at) = self.lens.find(place);
        match self.list[i].cell(at as usize) {
            Some(cell) => { if cell.is_first_of(name) { i } else { 0 } }
            None => 0,
        }
    }

    /// Raises all cells of an insert, if it has several, none of which stands in front of chunk `first`. No cell stands
    /// behind the insert's last one, so the chunks behind that aren't looked at.
    fn raise_from(&mut self, first: usize, name: &Name, generation: u16)
        requires before { LacksRun name.now (flat (take first self.old.chunks)) }
        requires inserts { AreInserts (flat self.old.chunks) }
        ensures chunks { self.new.chunks ≡ map (map (raised_run generation name.now)) self.old.chunks }
        ensures text { self.new.text ≡ self.old.text }
    {
        for i in first..self.chunk_count() as usize {
            if self.raise_chunk(i, name, generation) {
                return;
            }
        }
    }

    /// Raises the cells of an insert in chunk `i`, if it has several, and answers whether its last one is there. A chunk
    /// that has none is only read.
    fn raise_chunk(&mut self, i: usize, name: &Name, generation: u16) -> bool
        requires { i < length self.old.chunks }
        ensures chunks { self.new.chunks ≡ change_at i (map (raised_run generation name.now)) self.old.chunks }
        ensures text { self.new.text ≡ self.old.text }
        ensures last { IsTrue result → HasLast name.now (slice_index_or self.old.chunks i []) }
    {
        match self.found(i, name) {
            Found::Nothing => false,
            Found::Cells => {
                self.raise_there(i, name, generation);
                false
            }
            Found::Last => {
                self.raise_there(i, name, generation);
                true
            }
        }
    }

    /// What chunk `i` has of an insert that has several cells.
    fn found(&self, i: usize, name: &Name) -> Found
        requires { i < length self.now.chunks }
        ensures { IsFound result name.now (slice_index_or self.now.chunks i []) }
    {
        let _ = &self.lens;
        self.list[i].found(name)
    }

    /// Raises the cells of an insert in chunk `i`, if it has several, and counts and weighs the chunk's shown cells anew.
    fn raise_there(&mut self, i: usize, name: &Name, generation: u16)
        requires { i < length self.old.chunks }
        ensures chunks { self.new.chunks ≡ change_at i (map (raised_run generation name.now)) self.old.chunks }
        ensures text { self.new.text ≡ self.old.text }
    {
        let _ = self.lens.total();
        let chunk = &mut self.list[i];
        chunk.raise(name, generation);
        let shown = chunk.shown();
        let weight = chunk.weight();
        self.shown.set(i, shown);
        self.weights.change(i, weight);
    }
}

/// Whether there is a fresh chunk with room for so many cells, and for so many spans.
fn has_room(fresh: &Option<Chunk>, room: usize, gaps: usize) -> bool
    ensures room { IsTrue result → room ≤ fresh_room fresh.now }
    ensures gaps { IsTrue result → gaps ≤ fresh_gaps fresh.now }
{
    match fresh {
        Some(chunk) => room <= chunk.room() && gaps <= chunk.gaps(),
        None => false,
    }
}

/// How many of its cells a chunk keeps when it is cut for new cells: half of them, and all but one where the new cells
/// are put at the end of the text, so that typing there leaves full chunks.
fn kept(len: usize, at_end: bool) -> usize
    requires least { 2 ≤ len }
    requires most { len ≤ FULL }
    ensures some { 1 ≤ result }
    ensures less { result < len }
    ensures high { len ≤ result + 256 }
    ensures low { IsFalse at_end → result ≤ 256 }
{
    if at_end { len - 1 } else { len / 2 }
}

/// The room that the lower part of a chunk keeps at least: for the new cells too, where they go there.
fn room_below(at: usize, keep: usize, n: usize) -> usize
    requires keep { keep < FULL }
    requires few { n ≤ LETTERS }
    ensures { at ≤ keep → result ≡ keep + n }
{
    if at <= keep { keep + n } else { keep }
}

/// The flag of the cell at place `at` of a chunk.
fn flag_at(chunk: &Chunk, at: usize) -> u32
    requires { at < length chunk.now.cells }
    ensures { result ≡ flag_of (slice_index_or chunk.now.cells at blank) }
{
    chunk.flags()[at] as u32
}

/// The character of the cell at place `at` of a chunk.
fn char_at(chunk: &Chunk, at: usize) -> char
    requires { at < length chunk.now.cells }
    ensures { result ≡ slice_index chunk.now.text at }
{
    chunk.text()[at]
}
