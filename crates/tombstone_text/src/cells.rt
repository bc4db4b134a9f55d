//! The list of all cells of a text beside their characters, kept in chunks.

ghost use Rattle.std.specs.Prelude.{◌≡◌, ◌+◌, ◌<◌, ◌≤◌, ◌^◌, ◌↔◌, [], length, filter, map, take, position, slice_get, slice_index_or, Contains, IfSome, IfNone, IsTrue, OnOk, OnErr, option_map};
ghost use Rattle.ttf_form.specs.Names.{LacksName};
ghost use Rattle.ttf_form.specs.Cells.{cell_shown, cells_of, chars_where, put_in, bare_cells, change_at, marked, marked_in, applied, text_put, FitsCells};
ghost use Rattle.ttf_form.specs.Forms.{extent_of};
ghost use Rattle.ttf_form.specs.declared.include.TheConstants.{CELLS};
ghost use Rattle.ttf_form.specs.declared.form.Form.TheVariants.{Cover as Covered};
ghost use Rattle.tombstone_text.specs.Cells.{CellsData, HasGaps, HasRoomFor, IsOpenFor, is_cell};
ghost use Rattle.tombstone_text.specs.Chunks.{flat, flag_of, joined, shown_in};
ghost use Rattle.tombstone_text.specs.Sums.{IsPart};
ghost use Rattle.tombstone_text.specs.Measures.{chunk_weights, weight_of};
ghost use Rattle.tombstone_text.specs.Code.Cells.{IsReady};
ghost use Rattle.tombstone_text.specs.Code.Inserts.{AreInserts};
ghost use Rattle.tombstone_text.specs.Code.Spans.{raised_run};

use crate::cell::{Cell, CellId};
use crate::chunk_cells::ChunkCells;
use crate::chunks::{Chunks, Ready};
use crate::deleters::Spare;
use crate::measure::Measure;
use crate::sought::Sought;
use op_name::{Memory, Name};
use std::alloc::Global;
use std::marker::Model;
use ttf_form::{CELLS, Cover, Form, Ins, Mark};

/// A list of cells, in the order in which they stand in the text, shown or hidden, and beside it the text: the
/// character of each cell. Places count all cells, from 0.
///
/// Both are kept in chunks of 1 to 512 cells, each with a column of flags and one of characters. The cells of a chunk are
/// kept in spans: cells of one insert that stand side by side, in the order of their offsets, take the room of one. An
/// insert moves what is in one chunk alone. A chunk starts with little room, which grows by half when it runs out; a chunk that would have too many cells
/// is cut in two for an insert into it.
#[derive(Drop)]
pub struct Cells {
    chunks: Chunks,
    ready: Option<Ready>,
    spare: Spare,
}

impl Model for Cells {
    ghost Value = { CellsData };

    ghost view = { λ c. record {
      chunks = c.chunks.chunks;
      cells = c.chunks.cells;
      texts = c.chunks.texts;
      text = c.chunks.text;
      room = record {
        ready = option_map (λ r. record { place = r.place; len = r.len }) c.ready;
        deleters = c.spare;
        gaps = c.chunks.gaps;
      };
    } };

    ghost invariant = { λ c. IfSome c.ready (λ r. IsReady c.chunks r) × AreInserts c.chunks.cells };
}

impl Cells {
    /// No cells; takes no memory.
    pub fn new(alloc: Global) -> Cells
        ensures cells { result.cells ≡ [] }
        ensures text { result.text ≡ [] }
    {
        Cells {
            chunks: Chunks::new(alloc),
            ready: None,
            spare: Spare::new(),
        }
    }

    /// The number of cells, shown or hidden.
    pub fn len(&self) -> u32
        ensures { result ≡ length self.now.cells }
    {
        self.chunks.len()
    }

    /// The number of shown cells, which is kept and not counted.
    pub fn shown_len(&self) -> u32
        ensures { result ≡ length (filter cell_shown self.now.cells) }
    {
        self.chunks.shown_len()
    }

    /// Does nothing; its contract says what every list of cells keeps: there are at most 4,294,967,295 of
    /// them, and they are those of the chunks, one chunk after the other; so are the characters, of which a chunk has
    /// as many as cells.
    pub fn known(&self)
        ensures most { length self.now.cells < 2 ^ 32 }
        ensures chunks { flat self.now.chunks ≡ self.now.cells }
        ensures texts { joined self.now.texts ≡ self.now.text }
        ensures beside { map length self.now.texts ≡ map length self.now.chunks }
        ensures long { length self.now.text ≡ length self.now.cells }
    {
        self.chunks.known();
    }

    /// The cell at place `i`; None exactly past the end.
    pub fn cell(&self, i: u32) -> Option<Cell<'_>>
        ensures { result ≡ slice_get self.now.cells i }
    {
        self.chunks.cell(i)
    }

    /// The number of chunks.
    pub fn chunk_count(&self) -> u32
        ensures { result ≡ length self.now.chunks }
    {
        self.chunks.chunk_count()
    }

    /// The flags of the cells of chunk `i`, 1 for a shown cell and 0 for a hidden one. The cells of all chunks,
    /// one after the other, are those of the text, as `known` says.
    pub fn chunk_flags(&self, i: u32) -> &[u8]
        requires { i < length self.now.chunks }
        ensures flags { result.now ≡ map flag_of (slice_index_or self.now.chunks i []) }
        ensures least { 1 ≤ length result.now }
        ensures most { length result.now ≤ 1024 }
    {
        self.chunks.chunk_flags(i)
    }

    /// The number of shown cells of chunk `i`, which is kept and not counted.
    pub fn chunk_shown(&self, i: u32) -> u32
        requires { i < length self.now.chunks }
        ensures { result ≡ shown_in (slice_index_or self.now.chunks i []) }
    {
        self.chunks.chunk_shown(i)
    }

    /// The cell at a place of chunk `i`, counted from 0 in the chunk; None exactly past its end.
    pub fn chunk_cell(&self, i: u32, at: usize) -> Option<Cell<'_>>
        requires { i < length self.now.chunks }
        ensures { result ≡ slice_get (slice_index_or self.now.chunks i []) at }
    {
        self.chunks.chunk_cell(i, at)
    }

    /// The cells of chunk `i`, to be read one after the other, each in a step; `chunk_cell` looks for its cell from the front
    /// of the chunk on.
    pub fn chunk_cells(&self, i: u32) -> ChunkCells<'_>
        requires { i < length self.now.chunks }
        ensures { result ≡ slice_index_or self.now.chunks i [] }
    {
        self.chunks.chunk_cells(i)
    }

    /// The characters of the cells of chunk `i`, in their order, of shown and hidden ones. Those of all chunks, one
    /// after the other, are the text, as `known` says.
    pub fn chunk_text(&self, i: u32) -> &[char]
        requires { i < length self.now.chunks }
        ensures { result.now ≡ slice_index_or self.now.texts i [] }
    {
        self.chunks.chunk_text(i)
    }

    /// The place of the first cell of chunk `i`; for `chunk_count` the number of all cells.
    pub fn chunk_start(&self, i: u32) -> u32
        requires { i ≤ length self.now.chunks }
        ensures { result ≡ length (flat (take i self.now.chunks)) }
    {
        self.chunks.chunk_start(i)
    }

    /// The chunk that holds the `v`-th shown cell, counted from 0, and how many shown cells of that chunk come
    /// before it.
    pub fn shown_chunk(&self, v: u32) -> (u32, u32)
        requires { v < length (filter cell_shown self.now.cells) }
        ensures { IsPart (map shown_in self.now.chunks) result.0 result.1 v }
    {
        self.chunks.shown_chunk(v)
    }

    /// The number of shown cells of the chunks before chunk `i`; for `chunk_count` that of all.
    pub fn shown_start(&self, i: u32) -> u32
        requires { i ≤ length self.now.chunks }
        ensures { result ≡ shown_in (flat (take i self.now.chunks)) }
    {
        self.chunks.shown_start(i)
    }

    /// The chunk in which the cell at place `i` stands, and how many cells of that chunk come before it.
    pub fn place_chunk(&self, i: u32) -> (u32, u32)
        requires { i < length self.now.cells }
        ensures { IsPart (map length self.now.chunks) result.0 result.1 i }
    {
        self.chunks.place_chunk(i)
    }

    /// What all shown characters weigh, which is kept and not counted.
    pub fn weight(&self, m: Measure) -> u64
        ensures { result ≡ weight_of m (chars_where cell_shown self.now.cells self.now.text) }
    {
        self.chunks.weight(m)
    }

    /// What the shown characters of the chunks before chunk `i` weigh; for `chunk_count` what all do.
    pub fn weight_start(&self, m: Measure, i: u32) -> u64
        requires { i ≤ length self.now.chunks }
        ensures { result ≡ weight_of m (chars_where cell_shown (flat (take i self.now.chunks)) (joined (take i self.now.texts))) }
    {
        self.chunks.weight_start(m, i)
    }

    /// The chunk that holds the `n`-th unit of weight, counted from 0, and how many units of that chunk come before it: it lies
    /// within a shown character of the chunk.
    pub fn weight_chunk(&self, m: Measure, n: u64) -> (u32, u32)
        requires { n < weight_of m (chars_where cell_shown self.now.cells self.now.text) }
        ensures { IsPart (chunk_weights m self.now.chunks self.now.texts) result.0 result.1 n }
    {
        self.chunks.weight_chunk(m, n)
    }

    /// The place of the cell with that name and offset; None exactly where there is none. It looks at the cells one
    /// after the other.
    pub fn place_of(&self, id: &CellId) -> Option<u32>
        ensures place { result ≡ position (is_cell id.now) self.now.cells }
        ensures none { IfNone result (¬ Contains (cells_of self.now.cells) (id.now.name, id.now.offset)) }
    {
        match self.chunks.first_place(&Sought::One(*id)) {
            Some(place) => Some(place),
            None => None,
        }
    }

    /// Whether there is no cell of the insert `name`, so that its cells may come in. It looks at the cells one after
    /// the other.
    pub fn lacks(&self, name: &Name) -> bool
        ensures { IsTrue result ↔ LacksName (cells_of self.now.cells) name.now }
    {
        match self.chunks.first_place(&Sought::Any(*name)) {
            Some(_) => false,
            None => true,
        }
    }

    /// Makes room to apply `form`, which then takes no memory: for the cells that an insert adds at its place with their
    /// characters, also where a chunk is to be cut in two, or for the cell at the place of a cover to stand in a span of its
    /// own, with the deleter that the cover may add. Nothing else changes, also when out of memory, as it always answers for
    /// a 4,294,967,296th cell. The room for an insert is there until a form is applied, or room asked for another one. Out
    /// of memory comes only where the room isn't there yet.
    pub fn reserve(&mut self, form: &Form) -> Result<(), Memory>
        ensures cells { self.new.cells ≡ self.old.cells }
        ensures text { self.new.text ≡ self.old.text }
        ensures room { OnOk result (HasRoomFor self.new form.now) }
        ensures memory { OnErr result (¬ HasRoomFor self.old form.now) }
    {
        match form {
            Form::Ins(ins) => {
                if ins.len as u32 > CELLS - self.len() {
                    return Err(Memory);
                }
                self.reserve_cells(ins)
            }
            Form::Cover(cover) => {
                if cover.place < self.len() {
                    self.reserve_mark(cover)
                } else {
                    self.known();
                    Ok(())
                }
            }
        }
    }

    /// Makes room for the mark of a cover at its place.
    fn reserve_mark(&mut self, cover: &Cover) -> Result<(), Memory>
        requires { cover.now.place < length self.old.cells }
        ensures cells { self.new.cells ≡ self.old.cells }
        ensures text { self.new.text ≡ self.old.text }
        ensures room { OnOk result (HasRoomFor self.new (Covered cover.now)) }
        ensures memory { OnErr result (¬ HasRoomFor self.old (Covered cover.now)) }
    {
        self.make_gaps(cover.place)?;
        match (cover.mark, self.cell(cover.place)) {
            (Mark::By { .. }, Some(cell)) => {
                let deleters = cell.deleters().len();
                self.reserve_deleters(deleters)
            }
            _ => Ok(()),
        }
    }

    /// Makes room for the spans that a mark at a place adds. Room for an insert is gone.
    fn make_gaps(&mut self, place: u32) -> Result<(), Memory>
        requires { place < length self.old.cells }
        ensures chunks { self.new.chunks ≡ self.old.chunks }
        ensures cells { self.new.cells ≡ self.old.cells }
        ensures text { self.new.text ≡ self.old.text }
        ensures deleters { self.new.room.deleters ≡ self.old.room.deleters }
        ensures gaps { OnOk result (HasGaps self.new.chunks self.new.room.gaps place) }
        ensures memory { OnErr result (¬ HasGaps self.old.chunks self.old.room.gaps place) }
    {
        self.ready = None;
        self.chunks.make_gaps(place)
    }

    /// Makes room for the cells of an insert at its place.
    fn reserve_cells(&mut self, ins: &Ins) -> Result<(), Memory>
        ensures cells { self.new.cells ≡ self.old.cells }
        ensures text { self.new.text ≡ self.old.text }
        ensures room { OnOk result (IsOpenFor self.new.room ins.now) }
        ensures memory { OnErr result (¬ IsOpenFor self.old.room ins.now) }
    {
        if self.is_ready(ins) {
            return Ok(());
        }
        self.ready = None;
        let ready = self.chunks.reserve(ins)?;
        self.ready = Some(ready);
        Ok(())
    }

    /// Whether the cells of an insert may come in at its place without memory.
    fn is_ready(&self, ins: &Ins) -> bool
        ensures { IsTrue result ↔ IsOpenFor self.now.room ins.now }
    {
        match &self.ready {
            Some(ready) => ready.is_for(ins),
            None => false,
        }
    }

    /// Makes room for a list of one deleter more than so many.
    fn reserve_deleters(&mut self, deleters: usize) -> Result<(), Memory>
        requires { deleters < 2 ^ 63 }
        ensures chunks { self.new.chunks ≡ self.old.chunks }
        ensures cells { self.new.cells ≡ self.old.cells }
        ensures text { self.new.text ≡ self.old.text }
        ensures gaps { self.new.room.gaps ≡ self.old.room.gaps }
        ensures room { OnOk result (deleters < self.new.room.deleters) }
        ensures memory { OnErr result (self.old.room.deleters ≤ deleters) }
    {
        self.spare.reserve(deleters, self.chunks.allocator())
    }

    /// Applies a form for which `reserve` made room: an insert puts its new cells at its place, with the characters of
    /// `text`, a cover marks the cell at its place, together with all other cells of the same insert where it is an undo
    /// or a redo of that. All other cells stay as they are, in their order, and so do their characters. `text` has a
    /// character for each cell that the form adds: as many as the insert says, none for a cover.
    pub fn apply(&mut self, form: &Form, text: &[char])
        requires room { HasRoomFor self.old form.now }
        requires fits { FitsCells self.old.cells form.now }
        requires text { length text.now ≡ extent_of form.now }
        ensures cells { self.new.cells ≡ applied self.old.cells form.now }
        ensures text { self.new.text ≡ text_put form.now text.now self.old.text }
    {
        match form {
            Form::Ins(ins) => self.put(ins, text),
            Form::Cover(cover) => self.mark(cover),
        }
    }

    /// Puts the new cells of an insert with their characters at its place.
    fn put(&mut self, ins: &Ins, text: &[char])
        requires room { IsOpenFor self.old.room ins.now }
        requires bound { length self.old.cells + ins.now.len ≤ CELLS }
        requires place { ins.now.place ≤ length self.old.cells }
        requires new { LacksName (cells_of self.old.cells) ins.now.name }
        requires text { length text.now ≡ ins.now.len }
        ensures cells { self.new.cells ≡ put_in ins.now.place (bare_cells ins.now) self.old.cells }
        ensures text { self.new.text ≡ put_in ins.now.place text.now self.old.text }
    {
        match self.ready.take() {
            Some(ready) => self.chunks.put(ready, ins, text),
            None => unreachable!(),
        }
    }

    /// Marks the cell at the place of a cover, or all cells of its insert. An insert of one cell is marked at the place
    /// alone. One of several, of which a cover is at the first cell, costs by the chunks from that cell to the insert's last
    /// one, between which others' cells may stand.
    fn mark(&mut self, cover: &Cover)
        requires room { HasRoomFor self.old (Covered cover.now) }
        requires place { cover.now.place < length self.old.cells }
        ensures cells { self.new.cells ≡ marked_in cover.now.place cover.now.mark self.old.cells }
        ensures text { self.new.text ≡ self.old.text }
    {
        match self.several(cover) {
            Some((name, generation)) => self.raise(cover.place, &name, generation),
            None => self.mark_one(cover),
        }
    }

    /// The insert of several cells that a cover marks, and the generation; None where it marks the cell at its place
    /// alone.
    fn several(&self, cover: &Cover) -> Option<(Name, u16)>
        ensures several { let c = cover.now in let cs = self.now.cells in IfSome result (λ r. marked_in c.place c.mark cs
            ≡ map (raised_run r.1 r.0) cs) }
        ensures alone { let c = cover.now in let cs = self.now.cells in IfNone result (marked_in c.place c.mark cs
            ≡ change_at c.place (marked c.mark) cs) }
    {
        let Mark::Own { generation } = cover.mark else {
            return None;
        };
        match self.chunks.cell(cover.place) {
            Some(cell) => {
                if cell.is_alone() {
                    None
                } else {
                    Some((cell.id().name, generation))
                }
            }
            None => None,
        }
    }

    /// Marks the cell at the place of a cover.
    fn mark_one(&mut self, cover: &Cover)
        requires room { HasRoomFor self.old (Covered cover.now) }
        requires place { cover.now.place < length self.old.cells }
        ensures cells { self.new.cells ≡ change_at cover.now.place (marked cover.now.mark) self.old.cells }
        ensures text { self.new.text ≡ self.old.text }
    {
        self.ready = None;
        self.chunks.mark(cover, &mut self.spare);
    }

    /// Raises all cells of an insert that has several, of which one stands at the place.
    fn raise(&mut self, place: u32, name: &Name, generation: u16)
        requires { place < length self.old.cells }
        ensures cells { self.new.cells ≡ map (raised_run generation name.now) self.old.cells }
        ensures text { self.new.text ≡ self.old.text }
    {
        self.ready = None;
        self.chunks.raise(place, name, generation);
    }
}
