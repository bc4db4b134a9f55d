//! A span: cells that stand side by side, each of which follows the one before it.

ghost use Rattle.std.specs.Prelude.{◌≡◌, ◌+◌, ◌-◌, ◌<◌, ◌≤◌, [], length, map, max, position, IsTrue};
ghost use Rattle.op_name.specs.declared.limits.TheConstants.{LETTERS};
ghost use Rattle.op_name.specs.declared.name.TheConstants.{NUMBERS};
ghost use Rattle.ttf_form.specs.Cells.{marked, raise_in};
ghost use Rattle.tombstone_text.specs.Cells.{HasRoomOn};
ghost use Rattle.tombstone_text.specs.Chunks.{flag_of};
ghost use Rattle.tombstone_text.specs.Code.Cells.{is_sought};
ghost use Rattle.tombstone_text.specs.Code.Inserts.{IsFound};
ghost use Rattle.tombstone_text.specs.Code.Spans.{IsNext, IsSpan, SpanData, after, raised_run, span_cells};

use crate::cell::Cell;
use crate::deleters::{Deleters, Spare, any_in_force};
use crate::sought::{Found, Sought};
use op_name::Name;
use std::marker::Model;
use ttf_form::{Ins, Mark};

/// One to 256 cells that stand side by side, with one generation. They are cells of one insert, whose offsets follow one
/// another, or the only cells of inserts of one site, whose numbers do. A cell that deletes hit is a span of its own.
#[derive(Drop)]
pub(crate) struct Span {
    /// The name of the first cell's insert.
    name: Name,
    generation: u16,
    /// The offset of the first cell.
    offset: u8,
    /// The offset of the last cell of the insert, which is 0 where it has no other.
    last: u8,
    /// How many cells there are behind the first.
    more: u8,
    deleters: Deleters,
}

impl Model for Span {
    ghost Value = { SpanData };

    ghost view = { λ s. record {
      first = record {
        name = s.name;
        offset = s.offset;
        of = s.last + 1;
        generation = s.generation;
        deleters = s.deleters;
      };
      count = s.more + 1;
    } };

    ghost invariant = { λ s. IsSpan s.name s.offset s.last s.more s.deleters };
}

impl Span {
    /// The new cells of an insert, which no cover has marked.
    pub(crate) fn bare(ins: &Ins) -> Span
        ensures first { result.first ≡ record { name = ins.now.name; offset = 0; of = ins.now.len; generation = 0; deleters = [] } }
        ensures count { result.count ≡ ins.now.len }
    {
        let name = ins.name;
        let _ = &name.number;
        let last = (ins.len - 1) as u8;
        Span::plain(name, 0, 0, last, last)
    }

    /// Cells that no delete has hit: the one with this name and offset, and so many behind it.
    fn plain(name: Name, generation: u16, offset: u8, last: u8, more: u8) -> Span
        requires numbers { last ≡ 0 → name.number + more ≤ NUMBERS }
        requires offsets { 1 ≤ last → offset + more < LETTERS }
        ensures { result ≡ record {
          first = record { name = name; offset = offset; of = last + 1; generation = generation; deleters = [] };
          count = more + 1;
        } }
    {
        Span {
            name,
            generation,
            offset,
            last,
            more,
            deleters: Deleters::new(),
        }
    }

    /// The number of cells.
    pub(crate) fn count(&self) -> usize
        ensures count { result ≡ self.now.count }
        ensures least { 1 ≤ result }
        ensures most { result ≤ 256 }
    {
        self.more as usize + 1
    }

    /// The cell so many places behind the first.
    pub(crate) fn cell(&self, k: usize) -> Cell<'_>
        requires { k < self.now.count }
        ensures { result ≡ after self.now.first k }
    {
        let deleters = self.deleters.as_slice();
        if self.last == 0 {
            let name = name_behind(self.name, k as u32);
            Cell::new(name, self.offset, self.last, self.generation, deleters)
        } else {
            let offset = self.offset + k as u8;
            Cell::new(self.name, offset, self.last, self.generation, deleters)
        }
    }

    /// The flag of each of the cells: 1 if it is shown, else 0.
    pub(crate) fn flag(&self) -> u8
        ensures { result ≡ flag_of self.now.first }
    {
        if self.generation % 2 == 0 && !any_in_force(self.deleters.as_slice()) {
            1
        } else {
            0
        }
    }

    /// The place among the cells of the first one that is looked for.
    pub(crate) fn position(&self, sought: &Sought) -> Option<usize>
        ensures { result ≡ position (is_sought sought.now) (span_cells self.now) }
    {
        for k in 0..self.count() {
            if sought.is(&self.cell(k)) {
                return Some(k);
            }
        }
        None
    }

    /// Keeps the first `keep` cells, and answers a span of the others.
    pub(crate) fn cut(&mut self, keep: usize) -> Span
        requires some { 1 ≤ keep }
        requires less { keep < self.old.count }
        ensures lower { self.new ≡ record { first = self.old.first; count = keep } }
        ensures upper { result ≡ record { first = after self.old.first keep; count = self.old.count - keep } }
    {
        let more = self.more - keep as u8;
        self.more = keep as u8 - 1;
        if self.last == 0 {
            let name = name_behind(self.name, keep as u32);
            Span::plain(name, self.generation, self.offset, self.last, more)
        } else {
            let offset = self.offset + keep as u8;
            Span::plain(self.name, self.generation, offset, self.last, more)
        }
    }

    /// Whether an insert has one cell, which follows the last one, so that it may stand in the span.
    pub(crate) fn is_before(&self, ins: &Ins) -> bool
        ensures { IsTrue result → IsNext self.now ins.now }
    {
        if ins.len != 1
            || self.last != 0
            || self.offset != 0
            || self.generation != 0
            || self.more == 255
        {
            return false;
        }
        if !self.deleters.is_empty() {
            return false;
        }
        is_behind(&self.name, u32::from(self.more) + 1, &ins.name)
    }

    /// Takes in the cell that follows the last one.
    pub(crate) fn join(&mut self, ins: &Ins)
        requires { IsNext self.old ins.now }
        ensures { self.new ≡ record { first = self.old.first; count = self.old.count + 1 } }
    {
        let _ = ins;
        self.more += 1;
    }

    /// Marks the only cell. A deleter that is added may take the list of `spare`.
    pub(crate) fn cover(&mut self, mark: Mark, spare: &mut Spare)
        requires one { self.old.count ≡ 1 }
        requires room { HasRoomOn mark self.old.first spare.old }
        ensures marked { self.new ≡ record { first = marked mark self.old.first; count = 1 } }
    {
        match mark {
            Mark::Own { generation } => self.raise_own(generation),
            Mark::By { name, generation } => self.raise_deleter(name, generation, spare),
        }
    }

    /// Raises the generation of the cells to at least `generation`.
    fn raise_own(&mut self, generation: u16)
        ensures first { self.new.first ≡ record self.old.first { generation = max self.old.first.generation generation } }
        ensures count { self.new.count ≡ self.old.count }
    {
        self.generation = self.generation.max(generation);
    }

    /// Puts the delete `name` among the deleters at `generation`, or raises it there to at least that.
    fn raise_deleter(&mut self, name: Name, generation: u16, spare: &mut Spare)
        requires one { self.old.count ≡ 1 }
        requires room { length self.old.first.deleters < spare.old }
        ensures first { self.new.first ≡ record self.old.first { deleters = raise_in name generation self.old.first.deleters } }
        ensures count { self.new.count ≡ 1 }
    {
        self.deleters.raise(name, generation, spare);
    }

    /// What the cells are of an insert that has several: one of them is its last one where that has the last offset.
    pub(crate) fn found(&self, name: &Name) -> Found
        ensures { IsFound result name.now (span_cells self.now) }
    {
        if self.last == 0 || self.name != *name {
            Found::Nothing
        } else if self.offset + self.more == self.last {
            Found::Last
        } else {
            Found::Cells
        }
    }

    /// Raises the cells and sets their flags, if they are of the insert and it has several.
    pub(crate) fn raise(&mut self, name: &Name, generation: u16, flags: &mut [u8])
        requires { flags.old ≡ map flag_of (span_cells self.old) }
        ensures first { self.new.first ≡ raised_run generation name.now self.old.first }
        ensures count { self.new.count ≡ self.old.count }
        ensures flags { flags.new ≡ map flag_of (span_cells self.new) }
    {
        if self.last != 0 && self.name == *name {
            self.raise_own(generation);
            self.put_flags(flags);
        }
    }

    /// Sets the flags of the cells.
    fn put_flags(&self, flags: &mut [u8])
        requires { length flags.old ≡ self.now.count }
        ensures { flags.new ≡ map flag_of (span_cells self.now) }
    {
        flags.fill(self.flag());
    }
}

/// The name of the same site, so many numbers on.
fn name_behind(name: Name, k: u32) -> Name
    requires { name.number + k ≤ NUMBERS }
    ensures { result ≡ record { site = name.site; number = name.number + k } }
{
    Name {
        site: name.site,
        number: name.number + k,
    }
}

/// Whether the other name is that of the same site so many numbers on.
fn is_behind(name: &Name, k: u32, other: &Name) -> bool
    requires { k ≤ 256 }
    ensures name { IsTrue result → other.now ≡ record { site = name.now.site; number = name.now.number + k } }
    ensures number { IsTrue result → name.now.number + k ≤ NUMBERS }
{
    other.site == name.site && other.number == name.number + k
}
