//! The marks that a site keeps: what contracts see of them, the calls that only read, and undos.

ghost use Rattle.std.specs.Prelude.{◌≡◌, ◌+◌, ◌<◌, ◌≤◌, ◌↔◌, IfErr, IfOk, IsNone, None, OnErr, OnOk, length, nat_lt, option_map, slice_get};
ghost use Rattle.op_name.specs.declared.member.TheConstants.{GENERATIONS};
ghost use Rattle.context_vector.specs.Contexts.{AreEntries, entry_in};
ghost use Rattle.char_marks.specs.Marks.{AreRising, mark_named, no_marks, lifted, with_lifted};
ghost use Rattle.char_marks.specs.Values.{marks_of};
ghost use Rattle.char_marks.specs.Turns.{undo_of, redo_of, IsTurnAnswer};

use crate::kept::{Kept, find};
use crate::mark::Mark;
use context_vector::Vector;
use op_name::{GENERATIONS, Member, Memory, Name};
use std::alloc::Global;
use std::marker::Model;

/// Why a mark wasn't made, undone or redone. Nothing is changed then. The causes are looked for in this order.
#[derive(Clone, Copy, Debug, PartialEq, Eq, Drop)]
pub enum MarkBad {
    /// There are `visible` shown characters, and the last one to be marked isn't among them.
    SpanOut { visible: u32 },
    /// A kept mark has the greatest rank that there is.
    RankFull,
    /// The site has made `NUMBERS` marks.
    NumberFull,
    /// The history has `entries` undone names, more than the `UNDO_ENTRIES` that the context of a mark carries.
    ContextFull { entries: u32 },
    /// No mark of this name is kept.
    Unknown { name: Name },
    /// The mark is undone already; its generation is odd.
    NotInForce { generation: u16 },
    /// The mark isn't undone; its generation is even.
    InForce { generation: u16 },
    /// The mark was undone and redone as often as can be: its generation is `GENERATIONS`.
    GenerationFull,
    /// Out of memory.
    Memory,
}

/// Marks of different names, each with its end cells, and for each name the greatest generation at which its mark was undone or redone,
/// whether that mark is kept or not. A mark is in force where its generation is even.
#[derive(Drop)]
pub struct Marks {
    pub(crate) kept: Vec<Kept>,
    pub(crate) raised: Vector,
}

impl Model for Marks {
    ghost use Rattle.std.specs.Prelude.{◌<◌, ◌^◌, length};
    ghost use Rattle.char_marks.specs.Marks.{MarksData, AreRising};

    ghost Value = { MarksData };

    ghost view = { λ m. record { kept = m.kept.items; raised = m.raised.set.entries } };

    ghost invariant = { λ m. AreRising m.kept.items × (length m.kept.items < 4294967296) };
}

impl Marks {
    /// No marks. It takes no memory.
    pub fn new(alloc: Global) -> Marks
        ensures { result ≡ no_marks }
    {
        Marks {
            kept: Vec::new(alloc),
            raised: Vector::new(alloc),
        }
    }

    /// Nothing but what the type keeps: names rise, so no two kept marks have one name, and there are at most 4,294,967,295 of them;
    /// names and generations are in range.
    pub fn known(&self)
        ensures rising { AreRising self.now.kept }
        ensures few { length self.now.kept < 4294967296 }
        ensures entries { AreEntries self.now.raised }
    {
        self.raised.known();
    }

    /// The kept mark of this name; None exactly where none is kept.
    pub fn mark(&self, name: &Name) -> Option<&Mark>
        ensures mark { option_map (λ m. m.now) result ≡ mark_named self.now.kept name.now }
        ensures none { IsNone result ↔ (mark_named self.now.kept name.now ≡ None) }
    {
        match find(self.kept.as_slice(), name) {
            Some(place) => {
                let kept = &self.kept[place];
                Some(kept.mark())
            }
            None => None,
        }
    }

    /// The generation of the name's mark: 0 where it was never undone, odd while it is undone.
    pub fn generation(&self, name: &Name) -> u16
        ensures { result ≡ entry_in self.now.raised name.now }
    {
        self.raised.entry(name)
    }

    /// The number of kept marks.
    pub fn kept(&self) -> u32
        ensures { result ≡ length self.now.kept }
    {
        self.kept.len() as u32
    }

    /// The i-th kept mark, from 0, in the order of names; None exactly past the end.
    pub fn mark_at(&self, i: u32) -> Option<&Mark>
        ensures mark { option_map (λ m. m.now) result ≡ slice_get (marks_of self.now.kept) i }
        ensures none { IsNone result ↔ (length self.now.kept ≤ i) }
    {
        match self.kept.get(i as usize) {
            Some(kept) => Some(kept.mark()),
            None => None,
        }
    }

    /// The number of names whose generation is above 0.
    pub fn raised(&self) -> u32
        ensures { result ≡ length self.now.raised }
    {
        self.raised.entries()
    }

    /// The i-th of them, from 0, in the order of names, with its generation; None exactly past the end.
    pub fn raised_at(&self, i: u32) -> Option<(Name, u16)>
        ensures { result ≡ slice_get self.now.raised i }
    {
        self.raised.entry_at(i)
    }

    /// Undoes the kept mark of this name, whoever made it, and answers its generation, which is the one after. Refused by Unknown,
    /// NotInForce or Memory; then nothing is changed.
    pub fn undo(&mut self, name: &Name) -> Result<u16, MarkBad>
        ensures answer { IsTurnAnswer (undo_of self.old name.now) result }
        ensures raised { IfOk result (λ g. self.new ≡ with_lifted name.now g self.old) }
        ensures err { OnErr result (self.new ≡ self.old) }
    {
        if self.mark(name).is_none() {
            return Err(MarkBad::Unknown { name: *name });
        }
        let generation = self.generation(name);
        if generation % 2 == 1 {
            return Err(MarkBad::NotInForce { generation });
        }
        self.turn(name, generation)
    }

    /// Redoes the kept mark of this name, whoever undid it, and answers its generation, which is the one after. Refused by Unknown,
    /// InForce, GenerationFull or Memory; then nothing is changed.
    pub fn redo(&mut self, name: &Name) -> Result<u16, MarkBad>
        ensures answer { IsTurnAnswer (redo_of self.old name.now) result }
        ensures raised { IfOk result (λ g. self.new ≡ with_lifted name.now g self.old) }
        ensures err { OnErr result (self.new ≡ self.old) }
    {
        if self.mark(name).is_none() {
            return Err(MarkBad::Unknown { name: *name });
        }
        let generation = self.generation(name);
        if generation % 2 == 0 {
            return Err(MarkBad::InForce { generation });
        }
        if generation == GENERATIONS {
            return Err(MarkBad::GenerationFull);
        }
        self.turn(name, generation)
    }

    // Lifts the generation of the name to the one after.
    fn turn(&mut self, name: &Name, generation: u16) -> Result<u16, MarkBad>
        requires { generation < GENERATIONS }
        ensures answer { IfOk result (λ g. g ≡ generation + 1) }
        ensures memory { IfErr result (λ e. e ≡ MarkBad.Memory) }
        ensures raised { IfOk result (λ g. self.new ≡ with_lifted name.now g self.old) }
        ensures err { OnErr result (self.new ≡ self.old) }
    {
        match self.flip(name, generation + 1) {
            Ok(_) => Ok(generation + 1),
            Err(_) => Err(MarkBad::Memory),
        }
    }

    /// Lifts the generation of a name to this one, where it is lower, and answers whether it rose. The name's mark need not be kept.
    /// Out of memory, nothing changes.
    pub fn flip(&mut self, name: &Name, generation: u16) -> Result<bool, Memory>
        ensures ok { OnOk result (self.new ≡ with_lifted name.now generation self.old) }
        ensures rose { IfOk result (λ b. b ≡ nat_lt (entry_in self.old.raised name.now) generation) }
        ensures err { OnErr result (self.new ≡ self.old) }
    {
        lift(&mut self.raised, name, generation)
    }
}

// Lifts the greatest generation of a name to this one, where it is lower.
fn lift(raised: &mut Vector, name: &Name, generation: u16) -> Result<bool, Memory>
    ensures ok { OnOk result (raised.new.set.entries ≡ lifted name.now generation raised.old.set.entries) }
    ensures rose { IfOk result (λ b. b ≡ nat_lt (entry_in raised.old.set.entries name.now) generation) }
    ensures err { OnErr result (raised.new.set ≡ raised.old.set) }
{
    raised.known();
    name.known();
    if generation <= raised.entry(name) {
        return Ok(false);
    }
    raised.raise(&Member::Group(*name, generation))?;
    raised.known();
    Ok(true)
}
