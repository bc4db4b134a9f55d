//! The undone names of a vector, in lists of its own that may be changed in place.

ghost use Rattle.std.specs.Prelude.{◌≡◌, ◌+◌, ◌≤◌, ◌<◌, ◌*◌, ◌^◌, ◌++◌, ◌∷◌, [], ◌==◌, if◌then◌else◌};
ghost use Rattle.std.specs.Prelude.{length, vec_len, vec_capacity, IfOk, OnOk, OnErr};
ghost use Rattle.context_vector.specs.Contexts.{entry_in, AreEntries};
ghost use Rattle.context_vector.specs.Marks.{mark_of};
ghost use Rattle.context_vector.specs.Vectors.{NamesBelow};
ghost use Rattle.context_vector.specs.Code.Undone.{set_entry};
ghost use Rattle.context_vector.specs.Code.Words.{entries_in, AreUndone};

use super::entry::Entry;
use super::generations::{generation_of, high_of, low_of};
use super::kept::Kept;
use super::marks::weight;
use super::names::Names;
use super::reader::Reader;
use super::rising::{entry_among, place_of_name};
use super::stored::Stored;
use super::word::Word;
use super::words::{seat_of, set_digit, word_among};
use op_name::{Memory, NUMBERS, Name, SITES};
use std::alloc::Global;
use std::marker::Model;

/// Each undone name with its greatest generation, names rising.
#[derive(Debug, Drop)]
pub struct Undone {
    /// Eight neighbouring names in each word.
    words: Vec<Word>,
    /// How many steps of 15 their generations are above their digits: mostly none.
    high: Vec<Entry>,
    /// The mark of the names, by which most other lists are told apart at a look.
    mark: u64,
    len: u32,
}

impl Model for Undone {
    ghost use Rattle.std.specs.Prelude.{◌≡◌, ◌-◌, min, length, vec_len, vec_capacity};
    ghost use Rattle.context_vector.specs.Marks.{mark_of};
    ghost use Rattle.context_vector.specs.Code.Undone.{UndoneData};
    ghost use Rattle.context_vector.specs.Code.Words.{entries_in, AreUndone};

    ghost Value = { UndoneData };

    ghost view = { λ u. record {
      items = entries_in u.high.items u.words.items;
      spare = min (vec_capacity u.words - vec_len u.words) (vec_capacity u.high - vec_len u.high);
    } };

    ghost invariant = { λ u. AreUndone u.words.items u.high.items
        × (u.mark ≡ mark_of (entries_in u.high.items u.words.items))
        × (u.len ≡ length (entries_in u.high.items u.words.items)) };
}

impl Undone {
    /// No names. It takes no memory.
    pub fn new(alloc: Global) -> Undone
        ensures { result.items ≡ [] }
    {
        Undone {
            words: Vec::new(alloc),
            high: Vec::new(alloc),
            mark: 0,
            len: 0,
        }
    }

    // These names, with their mark and their number.
    pub(super) fn of(words: Vec<Word>, high: Vec<Entry>, mark: u64, len: u32) -> Undone
        requires undone { AreUndone words.items high.items }
        requires mark { mark ≡ mark_of (entries_in high.items words.items) }
        requires len { len ≡ length (entries_in high.items words.items) }
        ensures items { result.items ≡ entries_in high.items words.items }
        ensures spare { vec_len words < vec_capacity words → vec_len high < vec_capacity high → 1 ≤ result.spare }
    {
        Undone {
            words,
            high,
            mark,
            len,
        }
    }

    /// The mark of the names: equal lists have equal marks.
    pub fn mark(&self) -> u64
        ensures { result ≡ mark_of self.now.items }
    {
        self.mark
    }

    /// The number of names.
    pub fn len(&self) -> usize
        ensures len { result ≡ length self.now.items }
        ensures range { result ≤ SITES * NUMBERS }
    {
        self.len as usize
    }

    /// The greatest generation of the name, 0 if it isn't undone.
    pub fn entry(&self, name: &Name) -> u16
        ensures { result ≡ entry_in self.now.items name.now }
    {
        name.known();
        let (key, place) = seat_of(name);
        let word = word_among(self.words.as_slice(), key);
        generation_of(word.digit(place), entry_among(self.high.as_slice(), name))
    }

    /// A reader of the names.
    pub fn names(&self) -> Names<'_>
        ensures { result ≡ self.now.items }
    {
        Names::new(Reader::of(self.words.as_slice()), self.high.as_slice())
    }

    /// Makes a spare place; no name comes or goes.
    pub fn reserve(&mut self) -> Result<(), Memory>
        ensures same { self.new.items ≡ self.old.items }
        ensures spare { OnOk result (1 ≤ self.new.spare) }
        ensures memory { OnErr result (self.old.spare ≡ 0) }
    {
        self.words.reserve(1)?;
        self.high.reserve(1)?;
        Ok(())
    }

    /// Makes the generation the greatest of the name; generation 0 takes the name out.
    pub fn set(&mut self, name: &Name, generation: u16)
        requires { entry_in self.old.items name.now < generation → 1 ≤ self.old.spare }
        ensures { self.new.items ≡ set_entry name.now generation self.old.items }
    {
        let had = self.entry(name);
        name.known();
        set_digit(&mut self.words, name, low_of(generation));
        put_generation(&mut self.high, name, high_of(generation));
        self.mark = self.mark - weight(name, had) + weight(name, generation);
        self.len = len_after(self.len, had, generation);
    }

    /// Appends a name that is after all others. Out of memory, nothing changes.
    pub fn push(&mut self, name: Name, generation: u16) -> Result<(), Memory>
        requires last { NamesBelow self.old.items name }
        requires least { 1 ≤ generation }
        ensures pushed { OnOk result (self.new.items ≡ self.old.items ++ (name, generation) ∷ []) }
        ensures kept { OnErr result (self.new.items ≡ self.old.items) }
    {
        self.reserve()?;
        self.set(&name, generation);
        Ok(())
    }

    /// A copy of the names that may be changed in place too.
    pub fn copied(&self, alloc: Global) -> Result<Undone, Memory>
        ensures { IfOk result (λ u. u.items ≡ self.now.items) }
    {
        Ok(Undone {
            words: Vec::from_slice(alloc, self.words.as_slice())?,
            high: Vec::from_slice(alloc, self.high.as_slice())?,
            mark: self.mark,
            len: self.len,
        })
    }

    /// The names as they are kept, with the pieces of `like` that they have too.
    pub fn kept(&self, alloc: Global, like: Option<&Kept>) -> Result<Kept, Memory>
        ensures { IfOk result (λ k. k ≡ self.now.items) }
    {
        let list = self.words.as_slice();
        let words = match like {
            Some(like) => Stored::of(alloc, list, Some(like.stored()))?,
            None => Stored::of(alloc, list, None)?,
        };
        let high = Vec::from_slice(alloc, self.high.as_slice())?;
        Ok(Kept::of(words, high, self.mark, self.len))
    }
}

// The number of names after a name that had one generation has another one.
fn len_after(len: u32, had: u16, generation: u16) -> u32
    requires least { (if had == 0 then 0 else 1) ≤ len }
    requires most { len < 2 ^ 31 }
    ensures { result + (if had == 0 then 0 else 1) ≡ len + (if generation == 0 then 0 else 1) }
{
    if had == 0 && generation != 0 {
        len + 1
    } else if had != 0 && generation == 0 {
        len - 1
    } else {
        len
    }
}

// Makes the generation the greatest of the name in the list; generation 0 takes the name out.
fn put_generation(list: &mut Vec<Entry>, name: &Name, generation: u16)
    requires rising { AreEntries list.old.items }
    requires room { entry_in list.old.items name.now < generation → vec_len list.old < vec_capacity list.old }
    ensures { list.new.items ≡ set_entry name.now generation list.old.items }
{
    match place_of_name(list.as_slice(), name) {
        Ok(at) if generation == 0 => {
            list.remove(at);
        }
        Ok(at) => list[at] = Entry::new(*name, generation),
        Err(_) if generation == 0 => {}
        Err(at) => match list.insert(at, Entry::new(*name, generation)) {
            Ok(()) => {}
            Err(_) => unreachable!(),
        },
    }
}
