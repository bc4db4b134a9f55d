//! Undone names that stay as they are, so that vectors may share them.

ghost use Rattle.std.specs.Prelude.{◌≡◌, ◌<◌, ◌≤◌, ◌*◌, [], length, vec_len, vec_capacity, IfOk};
ghost use Rattle.std.specs.Rc.{rc_value};
ghost use Rattle.context_vector.specs.Contexts.{entry_in};
ghost use Rattle.context_vector.specs.Marks.{mark_of};
ghost use Rattle.context_vector.specs.Code.Undone.{kept_of};
ghost use Rattle.context_vector.specs.Code.Words.{entries_in, AreUndone};

use super::entry::Entry;
use super::generations::generation_of;
use super::names::Names;
use super::rising::entry_among;
use super::stored::Stored;
use super::undone::Undone;
use super::word::Word;
use super::words::{seat_of, word_left};
use op_name::{Memory, NUMBERS, Name, SITES};
use std::alloc::Global;
use std::marker::Model;
use std::rc::Rc;

/// Each undone name with its greatest generation, names rising; they never change.
#[derive(Debug, Drop)]
pub struct Kept {
    /// Eight neighbouring names in each word.
    words: Stored<Word>,
    /// How many steps of 15 their generations are above their digits: mostly none.
    high: Vec<Entry>,
    /// The mark of the names, by which most other lists are told apart at a look.
    mark: u64,
    len: u32,
}

impl Model for Kept {
    ghost use Rattle.std.specs.Prelude.{◌≡◌, ℕ, List, length};
    ghost use Rattle.op_name.specs.NameData.{NameData};
    ghost use Rattle.context_vector.specs.Marks.{mark_of};
    ghost use Rattle.context_vector.specs.Code.Words.{entries_in, AreUndone};

    ghost Value = { List (NameData × ℕ) };

    ghost view = { λ k. entries_in k.high.items k.words };

    ghost invariant = { λ k. AreUndone k.words k.high.items
        × (k.mark ≡ mark_of (entries_in k.high.items k.words))
        × (k.len ≡ length (entries_in k.high.items k.words)) };
}

impl Kept {
    // These names, with their mark and their number.
    pub(super) fn of(words: Stored<Word>, high: Vec<Entry>, mark: u64, len: u32) -> Kept
        requires undone { AreUndone words high.items }
        requires mark { mark ≡ mark_of (entries_in high.items words) }
        requires len { len ≡ length (entries_in high.items words) }
        ensures { result ≡ entries_in high.items words }
    {
        Kept {
            words,
            high,
            mark,
            len,
        }
    }

    // The words in their pieces: they alone are taken from others, so that nothing is promised of them.
    pub(super) fn stored(&self) -> &Stored<Word> {
        &self.words
    }

    /// The mark of the names: equal lists have equal marks.
    pub fn mark(&self) -> u64
        ensures { result ≡ mark_of self.now }
    {
        self.mark
    }

    /// The number of names.
    pub fn len(&self) -> usize
        ensures len { result ≡ length self.now }
        ensures range { result ≤ SITES * NUMBERS }
    {
        self.len as usize
    }

    /// The greatest generation of the name, 0 if it isn't undone.
    pub fn entry(&self, name: &Name) -> u16
        ensures { result ≡ entry_in self.now name.now }
    {
        name.known();
        let (key, place) = seat_of(name);
        let word = word_left(self.words.reader(), key);
        generation_of(word.digit(place), entry_among(self.high.as_slice(), name))
    }

    /// A reader of the names.
    pub fn names(&self) -> Names<'_>
        ensures { result ≡ self.now }
    {
        Names::new(self.words.reader(), self.high.as_slice())
    }

    /// A copy of the names that may be changed in place, with a spare place.
    pub fn opened(&self, alloc: Global) -> Result<Undone, Memory>
        ensures items { IfOk result (λ u. u.items ≡ self.now) }
        ensures spare { IfOk result (λ u. 1 ≤ u.spare) }
    {
        let words = self.words.to_vec(alloc)?;
        let high = with_spare(alloc, self.high.as_slice())?;
        Ok(Undone::of(words, high, self.mark, self.len))
    }
}

// A copy of the list with a spare place.
fn with_spare(alloc: Global, list: &[Entry]) -> Result<Vec<Entry>, Memory>
    ensures items { IfOk result (λ v. v.items ≡ list.now) }
    ensures spare { IfOk result (λ v. vec_len v < vec_capacity v) }
{
    let mut all = Vec::with_capacity(alloc, list.len() + 1)?;
    all.extend_from_slice(list)?;
    all.reserve(1)?;
    Ok(all)
}

/// The names as they are kept: those that `like` has, where they are the same, and else with the pieces that they have in common.
/// None where there are none.
pub fn kept_like(
    alloc: Global,
    undone: &Undone,
    like: Option<&Rc<Kept>>,
) -> Result<Option<Rc<Kept>>, Memory>
    ensures { IfOk result (λ k. kept_of rc_value k ≡ undone.now.items) }
{
    if undone.len() == 0 {
        return Ok(None);
    }
    match like {
        Some(like)
            if undone.mark() == like.as_ref().mark()
                && undone.names().is_same(like.as_ref().names()) => Ok(Some(like.clone()?)),
        Some(like) => Ok(Some(Rc::new(alloc, undone.kept(alloc, Some(like.as_ref()))?)?)),
        None => Ok(Some(Rc::new(alloc, undone.kept(alloc, None)?)?)),
    }
}
