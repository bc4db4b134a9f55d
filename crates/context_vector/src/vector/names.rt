//! Undone names read from the front: the public reader and comparisons.

ghost use Rattle.std.specs.Prelude.{◌≡◌, ◌+◌, ◌≤◌, [], drop, length, slice_get, IfOk};
ghost use lib.Pointwise.{pointwise};
ghost use Rattle.context_vector.specs.Contexts.{entry_in, AreEntries};
ghost use Rattle.context_vector.specs.Equality.{entry_eq};
ghost use Rattle.context_vector.specs.Shortfalls.{first_short};
ghost use Rattle.context_vector.specs.Code.Readers.{left_of};
ghost use Rattle.context_vector.specs.Code.Words.{entries_in, AreUndone};

use super::entry::Entry;
use super::reader::{Reader, are_same};
use super::rising::are_equal;
use super::word::Word;
use super::word_reader::{WordReader, to_first};
use super::words::pass_same;
use op_name::{Memory, Name};
use std::alloc::Global;
use std::marker::Model;

/// Undone names with their greatest generations, read one after the other, names rising.
#[derive(Drop)]
pub struct Names<'a> {
    /// What is left of the word that is being read.
    word: WordReader,
    /// The words after it.
    words: Reader<'a, Word>,
    /// What is above the digits.
    high: &'a [Entry],
}

impl<'a> Model for Names<'a> {
    ghost use Rattle.std.specs.Prelude.{ℕ, List};
    ghost use Rattle.op_name.specs.NameData.{NameData};
    ghost use Rattle.context_vector.specs.Contexts.{AreEntries};
    ghost use Rattle.context_vector.specs.Code.Readers.{left_of};
    ghost use Rattle.context_vector.specs.Code.Words.{left_in, IsLeft, AreWords};

    ghost Value = { List (NameData × ℕ) };

    ghost view = { λ n. left_in n.high.now n.word.key n.word.place n.word.digits (left_of n.words) };

    ghost invariant = { λ n. IsLeft n.word.place n.word.digits
        × AreWords 0 (left_of n.words)
        × AreEntries n.high.now
        × AreEntries (left_in n.high.now n.word.key n.word.place n.word.digits (left_of n.words)) };
}

impl<'a> Names<'a> {
    // A reader of these words.
    pub(super) fn new(words: Reader<'a, Word>, high: &'a [Entry]) -> Names<'a>
        requires { AreUndone (left_of words) high.now }
        ensures { result ≡ entries_in high.now (left_of words.entry) }
    {
        Names {
            word: WordReader::done(),
            words,
            high,
        }
    }

    // A reader of nothing.
    pub(super) fn empty() -> Names<'a>
        ensures { result ≡ [] }
    {
        Names {
            word: WordReader::done(),
            words: Reader::of(&[]),
            high: &[],
        }
    }

    /// Takes the first name with its generation, which is at least 1; None exactly where none is left.
    pub fn next(&mut self) -> Option<(Name, u16)>
        ensures first { result ≡ slice_get self.old 0 }
        ensures rest { self.new ≡ drop 1 self.old }
    {
        if !to_first(&mut self.word, &mut self.words) {
            return None;
        }
        let first = self.word.first(self.high);
        self.word.step();
        Some(first)
    }

    // The first name with its generation.
    fn first(&mut self) -> Option<(Name, u16)>
        ensures same { self.new ≡ self.old }
        ensures first { result ≡ slice_get self.old 0 }
    {
        if !to_first(&mut self.word, &mut self.words) {
            return None;
        }
        Some(self.word.first(self.high))
    }

    // A copy of what is left, in one list.
    pub(super) fn to_vec(self, alloc: Global) -> Result<Vec<Entry>, Memory>
        ensures { IfOk result (λ v. v.items ≡ self.entry) }
    {
        let mut all = Vec::new(alloc);
        let mut left = self;
        while let Some((name, generation)) = left.next() {
            all.push(Entry::new(name, generation))?;
        }
        Ok(all)
    }

    // Whether both have the same left. Where both stand at the beginning of a word, words are compared.
    pub(super) fn is_same(self, other: Names<'_>) -> bool
        ensures { result ≡ pointwise entry_eq self.entry other.entry }
    {
        if self.word.digits == 0 && other.word.digits == 0 && are_equal(self.high, other.high) {
            return are_same(self.words, other.words);
        }
        are_same_names(self, other)
    }

    // Goes past words that both begin with, while both stand at the beginning of one.
    fn pass_same(&mut self, other: &mut Names<'_>)
        ensures mine { AreEntries self.new }
        ensures theirs { AreEntries other.new }
        ensures less { length self.new + length other.new ≤ length self.old + length other.old }
        ensures short { first_short (entry_in self.new) other.new ≡ first_short (entry_in self.old) other.old }
    {
        if self.word.digits == 0 && other.word.digits == 0 && are_equal(self.high, other.high) {
            pass_same(&mut self.words, &mut other.words);
        }
    }
}

// Whether both have the same left, one name after the other.
fn are_same_names(mine: Names<'_>, theirs: Names<'_>) -> bool
    ensures { result ≡ pointwise entry_eq mine.entry theirs.entry }
{
    let mut left = mine;
    let mut right = theirs;
    while let Some(one) = left.next() {
        match right.next() {
            Some(other) if one.0 == other.0 && one.1 == other.1 => {}
            _ => return false,
        }
    }
    right.next().is_none()
}

/// The first name of which `theirs` go higher than `mine`, with the least generation that `mine` lack. Both are
/// read side by side.
pub fn first_short_name(mine: Names<'_>, theirs: Names<'_>) -> Option<(Name, u16)>
    requires mine { AreEntries mine }
    requires theirs { AreEntries theirs }
    ensures { result ≡ first_short (entry_in mine.entry) theirs.entry }
{
    let mut left = mine;
    let mut right = theirs;
    left.pass_same(&mut right);
    while let Some(wanted) = right.first() {
        match left.first() {
            Some(had) if had.0.is_before(&wanted.0) => {
                left.next();
            }
            Some(had) if had.0 == wanted.0 => {
                if had.1 < wanted.1 {
                    return Some((wanted.0, had.1 + 1));
                }
                left.next();
                right.next();
                left.pass_same(&mut right);
            }
            _ => return Some((wanted.0, 1)),
        }
    }
    None
}
