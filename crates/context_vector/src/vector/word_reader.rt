//! Words read from the front, one name at a time.

ghost use Rattle.std.specs.Prelude.{◌≡◌, ◌≢◌, ◌≤◌, ◌<◌, ◌%◌, ◌/◌, ◌+◌, ℕ, List, [], true, false};
ghost use Rattle.op_name.specs.NameData.{NameData, IsName};
ghost use Rattle.context_vector.specs.Contexts.{entry_in, AreEntries};
ghost use Rattle.context_vector.specs.Code.Readers.{left_of};
ghost use Rattle.context_vector.specs.Code.Words.{name_at, generation, left_in, IsLeft, AreWords};

use super::entry::Entry;
use super::generations::generation_of;
use super::reader::Reader;
use super::rising::entry_among;
use super::word::Word;
use op_name::{GENERATIONS, Name};

/// What is left of a word that is read from the front: its key, the place of the next name, and the digits from there on, that of the
/// next name lowest.
#[derive(Drop)]
pub struct WordReader {
    pub key: u32,
    pub place: u32,
    pub digits: u32,
}

impl WordReader {
    /// A word of which nothing is left.
    pub fn done() -> WordReader
        ensures place { result.place ≡ 8 }
        ensures digits { result.digits ≡ 0 }
    {
        WordReader {
            key: 0,
            place: 8,
            digits: 0,
        }
    }

    /// The whole word.
    pub fn of(word: Word) -> WordReader
        ensures key { result.key ≡ word.0 }
        ensures place { result.place ≡ 0 }
        ensures digits { result.digits ≡ word.1 }
    {
        WordReader {
            key: word.key(),
            place: 0,
            digits: word.digits(),
        }
    }

    /// Goes past the next name's place.
    pub fn step(&mut self)
        requires { self.old.place < 8 }
        ensures key { self.new.key ≡ self.old.key }
        ensures place { self.new.place ≡ self.old.place + 1 }
        ensures digits { self.new.digits ≡ self.old.digits / 16 }
    {
        self.place += 1;
        self.digits /= 16;
    }

    /// The next name with its generation, where the list has what is above the digits.
    pub fn first(&self, high: &[Entry]) -> (Name, u16)
        requires name { IsName (name_at self.now.key self.now.place).site (name_at self.now.key self.now.place).number }
        requires rising { AreEntries high.now }
        requires most { generation (self.now.digits % 16) (entry_in high.now (name_at self.now.key self.now.place)) ≤ GENERATIONS }
        ensures name { result.0 ≡ name_at self.now.key self.now.place }
        ensures generation { result.1 ≡ generation (self.now.digits % 16) (entry_in high.now (name_at self.now.key self.now.place)) }
    {
        let code = self.key * 8 + self.place;
        let name = Name {
            site: (code >> 20) as u16,
            number: code % 1_048_576,
        };
        let generation = generation_of((self.digits % 16) as u16, entry_among(high, &name));
        (name, generation)
    }
}

/// Goes on to the next place with a digit, if there is any.
pub fn to_first(word: &mut WordReader, words: &mut Reader<'_, Word>) -> bool
    requires word { IsLeft word.old.place word.old.digits }
    requires words { AreWords 0 (left_of words.old) }
    ensures word { IsLeft word.new.place word.new.digits }
    ensures words { AreWords 0 (left_of words.new) }
    ensures same { (hs : List (NameData × ℕ)) → left_in hs word.new.key word.new.place word.new.digits (left_of words.new)
        ≡ left_in hs word.old.key word.old.place word.old.digits (left_of words.old) }
    ensures first { result ≡ true → word.new.digits % 16 ≢ 0 }
    ensures end { result ≡ false
        → (hs : List (NameData × ℕ)) → left_in hs word.old.key word.old.place word.old.digits (left_of words.old) ≡ [] }
{
    while word.digits % 16 == 0 {
        if word.digits != 0 {
            word.step();
        } else {
            match words.next() {
                Some(next) => *word = WordReader::of(next),
                None => return false,
            }
        }
    }
    true
}
