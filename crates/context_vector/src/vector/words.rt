//! Lists of words: where a name stands in them, and another digit for a name.

ghost use Rattle.std.specs.Prelude.{◌≡◌, ◌+◌, ◌≤◌, ◌<◌, ◌++◌, ℕ, List, false, take, nat_lt};
ghost use Rattle.std.specs.Prelude.{length, vec_len, vec_capacity, IfOk, IfErr, IsTrue};
ghost use Rattle.context_vector.specs.Contexts.{count_in};
ghost use Rattle.context_vector.specs.Vectors.{SitesBelow};
ghost use Rattle.context_vector.specs.Code.Places.{IsPlace, IsGap};
ghost use Rattle.context_vector.specs.Code.Readers.{left_of};
ghost use Rattle.context_vector.specs.Code.Words.{word_key, place_in, with_digit, set_word, AreWords};

use super::reader::Reader;
use super::word::Word;
use op_name::Name;

/// The key of the word of a name, and the place of the name in it.
pub fn seat_of(name: &Name) -> (u32, u32)
    ensures key { result.0 ≡ word_key name.now }
    ensures place { result.1 ≡ place_in name.now }
    ensures range { result.1 < 8 }
{
    name.known();
    let code = u32::from(name.site) * 1_048_576 + name.number;
    (code / 8, code % 8)
}

/// Where the word of the key stands, or where it would go.
pub fn place_of_key(words: &[Word], key: u32) -> Result<usize, usize>
    requires { AreWords 0 words.now }
    ensures found { IfOk result (IsPlace words.now key) }
    ensures absent { IfErr result (IsGap nat_lt words.now key) }
{
    words.binary_search_by_key(&key, Word::key)
}

/// The word of the key, with no digits if there is none.
pub fn word_among(words: &[Word], key: u32) -> Word
    requires { AreWords 0 words.now }
    ensures { result ≡ (key, count_in words.now key) }
{
    match place_of_key(words, key) {
        Ok(at) => words[at],
        Err(_) => Word::new(key, 0),
    }
}

/// The same in a list that is read in parts: it is looked up in the part that reaches the key.
pub fn word_left(words: Reader<'_, Word>, key: u32) -> Word
    requires { AreWords 0 (left_of words) }
    ensures { result ≡ (key, count_in (left_of words.entry) key) }
{
    let mut left = words;
    loop {
        let part = left.front();
        if part.is_empty() {
            return Word::new(key, 0);
        }
        if !ends_below(part, key) {
            return word_among(part, key);
        }
        left.pass(part.len());
    }
}

// Whether all keys of the part are lesser ones. If not, all keys after it are greater ones.
fn ends_below(part: &[Word], key: u32) -> bool
    requires { AreWords 0 part.now }
    ensures below { IsTrue result → SitesBelow part.now key }
    ensures reached { result ≡ false → (more : List (ℕ × ℕ)) → AreWords 0 (part.now ++ more) → AreWords (key + 1) more }
{
    match part.last() {
        Some(last) => last.key() < key,
        None => true,
    }
}

/// Makes the digit that of the name; a word without any goes.
pub fn set_digit(words: &mut Vec<Word>, name: &Name, digit: u16)
    requires rising { AreWords 0 words.old.items }
    requires digit { digit < 16 }
    requires room { count_in words.old.items (word_key name.now) ≡ 0 → 1 ≤ digit → vec_len words.old < vec_capacity words.old }
    ensures { let had = count_in words.old.items (word_key name.now) in
        words.new.items ≡ set_word (word_key name.now) (with_digit had (place_in name.now) digit) words.old.items }
{
    let (key, place) = seat_of(name);
    match place_of_key(words.as_slice(), key) {
        Ok(at) => {
            let word = words[at].with(place, digit);
            if word.digits() == 0 {
                words.remove(at);
            } else {
                words[at] = word;
            }
        }
        Err(_) if digit == 0 => {}
        Err(at) => match words.insert(at, Word::new(key, 0).with(place, digit)) {
            Ok(()) => {}
            Err(_) => unreachable!(),
        },
    }
}

/// Goes past the words that both begin with.
pub fn pass_same(mine: &mut Reader<'_, Word>, theirs: &mut Reader<'_, Word>)
    ensures { (xs : List (ℕ × ℕ)) × (left_of mine.old ≡ xs ++ left_of mine.new) × (left_of theirs.old ≡ xs ++ left_of theirs.new) }
{
    loop {
        let one = mine.front();
        let other = theirs.front();
        let n = same_len(one, other);
        if n == 0 {
            return;
        }
        mine.pass(n);
        theirs.pass(n);
    }
}

// How many words both begin with.
fn same_len(one: &[Word], other: &[Word]) -> usize
    ensures mine { result ≤ length one.now }
    ensures theirs { result ≤ length other.now }
    ensures same { take result one.now ≡ take result other.now }
{
    let most = one.len().min(other.len());
    let mut n = 0;
    while n < most && one[n] == other[n] {
        n += 1;
    }
    n
}
