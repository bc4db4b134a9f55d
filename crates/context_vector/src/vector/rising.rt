//! Lists whose keys rise: searches in them and comparisons of two of them.

ghost use Rattle.std.specs.Prelude.{◌≡◌, ◌≤◌, nat_lt, IfOk, IfErr, IsTrue};
ghost use Rattle.context_vector.specs.Contexts.{count_in, entry_in, AreCounts, AreEntries};
ghost use Rattle.op_name.specs.NameData.{name_lt};
ghost use lib.Pointwise.{pointwise};
ghost use Rattle.context_vector.specs.Code.Counting.{AreEnough};
ghost use Rattle.context_vector.specs.Code.Places.{IsPlace, IsGap};

use super::count::Count;
use super::entry::Entry;
use op_name::{NUMBERS, Name};

/// Where the pair of the site stands, or where it would go.
pub fn place_of_site(counts: &[Count], site: u16) -> Result<usize, usize>
    requires { AreCounts 0 counts.now }
    ensures found { IfOk result (IsPlace counts.now site) }
    ensures absent { IfErr result (IsGap nat_lt counts.now site) }
{
    counts.binary_search_by_key(&site, Count::site)
}

/// Where the entry of the name stands, or where it would go.
pub fn place_of_name(entries: &[Entry], name: &Name) -> Result<usize, usize>
    requires { AreEntries entries.now }
    ensures found { IfOk result (IsPlace entries.now name.now) }
    ensures absent { IfErr result (IsGap name_lt entries.now name.now) }
{
    entries.binary_search_by_key(name, Entry::name)
}

/// The count of the site, 0 if it has no pair.
pub fn count_among(counts: &[Count], site: u16) -> u32
    requires { AreCounts 0 counts.now }
    ensures count { result ≡ count_in counts.now site }
    ensures range { result ≤ NUMBERS }
{
    // Where all lower sites wrote too, the pair stands at the place of the site's number.
    count_near(counts, site as usize, site)
}

/// The greatest generation of the name, 0 if it has no entry.
pub fn entry_among(entries: &[Entry], name: &Name) -> u16
    requires { AreEntries entries.now }
    ensures { result ≡ entry_in entries.now name.now }
{
    match place_of_name(entries, name) {
        Ok(at) => entries[at].generation(),
        Err(_) => 0,
    }
}

/// Whether both have the same sites, and `mine` count no less of each: without a way out of the loop, so that it can be compiled to one
/// over several counts at a time. An answer of no says nothing.
pub fn are_enough(mine: &[Count], theirs: &[Count]) -> bool
    ensures { IsTrue result → AreEnough mine.now theirs.now }
{
    if mine.len() != theirs.len() {
        return false;
    }
    let mut enough = true;
    for i in 0..mine.len() {
        enough &= theirs[i].is_at_most(&mine[i]);
    }
    enough
}

/// The count of the site, 0 if it has no pair. It is looked up at the guessed place first.
pub fn count_near(counts: &[Count], guess: usize, site: u16) -> u32
    requires { AreCounts 0 counts.now }
    ensures count { result ≡ count_in counts.now site }
    ensures range { result ≤ NUMBERS }
{
    match place_near(counts, guess, site) {
        Ok(at) => counts[at].number(),
        Err(_) => 0,
    }
}

// Where the pair of the site stands, or where it would go. A right guess spares the search.
fn place_near(counts: &[Count], guess: usize, site: u16) -> Result<usize, usize>
    requires { AreCounts 0 counts.now }
    ensures found { IfOk result (IsPlace counts.now site) }
    ensures absent { IfErr result (IsGap nat_lt counts.now site) }
{
    match counts.get(guess) {
        Some(count) if count.site() == site => Ok(guess),
        _ => place_of_site(counts, site),
    }
}

/// Whether two lists are equal, without a way out of the loop, so that it can be compiled to one over several elements at a time.
pub fn are_equal<T: PartialEq>(one: &[T], other: &[T]) -> bool
    ensures { result ≡ pointwise T.eq one.now other.now }
{
    if one.len() != other.len() {
        return false;
    }
    let mut equal = true;
    for i in 0..one.len() {
        equal &= one[i] == other[i];
    }
    equal
}
