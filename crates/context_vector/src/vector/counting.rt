//! Counts read from the front: the public reader, searches and comparisons.

ghost use Rattle.std.specs.Prelude.{◌≡◌, ◌+◌, ◌*◌, ◌≤◌, ◌++◌, ℕ, List, false, drop, length, slice_get, take, IsTrue};
ghost use Rattle.context_vector.specs.Contexts.{count_in, sum_of_counts, AreCounts};
ghost use Rattle.context_vector.specs.Vectors.{SitesBelow};
ghost use Rattle.context_vector.specs.Marks.{counts_mark};
ghost use Rattle.context_vector.specs.Shortfalls.{first_short};
ghost use Rattle.context_vector.specs.Code.Counting.{SitesFrom};
ghost use Rattle.context_vector.specs.Code.Readers.{left_of};

use super::count::Count;
use super::marks::laid;
use super::reader::Reader;
use super::rising::{are_enough, count_near, place_of_site};
use op_name::{NUMBERS, SITES};
use std::marker::Model;

/// Sites with their counts, read one after the other, sites rising.
#[derive(Drop)]
pub struct SiteCounts<'a> {
    left: Reader<'a, Count>,
}

impl<'a> Model for SiteCounts<'a> {
    ghost use Rattle.std.specs.Prelude.{ℕ, List};
    ghost use Rattle.context_vector.specs.Code.Readers.{left_of};

    ghost Value = { List (ℕ × ℕ) };

    ghost view = { λ c. left_of c.left };
}

impl<'a> SiteCounts<'a> {
    // A reader of what is left there.
    pub(super) fn new(left: Reader<'a, Count>) -> SiteCounts<'a>
        ensures { result ≡ left_of left.entry }
    {
        SiteCounts { left }
    }

    /// Takes the first site with its count, which is at least 1; None exactly where none is left.
    pub fn next(&mut self) -> Option<(u16, u32)>
        ensures first { result ≡ slice_get self.old 0 }
        ensures rest { self.new ≡ drop 1 self.old }
    {
        Some(self.left.next()?.pair())
    }
}

/// The count of the site, 0 if it has no pair.
pub fn count_of(counts: Reader<'_, Count>, site: u16) -> u32
    requires { AreCounts 0 (left_of counts) }
    ensures count { result ≡ count_in (left_of counts.entry) site }
    ensures range { result ≤ NUMBERS }
{
    let mut left = counts;
    // Where all lower sites wrote too, the pair stands at the place of the site's number.
    let mut guess = site as usize;
    loop {
        let part = left.front();
        if part.is_empty() {
            return 0;
        }
        if !ends_below(part, site) {
            return count_near(part, guess, site);
        }
        guess = guess.saturating_sub(part.len());
        left.pass(part.len());
    }
}

// Whether all sites of the part are lesser ones. If not, all sites after it are greater ones.
fn ends_below(part: &[Count], site: u16) -> bool
    requires { AreCounts 0 part.now }
    ensures below { IsTrue result → SitesBelow part.now site }
    ensures reached { result ≡ false → (more : List (ℕ × ℕ)) → AreCounts 0 (part.now ++ more) → AreCounts (site + 1) more }
{
    match part.last() {
        Some(last) => last.site() < site,
        None => true,
    }
}

/// Goes past all lesser sites, and answers how many they were.
pub fn seek(counts: &mut Reader<'_, Count>, site: u16) -> usize
    requires { AreCounts 0 (left_of counts.old) }
    ensures { (xs : List (ℕ × ℕ)) × (length xs ≡ result) × (left_of counts.old ≡ xs ++ left_of counts.new)
        × SitesBelow xs site × SitesFrom site (left_of counts.new) }
{
    let mut passed = 0;
    loop {
        let part = counts.front();
        if part.is_empty() {
            return passed;
        }
        if !ends_below(part, site) {
            let n = place_from(part, site);
            counts.pass(n);
            return passed + n;
        }
        passed += part.len();
        counts.pass(part.len());
    }
}

// How many pairs have lesser sites.
fn place_from(counts: &[Count], site: u16) -> usize
    requires { AreCounts 0 counts.now }
    ensures bound { result ≤ length counts.now }
    ensures below { SitesBelow (take result counts.now) site }
    ensures from { SitesFrom site (drop result counts.now) }
{
    match place_of_site(counts, site) {
        Ok(at) => at,
        Err(at) => at,
    }
}

/// The first site of which `theirs` count more than `mine`, with the least number that `mine` lack. Both are read side by side: parts
/// that have the same sites, and enough of each, are passed at once.
pub fn first_short_site(mine: Reader<'_, Count>, theirs: Reader<'_, Count>) -> Option<(u16, u32)>
    requires mine { AreCounts 0 (left_of mine) }
    requires theirs { AreCounts 0 (left_of theirs) }
    ensures { result ≡ first_short (count_in (left_of mine.entry)) (left_of theirs.entry) }
{
    let mut left = mine;
    let mut right = theirs;
    pass_enough(&mut left, &mut right);
    while let Some(wanted) = right.first() {
        match left.first() {
            Some(had) => {
                if had.site() < wanted.site() {
                    left.pass(1);
                    pass_enough(&mut left, &mut right);
                } else if had.site() > wanted.site() {
                    return Some((wanted.site(), 1));
                } else if had.number() < wanted.number() {
                    return Some((wanted.site(), had.number() + 1));
                } else {
                    left.pass(1);
                    right.pass(1);
                }
            }
            None => return Some((wanted.site(), 1)),
        }
    }
    None
}

// Goes past first parts that have the same sites, as long as `mine` have enough of each.
fn pass_enough(mine: &mut Reader<'_, Count>, theirs: &mut Reader<'_, Count>)
    requires mine { AreCounts 0 (left_of mine.old) }
    requires theirs { AreCounts 0 (left_of theirs.old) }
    ensures mine { AreCounts 0 (left_of mine.new) }
    ensures theirs { AreCounts 0 (left_of theirs.new) }
    ensures same { first_short (count_in (left_of mine.old)) (left_of theirs.old)
        ≡ first_short (count_in (left_of mine.new)) (left_of theirs.new) }
    ensures fewer { length (left_of mine.new) ≤ length (left_of mine.old) }
    ensures fewer_wanted { length (left_of theirs.new) ≤ length (left_of theirs.old) }
{
    loop {
        let had = mine.front();
        let wanted = theirs.front();
        let n = had.len().min(wanted.len());
        // Parts that end at different sites aren't compared.
        if n == 0 || had[n - 1].site() != wanted[n - 1].site() {
            return;
        }
        if !are_enough(had.split_at(n).0, wanted.split_at(n).0) {
            return;
        }
        mine.pass(n);
        theirs.pass(n);
    }
}

/// The sum of the counts.
pub fn total(counts: Reader<'_, Count>) -> u32
    requires { AreCounts 0 (left_of counts) }
    ensures total { result ≡ sum_of_counts (left_of counts.entry) }
    ensures range { result ≤ SITES * NUMBERS }
{
    let mut sum = 0;
    let mut left = counts;
    while let Some(count) = left.next() {
        sum += count.number();
    }
    sum
}

/// The number of sites.
pub fn sites(counts: Reader<'_, Count>) -> u32
    requires { AreCounts 0 (left_of counts) }
    ensures sites { result ≡ length (left_of counts.entry) }
    ensures range { result ≤ SITES }
{
    let mut sum = 0;
    let mut left = counts;
    loop {
        let part = left.front();
        if part.is_empty() {
            return sum as u32;
        }
        sum += part.len();
        left.pass(part.len());
    }
}

/// The mark of the counts of sites: a few steps of a processor for each.
pub fn mark_of_counts(counts: Reader<'_, Count>) -> u64
    ensures { result ≡ counts_mark 0 (left_of counts.entry) }
{
    let mut mark = 0;
    let mut left = counts;
    while let Some(count) = left.next() {
        mark = laid(mark, count.site(), count.number());
    }
    mark
}
