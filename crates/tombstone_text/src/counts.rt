//! A column of numbers with a sum of 32 bits.

ghost use Rattle.std.specs.Prelude.{◌≡◌, ◌+◌, ◌<◌, ◌≤◌, ◌^◌, [], length, take, insert, sum, slice_set, slice_index, OnOk};
ghost use Rattle.tombstone_text.specs.Sums.{IsPart};
ghost use Rattle.tombstone_text.specs.Code.Sums.{Column};

use crate::sums::Sums;
use op_name::Memory;
use std::alloc::Global;
use std::marker::Model;

/// Numbers, each of which counts some cells, with their sum, which is below 2^32.
#[derive(Drop)]
pub(crate) struct Counts {
    sums: Sums,
}

impl Model for Counts {
    ghost Value = { Column };

    ghost view = { λ c. c.sums };

    ghost invariant = { λ c. sum c.sums.parts < 2 ^ 32 };
}

impl Counts {
    /// No numbers; takes no memory.
    pub(crate) fn new(alloc: Global) -> Counts
        ensures { result.parts ≡ [] }
    {
        Counts {
            sums: Sums::new(alloc),
        }
    }

    /// The sum of all numbers.
    pub(crate) fn total(&self) -> u32
        ensures total { result ≡ sum self.now.parts }
        ensures low { sum self.now.parts < 2 ^ 32 }
    {
        self.sums.total() as u32
    }

    /// The number at a place.
    pub(crate) fn part(&self, i: usize) -> u32
        requires { i < length self.now.parts }
        ensures { result ≡ slice_index self.now.parts i }
    {
        self.sums.part(i) as u32
    }

    /// The place of the number within which the `n`-th cell lies, and how many cells of that number come before it.
    pub(crate) fn find(&self, n: u32) -> (usize, u32)
        requires { n < sum self.now.parts }
        ensures { IsPart self.now.parts result.0 result.1 n }
    {
        let (i, before) = self.sums.find(u64::from(n));
        (i, before as u32)
    }

    /// The sum of the numbers before a place.
    pub(crate) fn start_of(&self, i: usize) -> u32
        requires { i ≤ length self.now.parts }
        ensures { result ≡ sum (take i self.now.parts) }
    {
        self.sums.start_of(i) as u32
    }

    /// Makes room for one more number. The numbers stay, also when out of memory.
    pub(crate) fn reserve(&mut self) -> Result<(), Memory>
        ensures parts { self.new.parts ≡ self.old.parts }
        ensures room { OnOk result (1 ≤ self.new.spare) }
    {
        self.sums.reserve()
    }

    /// Changes the number at a place.
    pub(crate) fn set(&mut self, i: usize, part: u32)
        requires within { i < length self.old.parts }
        requires low { sum (slice_set self.old.parts i part) < 2 ^ 32 }
        ensures parts { self.new.parts ≡ slice_set self.old.parts i part }
        ensures room { self.new.spare ≡ self.old.spare }
    {
        self.sums.set(i, u64::from(part));
    }

    /// Puts a number at a place, in the room that `reserve` made.
    pub(crate) fn insert(&mut self, i: usize, part: u32)
        requires room { 1 ≤ self.old.spare }
        requires within { i ≤ length self.old.parts }
        requires low { sum self.old.parts + part < 2 ^ 32 }
        ensures parts { self.new.parts ≡ insert self.old.parts i part }
    {
        self.sums.insert(i, u64::from(part));
    }
}
