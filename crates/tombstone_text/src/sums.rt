//! A column of numbers, in which it is found where a running sum lies.

ghost use Rattle.std.specs.Prelude.{◌≡◌, ℕ, ◌+◌, ◌-◌, ◌*◌, ◌<◌, ◌≤◌, ◌^◌, [], min, length, take, drop, insert, sum, slice_set, slice_index, vec_len, vec_capacity, OnOk};
ghost use Rattle.tombstone_text.specs.Sums.{IsPart};
ghost use Rattle.tombstone_text.specs.Code.Sums.{Column, IsTotal, AreBlocks};
ghost use Rattle.tombstone_text.specs.declared.sums.TheConstants.{BLOCK};

use op_name::Memory;
use std::alloc::Global;
use std::marker::Model;

/// The sums of so many numbers each are kept.
pub(crate) const BLOCK: usize = 64;

/// Numbers, each of which counts some things, with their sum, which is below 2^64, and the sum of each block of
/// 64 of them. All the things, one number's after the other's, are counted from 0; where the n-th of them lies
/// is found by the blocks, and then within one block. A change of a number changes one block; a new number has
/// all blocks added up anew.
#[derive(Drop)]
pub(crate) struct Sums {
    parts: Vec<u64>,
    blocks: Vec<u64>,
    total: u64,
}

impl Model for Sums {
    ghost Value = { Column };

    ghost view = { λ s. record {
      parts = s.parts.items;
      spare = min (vec_capacity s.parts) (BLOCK * vec_capacity s.blocks) - vec_len s.parts;
    } };

    ghost invariant = { λ s. IsTotal s.total s.parts.items × AreBlocks s.blocks.items s.parts.items };
}

impl Sums {
    /// No numbers; takes no memory.
    pub(crate) fn new(alloc: Global) -> Sums
        ensures { result.parts ≡ [] }
    {
        Sums {
            parts: Vec::new(alloc),
            blocks: Vec::new(alloc),
            total: 0,
        }
    }

    /// The sum of all numbers.
    pub(crate) fn total(&self) -> u64
        ensures total { result ≡ sum self.now.parts }
        ensures low { sum self.now.parts < 2 ^ 64 }
    {
        self.total
    }

    /// The number at a place.
    pub(crate) fn part(&self, i: usize) -> u64
        requires { i < length self.now.parts }
        ensures { result ≡ slice_index self.now.parts i }
    {
        self.parts[i]
    }

    /// The place of the number within which the `n`-th thing lies, and how many things of that number come before it.
    pub(crate) fn find(&self, n: u64) -> (usize, u64)
        requires { n < sum self.now.parts }
        ensures { IsPart self.now.parts result.0 result.1 n }
    {
        find_in(self.parts.as_slice(), self.blocks.as_slice(), n)
    }

    /// The sum of the numbers before a place.
    pub(crate) fn start_of(&self, i: usize) -> u64
        requires { i ≤ length self.now.parts }
        ensures { result ≡ sum (take i self.now.parts) }
    {
        sum_to(self.parts.as_slice(), self.blocks.as_slice(), i)
    }

    /// Makes room for one more number. The numbers stay, also when out of memory.
    pub(crate) fn reserve(&mut self) -> Result<(), Memory>
        ensures parts { self.new.parts ≡ self.old.parts }
        ensures room { OnOk result (1 ≤ self.new.spare) }
    {
        self.parts.reserve(1)?;
        self.blocks.reserve(1)?;
        Ok(())
    }

    /// Changes the number at a place.
    pub(crate) fn set(&mut self, i: usize, part: u64)
        requires within { i < length self.old.parts }
        requires low { sum (slice_set self.old.parts i part) < 2 ^ 64 }
        ensures parts { self.new.parts ≡ slice_set self.old.parts i part }
        ensures room { self.new.spare ≡ self.old.spare }
    {
        let old = self.parts[i];
        self.total = self.total - old + part;
        let block = self.blocks[i / BLOCK];
        self.blocks[i / BLOCK] = block - old + part;
        self.parts[i] = part;
    }

    /// Puts a number at a place, in the room that `reserve` made.
    pub(crate) fn insert(&mut self, i: usize, part: u64)
        requires room { 1 ≤ self.old.spare }
        requires within { i ≤ length self.old.parts }
        requires low { sum self.old.parts + part < 2 ^ 64 }
        ensures parts { self.new.parts ≡ insert self.old.parts i part }
    {
        self.total += part;
        match self.parts.insert(i, part) {
            Ok(()) => {}
            Err(_) => unreachable!(),
        }
        build(self.parts.as_slice(), &mut self.blocks);
    }
}

/// Adds all blocks up anew.
fn build(parts: &[u64], blocks: &mut Vec<u64>)
    requires room { length parts.now ≤ BLOCK * vec_capacity blocks.old }
    requires low { sum parts.now < 2 ^ 64 }
    ensures blocks { AreBlocks blocks.new.items parts.now }
    ensures room { vec_capacity blocks.new ≡ vec_capacity blocks.old }
{
    blocks.clear();
    let mut at = 0;
    while at < parts.len() {
        let block = block_sum(parts, at);
        blocks.push_reserved(block);
        at += BLOCK;
    }
}

/// The sum of up to 64 numbers from a place on.
fn block_sum(parts: &[u64], at: usize) -> u64
    requires within { at < length parts.now }
    requires low { sum parts.now < 2 ^ 64 }
    ensures { result ≡ sum (take BLOCK (drop at parts.now)) }
{
    let rest = &parts[at..];
    sum_before(rest, BLOCK.min(rest.len()))
}

/// The place of the number within which the `n`-th thing lies, and how many things of that number come before
/// it: the block is found first, then the number.
fn find_in(parts: &[u64], blocks: &[u64], n: u64) -> (usize, u64)
    requires within { n < sum parts.now }
    requires blocks { AreBlocks blocks.now parts.now }
    ensures { IsPart parts.now result.0 result.1 n }
{
    let (j, left) = find_block(parts, blocks, n);
    find_from(parts, (BLOCK * j).min(parts.len()), left)
}

/// The block within which the `n`-th thing lies, and how many things of the block come before it.
fn find_block(parts: &[u64], blocks: &[u64], n: u64) -> (usize, u64)
    requires { AreBlocks blocks.now parts.now }
    ensures within { result.0 ≤ length blocks.now }
    ensures left { sum (take (BLOCK * result.0) parts.now) + result.1 ≡ n }
{
    let _ = parts;
    let mut j = 0;
    let mut left = n;
    while j < blocks.len() {
        if left < blocks[j] {
            return (j, left);
        }
        left -= blocks[j];
        j += 1;
    }
    (j, left)
}

/// The same from the number at `from` on, where `n` counts the things from there.
fn find_from(parts: &[u64], from: usize, n: u64) -> (usize, u64)
    requires from { from ≤ length parts.now }
    requires within { sum (take from parts.now) + n < sum parts.now }
    ensures { IsPart parts.now result.0 result.1 (sum (take from parts.now) + n) }
{
    let mut i = from;
    let mut left = n;
    while i < parts.len() {
        if left < parts[i] {
            return (i, left);
        }
        left -= parts[i];
        i += 1;
    }
    unreachable!()
}

/// The sum of the numbers before a place: those of whole blocks, then the rest.
fn sum_to(parts: &[u64], blocks: &[u64], i: usize) -> u64
    requires within { i ≤ length parts.now }
    requires low { sum parts.now < 2 ^ 64 }
    requires blocks { AreBlocks blocks.now parts.now }
    ensures { result ≡ sum (take i parts.now) }
{
    let mut total = sum_blocks(parts, blocks, i / BLOCK);
    for k in BLOCK * (i / BLOCK)..i {
        total += parts[k];
    }
    total
}

/// The sum of the first `j` blocks.
fn sum_blocks(parts: &[u64], blocks: &[u64], j: usize) -> u64
    requires within { j ≤ length blocks.now }
    requires low { sum parts.now < 2 ^ 64 }
    requires blocks { AreBlocks blocks.now parts.now }
    ensures { result ≡ sum (take (BLOCK * j) parts.now) }
{
    let _ = parts;
    let mut total = 0;
    for k in 0..j {
        total += blocks[k];
    }
    total
}

/// The sum of the numbers before a place.
fn sum_before(parts: &[u64], i: usize) -> u64
    requires within { i ≤ length parts.now }
    requires low { sum parts.now < 2 ^ 64 }
    ensures { result ≡ sum (take i parts.now) }
{
    let mut total = 0;
    for k in 0..i {
        total += parts[k];
    }
    total
}
