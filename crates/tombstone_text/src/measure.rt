//! What characters weigh, as editors count positions.

ghost use Rattle.std.specs.Prelude.{◌≡◌, ◌+◌, ◌-◌, ◌<◌, ◌≤◌, ◌^◌, length, slice_index};
ghost use Rattle.tombstone_text.specs.Measures.{weight, weight_of};
ghost use Rattle.tombstone_text.specs.Code.Weights.{Weighs, counted, weighed, weight_flagged};
ghost use Rattle.tombstone_text.specs.declared.chunk.TheConstants.{FULL};
ghost use Rattle.tombstone_text.specs.declared.measure.Measure.{Measure};
ghost use Rattle.tombstone_text.specs.declared.measure.Measure.TheVariants.{Units, Lines};

use crate::chunk::FULL;

/// What editors count positions in.
#[derive(Clone, Copy, Debug, PartialEq, Eq)]
pub enum Measure {
    /// Bytes of UTF-8: a character has 1 to 4.
    Bytes,
    /// Units of UTF-16: a character has 1, and 2 from U+10000 on.
    Units,
    /// Line feeds: a line feed is 1, any other character 0.
    Lines,
}

/// What some characters weigh by each measure.
#[derive(Clone, Copy, Drop)]
pub(crate) struct Weight {
    pub(crate) bytes: u64,
    pub(crate) units: u64,
    pub(crate) lines: u64,
}

impl Weight {
    /// What no character weighs.
    fn none() -> Weight
        ensures { Weighs result (λ m. 0) }
    {
        Weight {
            bytes: 0,
            units: 0,
            lines: 0,
        }
    }

    /// What a character weighs.
    pub(crate) fn of(c: char) -> Weight
        ensures { Weighs result (λ m. weight m c) }
    {
        Weight {
            bytes: c.len_utf8() as u64,
            units: units_of(c),
            lines: lines_of(c),
        }
    }

    /// Both together.
    pub(crate) fn plus(self, other: Weight) -> Weight
        requires bytes { self.bytes + other.bytes < 2 ^ 64 }
        requires units { self.units + other.units < 2 ^ 64 }
        requires lines { self.lines + other.lines < 2 ^ 64 }
        ensures { Weighs result (λ m. weighed self m + weighed other m) }
    {
        Weight {
            bytes: self.bytes + other.bytes,
            units: self.units + other.units,
            lines: self.lines + other.lines,
        }
    }

    /// Without the other.
    fn minus(self, other: Weight) -> Weight
        requires bytes { other.bytes ≤ self.bytes }
        requires units { other.units ≤ self.units }
        requires lines { other.lines ≤ self.lines }
        ensures { Weighs result (λ m. weighed self m - weighed other m) }
    {
        Weight {
            bytes: self.bytes - other.bytes,
            units: self.units - other.units,
            lines: self.lines - other.lines,
        }
    }
}

/// The units of a character in UTF-16.
fn units_of(c: char) -> u64
    ensures { result ≡ weight Units c }
{
    if (c as u32) < 0x1_0000 { 1 } else { 2 }
}

/// 1 for a line feed, 0 for any other character.
fn lines_of(c: char) -> u64
    ensures { result ≡ weight Lines c }
{
    if c == '\n' { 1 } else { 0 }
}

/// What a character weighs if its flag is 1; nothing if it isn't.
fn weigh_one(flag: u8, c: char) -> Weight
    ensures { Weighs result (λ m. counted flag (weight m c)) }
{
    if flag == 1 {
        Weight::of(c)
    } else {
        Weight::none()
    }
}

/// The flag at a place of a column.
fn flag_in(flags: &[u8], k: usize) -> u8
    requires { k < length flags.now }
    ensures { result ≡ slice_index flags.now k }
{
    flags[k]
}

/// What a text weighs.
pub(crate) fn weigh(text: &[char]) -> Weight
    requires { length text.now ≤ FULL }
    ensures { Weighs result (λ m. weight_of m text.now) }
{
    let mut total = Weight::none();
    for k in 0..text.len() {
        total = total.plus(Weight::of(text[k]));
    }
    total
}

/// What the characters weigh whose flags are 1.
pub(crate) fn weigh_shown(flags: &[u8], text: &[char]) -> Weight
    requires beside { length flags.now ≡ length text.now }
    requires most { length text.now ≤ FULL }
    ensures { Weighs result (λ m. weight_flagged m flags.now text.now) }
{
    let mut total = Weight::none();
    for k in 0..text.len() {
        total = total.plus(weigh_one(flag_in(flags, k), text[k]));
    }
    total
}

/// The weight of a chunk once the flag of one of its characters, which weighs `one`, is another: 1 for a shown one.
pub(crate) fn turned(all: Weight, one: Weight, before: u32, after: u32) -> Weight
    requires least { (m : Measure) → counted before (weighed one m) ≤ weighed all m }
    requires most { (m : Measure) → weighed all m + weighed one m < 2 ^ 64 }
    ensures { (m : Measure) → weighed result m + counted before (weighed one m) ≡ weighed all m + counted after (weighed one m) }
{
    if before == 1 {
        if after == 1 { all } else { all.minus(one) }
    } else if after == 1 {
        all.plus(one)
    } else {
        all
    }
}
