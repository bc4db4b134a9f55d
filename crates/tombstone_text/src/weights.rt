//! The columns of what the chunks of a text weigh.

ghost use Rattle.std.specs.Prelude.{◌≡◌, ◌+◌, ◌<◌, ◌≤◌, ◌^◌, [], length, insert, sum, slice_set, slice_index, OnOk};
ghost use Rattle.tombstone_text.specs.declared.measure.Measure.{Measure};
ghost use Rattle.tombstone_text.specs.Code.Weights.{Weighs, column_of, weighed};

use crate::measure::{Measure, Weight};
use crate::sums::Sums;
use op_name::Memory;
use std::alloc::Global;
use std::marker::Model;

/// For each measure a column of what each chunk weighs.
#[derive(Drop)]
pub(crate) struct Weights {
    bytes: Sums,
    units: Sums,
    lines: Sums,
}

impl Model for Weights {
    ghost use Rattle.std.specs.Prelude.{min};
    ghost use Rattle.tombstone_text.specs.Code.Weights.{WeightsData};

    ghost Value = { WeightsData };

    ghost view = { λ w. record {
      bytes = w.bytes.parts;
      units = w.units.parts;
      lines = w.lines.parts;
      spare = min w.bytes.spare (min w.units.spare w.lines.spare);
    } };
}

impl Weights {
    /// No chunks; takes no memory.
    pub(crate) fn new(alloc: Global) -> Weights
        ensures { (m : Measure) → column_of result m ≡ [] }
    {
        Weights {
            bytes: Sums::new(alloc),
            units: Sums::new(alloc),
            lines: Sums::new(alloc),
        }
    }

    /// The column of a measure.
    pub(crate) fn column(&self, m: Measure) -> &Sums
        ensures { result.now.parts ≡ column_of self.now m }
    {
        match m {
            Measure::Bytes => &self.bytes,
            Measure::Units => &self.units,
            Measure::Lines => &self.lines,
        }
    }

    /// What chunk `i` weighs.
    pub(crate) fn at(&self, i: usize) -> Weight
        requires { (m : Measure) → i < length (column_of self.now m) }
        ensures { Weighs result (λ m. slice_index (column_of self.now m) i) }
    {
        Weight {
            bytes: self.bytes.part(i),
            units: self.units.part(i),
            lines: self.lines.part(i),
        }
    }

    /// Makes room for one more chunk. The weights stay, also when out of memory.
    pub(crate) fn make_place(&mut self) -> Result<(), Memory>
        ensures bytes { self.new.bytes ≡ self.old.bytes }
        ensures units { self.new.units ≡ self.old.units }
        ensures lines { self.new.lines ≡ self.old.lines }
        ensures room { OnOk result (1 ≤ self.new.spare) }
    {
        self.bytes.reserve()?;
        self.units.reserve()?;
        self.lines.reserve()
    }

    /// Changes what chunk `i` weighs.
    pub(crate) fn change(&mut self, i: usize, weight: Weight)
        requires within { (m : Measure) → i < length (column_of self.old m) }
        requires low { (m : Measure) → sum (slice_set (column_of self.old m) i (weighed weight m)) < 2 ^ 64 }
        ensures parts { (m : Measure) → column_of self.new m ≡ slice_set (column_of self.old m) i (weighed weight m) }
        ensures room { self.new.spare ≡ self.old.spare }
    {
        self.bytes.set(i, weight.bytes);
        self.units.set(i, weight.units);
        self.lines.set(i, weight.lines);
    }

    /// Puts the weight of a chunk at a place, in the room that `make_place` made.
    pub(crate) fn add(&mut self, i: usize, weight: Weight)
        requires room { 1 ≤ self.old.spare }
        requires within { (m : Measure) → i ≤ length (column_of self.old m) }
        requires low { (m : Measure) → sum (column_of self.old m) + weighed weight m < 2 ^ 64 }
        ensures parts { (m : Measure) → column_of self.new m ≡ insert (column_of self.old m) i (weighed weight m) }
    {
        self.bytes.insert(i, weight.bytes);
        self.units.insert(i, weight.units);
        self.lines.insert(i, weight.lines);
    }
}
