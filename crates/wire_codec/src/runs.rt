//! Runs of undone names, lent as they lie in bytes.

ghost use Rattle.std.specs.Prelude.{◌≡◌, ◌+◌, ◌*◌, ◌<◌, ◌≤◌, ◌^◌, ◌++◌, [], length, IfOk, OnOk};
ghost use Rattle.std.specs.List.{flat_map};
ghost use Rattle.std.specs.Iterator.{YieldsFirst, item_count};
ghost use Rattle.op_name.specs.NameData.{IsName};
ghost use Rattle.op_name.specs.declared.name.TheConstants.{NUMBERS};
ghost use Rattle.context_vector.specs.Contexts.{entry_in};
ghost use Rattle.context_vector.specs.Vectors.{NamesBelow};
ghost use Rattle.wire_codec.specs.Runs.{run_of, further, names_in, last_name};
ghost use Rattle.wire_codec.specs.Judging.{run_len};
ghost use Rattle.wire_codec.specs.Code.Elements.{elements};
ghost use Rattle.wire_codec.specs.Code.Sections.{raw_name, raw_run};
ghost use Rattle.wire_codec.specs.Code.RunLists.{HasNames, AreRuns, holds};
ghost use Rattle.wire_codec.specs.declared.version.Version.TheVariants.{One, Two};
ghost use Rattle.wire_codec.specs.declared.listing.Listing.TheVariants.{LongRuns};

use crate::listing::Listing;
use context_vector::Vector;
use op_name::{Memory, Name};
use std::marker::Model;

/// The bytes of a name with its generation, as version 1 lists it.
pub(crate) const NAME_LEN: usize = 7;

/// The bytes of a run of version 2.
pub(crate) const RUN_LEN: usize = 10;

/// The bytes of a run of a state.
pub(crate) const LONG_RUN_LEN: usize = 12;

/// The bytes of a run.
pub(crate) fn run_len(listing: Listing) -> usize
    ensures { result ≡ run_len listing }
{
    match listing {
        Listing::Names => NAME_LEN,
        Listing::Runs => RUN_LEN,
        Listing::LongRuns => LONG_RUN_LEN,
    }
}

/// Names of one site whose numbers follow one another, undone at one generation.
#[derive(Clone, Copy)]
pub(crate) struct Run {
    pub(crate) first: Name,
    pub(crate) len: u32,
    pub(crate) generation: u16,
}

impl Model for Run {
    ghost use Rattle.wire_codec.specs.Runs.{RunData};

    ghost Value = { RunData };

    ghost use Rattle.wire_codec.specs.Code.RunLists.{HasNames};

    ghost view = { λ r. record { first = r.first; len = r.len; generation = r.generation } };

    ghost invariant = { λ r. HasNames (record { first = r.first; len = r.len; generation = r.generation }) };

    ghost inverse = { λ r. record { first = r.first; len = r.len; generation = r.generation } };
}

impl Run {
    pub(crate) fn new(first: Name, len: u32, generation: u16) -> Run
        requires some { 1 ≤ len }
        requires last { first.number + len ≤ NUMBERS + 1 }
        ensures { result ≡ run_of first len generation }
    {
        first.known();
        Run {
            first,
            len,
            generation,
        }
    }

    /// Nothing but what the type keeps.
    pub(crate) fn known(&self)
        ensures { HasNames self.now }
    {
        let _ = &self.len;
    }

    /// Its first name.
    pub(crate) fn first(&self) -> Name
        ensures { result ≡ self.now.first }
    {
        self.first
    }

    /// The site of its names.
    pub(crate) fn site(&self) -> u16
        ensures { result ≡ self.now.first.site }
    {
        self.first.site
    }

    /// The number of its last name.
    pub(crate) fn last_number(&self) -> u32
        ensures { result ≡ (last_name self.now).number }
    {
        self.known();
        self.first.number + (self.len - 1)
    }

    /// How many names it has.
    pub(crate) fn len(&self) -> u32
        ensures { result ≡ self.now.len }
    {
        self.len
    }

    /// The generation of its names.
    pub(crate) fn generation(&self) -> u16
        ensures { result ≡ self.now.generation }
    {
        self.generation
    }

    // The i-th name, from 0 on.
    fn name(&self, i: u32) -> Name
        requires { i < self.now.len }
        ensures { result ≡ further self.now.first i }
    {
        self.known();
        Name {
            site: self.first.site,
            number: self.first.number + i,
        }
    }

    // Whether the name is one of the run's.
    fn holds(&self, name: &Name) -> bool
        ensures { result ≡ holds self.now name.now }
    {
        self.known();
        self.first.site == name.site
            && (self.first.number <= name.number && name.number < self.first.number + self.len)
    }
}

// The name in its bytes, the site in one of them.
fn short_name(bytes: &[u8]) -> Name
    requires long { length bytes.now ≡ 5 }
    requires named { IsName (raw_name One bytes.now).site (raw_name One bytes.now).number }
    ensures { result ≡ raw_name One bytes.now }
{
    let (site, number) = bytes.split_at(1);
    Name {
        site: u16::from(site[0]),
        number: u32::from_be_bytes([number[0], number[1], number[2], number[3]]),
    }
}

// The same, the site in two.
fn long_name(bytes: &[u8]) -> Name
    requires long { length bytes.now ≡ 6 }
    requires named { IsName (raw_name Two bytes.now).site (raw_name Two bytes.now).number }
    ensures { result ≡ raw_name Two bytes.now }
{
    let (site, number) = bytes.split_at(2);
    Name {
        site: u16::from_be_bytes([site[0], site[1]]),
        number: u32::from_be_bytes([number[0], number[1], number[2], number[3]]),
    }
}

// The run in its bytes.
fn raw_run(listing: Listing, bytes: &[u8]) -> Run
    requires long { length bytes.now ≡ run_len listing }
    requires named { HasNames (raw_run listing bytes.now) }
    ensures { result ≡ raw_run listing bytes.now }
{
    match listing {
        Listing::Names => {
            let (name, generation) = bytes.split_at(5);
            Run {
                first: short_name(name),
                len: 1,
                generation: u16::from_be_bytes([generation[0], generation[1]]),
            }
        }
        Listing::Runs => {
            let (name, others) = bytes.split_at(6);
            let (len, generation) = others.split_at(2);
            Run {
                first: long_name(name),
                len: u32::from(u16::from_be_bytes([len[0], len[1]])),
                generation: u16::from_be_bytes([generation[0], generation[1]]),
            }
        }
        Listing::LongRuns => {
            let (name, others) = bytes.split_at(6);
            let (len, generation) = others.split_at(4);
            Run {
                first: long_name(name),
                len: u32::from_be_bytes([len[0], len[1], len[2], len[3]]),
                generation: u16::from_be_bytes([generation[0], generation[1]]),
            }
        }
    }
}

/// Runs of undone names, seen as the list of those that are left.
#[derive(Drop)]
pub(crate) struct Runs<'a> {
    listing: Listing,
    len: u32,
    bytes: &'a [u8],
}

impl<'a> Model for Runs<'a> {
    ghost use Rattle.std.specs.Prelude.{List, ◌*◌, ◌<◌, ◌^◌, ◌≤◌, length};
    ghost use Rattle.wire_codec.specs.Runs.{RunData};
    ghost use Rattle.wire_codec.specs.Judging.{run_len};
    ghost use Rattle.wire_codec.specs.Code.Elements.{elements};
    ghost use Rattle.wire_codec.specs.Code.Sections.{raw_run};
    ghost use Rattle.wire_codec.specs.Code.RunLists.{AreRuns};
    ghost use Rattle.wire_codec.specs.declared.listing.Listing.TheVariants.{LongRuns};

    ghost Value = { List RunData };

    ghost view = { λ r. elements (raw_run r.listing) (run_len r.listing) r.len r.bytes.now };

    ghost invariant = { λ r. (run_len r.listing * r.len ≤ length r.bytes.now)
        × (run_len LongRuns * r.len < 2 ^ 32)
        × AreRuns (elements (raw_run r.listing) (run_len r.listing) r.len r.bytes.now) };
}

impl<'a> Runs<'a> {
    pub(crate) fn new(listing: Listing, len: u32, bytes: &'a [u8]) -> Runs<'a>
        requires long { run_len listing * len ≤ length bytes.now }
        requires few { run_len LongRuns * len < 2 ^ 32 }
        requires are { AreRuns (elements (raw_run listing) (run_len listing) len bytes.now) }
        ensures { result ≡ elements (raw_run listing) (run_len listing) len bytes.now }
    {
        Runs {
            listing,
            len,
            bytes,
        }
    }

    /// The same list once more.
    pub(crate) fn again(&self) -> Runs<'a>
        ensures { result ≡ self.now }
    {
        Runs {
            listing: self.listing,
            len: self.len,
            bytes: self.bytes,
        }
    }

    /// Nothing but what the type keeps.
    pub(crate) fn known(&self)
        ensures { AreRuns self.now }
    {
        let _ = &self.bytes;
    }

    /// How many bytes so many runs have in a listing.
    #[tactic(auto, using(crate::proofs::Elements::length_elements))]
    pub(crate) fn size(&self, listing: Listing) -> u32
        ensures { result ≡ run_len listing * length self.now }
    {
        match listing {
            Listing::Names => NAME_LEN as u32 * self.len,
            Listing::Runs => RUN_LEN as u32 * self.len,
            Listing::LongRuns => LONG_RUN_LEN as u32 * self.len,
        }
    }
}

impl<'a> Iterator for Runs<'a> {
    type Item = Run;

    ghost next_gives = { YieldsFirst (λ rest. rest) };

    ghost remaining = { item_count (λ rest. rest) };

    #[tactic(auto, using(crate::proofs::Elements::elements_none, crate::proofs::Elements::elements_step))]
    fn next(&mut self) -> Option<Run> {
        if self.len == 0 {
            return None;
        }
        let (first, rest) = self.bytes.split_at(run_len(self.listing));
        self.len -= 1;
        self.bytes = rest;
        Some(raw_run(self.listing, first))
    }
}

/// The greatest generation that the runs have for the name, 0 if they have none.
pub(crate) fn generation_of(runs: &Runs, name: &Name) -> u16
    ensures { result ≡ entry_in (flat_map names_in runs.now) name.now }
{
    for run in runs.again() {
        if run.holds(name) {
            return run.generation();
        }
    }
    0
}

// The vector gains the names of the run, which come after those that it has.
fn push_run(vector: &mut Vector, run: &Run) -> Result<(), Memory>
    requires below { NamesBelow vector.old.set.entries run.now.first }
    requires some { 1 ≤ run.now.generation }
    ensures { OnOk result (vector.new.set ≡ record vector.old.set { entries = vector.old.set.entries ++ names_in run.now }) }
{
    for i in 0..run.len() {
        vector.push_entry(run.name(i), run.generation())?;
    }
    Ok(())
}

/// The vector, with the names of the runs.
pub(crate) fn with_entries(vector: Vector, runs: &Runs) -> Result<Vector, Memory>
    requires { vector.set.entries ≡ [] }
    ensures { IfOk result (λ v. v.set ≡ record vector.set { entries = flat_map names_in runs.now }) }
{
    let mut vector = vector;
    runs.known();
    for run in runs.again() {
        push_run(&mut vector, &run)?;
    }
    Ok(vector)
}
