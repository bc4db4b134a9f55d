//! The vector: its parts, what contracts see of it, and the calls that only read.

ghost use Rattle.std.specs.Prelude.{◌≡◌, ◌*◌, ◌≤◌, ◌↔◌, IsTrue, IsNone, IfOk, IfSome, length, slice_get};
ghost use Rattle.op_name.specs.Members.{IsMember};
ghost use Rattle.context_vector.specs.Contexts.{empty, count_of, entry_of, has, Within, rank_of, IsContext};
ghost use Rattle.context_vector.specs.Vectors.{IsFirstMissing};

use counting::{first_short_site, total};
use few::Few;
use lists::Lists;
use names::first_short_name;
use op_name::{Member, Memory, NUMBERS, Name, SITES};
use std::alloc::Global;
use std::marker::Model;

mod changes;
mod count;
mod counting;
mod counts;
mod element;
mod entry;
mod equality;
mod few;
mod follows;
mod generations;
mod kept;
mod lists;
mod marks;
mod names;
mod piece;
mod reader;
mod rising;
mod stored;
mod undone;
mod word;
mod word_reader;
mod words;

pub use count::Count;
pub use counting::SiteCounts;
pub use entry::Entry;
pub use names::Names;

/// A set of members, closed downwards: with an original all earlier ones of its site, with an undo group all
/// lower generations of its name (COT 2009 calls it a context).
///
/// It costs by the sites that wrote and by the undone names, not by the members.
#[derive(Debug, Drop)]
pub struct Vector {
    alloc: Global,
    /// Each site that has originals in the set with their number, sites rising; each undone name with its greatest generation in the
    /// set, names rising.
    lists: Lists,
}

impl Model for Vector {
    ghost use Rattle.context_vector.specs.Contexts.{IsContext};
    ghost use Rattle.context_vector.specs.Vectors.{VectorData};
    ghost use Rattle.context_vector.specs.Code.Sharing.{data_of};

    ghost Value = { VectorData };

    ghost view = { λ v. data_of v.lists };

    ghost invariant = { λ v. IsContext (data_of v.lists).set };
}

/// Why a member was not added. Nothing is changed then.
#[derive(Debug, Drop)]
pub enum AddBad {
    /// The member is not the next of its site or its name; `expected` is the number or the generation of
    /// the next.
    NotNext { expected: u32 },
    /// Out of memory.
    Memory,
}

impl From<Memory> for AddBad {
    ghost use Rattle.context_vector.specs.declared.vector.AddBad.TheVariants as refusals;

    ghost from_gives = { λ _ e. e ≡ refusals.Memory };

    fn from(_: Memory) -> AddBad {
        AddBad::Memory
    }
}

impl Vector {
    /// The empty set. It takes no memory.
    pub fn new(alloc: Global) -> Vector
        ensures { result.set ≡ empty }
    {
        Vector {
            alloc,
            lists: Lists::Few(Few::new()),
        }
    }

    /// The same set once more; shared lists aren't copied.
    pub fn try_clone(&self) -> Result<Vector, Memory>
        ensures { IfOk result (λ v. v.set ≡ self.now.set) }
    {
        Ok(Vector {
            alloc: self.alloc,
            lists: self.lists.try_clone(self.alloc)?,
        })
    }

    /// The same set once more, as `share` would leave it. For a copy that is kept as it is.
    pub fn kept(&self) -> Result<Vector, Memory>
        ensures { IfOk result (λ v. v.set ≡ self.now.set) }
    {
        Ok(Vector {
            alloc: self.alloc,
            lists: self.lists.kept(self.alloc)?,
        })
    }

    /// Lets copies share both lists, so that a copy costs a few words: where up to four sites wrote and nothing is undone, a set stands
    /// in the value itself. No member comes or goes. Out of memory, the set stays as it was. For a set that is kept as it is, as the
    /// context of an operation: the next change copies what it changes.
    pub fn share(&mut self)
        ensures { self.new.set ≡ self.old.set }
    {
        self.lists.share(self.alloc);
    }

    /// The same, and what the lists have in common with those like which `other` makes its copies is kept once; no member comes or goes.
    /// A set that shares its lists already stays as it is. Out of memory, the lists stay its own.
    pub fn share_with(&mut self, other: &Vector)
        ensures { self.new.set ≡ self.old.set }
    {
        self.lists.share_with(self.alloc, &other.lists);
    }

    /// Lets the next copies be made like the lists of `other`, so that what they have in common is kept once; no member comes or goes,
    /// and no memory is taken. For a set of which copies are kept while it grows.
    pub fn remember(&mut self, other: &Vector)
        ensures set { self.new.set ≡ self.old.set }
        ensures room { self.new.room ≡ self.old.room }
    {
        self.lists.remember(&other.lists);
    }

    /// Nothing but what the type keeps: sites and names rise, and all numbers are in range.
    pub fn known(&self)
        ensures { IsContext self.now.set }
    {
        let _ = &self.lists;
    }

    /// How many originals of the site the set has: these are its first ones.
    pub fn count(&self, site: u16) -> u32
        ensures count { result ≡ count_of self.now.set site }
        ensures range { result ≤ NUMBERS }
    {
        self.known();
        self.lists.count(site)
    }

    /// The greatest generation at which the set has an undo group of the name, 0 if it has none.
    pub fn entry(&self, name: &Name) -> u16
        ensures { result ≡ entry_of self.now.set name.now }
    {
        self.known();
        self.lists.entry(name)
    }

    /// Whether the member is in the set.
    pub fn contains(&self, m: &Member) -> bool
        ensures { result ≡ has self.now.set m.now }
    {
        match m {
            Member::Original(name) => {
                name.known();
                name.number <= self.count(name.site)
            }
            Member::Group(name, generation) => {
                1 <= *generation && *generation <= self.entry(name)
            }
        }
    }

    /// Whether each member of `other` is in this set.
    pub fn covers(&self, other: &Vector) -> bool
        ensures { IsTrue result ↔ Within other.now.set self.now.set }
    {
        self.first_missing(other).is_none()
    }

    /// The first member of `other` that this set lacks, in the order of members: originals by site and
    /// number, then groups by name and generation. None exactly where this set covers `other`.
    pub fn first_missing(&self, other: &Vector) -> Option<Member>
        ensures first { IfSome result (IsFirstMissing self.now.set other.now.set) }
        ensures none { IsNone result ↔ Within other.now.set self.now.set }
        ensures range { IfSome result IsMember }
    {
        self.known();
        other.known();
        let original = first_short_site(self.lists.counts(), other.lists.counts());
        if let Some((site, number)) = original {
            return Some(Member::Original(Name { site, number }));
        }
        if self.lists.has_same_names(&other.lists) {
            return None;
        }
        let group = first_short_name(self.lists.names(), other.lists.names());
        if let Some(group) = group {
            return Some(Member::Group(group.0, group.1));
        }
        None
    }

    /// The number of originals in the set.
    pub fn rank(&self) -> u32
        ensures rank { result ≡ rank_of self.now.set }
        ensures range { result ≤ SITES * NUMBERS }
    {
        self.known();
        total(self.lists.counts())
    }

    /// The number of undone names.
    pub fn entries(&self) -> u32
        ensures entries { result ≡ length self.now.set.entries }
        ensures range { result ≤ SITES * NUMBERS }
    {
        self.lists.names_len() as u32
    }

    /// The i-th undone name, in the order of names, with its greatest generation; None exactly past the end. It reads all names before it:
    /// whoever wants them all takes `names_read`.
    pub fn entry_at(&self, i: u32) -> Option<(Name, u16)>
        ensures { result ≡ slice_get self.now.set.entries i }
    {
        let mut left = self.names_read();
        let mut passed = 0;
        while passed < i {
            let _ = left.next()?;
            passed += 1;
        }
        left.next()
    }

    /// The undone names with their greatest generations, to be read in the order of names.
    pub fn names_read(&self) -> Names<'_>
        ensures { result ≡ self.now.set.entries }
    {
        self.lists.names()
    }

    /// Whether both sets have the same undone names with the same generations.
    pub fn undoes_same(&self, other: &Vector) -> bool
        ensures { IsTrue result ↔ (self.now.set.entries ≡ other.now.set.entries) }
    {
        self.lists.has_same_names(&other.lists)
    }

    /// The number of sites that have originals in the set.
    pub fn sites(&self) -> u32
        ensures sites { result ≡ length self.now.set.counts }
        ensures range { result ≤ SITES }
    {
        self.known();
        counting::sites(self.lists.counts())
    }

    /// The i-th site, rising, with the number of its originals in the set, at least 1; None exactly past
    /// the end.
    pub fn site_at(&self, i: u32) -> Option<(u16, u32)>
        ensures { result ≡ slice_get self.now.set.counts i }
    {
        Some(self.lists.counts().at(i as usize)?.pair())
    }

    /// Each site that has originals in the set with their number, to be read with sites rising.
    pub fn sites_read(&self) -> SiteCounts<'_>
        ensures { result ≡ self.now.set.counts }
    {
        SiteCounts::new(self.lists.counts())
    }

    /// A copy of the list of sites that have originals in the set, each with their number, sites rising.
    pub fn listed(&self) -> Result<Vec<Count>, Memory>
        ensures { IfOk result (λ v. v.items ≡ self.now.set.counts) }
    {
        self.lists.counts().to_vec(self.alloc)
    }

    /// A copy of the list of undone names, each with its greatest generation, in the order of names.
    pub fn named(&self) -> Result<Vec<Entry>, Memory>
        ensures { IfOk result (λ v. v.items ≡ self.now.set.entries) }
    {
        self.lists.names().to_vec(self.alloc)
    }
}
