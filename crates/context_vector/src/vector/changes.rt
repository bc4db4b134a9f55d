//! The calls that change a vector.

ghost use Rattle.std.specs.Prelude.{◌≡◌, ◌∷◌, [], ◌++◌, ◌<◌, ◌≤◌, ◌||◌, ◌&&◌, not, true, false, OnOk, OnErr, IfErr};
ghost use Rattle.op_name.specs.declared.member.Member.{Member};
ghost use Rattle.op_name.specs.Members.{IsMember, member_eq};
ghost use Rattle.context_vector.specs.Contexts.{has, raised, Within, IsNextMember, AreCounts, AreEntries};
ghost use Rattle.context_vector.specs.Vectors.{HasRoomFor, IsLastMember, lowered, up_to, SitesBelow, NamesBelow};
ghost use Rattle.context_vector.specs.Code.Lists.{of_counts, of_entries};
ghost use Rattle.context_vector.specs.AddBad.{IsCause};

use super::count::Count;
use super::counting::SiteCounts;
use super::names::Names;
use super::{AddBad, Vector};
use op_name::{Member, Memory, NUMBERS, Name, SITES};

impl Vector {
    /// Adds the member, which has to be the next of its site or its name. A refusal changes nothing.
    pub fn add(&mut self, m: &Member) -> Result<(), AddBad>
        requires { IsMember m.now }
        ensures next { OnOk result (IsNextMember self.old.set m.now) }
        ensures added { OnOk result (self.new.set ≡ raised self.old.set m.now) }
        ensures members { OnOk result ((y : Member) → has self.new.set y ≡ (has self.old.set y || member_eq m.now y)) }
        ensures cause { IfErr result (IsCause self.old.set m.now) }
        ensures kept { OnErr result (self.new.set ≡ self.old.set) }
    {
        let (given, expected) = match m {
            Member::Original(name) => (name.number, self.count(name.site) + 1),
            Member::Group(name, generation) => (
                u32::from(*generation),
                u32::from(self.entry(name)) + 1,
            ),
        };
        if given != expected {
            return Err(AddBad::NotNext { expected });
        }
        self.reserve(m)?;
        self.put(m);
        Ok(())
    }

    /// Makes room in which the member can be added without memory, in lists that may be changed in place; no member comes or goes.
    pub fn reserve(&mut self, m: &Member) -> Result<(), Memory>
        ensures same { self.new.set ≡ self.old.set }
        ensures room { OnOk result (HasRoomFor self.new m.now) }
        ensures own { OnOk result (self.new.room.own ≡ true) }
        ensures stays { self.old.room.own ≡ true → self.new.room.own ≡ true }
        ensures memory { OnErr result (¬ HasRoomFor self.old m.now) }
    {
        self.known();
        self.lists.reserve(self.alloc, m)
    }

    /// Adds the member, the next of its site or its name, in the room that was made for it. It takes no
    /// memory, and the member can be taken out again.
    pub fn add_reserved(&mut self, m: &Member)
        requires member { IsMember m.now }
        requires next { IsNextMember self.old.set m.now }
        requires room { HasRoomFor self.old m.now }
        ensures added { self.new.set ≡ raised self.old.set m.now }
        ensures members { (y : Member) → has self.new.set y ≡ (has self.old.set y || member_eq m.now y) }
        ensures own { self.new.room.own ≡ true }
    {
        self.put(m);
    }

    /// Adds the member and all below it. Out of memory, nothing changes.
    pub fn raise(&mut self, m: &Member) -> Result<(), Memory>
        requires { IsMember m.now }
        ensures raised { OnOk result ((y : Member) → has self.new.set y ≡ (has self.old.set y || up_to y m.now)) }
        ensures memory { OnErr result (has self.old.set m.now ≡ false) }
        ensures kept { OnErr result (self.new.set ≡ self.old.set) }
    {
        let _ = m.target();
        if self.contains(m) {
            return Ok(());
        }
        self.reserve(m)?;
        self.put(m);
        Ok(())
    }

    /// Takes the member out, the last of its site or its name, of lists that may be changed in place, as `reserve` and `add_reserved` leave
    /// them. It takes no memory.
    pub fn drop_last(&mut self, m: &Member)
        requires member { IsMember m.now }
        requires last { IsLastMember self.old.set m.now }
        requires own { self.old.room.own ≡ true }
        ensures set { self.new.set ≡ lowered self.old.set m.now }
        ensures own { self.new.room.own ≡ true }
        ensures members { (y : Member) → has self.new.set y ≡ (has self.old.set y && not (member_eq m.now y)) }
    {
        self.known();
        let _ = m.target();
        self.lower(m);
    }

    /// Adds all members of `other`. Out of memory, nothing changes.
    pub fn join(&mut self, other: &Vector) -> Result<(), Memory>
        ensures joined { OnOk result ((y : Member) → has self.new.set y ≡ (has self.old.set y || has other.now.set y)) }
        ensures memory { OnErr result (¬ Within other.now.set self.old.set) }
        ensures kept { OnErr result (self.new.set ≡ self.old.set) }
    {
        if self.covers(other) {
            return Ok(());
        }
        other.known();
        let mut union = self.try_clone()?;
        union.raise_sites(other.sites_read())?;
        union.raise_names(other.names_read())?;
        *self = union;
        Ok(())
    }

    /// Appends a site with its count to a vector that is being read in the order of sites. Out of memory, nothing changes.
    pub fn push_count(&mut self, site: u16, count: u32) -> Result<(), Memory>
        requires last { SitesBelow self.old.set.counts site }
        requires site { site < SITES }
        requires least { 1 ≤ count }
        requires greatest { count ≤ NUMBERS }
        ensures pushed { OnOk result (self.new.set ≡ record self.old.set { counts = self.old.set.counts ++ (site, count) ∷ [] }) }
        ensures kept { OnErr result (self.new.set ≡ self.old.set) }
    {
        self.lists.push_count(self.alloc, Count::new(site, count))
    }

    /// Appends an undone name with its greatest generation to a vector that is being read in the order of
    /// names. Out of memory, nothing changes.
    pub fn push_entry(&mut self, name: Name, generation: u16) -> Result<(), Memory>
        requires last { NamesBelow self.old.set.entries name }
        requires least { 1 ≤ generation }
        ensures pushed { OnOk result (self.new.set ≡ record self.old.set { entries = self.old.set.entries ++ (name, generation) ∷ [] }) }
        ensures kept { OnErr result (self.new.set ≡ self.old.set) }
    {
        name.known();
        self.known();
        self.lists.push_entry(self.alloc, name, generation)
    }

    // Adds all originals that the counts tell.
    fn raise_sites(&mut self, counts: SiteCounts<'_>) -> Result<(), Memory>
        requires { AreCounts 0 counts }
        ensures { OnOk result ((y : Member) → has self.new.set y ≡ (has self.old.set y || has (of_counts counts.entry) y)) }
    {
        let mut left = counts;
        while let Some((site, number)) = left.next() {
            self.raise(&Member::Original(Name { site, number }))?;
        }
        Ok(())
    }

    // Adds all groups that the names tell.
    fn raise_names(&mut self, names: Names<'_>) -> Result<(), Memory>
        requires { AreEntries names }
        ensures { OnOk result ((y : Member) → has self.new.set y ≡ (has self.old.set y || has (of_entries names.entry) y)) }
    {
        let mut left = names;
        while let Some((name, generation)) = left.next() {
            self.raise(&Member::Group(name, generation))?;
        }
        Ok(())
    }

    // Makes the member the last of its site or its name.
    fn put(&mut self, m: &Member)
        requires member { IsMember m.now }
        requires room { HasRoomFor self.old m.now }
        ensures added { self.new.set ≡ raised self.old.set m.now }
        ensures own { self.new.room.own ≡ true }
    {
        match m {
            Member::Original(name) => {
                name.known();
                self.lists.put_original(name);
            }
            Member::Group(name, generation) => {
                name.known();
                self.lists.put_group(name, *generation);
            }
        }
    }

    // Makes the member below this one the last of its site or its name.
    fn lower(&mut self, m: &Member)
        requires member { IsMember m.now }
        requires last { IsLastMember self.old.set m.now }
        requires own { self.old.room.own ≡ true }
        ensures lowered { self.new.set ≡ lowered self.old.set m.now }
        ensures own { self.new.room.own ≡ true }
    {
        match m {
            Member::Original(name) => {
                name.known();
                self.lists.lower_original(name);
            }
            Member::Group(name, generation) => {
                name.known();
                self.lists.lower_group(name, *generation);
            }
        }
    }
}
