//! The lists of a vector: a few counts in the value itself, lists of its own, or lists that other vectors have too.

ghost use Rattle.std.specs.Prelude.{◌≡◌, ◌≤◌, ◌<◌, ◌*◌, ◌++◌, ◌∷◌, ◌↔◌, [], true, length, vec_len, vec_capacity, IfOk, IfSome, IsTrue, OnOk, OnErr};
ghost use lib.Pointwise.{pointwise};
ghost use Rattle.std.specs.Rc.{rc_value};
ghost use Rattle.op_name.specs.declared.member.Member.TheVariants.{Original, Group};
ghost use Rattle.context_vector.specs.Contexts.{count_in, entry_in, raised, AreCounts, IsContext};
ghost use Rattle.context_vector.specs.Equality.{count_eq, entry_eq};
ghost use Rattle.context_vector.specs.Marks.{counts_mark, mark_of};
ghost use Rattle.context_vector.specs.Vectors.{lowered, HasRoomFor, IsLastMember, NamesBelow};
ghost use Rattle.context_vector.specs.Code.Readers.{left_of};
ghost use Rattle.context_vector.specs.Code.Undone.{kept_of};
ghost use Rattle.context_vector.specs.Code.Sharing.{data_of};

use super::count::Count;
use super::counting::{count_of, mark_of_counts};
use super::counts::{grown, lower_site, put_site};
use super::few::Few;
use super::kept::{Kept, kept_like};
use super::names::Names;
use super::reader::{Reader, are_same};
use super::rising::count_among;
use super::stored::Stored;
use super::undone::Undone;
use op_name::{Member, Memory, NUMBERS, Name, SITES};
use std::alloc::Global;
use std::rc::Rc;

/// The counts and the undone names of a vector.
#[derive(Debug, Drop)]
pub enum Lists {
    /// Few counts and no undone names, and no memory. These stay as they are, but for a count after the last.
    Few(Few),
    /// No other vector has these lists, so they may be changed in place.
    Own(Box<OwnLists>),
    /// Other vectors may have these lists too, so they stay as they are.
    Shared(Rc<SharedLists>),
}

/// Lists that may be changed in place.
#[derive(Debug, Drop)]
pub struct OwnLists {
    pub counts: Vec<Count>,
    pub undone: Undone,
    /// Lists that were kept before, from which a copy takes what it has in common with them. Whichever they are, the copy is the same.
    pub like: Option<Rc<SharedLists>>,
}

/// Lists that stay as they are.
#[derive(Debug, Drop)]
pub struct SharedLists {
    pub counts: Stored<Count>,
    /// None where nothing is undone.
    pub undone: Option<Rc<Kept>>,
}

impl Lists {
    /// A reader of the counts.
    pub fn counts(&self) -> Reader<'_, Count>
        ensures { left_of result ≡ (data_of self.now).set.counts }
    {
        match self {
            Lists::Few(counts) => Reader::of(counts.as_slice()),
            Lists::Own(lists) => Reader::of(lists.counts.as_slice()),
            Lists::Shared(lists) => lists.as_ref().counts.reader(),
        }
    }

    /// How many originals of the site there are.
    pub fn count(&self, site: u16) -> u32
        requires { AreCounts 0 (data_of self.now).set.counts }
        ensures count { result ≡ count_in (data_of self.now).set.counts site }
        ensures range { result ≤ NUMBERS }
    {
        match self {
            Lists::Few(counts) => count_among(counts.as_slice(), site),
            Lists::Own(lists) => count_among(lists.counts.as_slice(), site),
            Lists::Shared(lists) => count_of(lists.as_ref().counts.reader(), site),
        }
    }

    /// A reader of the undone names.
    pub fn names(&self) -> Names<'_>
        ensures { result ≡ (data_of self.now).set.entries }
    {
        match self {
            Lists::Few(_) => Names::empty(),
            Lists::Own(lists) => lists.undone.names(),
            Lists::Shared(lists) => lists.as_ref().names(),
        }
    }

    /// The mark of the counts: equal lists have equal marks.
    pub fn counts_mark(&self) -> u64
        ensures { result ≡ counts_mark 0 (data_of self.now).set.counts }
    {
        mark_of_counts(self.counts())
    }

    /// The mark of the undone names: equal lists have equal marks.
    pub fn names_mark(&self) -> u64
        ensures { result ≡ mark_of (data_of self.now).set.entries }
    {
        match self {
            Lists::Few(_) => 0,
            Lists::Own(lists) => lists.undone.mark(),
            Lists::Shared(lists) => lists.as_ref().names_mark(),
        }
    }

    /// The number of undone names.
    pub fn names_len(&self) -> usize
        ensures len { result ≡ length (data_of self.now).set.entries }
        ensures range { result ≤ SITES * NUMBERS }
    {
        match self {
            Lists::Few(_) => 0,
            Lists::Own(lists) => lists.undone.len(),
            Lists::Shared(lists) => lists.as_ref().names_len(),
        }
    }

    /// The greatest generation of the name, 0 if it isn't undone.
    pub fn entry(&self, name: &Name) -> u16
        ensures { result ≡ entry_in (data_of self.now).set.entries name.now }
    {
        match self {
            Lists::Few(_) => 0,
            Lists::Own(lists) => lists.undone.entry(name),
            Lists::Shared(lists) => lists.as_ref().entry(name),
        }
    }

    /// Whether both have the same counts.
    pub fn has_same_counts(&self, other: &Lists) -> bool
        ensures { result ≡ pointwise count_eq (data_of self.now).set.counts (data_of other.now).set.counts }
    {
        are_same(self.counts(), other.counts())
    }

    /// Whether both have the same undone names with the same generations: lists that differ are mostly told apart by their marks.
    pub fn has_same_names(&self, other: &Lists) -> bool
        ensures { result ≡ pointwise entry_eq (data_of self.now).set.entries (data_of other.now).set.entries }
    {
        if self.names_mark() != other.names_mark() {
            return false;
        }
        self.names().is_same(other.names())
    }

    /// The same lists once more. Shared ones aren't copied.
    pub fn try_clone(&self, alloc: Global) -> Result<Lists, Memory>
        ensures { IfOk result (λ l. (data_of l).set ≡ (data_of self.now).set) }
    {
        match self {
            Lists::Few(counts) => Ok(Lists::Few(counts.copy())),
            Lists::Own(lists) => lists.copied(alloc),
            Lists::Shared(lists) => Ok(Lists::Shared(lists.clone()?)),
        }
    }

    /// The same lists, as copies can share them.
    pub fn kept(&self, alloc: Global) -> Result<Lists, Memory>
        ensures { IfOk result (λ l. (data_of l).set ≡ (data_of self.now).set) }
    {
        match self {
            Lists::Few(counts) => Ok(Lists::Few(counts.copy())),
            Lists::Own(lists) => lists.kept(alloc, lists.like.as_ref()),
            Lists::Shared(lists) => Ok(Lists::Shared(lists.clone()?)),
        }
    }

    /// Lets copies share lists that were the vector's own; no member comes or goes. Out of memory, they stay its own.
    pub fn share(&mut self, alloc: Global)
        ensures { (data_of self.new).set ≡ (data_of self.old).set }
    {
        if let Lists::Own(lists) = self {
            if let Ok(kept) = lists.kept(alloc, lists.like.as_ref()) {
                *self = kept;
            }
        }
    }

    /// The same, with what these lists have in common with those that `other` kept last.
    pub fn share_with(&mut self, alloc: Global, other: &Lists)
        ensures { (data_of self.new).set ≡ (data_of self.old).set }
    {
        if let Lists::Own(lists) = self {
            if let Ok(kept) = lists.kept(alloc, other.last_kept()) {
                *self = kept;
            }
        }
    }

    // The lists that were kept last, if there are any.
    fn last_kept(&self) -> Option<&Rc<SharedLists>> {
        match self {
            Lists::Few(_) => None,
            Lists::Own(lists) => lists.like.as_ref(),
            Lists::Shared(lists) => Some(lists),
        }
    }

    /// Lets the next copies of lists that are the vector's own be made like those of `other`; no member comes or goes.
    pub fn remember(&mut self, other: &Lists)
        ensures { data_of self.new ≡ data_of self.old }
    {
        if let Lists::Own(lists) = self {
            if let Some(like) = other.last_kept() {
                if let Ok(like) = like.clone() {
                    lists.like = Some(like);
                }
            }
        }
    }

    // Whether the lists may be changed in place.
    fn is_own(&self) -> bool
        ensures { result ≡ (data_of self.now).room.own }
    {
        matches!(self, Lists::Own(_))
    }

    // Whether the original can be added without memory.
    fn has_room_for(&self, name: &Name) -> bool
        requires { AreCounts 0 (data_of self.now).set.counts }
        ensures { IsTrue result ↔ HasRoomFor (data_of self.now) (Original name.now) }
    {
        match self {
            Lists::Own(lists) => {
                lists.counts.len() < lists.counts.capacity()
                    || count_among(lists.counts.as_slice(), name.site) != 0
            }
            Lists::Few(_) | Lists::Shared(_) => false,
        }
    }

    /// Makes room in which the member can be added without memory; no member comes or goes.
    pub fn reserve(&mut self, alloc: Global, m: &Member) -> Result<(), Memory>
        requires { IsContext (data_of self.old).set }
        ensures same { (data_of self.new).set ≡ (data_of self.old).set }
        ensures room { OnOk result (HasRoomFor (data_of self.new) m.now) }
        ensures own { OnOk result ((data_of self.new).room.own ≡ true) }
        ensures stays { (data_of self.old).room.own ≡ true → (data_of self.new).room.own ≡ true }
        ensures memory { OnErr result (¬ HasRoomFor (data_of self.old) m.now) }
    {
        match m {
            Member::Original(name) => {
                if self.has_room_for(name) {
                    return Ok(());
                }
                self.grow(alloc)
            }
            Member::Group(name, generation) => {
                self.own(alloc)?;
                match self {
                    Lists::Own(lists) => lists.reserve_name(name, *generation),
                    _ => unreachable!(),
                }
            }
        }
    }

    // Makes the lists the vector's own.
    fn own(&mut self, alloc: Global) -> Result<(), Memory>
        ensures same { (data_of self.new).set ≡ (data_of self.old).set }
        ensures own { OnOk result ((data_of self.new).room.own ≡ true) }
        ensures room { (data_of self.old).room.own ≡ true → self.new ≡ self.old }
        ensures memory { OnErr result (¬ ((data_of self.old).room.own ≡ true)) }
    {
        if self.is_own() {
            return Ok(());
        }
        let own = self.opened(alloc)?;
        *self = Lists::Own(own);
        Ok(())
    }

    // Makes the lists the vector's own, with a spare place for a count.
    fn grow(&mut self, alloc: Global) -> Result<(), Memory>
        ensures same { (data_of self.new).set ≡ (data_of self.old).set }
        ensures room { OnOk result (((data_of self.new).room.own ≡ true) × (1 ≤ (data_of self.new).room.counts)) }
        ensures stays { (data_of self.old).room.own ≡ true → (data_of self.new).room.own ≡ true }
    {
        if let Lists::Own(lists) = self {
            lists.counts.reserve(1)?;
            return Ok(());
        }
        let own = self.opened(alloc)?;
        *self = Lists::Own(own);
        Ok(())
    }

    // A copy of the lists that may be changed in place, with a spare place for a count.
    fn opened(&self, alloc: Global) -> Result<Box<OwnLists>, Memory>
        ensures counts { IfOk result (λ l. l.value.counts.items ≡ (data_of self.now).set.counts) }
        ensures entries { IfOk result (λ l. l.value.undone.items ≡ (data_of self.now).set.entries) }
        ensures spare { IfOk result (λ l. vec_len l.value.counts < vec_capacity l.value.counts) }
    {
        let own = match self {
            Lists::Few(counts) => OwnLists {
                counts: grown(alloc, counts.as_slice())?,
                undone: Undone::new(alloc),
                like: None,
            },
            Lists::Own(lists) => OwnLists {
                counts: grown(alloc, lists.counts.as_slice())?,
                undone: lists.undone.copied(alloc)?,
                like: None,
            },
            Lists::Shared(lists) => OwnLists {
                counts: lists.as_ref().counts.to_vec(alloc)?,
                undone: lists.as_ref().opened_names(alloc)?,
                like: Some(lists.clone()?),
            },
        };
        Ok(Box::new(alloc, own)?)
    }

    /// Makes the original the last of its site, in the room that was made for it.
    pub fn put_original(&mut self, name: &Name)
        requires context { IsContext (data_of self.old).set }
        requires room { HasRoomFor (data_of self.old) (Original name.now) }
        ensures added { (data_of self.new).set ≡ raised (data_of self.old).set (Original name.now) }
        ensures own { (data_of self.new).room.own ≡ true }
    {
        name.known();
        match self {
            Lists::Own(lists) => put_site(&mut lists.counts, name.site, name.number),
            _ => unreachable!(),
        }
    }

    /// Makes the group the last of its name, in the room that was made for it.
    pub fn put_group(&mut self, name: &Name, generation: u16)
        requires least { 1 ≤ generation }
        requires room { HasRoomFor (data_of self.old) (Group name.now generation) }
        ensures added { (data_of self.new).set ≡ raised (data_of self.old).set (Group name.now generation) }
        ensures own { (data_of self.new).room.own ≡ true }
    {
        match self {
            Lists::Own(lists) => lists.undone.set(name, generation),
            _ => unreachable!(),
        }
    }

    /// Takes the original out, the last of its site, from lists that may be changed in place.
    pub fn lower_original(&mut self, name: &Name)
        requires context { IsContext (data_of self.old).set }
        requires last { IsLastMember (data_of self.old).set (Original name.now) }
        requires own { (data_of self.old).room.own ≡ true }
        ensures lowered { (data_of self.new).set ≡ lowered (data_of self.old).set (Original name.now) }
        ensures own { (data_of self.new).room.own ≡ true }
    {
        name.known();
        match self {
            Lists::Own(lists) => lower_site(&mut lists.counts, name.site, name.number),
            _ => unreachable!(),
        }
    }

    /// Takes the group out, the last of its name, from lists that may be changed in place.
    pub fn lower_group(&mut self, name: &Name, generation: u16)
        requires least { 1 ≤ generation }
        requires last { IsLastMember (data_of self.old).set (Group name.now generation) }
        requires own { (data_of self.old).room.own ≡ true }
        ensures lowered { (data_of self.new).set ≡ lowered (data_of self.old).set (Group name.now generation) }
        ensures own { (data_of self.new).room.own ≡ true }
    {
        match self {
            Lists::Own(lists) => lists.undone.set(name, generation - 1),
            _ => unreachable!(),
        }
    }

    /// Appends a count. Out of memory, no member comes or goes.
    pub fn push_count(&mut self, alloc: Global, count: Count) -> Result<(), Memory>
        ensures pushed { OnOk result ((data_of self.new).set
            ≡ record (data_of self.old).set { counts = (data_of self.old).set.counts ++ count ∷ [] }) }
        ensures kept { OnErr result ((data_of self.new).set ≡ (data_of self.old).set) }
    {
        if let Lists::Few(counts) = self {
            if !counts.is_full() {
                counts.push(count);
                return Ok(());
            }
        }
        self.grow(alloc)?;
        match self {
            Lists::Own(lists) => lists.counts.push_reserved(count),
            _ => unreachable!(),
        }
        Ok(())
    }

    /// Appends an undone name with its greatest generation, after all others. Out of memory, no member comes or goes.
    pub fn push_entry(&mut self, alloc: Global, name: Name, generation: u16) -> Result<(), Memory>
        requires last { NamesBelow (data_of self.old).set.entries name }
        requires least { 1 ≤ generation }
        ensures pushed { OnOk result ((data_of self.new).set
            ≡ record (data_of self.old).set { entries = (data_of self.old).set.entries ++ (name, generation) ∷ [] }) }
        ensures kept { OnErr result ((data_of self.new).set ≡ (data_of self.old).set) }
    {
        self.own(alloc)?;
        match self {
            Lists::Own(lists) => lists.undone.push(name, generation),
            _ => unreachable!(),
        }
    }
}

impl OwnLists {
    // Makes a spare place for the name, if its greatest generation is less than this one.
    fn reserve_name(&mut self, name: &Name, generation: u16) -> Result<(), Memory>
        ensures counts { self.new.counts ≡ self.old.counts }
        ensures same { self.new.undone.items ≡ self.old.undone.items }
        ensures room { OnOk result (entry_in self.new.undone.items name.now < generation → 1 ≤ self.new.undone.spare) }
        ensures memory { OnErr result ((entry_in self.old.undone.items name.now < generation) × (self.old.undone.spare ≡ 0)) }
    {
        if generation <= self.undone.entry(name) {
            return Ok(());
        }
        self.undone.reserve()
    }

    // The same lists once more.
    fn copied(&self, alloc: Global) -> Result<Lists, Memory>
        ensures counts { IfOk result (λ l. (data_of l).set.counts ≡ self.now.counts.items) }
        ensures entries { IfOk result (λ l. (data_of l).set.entries ≡ self.now.undone.items) }
    {
        if let Some(few) = self.few() {
            return Ok(Lists::Few(few));
        }
        let counts = Vec::from_slice(alloc, self.counts.as_slice())?;
        let undone = self.undone.copied(alloc)?;
        let own = OwnLists {
            counts,
            undone,
            like: None,
        };
        Ok(Lists::Own(Box::new(alloc, own)?))
    }

    // The counts in the value itself, if there are few of them and no undone names.
    fn few(&self) -> Option<Few>
        ensures counts { IfSome result (λ f. f ≡ self.now.counts.items) }
        ensures entries { IfSome result (λ _. self.now.undone.items ≡ []) }
    {
        if self.undone.len() == 0 {
            return Few::of(self.counts.as_slice());
        }
        None
    }

    // The same lists, as copies can share them, with what they have in common with `like`.
    fn kept(&self, alloc: Global, like: Option<&Rc<SharedLists>>) -> Result<Lists, Memory>
        ensures counts { IfOk result (λ l. (data_of l).set.counts ≡ self.now.counts.items) }
        ensures entries { IfOk result (λ l. (data_of l).set.entries ≡ self.now.undone.items) }
    {
        if let Some(few) = self.few() {
            return Ok(Lists::Few(few));
        }
        let lists = match like {
            Some(like) => self.like(
                alloc,
                Some(&like.as_ref().counts),
                like.as_ref().undone.as_ref(),
            )?,
            None => self.like(alloc, None, None)?,
        };
        Ok(Lists::Shared(Rc::new(alloc, lists)?))
    }

    // The same lists with what they have in common with these counts and names.
    fn like(
        &self,
        alloc: Global,
        counts: Option<&Stored<Count>>,
        undone: Option<&Rc<Kept>>,
    ) -> Result<SharedLists, Memory>
        ensures counts { IfOk result (λ l. l.counts ≡ self.now.counts.items) }
        ensures entries { IfOk result (λ l. kept_of rc_value l.undone ≡ self.now.undone.items) }
    {
        Ok(SharedLists {
            counts: Stored::of(alloc, self.counts.as_slice(), counts)?,
            undone: kept_like(alloc, &self.undone, undone)?,
        })
    }
}

impl SharedLists {
    // A reader of the undone names.
    fn names(&self) -> Names<'_>
        ensures { result ≡ kept_of rc_value self.now.undone }
    {
        match &self.undone {
            Some(kept) => kept.as_ref().names(),
            None => Names::empty(),
        }
    }

    // The mark of the undone names.
    fn names_mark(&self) -> u64
        ensures { result ≡ mark_of (kept_of rc_value self.now.undone) }
    {
        match &self.undone {
            Some(kept) => kept.as_ref().mark(),
            None => 0,
        }
    }

    // The number of undone names.
    fn names_len(&self) -> usize
        ensures len { result ≡ length (kept_of rc_value self.now.undone) }
        ensures range { result ≤ SITES * NUMBERS }
    {
        match &self.undone {
            Some(kept) => kept.as_ref().len(),
            None => 0,
        }
    }

    // The greatest generation of the name, 0 if it isn't undone.
    fn entry(&self, name: &Name) -> u16
        ensures { result ≡ entry_in (kept_of rc_value self.now.undone) name.now }
    {
        match &self.undone {
            Some(kept) => kept.as_ref().entry(name),
            None => 0,
        }
    }

    // A copy of the undone names that may be changed in place.
    fn opened_names(&self, alloc: Global) -> Result<Undone, Memory>
        ensures { IfOk result (λ u. u.items ≡ kept_of rc_value self.now.undone) }
    {
        match &self.undone {
            Some(kept) => kept.as_ref().opened(alloc),
            None => Ok(Undone::new(alloc)),
        }
    }
}
