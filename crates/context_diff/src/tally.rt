//! What a book keeps of its originals, site by site: where each stands, and how many cells the first ones of a site put.

ghost use Rattle.std.specs.Prelude.{◌≡◌, ℕ, ◌+◌, ◌-◌, ◌<◌, ◌++◌, ◌∷◌, ◌==◌, [], length, take, IfErr, IfOk, OnOk, if◌then◌else◌};
ghost use Rattle.context_vector.specs.Contexts.{count_in};
ghost use Rattle.context_diff.specs.Books.{HasSpareFor};
ghost use Rattle.context_diff.specs.Code.Tallies.{total, entry_at, place_at, counts_of, places_of, spares_of, counted, placed, without_last, StandsAt, GoesTo};

use crate::growth::reserve_one;
use op_name::{Member, Memory};
use std::alloc::Global;
use std::marker::Model;

/// The originals of one site, whose numbers are dense: of the n-th one its place in the order of the book, and how many
/// cells the first n put.
#[derive(Drop)]
pub(crate) struct Tally {
    site: u16,
    counts: Vec<u32>,
    places: Vec<u32>,
}

impl Model for Tally {
    ghost use Rattle.std.specs.Prelude.{◌-◌, length, min, vec_capacity};
    ghost use Rattle.context_diff.specs.Code.Tallies.{TallyData};

    ghost Value = { TallyData };

    ghost view = { λ t. record {
      site = t.site;
      counts = t.counts.items;
      places = t.places.items;
      spare = min (vec_capacity t.counts - length t.counts.items) (vec_capacity t.places - length t.places.items);
    } };
}

impl Tally {
    // No originals of the site. It takes no memory.
    fn new(alloc: Global, site: u16) -> Tally
        ensures site { result.site ≡ site }
        ensures counts { result.counts ≡ [] }
        ensures places { result.places ≡ [] }
    {
        Tally {
            site,
            counts: Vec::new(alloc),
            places: Vec::new(alloc),
        }
    }

    // The number of cells of the first originals, up to this number; 0 past the end.
    fn cells(&self, number: u32) -> u32
        ensures { result ≡ entry_at self.now.counts number }
    {
        if number == 0 {
            return 0;
        }
        self.counts.get(number as usize - 1).copied().unwrap_or(0)
    }

    // Where the original of this number stands; None where there is none.
    fn place(&self, number: u32) -> Option<u32>
        ensures { result ≡ place_at self.now.places number }
    {
        if number == 0 {
            return None;
        }
        self.places.get(number as usize - 1).copied()
    }

    // Makes room for one more original.
    fn reserve(&mut self) -> Result<(), Memory>
        ensures site { self.new.site ≡ self.old.site }
        ensures counts { self.new.counts ≡ self.old.counts }
        ensures places { self.new.places ≡ self.old.places }
        ensures room { OnOk result (0 < self.new.spare) }
    {
        reserve_one(&mut self.counts)?;
        reserve_one(&mut self.places)
    }

    // Takes one more original in, which puts so many cells, in the room that was made for it.
    fn push(&mut self, cells: u32, place: u32)
        requires room { 0 < self.old.spare }
        requires short { total self.old.counts + cells < 4294967296 }
        ensures site { self.new.site ≡ self.old.site }
        ensures counts { self.new.counts ≡ self.old.counts ++ (total self.old.counts + cells) ∷ [] }
        ensures places { self.new.places ≡ self.old.places ++ place ∷ [] }
    {
        let before = self.counts.last().copied().unwrap_or(0);
        self.counts.push_reserved(before + cells);
        self.places.push_reserved(place);
    }

    // Forgets the last original.
    fn pop(&mut self)
        ensures site { self.new.site ≡ self.old.site }
        ensures counts { self.new.counts ≡ take (length self.old.counts - 1) self.old.counts }
        ensures places { self.new.places ≡ take (length self.old.places - 1) self.old.places }
    {
        let _ = self.counts.pop();
        let _ = self.places.pop();
    }
}

/// The originals of all sites, those of each in lists of its own, sites rising.
///
/// There are lists for each site for which room was made.
#[derive(Drop)]
pub(crate) struct Tallies {
    sites: Vec<Tally>,
}

impl Model for Tallies {
    ghost use Rattle.std.specs.Prelude.{List};
    ghost use Rattle.context_diff.specs.Code.Tallies.{TallyData, AreRising};

    ghost Value = { List TallyData };

    ghost view = { λ t. t.sites.items };

    ghost invariant = { λ t. AreRising t.sites.items };
}

impl Tallies {
    /// No originals. It takes no memory.
    pub(crate) fn new(alloc: Global) -> Tallies
        ensures { result ≡ [] }
    {
        Tallies {
            sites: Vec::new(alloc),
        }
    }

    /// The number of cells of the first originals of the site, up to this number; 0 where they aren't counted.
    pub(crate) fn cells(&self, site: u16, number: u32) -> u32
        ensures { result ≡ entry_at (counts_of self.now site) number }
    {
        match self.find(site) {
            Ok(at) => self.sites[at].cells(number),
            Err(_) => 0,
        }
    }

    /// Where the original of this number of the site stands in the book; None where there is none.
    pub(crate) fn place(&self, site: u16, number: u32) -> Option<u32>
        ensures { result ≡ place_at (places_of self.now site) number }
    {
        match self.find(site) {
            Ok(at) => self.sites[at].place(number),
            Err(_) => None,
        }
    }

    // Where the lists of the site stand, or where they would go. Where all lower sites have lists too, they stand at the place
    // of the site's number, and nothing is searched.
    fn find(&self, site: u16) -> Result<usize, usize>
        ensures found { IfOk result (StandsAt self.now site) }
        ensures absent { IfErr result (GoesTo self.now site) }
    {
        match self.sites.get(site as usize) {
            Some(tally) if tally.site == site => Ok(site as usize),
            _ => self.sites.binary_search_by_key(&site, |tally| tally.site),
        }
    }

    /// Makes room for the member. Out of memory, nothing is lost.
    pub(crate) fn reserve(&mut self, m: &Member) -> Result<(), Memory>
        ensures counts { counts_of self.new ≡ counts_of self.old }
        ensures places { places_of self.new ≡ places_of self.old }
        ensures room { OnOk result (HasSpareFor (spares_of self.new) m.now) }
    {
        match m {
            Member::Original(name) => self.reserve_at(name.site),
            Member::Group(_, _) => Ok(()),
        }
    }

    // Makes room for one more original of this site.
    fn reserve_at(&mut self, site: u16) -> Result<(), Memory>
        ensures counts { counts_of self.new ≡ counts_of self.old }
        ensures places { places_of self.new ≡ places_of self.old }
        ensures room { OnOk result (0 < count_in (spares_of self.new) site) }
    {
        let at = self.open(site)?;
        self.sites[at].reserve()
    }

    // Where the lists of the site stand, which are made where it has none.
    fn open(&mut self, site: u16) -> Result<usize, Memory>
        ensures counts { counts_of self.new ≡ counts_of self.old }
        ensures places { places_of self.new ≡ places_of self.old }
        ensures there { IfOk result (StandsAt self.new site) }
    {
        match self.find(site) {
            Ok(at) => Ok(at),
            Err(at) => {
                let tally = Tally::new(*self.sites.allocator(), site);
                self.sites.insert(at, tally)?;
                Ok(at)
            }
        }
    }

    /// Takes the member in, which puts so many cells and stands at this place of the book, in the room that was made for it. It takes no
    /// memory.
    pub(crate) fn push(&mut self, m: &Member, cells: u32, place: u32)
        requires room { HasSpareFor (spares_of self.old) m.now }
        requires short { (s : ℕ) → total (counts_of self.old s) + cells < 4294967296 }
        ensures counts { (s : ℕ) → counts_of self.new s ≡ counted m.now cells s (counts_of self.old s) }
        ensures places { (s : ℕ) → places_of self.new s ≡ placed m.now place s (places_of self.old s) }
    {
        match m {
            Member::Original(name) => self.push_at(name.site, cells, place),
            Member::Group(_, _) => {}
        }
    }

    // Takes one more original of this site in.
    fn push_at(&mut self, site: u16, cells: u32, place: u32)
        requires room { 0 < count_in (spares_of self.old) site }
        requires short { total (counts_of self.old site) + cells < 4294967296 }
        ensures counts { (s : ℕ)
            → counts_of self.new s
            ≡ (if site == s then counts_of self.old s ++ (total (counts_of self.old s) + cells) ∷ [] else counts_of self.old s) }
        ensures places { (s : ℕ) → places_of self.new s ≡ (if site == s then places_of self.old s ++ place ∷ [] else places_of self.old s) }
    {
        match self.find(site) {
            Ok(at) => self.sites[at].push(cells, place),
            Err(_) => unreachable!(),
        }
    }

    /// Forgets the member, which is the last of its site. It takes no memory.
    pub(crate) fn pop(&mut self, m: &Member)
        ensures counts { (s : ℕ) → counts_of self.new s ≡ without_last m.now s (counts_of self.old s) }
        ensures places { (s : ℕ) → places_of self.new s ≡ without_last m.now s (places_of self.old s) }
    {
        match m {
            Member::Original(name) => self.pop_at(name.site),
            Member::Group(_, _) => {}
        }
    }

    // Forgets the last original of this site.
    fn pop_at(&mut self, site: u16)
        ensures counts { (s : ℕ)
            → counts_of self.new s
            ≡ (if site == s then take (length (counts_of self.old s) - 1) (counts_of self.old s) else counts_of self.old s) }
        ensures places { (s : ℕ)
            → places_of self.new s
            ≡ (if site == s then take (length (places_of self.old s) - 1) (places_of self.old s) else places_of self.old s) }
    {
        if let Ok(at) = self.find(site) {
            self.sites[at].pop();
        }
    }
}
