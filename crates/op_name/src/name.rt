//! Names: a site and the number that the site gave.

ghost use Rattle.std.specs.Prelude.{◌≡◌, ◌↔◌, IsOk, IfOk};
ghost use Rattle.op_name.specs.NameData.{NameData, IsName, name_lt};

use std::marker::Model;

/// The number of sites: sites are numbered from 0 to `SITES - 1`.
pub const SITES: u16 = 1_024;

/// The greatest number that a site gives to one of its originals.
pub const NUMBERS: u32 = 1_000_000;

/// The name of an insert or a delete: its site, below `SITES`, and its number, 1 to `NUMBERS`, by which
/// the site counts its originals.
///
/// Names are ordered by site, then by number.
#[derive(Clone, Copy, Debug, PartialEq, Eq, PartialOrd, Ord, Hash)]
pub struct Name {
    pub site: u16,
    pub number: u32,
}

impl Model for Name {
    ghost Value = { NameData };

    ghost view = { λ n. record { site = n.site; number = n.number } };

    ghost invariant = { λ n. IsName n.site n.number };

    ghost inverse = { λ n. record { site = n.site; number = n.number } };
}

/// A part of a name was out of its range.
#[derive(Clone, Copy, Debug, PartialEq, Eq)]
pub struct NameBad;

impl Name {
    /// The name of the `number`-th original of `site`; refused exactly where a part is out of range.
    pub fn new(site: u16, number: u32) -> Result<Name, NameBad>
        ensures accepted { IsOk result ↔ IsName site number }
        ensures site { IfOk result (λ n. n.site ≡ site) }
        ensures number { IfOk result (λ n. n.number ≡ number) }
    {
        if site < SITES && 1 <= number && number <= NUMBERS {
            Ok(Name { site, number })
        } else {
            Err(NameBad)
        }
    }

    /// Whether the name is before the other: by site, then by number.
    pub fn is_before(&self, other: &Name) -> bool
        ensures { result ≡ name_lt self.now other.now }
    {
        self < other
    }

    /// Nothing but what the type keeps: both parts are in range.
    pub fn known(&self)
        ensures { IsName self.now.site self.now.number }
    {
        let _ = &self.site;
    }
}
