//! The sites of a context with their counts, lent as they lie in a frame.

ghost use Rattle.std.specs.Prelude.{◌≡◌, ◌*◌, ◌≤◌, length};
ghost use Rattle.std.specs.Iterator.{YieldsFirst, item_count};
ghost use Rattle.wire_codec.specs.Judging.{count_len};
ghost use Rattle.wire_codec.specs.Code.Elements.{elements};
ghost use Rattle.wire_codec.specs.Code.Sections.{raw_count};

use crate::version::Version;
use std::marker::Model;

/// The bytes of a site with its count in version 1.
pub(crate) const COUNT_LEN: usize = 5;

/// The same in version 2.
pub(crate) const COUNT_LEN_TWO: usize = 6;

/// The same in a version.
pub(crate) fn count_len(version: Version) -> usize
    ensures { result ≡ count_len version }
{
    match version {
        Version::One => COUNT_LEN,
        Version::Two => COUNT_LEN_TWO,
    }
}

// A site with its count.
fn raw_count(version: Version, bytes: &[u8]) -> (u16, u32)
    requires { length bytes.now ≡ count_len version }
    ensures { result ≡ raw_count version bytes.now }
{
    match version {
        Version::One => {
            let (site, count) = bytes.split_at(1);
            (
                u16::from(site[0]),
                u32::from_be_bytes([count[0], count[1], count[2], count[3]]),
            )
        }
        Version::Two => {
            let (site, count) = bytes.split_at(2);
            (
                u16::from_be_bytes([site[0], site[1]]),
                u32::from_be_bytes([count[0], count[1], count[2], count[3]]),
            )
        }
    }
}

/// Sites with their counts, seen as the list of those that are left.
#[derive(Drop)]
pub(crate) struct Counts<'a> {
    version: Version,
    len: u16,
    bytes: &'a [u8],
}

impl<'a> Model for Counts<'a> {
    ghost use Rattle.std.specs.Prelude.{ℕ, List, ◌*◌, ◌≤◌, length};
    ghost use Rattle.wire_codec.specs.Judging.{count_len};
    ghost use Rattle.wire_codec.specs.Code.Elements.{elements};
    ghost use Rattle.wire_codec.specs.Code.Sections.{raw_count};

    ghost Value = { List (ℕ × ℕ) };

    ghost view = { λ c. elements (raw_count c.version) (count_len c.version) c.len c.bytes.now };

    ghost invariant = { λ c. count_len c.version * c.len ≤ length c.bytes.now };
}

impl<'a> Counts<'a> {
    pub(crate) fn new(version: Version, len: u16, bytes: &'a [u8]) -> Counts<'a>
        requires { count_len version * len ≤ length bytes.now }
        ensures { result ≡ elements (raw_count version) (count_len version) len bytes.now }
    {
        Counts {
            version,
            len,
            bytes,
        }
    }

    /// The same list once more.
    pub(crate) fn again(&self) -> Counts<'a>
        ensures { result ≡ self.now }
    {
        Counts {
            version: self.version,
            len: self.len,
            bytes: self.bytes,
        }
    }
}

impl<'a> Iterator for Counts<'a> {
    type Item = (u16, u32);

    ghost next_gives = { YieldsFirst (λ rest. rest) };

    ghost remaining = { item_count (λ rest. rest) };

    #[tactic(auto, using(crate::proofs::Elements::elements_none, crate::proofs::Elements::elements_step))]
    fn next(&mut self) -> Option<(u16, u32)> {
        if self.len == 0 {
            return None;
        }
        let (first, rest) = self.bytes.split_at(count_len(self.version));
        self.len -= 1;
        self.bytes = rest;
        Some(raw_count(self.version, first))
    }
}
