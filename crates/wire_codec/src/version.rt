//! The versions of the format.

ghost use Rattle.std.specs.Prelude.{◌≡◌};
ghost use Rattle.wire_codec.specs.Versions.{site_len, sites};
ghost use Rattle.wire_codec.specs.Runs.{listing_of};

use crate::limits::{SITES_OF_ONE, SITES_OF_TWO};
use crate::listing::Listing;

/// A version of the format of frames.
///
/// Version 1 has 64 sites, and lists each undone name of a context by itself. Version 2 has 1,024 sites, and lists undone names whose
/// numbers follow one another as one run.
#[derive(Clone, Copy, Debug, PartialEq, Eq)]
pub enum Version {
    One,
    Two,
}

impl Version {
    /// The number of sites that frames of this version can name, from 0 on.
    pub fn sites(self) -> u16
        ensures { result ≡ sites self }
    {
        match self {
            Version::One => SITES_OF_ONE,
            Version::Two => SITES_OF_TWO,
        }
    }

    /// How its frames list undone names.
    pub(crate) fn listing(self) -> Listing
        ensures { result ≡ listing_of self }
    {
        match self {
            Version::One => Listing::Names,
            Version::Two => Listing::Runs,
        }
    }

    /// The bytes of a site.
    pub(crate) fn site_len(self) -> u32
        ensures { result ≡ site_len self }
    {
        match self {
            Version::One => 1,
            Version::Two => 2,
        }
    }
}
