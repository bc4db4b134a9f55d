//! How many sites the frames of each version can name: sites that have no spelling in them can't be named, however many sites a session
//! may have.

/// The number of sites that a frame of version 1 can name, each in one byte: 0 to `SITES_OF_ONE - 1`.
pub(crate) const SITES_OF_ONE: u16 = 64;

/// The number of sites that a frame of version 2 can name, each in two bytes: 0 to `SITES_OF_TWO - 1`.
pub(crate) const SITES_OF_TWO: u16 = 1_024;
