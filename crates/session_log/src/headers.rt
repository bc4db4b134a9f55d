//! What logs begin with.

ghost use Rattle.std.specs.Prelude.{◌≡◌, ◌⊎◌, length};
ghost use Rattle.wire_codec.specs.declared.version.Version as declared;
ghost use Rattle.session_log.specs.Logs.{header};

use wire_codec::Version;

/// How many bytes the header of a log has, in either version.
pub const HEADER_LEN: usize = 8;

/// The byte of a header that tells its version: those before it are the same in both.
pub(crate) const VERSION_AT: usize = 6;

const HEADER_OF_ONE: &[u8] = b"COTLOG1\n";

const HEADER_OF_TWO: &[u8] = b"COTLOG2\n";

/// What each log of this version begins with.
pub fn header(version: Version) -> &'static [u8]
    ensures bytes { result.now ≡ header version }
    ensures long { length result.now ≡ HEADER_LEN }
{
    match version {
        Version::One => HEADER_OF_ONE,
        Version::Two => HEADER_OF_TWO,
    }
}

/// The other version.
pub(crate) fn other_than(version: Version) -> Version
    ensures { (v : declared.Version) → (v ≡ version) ⊎ (v ≡ result) }
{
    match version {
        Version::One => Version::Two,
        Version::Two => Version::One,
    }
}
