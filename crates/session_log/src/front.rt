//! The header of a log that comes in pieces.

ghost use Rattle.std.specs.Prelude.{◌≡◌, ◌≢◌, ◌+◌, ◌≤◌, ◌++◌, ℕ, List, IsNone, IfSome, length, take};
ghost use Rattle.wire_codec.specs.declared.version.Version as declared;
ghost use Rattle.session_log.specs.Logs.{header};
ghost use Rattle.session_log.specs.ReaderData.{AreBytes};

use crate::headers::{HEADER_LEN, VERSION_AT, header, other_than};
use wire_codec::Version;

/// What of the piece comes after the header, of which so many bytes came before, as that of this version; and the version that the
/// header tells now. None where they go on as no header does.
pub(crate) fn after_header<'a>(
    version: Version,
    come: usize,
    piece: &'a [u8],
) -> Option<(Version, &'a [u8])>
    requires { come ≤ HEADER_LEN }
    ensures some { IfSome result (λ told. take come (header told.0) ++ piece.now
        ≡ take (come + length piece.now) (header told.0) ++ told.1.now) }
    ensures front { IfSome result (λ told. take come (header version) ≡ take come (header told.0)) }
    ensures bytes { IfSome result (λ told. AreBytes told.1.now) }
    ensures none { IsNone result → (v : declared.Version) (more rest : List ℕ)
        → (take come (header version) ++ piece.now) ++ more ≢ header v ++ rest }
{
    if let Some(rest) = rest_after(version, come, piece) {
        return Some((version, rest));
    }
    if come > VERSION_AT {
        return None;
    }
    let other = other_than(version);
    let rest = rest_after(other, come, piece)?;
    Some((other, rest))
}

// What of the piece comes after the header of this version, of which so many bytes came before. None where they don't go on as it does.
fn rest_after<'a>(version: Version, come: usize, piece: &'a [u8]) -> Option<&'a [u8]>
    requires { come ≤ HEADER_LEN }
    ensures some { IfSome result (λ rest. take come (header version) ++ piece.now
        ≡ take (come + length piece.now) (header version) ++ rest.now) }
    ensures bytes { IfSome result (λ rest. AreBytes rest.now) }
    ensures none { IsNone result → (more rest : List ℕ) → (take come (header version) ++ piece.now) ++ more ≢ header version ++ rest }
{
    let wanted = header(version).split_at(come).1;
    let (front, rest) = piece.split_at(wanted.len().min(piece.len()));
    if wanted.starts_with(front) {
        Some(rest)
    } else {
        None
    }
}
