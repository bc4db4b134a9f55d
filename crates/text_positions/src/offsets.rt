//! Places by what the characters in front of them weigh.

ghost use Rattle.std.specs.Prelude.{◌≡◌, MatchOption};
ghost use Rattle.context_diff.specs.Replays.{characters_of};
ghost use Rattle.text_positions.specs.Offsets.{offset_at, HasNoPlace, IsFirstPlace};

use crate::shown::{first_place, offset};
use cot_site::Site;
use tombstone_text::Measure;

/// The offset of the place after `v` shown characters: what these weigh, in bytes of UTF-8 or in units of UTF-16, or how many of them
/// are line feeds. None exactly where fewer characters are shown.
///
/// Costs a step for each block of 64 chunks, up to 64 within one, and a look at the characters of one chunk.
pub fn offset_of(site: &Site, measure: Measure, v: u32) -> Option<u64>
    ensures { result ≡ offset_at measure (characters_of site.now.history) v }
{
    offset(site.cells(), measure, v)
}

/// The place of the shown text with this offset: so many characters stand in front of it. In bytes and in units no other place has the
/// offset, as `one_place` says; of the places that have so many line feeds in front of them it is the first, the front of a line. None
/// exactly where no place has the offset: within a character, or past the end of the text.
///
/// Costs what `offset_of` costs.
pub fn place_at(site: &Site, measure: Measure, offset: u64) -> Option<u32>
    ensures { let cs = characters_of site.now.history in
        MatchOption result (HasNoPlace measure cs offset) (IsFirstPlace measure cs offset) }
{
    first_place(site.cells(), measure, offset)
}
