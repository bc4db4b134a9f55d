//! Places by lines and columns, each counted from 0: a line ends with its line feed, and a column counts characters.

ghost use Rattle.std.specs.Prelude.{◌≡◌, ◌<◌, ◌^◌, length};
ghost use Rattle.context_diff.specs.Replays.{characters_of};
ghost use Rattle.past_view.specs.Lines.{address_of, place_at};

use crate::offsets::{offset_of, place_at};
use cot_site::Site;
use tombstone_text::Measure;

/// The line and the column of the place after `v` shown characters: the number of line feeds among these, and the number of characters
/// after the last of them. None exactly where fewer characters are shown. They are those that `past_view::line_of_place` tells of the
/// text's bytes.
///
/// Costs twice what `offset_of` costs.
pub fn line_of(site: &Site, v: u32) -> Option<(u32, u32)>
    ensures { result ≡ address_of (characters_of site.now.history) v }
{
    known_few(site);
    let line = offset_of(site, Measure::Lines, v)?;
    let front = place_at(site, Measure::Lines, line)?;
    Some((line as u32, v - front))
}

/// The place of the shown text that has this line and column: so many characters stand in front of it. None exactly where no place has
/// them.
///
/// Costs twice what `offset_of` costs.
pub fn place_in(site: &Site, line: u32, column: u32) -> Option<u32>
    ensures { result ≡ place_at (characters_of site.now.history) line column }
{
    known_few(site);
    let lines = u64::from(line);
    let front = place_at(site, Measure::Lines, lines)?;
    if column > u32::MAX - front {
        return None;
    }
    let place = front + column;
    let there = offset_of(site, Measure::Lines, place)?;
    if there == lines { Some(place) } else { None }
}

// Does nothing: fewer characters are shown than a number of 32 bits tells.
fn known_few(site: &Site)
    ensures { length (characters_of site.now.history) < 2 ^ 32 }
{
    site.cells().known();
}
