//! Places of the shown text as editors count them: by an offset, or by a line and a column.

ghost use Rattle.std.specs.Prelude.{◌≡◌, ◌≢◌, ◌<◌, ℕ, Some, None, length};
ghost use Rattle.context_diff.specs.Replays.{characters_of};
ghost use Rattle.past_view.specs.Lines.{address_of, place_at};
ghost use Rattle.tombstone_text.specs.declared.measure.Measure.{Measure};
ghost use Rattle.tombstone_text.specs.declared.measure.Measure.TheVariants.{Lines};
ghost use Rattle.text_positions.specs.Offsets.{offset_at, HasNoPlace};
ghost use Rattle.cotpad_c.specs.declared.status.TheConstants.{OK, PLACE_OUT, NO_NAME, NONE};
ghost use Rattle.cotpad_c.specs.Positions.{measure_given};

use crate::kinds::{BYTES, UNITS};
use crate::status;
use cot_site::Site;
use tombstone_text::Measure;

/// Tells the offset of a place.
pub(crate) fn offset(site: &Site, measure: u32, place: u32, offset: &mut u64) -> u32
    ensures told { (m : Measure) (o : ℕ) → measure_given measure ≡ Some m
        → offset_at m (characters_of site.now.history) place ≡ Some o → (result ≡ OK) × (offset.new ≡ o) }
    ensures past { (m : Measure) → measure_given measure ≡ Some m → length (characters_of site.now.history) < place
        → (result ≡ PLACE_OUT) × (offset.new ≡ offset.old) }
    ensures no_name { measure_given measure ≡ None → (result ≡ NO_NAME) × (offset.new ≡ offset.old) }
{
    match measure_given(measure) {
        Some(given) => offset_by(site, given, place, offset),
        None => status::NO_NAME,
    }
}

// The same by a measure.
fn offset_by(site: &Site, measure: Measure, place: u32, offset: &mut u64) -> u32
    ensures told { (o : ℕ) → offset_at measure (characters_of site.now.history) place ≡ Some o → (result ≡ OK) × (offset.new ≡ o) }
    ensures past { offset_at measure (characters_of site.now.history) place ≡ None
        → (result ≡ PLACE_OUT) × (offset.new ≡ offset.old) }
{
    match text_positions::offset_of(site, measure, place) {
        Some(found) => {
            *offset = found;
            status::OK
        }
        None => status::PLACE_OUT,
    }
}

/// Tells the place of an offset.
pub(crate) fn place_at(site: &Site, measure: u32, offset: u64, place: &mut u32) -> u32
    ensures found { (m : Measure) (v : ℕ) → measure_given measure ≡ Some m
        → offset_at m (characters_of site.now.history) v ≡ Some offset → (result ≡ OK) × (place.new ≡ v) }
    ensures none { (m : Measure) → measure_given measure ≡ Some m → HasNoPlace m (characters_of site.now.history) offset
        → (result ≡ NONE) × (place.new ≡ place.old) }
    ensures no_name { measure_given measure ≡ None → (result ≡ NO_NAME) × (place.new ≡ place.old) }
{
    match measure_given(measure) {
        Some(given) => place_by(site, given, offset, place),
        None => status::NO_NAME,
    }
}

// The same by a measure, where no two places have one offset.
fn place_by(site: &Site, measure: Measure, offset: u64, place: &mut u32) -> u32
    requires { measure ≢ Lines }
    ensures found { (v : ℕ) → offset_at measure (characters_of site.now.history) v ≡ Some offset
        → (result ≡ OK) × (place.new ≡ v) }
    ensures none { HasNoPlace measure (characters_of site.now.history) offset → (result ≡ NONE) × (place.new ≡ place.old) }
{
    text_positions::one_place();
    match text_positions::place_at(site, measure, offset) {
        Some(found) => {
            *place = found;
            status::OK
        }
        None => status::NONE,
    }
}

/// Tells the line and the column of a place, each from 0.
pub(crate) fn line(site: &Site, place: u32, line: &mut u32, column: &mut u32) -> u32
    ensures told { (l c : ℕ) → address_of (characters_of site.now.history) place ≡ Some (l, c)
        → (result ≡ OK) × (line.new ≡ l) × (column.new ≡ c) }
    ensures past { length (characters_of site.now.history) < place
        → (result ≡ PLACE_OUT) × (line.new ≡ line.old) × (column.new ≡ column.old) }
{
    match text_positions::line_of(site, place) {
        Some((found, within)) => {
            *line = found;
            *column = within;
            status::OK
        }
        None => status::PLACE_OUT,
    }
}

/// Tells the place of a line and a column.
pub(crate) fn line_place(site: &Site, line: u32, column: u32, place: &mut u32) -> u32
    ensures found { (v : ℕ) → place_at (characters_of site.now.history) line column ≡ Some v → (result ≡ OK) × (place.new ≡ v) }
    ensures none { place_at (characters_of site.now.history) line column ≡ None → (result ≡ NONE) × (place.new ≡ place.old) }
{
    match text_positions::place_in(site, line, column) {
        Some(found) => {
            *place = found;
            status::OK
        }
        None => status::NONE,
    }
}

// The measure that a host gives, if it is one.
fn measure_given(measure: u32) -> Option<Measure>
    ensures { result ≡ measure_given measure }
{
    match measure {
        BYTES => Some(Measure::Bytes),
        UNITS => Some(Measure::Units),
        _ => None,
    }
}
