//! What stands in a range of the shown text: its characters, and the inserts that they are of.

ghost use Rattle.std.specs.Prelude.{◌≡◌, ◌⊎◌, ◌↔◌, ◌+◌, ◌++◌, ◌<◌, ◌≤◌, IsTrue, drop, length, map};
ghost use Rattle.context_diff.specs.Replays.{shown};
ghost use Rattle.site_ranges.specs.Inserts.{names_at};
ghost use Rattle.site_ranges.specs.Ranges.{text_at};
ghost use Rattle.cotpad_c.specs.declared.status.TheConstants.{NO_MEMORY, PLACE_OUT};
ghost use Rattle.cotpad_c.specs.Operations.{original_told};
ghost use Rattle.cotpad_c.specs.Statuses.{Wrote};

use crate::operation::{CotpadMember, member_told};
use crate::reading::hand_out;
use crate::status;
use cot_site::Site;
use op_name::{Member, Name};
use std::alloc::Global;

/// The text of so many shown characters from a place on, in UTF-8.
pub(crate) fn text_range(
    alloc: Global,
    site: &Site,
    place: u32,
    count: u32,
    out: &mut [u8],
    needed: &mut usize,
) -> u32
    ensures wrote { place + count ≤ length (shown site.now.history)
        → (result ≡ NO_MEMORY) ⊎ Wrote result (text_at site.now.history place count) out.old out.new needed.new }
    ensures past { length (shown site.now.history) < place + count
        → (result ≡ PLACE_OUT) × (out.new ≡ out.old) × (needed.new ≡ needed.old) }
    ensures needed { result ≡ NO_MEMORY → 1 ≤ count }
    ensures err { result ≡ NO_MEMORY → (out.new ≡ out.old) × (needed.new ≡ needed.old) }
{
    if !has_range(site, place, count) {
        return status::PLACE_OUT;
    }
    let mut bytes = Vec::new(alloc);
    match site_ranges::write_range(site, place, count, &mut bytes) {
        Ok(()) => hand_out(bytes.as_slice(), out, needed),
        Err(_) => status::NO_MEMORY,
    }
}

/// The inserts by which so many shown characters from a place on stand in the text, neighbours of one insert once.
pub(crate) fn names(
    alloc: Global,
    site: &Site,
    place: u32,
    count: u32,
    out: &mut [CotpadMember],
    needed: &mut usize,
) -> u32
    ensures wrote { place + count ≤ length (shown site.now.history) → (result ≡ NO_MEMORY)
        ⊎ Wrote result (map original_told (names_at site.now.history place count)) out.old out.new needed.new }
    ensures past { length (shown site.now.history) < place + count
        → (result ≡ PLACE_OUT) × (out.new ≡ out.old) × (needed.new ≡ needed.old) }
    ensures needed { result ≡ NO_MEMORY → 1 ≤ count }
    ensures err { result ≡ NO_MEMORY → (out.new ≡ out.old) × (needed.new ≡ needed.old) }
{
    if !has_range(site, place, count) {
        return status::PLACE_OUT;
    }
    let mut list = Vec::new(alloc);
    match site_ranges::names_in(site, place, count, &mut list) {
        Ok(()) => hand_out_names(list.as_slice(), out, needed),
        Err(_) => status::NO_MEMORY,
    }
}

// Tells the names, if there is room for all, and answers their number.
fn hand_out_names(names: &[Name], out: &mut [CotpadMember], needed: &mut usize) -> u32
    ensures { Wrote result (map original_told names.now) out.old out.new needed.new }
{
    *needed = names.len();
    if out.len() < names.len() {
        return status::TOO_SHORT;
    }
    tell_all(names, out);
    status::OK
}

// Tells the names in the front of a buffer that has room for them.
fn tell_all(names: &[Name], out: &mut [CotpadMember])
    requires { length names.now ≤ length out.old }
    ensures { out.new ≡ map original_told names.now ++ drop (length names.now) out.old }
{
    for (i, name) in names.iter().enumerate() {
        out[i] = original_told(name);
    }
}

fn original_told(name: &Name) -> CotpadMember
    ensures { result ≡ original_told name.now }
{
    member_told(Member::Original(*name))
}

// Whether so many characters from a place on are shown.
fn has_range(site: &Site, place: u32, count: u32) -> bool
    ensures { IsTrue result ↔ (place + count ≤ length (shown site.now.history)) }
{
    u64::from(place) + u64::from(count) <= u64::from(site.visible_len())
}
