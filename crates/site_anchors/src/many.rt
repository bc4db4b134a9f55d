//! The places of many anchors at once.

ghost use Rattle.std.specs.Prelude.{◌≡◌, ◌++◌, ◌∷◌, [], IfOk, OnOk, map};
ghost use Rattle.site_anchors.specs.Anchors.{place_told};

use crate::anchors::{Anchor, place_seen};
use crate::seen::Seen;
use cot_site::Site;
use op_name::Memory;
use std::alloc::Global;

/// How many shown characters stand before each of the anchors at the site, in their order: of each what `place_of` answers.
///
/// It costs what `place_of` costs for each; or, where that is less, a look at each cell of the site, shown or hidden, a search for it among
/// the anchors, and for each anchor what finding a character's place does. Out of memory there is no answer.
pub fn places_of(alloc: Global, site: &Site, anchors: &[Anchor]) -> Result<Vec<Option<u32>>, Memory>
    ensures { IfOk result (λ places. places.items ≡ map (place_told site.now.history) anchors.now) }
{
    let seen = Seen::of(alloc, site, anchors)?;
    let mut places = Vec::new(alloc);
    for anchor in anchors {
        add_place(&mut places, place_seen(site, anchor, seen.place(anchor)))?;
    }
    Ok(places)
}

// Adds one place.
fn add_place(places: &mut Vec<Option<u32>>, place: Option<u32>) -> Result<(), Memory>
    ensures { OnOk result (places.new.items ≡ places.old.items ++ place ∷ []) }
{
    places.push(place)?;
    Ok(())
}
