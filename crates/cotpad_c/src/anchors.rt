//! Cursors that stay where they belong while others edit.

ghost use Rattle.std.specs.Prelude.{◌≡◌, ◌⊎◌, ◌++◌, ◌∷◌, [], ◌<◌, ◌≤◌, ℕ, IfOk, OnOk, Some, None, drop, length, map, slice_get};
ghost use Rattle.context_diff.specs.Replays.{shown};
ghost use Rattle.site_anchors.specs.declared.anchors.Anchor.{Anchor};
ghost use Rattle.site_anchors.specs.Anchors.{anchors_of, place_told};
ghost use Rattle.cotpad_c.specs.declared.status.TheConstants.{OK, NO_MEMORY, PLACE_OUT, NO_NAME, NONE, TOO_SHORT};
ghost use Rattle.cotpad_c.specs.Anchors.{end_told, cell_told, anchor_told, cell_given, anchor_given, place_number, places_given};
ghost use Rattle.cotpad_c.specs.Code.{nowhere, anchor_or_nowhere};

use crate::edits::name_of;
use crate::kinds::{AFTER, BEFORE, END, NO_PLACE, START};
use crate::status;
use cot_site::Site;
use op_name::{LETTERS, Memory, Name};
use site_anchors::{Anchor, Side};
use std::alloc::Global;
use tombstone_text::CellId;

/// An anchor as a host reads it: which kind it is, and beside which character of which insert.
#[repr(C)]
#[derive(Clone, Copy)]
pub struct CotpadAnchor {
    pub kind: u32,
    pub site: u32,
    pub number: u32,
    pub offset: u32,
}

/// Tells the anchor of a place, which keeps to its neighbour on that side.
pub(crate) fn anchor_at(site: &Site, place: u32, side: Side, anchor: &mut CotpadAnchor) -> u32
    ensures found { (a : Anchor) → slice_get (anchors_of site.now.history side) place ≡ Some a
        → (result ≡ OK) × (anchor.new ≡ anchor_told a) }
    ensures back { (a : Anchor) → slice_get (anchors_of site.now.history side) place ≡ Some a
        → (anchor_given anchor.new ≡ Some a) × (place_told site.now.history a ≡ Some place) }
    ensures past { length (shown site.now.history) < place → (result ≡ PLACE_OUT) × (anchor.new ≡ anchor.old) }
{
    site.known();
    match site_anchors::anchor_at(site, place, side) {
        Some(at) => {
            *anchor = anchor_told(&at);
            status::OK
        }
        None => status::PLACE_OUT,
    }
}

fn anchor_told(anchor: &Anchor) -> CotpadAnchor
    ensures { result ≡ anchor_told anchor.now }
{
    match anchor {
        Anchor::Start => end_told(START),
        Anchor::End => end_told(END),
        Anchor::After(id) => cell_told(AFTER, id),
        Anchor::Before(id) => cell_told(BEFORE, id),
    }
}

fn end_told(kind: u32) -> CotpadAnchor
    ensures { result ≡ end_told kind }
{
    CotpadAnchor {
        kind,
        site: 0,
        number: 0,
        offset: 0,
    }
}

fn cell_told(kind: u32, id: &CellId) -> CotpadAnchor
    ensures { result ≡ cell_told kind id.now }
{
    CotpadAnchor {
        kind,
        site: u32::from(id.name.site),
        number: id.name.number,
        offset: u32::from(id.offset),
    }
}

/// Tells how many shown characters stand before the anchor.
pub(crate) fn place_of(site: &Site, anchor: &CotpadAnchor, place: &mut u32) -> u32
    ensures found { (a : Anchor) (v : ℕ) → anchor_given anchor.now ≡ Some a → place_told site.now.history a ≡ Some v
        → (result ≡ OK) × (place.new ≡ v) }
    ensures none { (a : Anchor) → anchor_given anchor.now ≡ Some a → place_told site.now.history a ≡ None
        → (result ≡ NONE) × (place.new ≡ place.old) }
    ensures no_name { anchor_given anchor.now ≡ None → (result ≡ NO_NAME) × (place.new ≡ place.old) }
{
    match anchor_given(anchor) {
        Some(given) => place_told(site, &given, place),
        None => status::NO_NAME,
    }
}

// The same of an anchor.
fn place_told(site: &Site, anchor: &Anchor, place: &mut u32) -> u32
    ensures found { (v : ℕ) → place_told site.now.history anchor.now ≡ Some v → (result ≡ OK) × (place.new ≡ v) }
    ensures none { place_told site.now.history anchor.now ≡ None → (result ≡ NONE) × (place.new ≡ place.old) }
{
    match site_anchors::place_of(site, anchor) {
        Some(before) => {
            *place = before;
            status::OK
        }
        None => status::NONE,
    }
}

/// Tells the places of many anchors, in their order; `NO_PLACE` of each that is no anchor, or whose character the site hasn't.
pub(crate) fn places_of(
    alloc: Global,
    site: &Site,
    given: &[CotpadAnchor],
    places: &mut [u32],
) -> u32
    ensures short { length places.old < length given.now → (result ≡ TOO_SHORT) × (places.new ≡ places.old) }
    ensures told { length given.now ≤ length places.old
        → (result ≡ NO_MEMORY) × (places.new ≡ places.old)
        ⊎ (result ≡ OK) × (places.new ≡ places_given site.now.history given.now ++ drop (length given.now) places.old) }
{
    if places.len() < given.len() {
        return status::TOO_SHORT;
    }
    site.known();
    match read_anchors(alloc, given) {
        Ok(anchors) => tell_anchors(alloc, site, anchors.as_slice(), places),
        Err(_) => status::NO_MEMORY,
    }
}

// The same of anchors.
fn tell_anchors(alloc: Global, site: &Site, anchors: &[Anchor], places: &mut [u32]) -> u32
    requires { length anchors.now ≤ length places.old }
    ensures { (result ≡ NO_MEMORY) × (places.new ≡ places.old)
        ⊎ (result ≡ OK)
        × (places.new ≡ map place_number (map (place_told site.now.history) anchors.now) ++ drop (length anchors.now) places.old) }
{
    match site_anchors::places_of(alloc, site, anchors) {
        Ok(found) => {
            tell_all(found.as_slice(), places);
            status::OK
        }
        Err(_) => status::NO_MEMORY,
    }
}

// Tells the places in the front of a buffer that has room for them.
fn tell_all(found: &[Option<u32>], places: &mut [u32])
    requires { length found.now ≤ length places.old }
    ensures { places.new ≡ map place_number found.now ++ drop (length found.now) places.old }
{
    for (i, place) in found.iter().enumerate() {
        places[i] = place_number(place);
    }
}

fn place_number(place: &Option<u32>) -> u32
    ensures { result ≡ place_number place.now }
{
    match place {
        Some(there) => *there,
        None => NO_PLACE,
    }
}

// The anchors that a host gives; for what is none one beside a character that no site has.
fn read_anchors(alloc: Global, given: &[CotpadAnchor]) -> Result<Vec<Anchor>, Memory>
    ensures { IfOk result (λ anchors. anchors.items ≡ map anchor_or_nowhere given.now) }
{
    let mut anchors = Vec::new(alloc);
    for anchor in given {
        add_anchor(&mut anchors, anchor)?;
    }
    Ok(anchors)
}

// Adds one of them.
fn add_anchor(anchors: &mut Vec<Anchor>, given: &CotpadAnchor) -> Result<(), Memory>
    ensures { OnOk result (anchors.new.items ≡ anchors.old.items ++ anchor_or_nowhere given.now ∷ []) }
{
    anchors.push(anchor_or_nowhere(given))?;
    Ok(())
}

fn anchor_or_nowhere(given: &CotpadAnchor) -> Anchor
    ensures { result ≡ anchor_or_nowhere given.now }
{
    match anchor_given(given) {
        Some(anchor) => anchor,
        None => Anchor::After(nowhere()),
    }
}

// A cell that no insert puts: past the last one of the longest.
fn nowhere() -> CellId
    ensures { result ≡ nowhere }
{
    CellId {
        name: Name { site: 0, number: 1 },
        offset: LETTERS,
    }
}

// The anchor that a host gives, if it is one.
fn anchor_given(anchor: &CotpadAnchor) -> Option<Anchor>
    ensures { result ≡ anchor_given anchor.now }
{
    match anchor.kind {
        START => Some(Anchor::Start),
        END => Some(Anchor::End),
        AFTER => cell_given(anchor).map(Anchor::After),
        BEFORE => cell_given(anchor).map(Anchor::Before),
        _ => None,
    }
}

// The cell beside which it is, if its numbers are in their ranges.
fn cell_given(anchor: &CotpadAnchor) -> Option<CellId>
    ensures { result ≡ cell_given anchor.now }
{
    if anchor.offset >= u32::from(LETTERS) {
        return None;
    }
    match name_of(anchor.site, anchor.number) {
        Ok(name) => Some(CellId {
            name,
            offset: anchor.offset as u16,
        }),
        Err(_) => None,
    }
}
