//! Anchors, and the places that they have at a site.

ghost use Rattle.std.specs.Prelude.{◌≡◌, ◌<◌, ◌≤◌, ◌↔◌, Some, IsNone, IfSome, length, option_map, slice_get};
ghost use Rattle.context_diff.specs.Replays.{shown};
ghost use Rattle.ttf_form.specs.Cells.{cell_key};
ghost use Rattle.visible_view.specs.View.{shown_cells};
ghost use Rattle.site_anchors.specs.Anchors.{anchors_of, id_of, place_told, IsUnknown};

use crate::standing::cell_place;
use cot_site::Site;
use tombstone_text::{CellId, Cells};
use visible_view::{cell_of_visible, visible_before};

/// Which of its two neighbours an anchor keeps to.
#[derive(Clone, Copy, Debug, PartialEq, Eq)]
pub enum Side {
    /// The character in front of it.
    Left,
    /// The character behind it.
    Right,
}

/// A place of a text that stays beside a character while others edit. The character is named by its cell: its insert and its offset
/// there, which are the same at all sites.
#[derive(Clone, Copy, Debug, PartialEq, Eq)]
pub enum Anchor {
    /// The front of the text.
    Start,
    /// The end of the text.
    End,
    /// Behind this cell.
    After(CellId),
    /// In front of this cell.
    Before(CellId),
}

/// The anchor of the place behind so many shown characters, which keeps to its neighbour on that side: to the front or the end of the
/// text where there is none. None exactly where the text has fewer characters. It costs what finding the character's place does: no
/// history is looked through.
pub fn anchor_at(site: &Site, place: u32, side: Side) -> Option<Anchor>
    ensures anchor { result ≡ slice_get (anchors_of site.now.history side) place }
    ensures none { IsNone result ↔ (length (shown site.now.history) < place) }
    ensures back { IfSome result (λ a. place_told site.now.history a ≡ Some place) }
{
    site.known();
    match side {
        Side::Left => left_of(site, place),
        Side::Right => right_of(site, place),
    }
}

// The anchor that keeps to the character in front of the place.
fn left_of(site: &Site, place: u32) -> Option<Anchor>
    ensures { result ≡ slice_get (anchors_of site.now.history Side.Left) place }
{
    if place == 0 {
        return Some(Anchor::Start);
    }
    match shown_id(site.cells(), place - 1) {
        Some(id) => Some(Anchor::After(id)),
        None => None,
    }
}

// The anchor that keeps to the character behind the place.
fn right_of(site: &Site, place: u32) -> Option<Anchor>
    ensures { result ≡ slice_get (anchors_of site.now.history Side.Right) place }
{
    if place == site.visible_len() {
        return Some(Anchor::End);
    }
    match shown_id(site.cells(), place) {
        Some(id) => Some(Anchor::Before(id)),
        None => None,
    }
}

// The name and the offset of the v-th shown cell, from 0, if there is one.
fn shown_id(cells: &Cells, v: u32) -> Option<CellId>
    ensures { result ≡ option_map (λ c. id_of (cell_key c)) (slice_get (shown_cells cells.now.cells) v) }
{
    match cell_of_visible(cells, v) {
        Some(place) => id_at(cells, place),
        None => None,
    }
}

// The name and the offset of the cell at a place, if there is one.
fn id_at(cells: &Cells, place: u32) -> Option<CellId>
    ensures { result ≡ option_map (λ c. id_of (cell_key c)) (slice_get cells.now.cells place) }
{
    match cells.cell(place) {
        Some(cell) => Some(cell.id()),
        None => None,
    }
}

/// How many shown characters stand before the anchor at the site. None exactly where the site's history hasn't its cell, as where the
/// insert has yet to come. A hidden cell has its place as well: between the characters that are shown before and behind it.
///
/// It costs what `Site::moved` costs from the insert of the cell on, and what finding a character's place does.
pub fn place_of(site: &Site, anchor: &Anchor) -> Option<u32>
    ensures place { result ≡ place_told site.now.history anchor.now }
    ensures none { IsNone result ↔ IsUnknown site.now.history anchor.now }
    ensures within { IfSome result (λ v. v ≤ length (shown site.now.history)) }
{
    site.known();
    place_seen(site, anchor, None)
}

/// The same. Where the anchor's cell was seen at a place, that is looked at first.
pub(crate) fn place_seen(site: &Site, anchor: &Anchor, seen: Option<u32>) -> Option<u32>
    ensures { result ≡ place_told site.now.history anchor.now }
{
    match anchor {
        Anchor::Start => Some(0),
        Anchor::End => Some(site.visible_len()),
        Anchor::After(id) => place_after(site, id, seen),
        Anchor::Before(id) => place_before(site, id, seen),
    }
}

// How many shown characters stand before the cell and with it, where the site has it.
fn place_after(site: &Site, id: &CellId, seen: Option<u32>) -> Option<u32>
    ensures { result ≡ place_told site.now.history (Anchor.After id.now) }
{
    site.known();
    let cells = site.cells();
    cells.known();
    match cell_place(site, cells, id, seen) {
        Some(place) => Some(visible_before(cells, place + 1)),
        None => None,
    }
}

// How many stand before it.
fn place_before(site: &Site, id: &CellId, seen: Option<u32>) -> Option<u32>
    ensures { result ≡ place_told site.now.history (Anchor.Before id.now) }
{
    site.known();
    let cells = site.cells();
    match cell_place(site, cells, id, seen) {
        Some(place) => Some(visible_before(cells, place)),
        None => None,
    }
}
