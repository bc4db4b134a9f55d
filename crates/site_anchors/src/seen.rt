//! The cells of many anchors, seen by one pass over all cells of a site.

use crate::anchors::Anchor;
use cot_site::Site;
use op_name::Memory;
use std::alloc::Global;
use tombstone_text::{CellId, Cells};

/// The cells that anchors are beside, each once and as one number, rising; and the place where each was seen. Whoever is told a place
/// looks whether the cell stands there, so no clause says it of any.
#[derive(Drop)]
pub(crate) struct Seen {
    cells: Vec<u64>,
    places: Vec<u32>,
}

impl Seen {
    /// The cells of the anchors, where to see them all costs less than to seek each; else none.
    pub(crate) fn of(alloc: Global, site: &Site, anchors: &[Anchor]) -> Result<Seen, Memory> {
        let mut seen = Seen {
            cells: Vec::new(alloc),
            places: Vec::new(alloc),
        };
        if pays(site, anchors.len()) {
            seen.note(anchors)?;
            seen.look(site.cells());
        }
        Ok(seen)
    }

    /// Where the anchor's cell was seen; of others any place, or none.
    pub(crate) fn place(&self, anchor: &Anchor) -> Option<u32> {
        match cell_of(anchor) {
            Some(id) => match self.cells.binary_search(&number_of(id)) {
                Ok(at) => self.places.get(at).copied(),
                Err(_) => None,
            },
            None => None,
        }
    }

    // Notes the cells of the anchors, each at the front.
    fn note(&mut self, anchors: &[Anchor]) -> Result<(), Memory> {
        for anchor in anchors {
            if let Some(id) = cell_of(anchor) {
                self.cells.push(number_of(id))?;
            }
        }
        self.cells.sort_unstable();
        self.cells.dedup();
        self.places.resize(self.cells.len(), 0)?;
        Ok(())
    }

    // Notes where each cell stands that is among them, by one pass over all cells.
    fn look(&mut self, cells: &Cells) {
        for i in 0..cells.chunk_count() {
            let mut left = cells.chunk_cells(i);
            for place in cells.chunk_start(i)..cells.chunk_start(i + 1) {
                if let Some(cell) = left.next() {
                    self.put(&cell.id(), place);
                }
            }
        }
    }

    // Notes where a cell stands, if it is among them.
    fn put(&mut self, id: &CellId, place: u32) {
        if let Ok(at) = self.cells.binary_search(&number_of(id)) {
            if let Some(seen) = self.places.get_mut(at) {
                *seen = place;
            }
        }
    }
}

// Whether to look at all cells costs less than to seek each of so many anchors: a cell costs a search among the anchors, as much as some
// 32 steps of those by which an anchor is brought over the forms that were executed since.
fn pays(site: &Site, anchors: usize) -> bool {
    let operations = site.book().len();
    let steps = u64::from(operations.min(512 + operations / 8));
    32 * u64::from(site.cells().len()) <= steps.saturating_mul(anchors as u64)
}

// The cell that the anchor is beside, if there is one.
fn cell_of(anchor: &Anchor) -> Option<&CellId> {
    match anchor {
        Anchor::After(id) | Anchor::Before(id) => Some(id),
        Anchor::Start | Anchor::End => None,
    }
}

// The cell as one number, another one for each.
fn number_of(id: &CellId) -> u64 {
    (u64::from(id.name.site) << 48) | (u64::from(id.name.number) << 16) | u64::from(id.offset)
}
