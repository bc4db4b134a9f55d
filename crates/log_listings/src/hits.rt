//! The cells that the deletes of a history hit.

ghost use Rattle.std.specs.Prelude.{◌≡◌, ◌∷◌, [], ◌++◌, List, IfOk, OnOk, Some, if◌then◌else◌};
ghost use Rattle.std.specs.Map.{lookup};
ghost use Rattle.op_name.specs.NameData.{NameData, name_eq};
ghost use Rattle.ttf_form.specs.Cells.{CellData, cell_key};
ghost use Rattle.log_listings.specs.Code.Hits.{has_deleter, cell_of, AreNoted, AreHits};

use cot_site::Site;
use indexmap::IndexMap;
use op_name::{Memory, Name};
use std::alloc::Global;
use tombstone_text::{Cell, CellId, Cells};

/// The cell that each delete of the site's history hits. It looks at all cells of the site once.
pub(crate) fn cells_hit(alloc: Global, site: &Site) -> Result<IndexMap<Name, CellId>, Memory>
    ensures { IfOk result (λ noted. AreHits site.now.history noted.entries) }
{
    site.known();
    noted_cells(alloc, site.cells())
}

// Each delete that is a deleter of some of these cells, with the last such cell.
fn noted_cells(alloc: Global, cells: &Cells) -> Result<IndexMap<Name, CellId>, Memory>
    ensures { IfOk result (λ noted. AreNoted cells.now.cells noted.entries) }
{
    let mut noted = IndexMap::new(alloc);
    for i in 0..cells.len() {
        match cells.cell(i) {
            Some(cell) => note_cell(&mut noted, &cell)?,
            None => unreachable!(),
        }
    }
    Ok(noted)
}

// Notes a cell under each of its deleters.
fn note_cell(noted: &mut IndexMap<Name, CellId>, cell: &Cell<'_>) -> Result<(), Memory>
    ensures { OnOk result ((cells : List CellData) → AreNoted cells noted.old.entries
        → AreNoted (cells ++ cell.now ∷ []) noted.new.entries) }
{
    let id = cell.id();
    note_deleters(noted, &id, cell.deleters())
}

// Notes a cell under each of these deleters.
fn note_deleters(
    noted: &mut IndexMap<Name, CellId>,
    id: &CellId,
    deleters: &[(Name, u16)],
) -> Result<(), Memory>
    ensures { OnOk result ((q : NameData) → lookup (name_eq q) noted.new.entries
        ≡ (if has_deleter deleters.now q then Some id.now else lookup (name_eq q) noted.old.entries)) }
{
    for deleter in deleters {
        note(noted, deleter.0, id)?;
    }
    Ok(())
}

// Notes a cell under a name.
fn note(noted: &mut IndexMap<Name, CellId>, name: Name, id: &CellId) -> Result<(), Memory>
    ensures { OnOk result ((q : NameData) → lookup (name_eq q) noted.new.entries
        ≡ (if name_eq name q then Some id.now else lookup (name_eq q) noted.old.entries)) }
{
    noted.insert(name, *id)?;
    Ok(())
}
