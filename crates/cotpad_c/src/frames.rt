//! The frames of many operations, one after the other.

ghost use Rattle.std.specs.Prelude.{◌≡◌, ◌≢◌, ◌⊎◌, ◌↔◌, ◌<◌, ◌≤◌, drop, length};
ghost use Rattle.context_vector.specs.Contexts.{IsContext};
ghost use Rattle.site_ranges.specs.Frames.{frames_of, lacked_by};
ghost use Rattle.cotpad_c.specs.declared.status.TheConstants.{NO_MEMORY, NONE, NO_SET};
ghost use Rattle.cotpad_c.specs.Pasts.{set_told};
ghost use Rattle.cotpad_c.specs.Statuses.{Wrote};

use crate::operation::{CotpadCount, CotpadMember};
use crate::reading::hand_out;
use crate::sets::{read_set, spells_set};
use crate::status;
use context_vector::Vector;
use cot_site::Site;
use std::alloc::Global;

/// The frames of the operations from this index of the history on.
pub(crate) fn frames(
    alloc: Global,
    site: &Site,
    first: u32,
    out: &mut [u8],
    needed: &mut usize,
) -> u32
    ensures wrote { first ≤ length site.now.history
        → (result ≡ NO_MEMORY) ⊎ Wrote result (frames_of (drop first site.now.history)) out.old out.new needed.new }
    ensures none { length site.now.history < first → (result ≡ NONE) × (out.new ≡ out.old) × (needed.new ≡ needed.old) }
    ensures needed { result ≡ NO_MEMORY → first < length site.now.history }
    ensures err { result ≡ NO_MEMORY → (out.new ≡ out.old) × (needed.new ≡ needed.old) }
{
    if site.book().len() < first {
        return status::NONE;
    }
    let mut bytes = Vec::new(alloc);
    match site_ranges::frames_from(site, first, &mut bytes) {
        Ok(()) => hand_out(bytes.as_slice(), out, needed),
        Err(_) => status::NO_MEMORY,
    }
}

/// The frames of the operations that the set lacks that the lists spell.
pub(crate) fn frames_for(
    alloc: Global,
    site: &Site,
    counts: &[CotpadCount],
    undone: &[CotpadMember],
    out: &mut [u8],
    needed: &mut usize,
) -> u32
    ensures no_set { (result ≡ NO_SET) ↔ (¬ IsContext (set_told counts.now undone.now)) }
    ensures wrote { IsContext (set_told counts.now undone.now) → (result ≡ NO_MEMORY)
        ⊎ Wrote result (frames_of (lacked_by (set_told counts.now undone.now) site.now.history)) out.old out.new needed.new }
    ensures err { (result ≡ NO_MEMORY) ⊎ (result ≡ NO_SET) → (out.new ≡ out.old) × (needed.new ≡ needed.old) }
{
    if !spells_set(counts, undone) {
        return status::NO_SET;
    }
    match read_set(alloc, counts, undone) {
        Ok(set) => frames_for_set(alloc, site, &set, out, needed),
        Err(_) => status::NO_MEMORY,
    }
}

// The same of the set itself.
fn frames_for_set(
    alloc: Global,
    site: &Site,
    set: &Vector,
    out: &mut [u8],
    needed: &mut usize,
) -> u32
    ensures set { result ≢ NO_SET }
    ensures wrote { (result ≡ NO_MEMORY)
        ⊎ Wrote result (frames_of (lacked_by set.now.set site.now.history)) out.old out.new needed.new }
    ensures err { result ≡ NO_MEMORY → (out.new ≡ out.old) × (needed.new ≡ needed.old) }
{
    let mut bytes = Vec::new(alloc);
    match site_ranges::frames_for(site, set, &mut bytes) {
        Ok(()) => hand_out(bytes.as_slice(), out, needed),
        Err(_) => status::NO_MEMORY,
    }
}
