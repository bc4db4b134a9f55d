//! What a text was: at a set of members, and before an operation of the history.

ghost use Rattle.std.specs.Prelude.{◌≡◌, ◌≢◌, ◌⊎◌, ◌↔◌, ◌<◌, ◌≤◌, length, take};
ghost use Rattle.context_vector.specs.Contexts.{IsContext};
ghost use Rattle.context_diff.specs.Replays.{text_of};
ghost use Rattle.cotpad_c.specs.declared.status.TheConstants.{NO_MEMORY, NONE, NO_SET};
ghost use Rattle.cotpad_c.specs.Pasts.{set_told, IsNoPast, IsPast};
ghost use Rattle.cotpad_c.specs.Statuses.{IsMade, Wrote};

use crate::operation::{CotpadCount, CotpadMember};
use crate::reading::hand_out;
use crate::refusals::past_refused;
use crate::sets::{read_set, spells_set};
use crate::status;
use context_vector::Vector;
use cot_site::Site;
use std::alloc::Global;

/// The text at the set of members that the lists spell, or why it has none.
pub(crate) fn text_at(
    alloc: Global,
    site: &Site,
    counts: &[CotpadCount],
    undone: &[CotpadMember],
    out: &mut [u8],
    needed: &mut usize,
    why: &mut CotpadMember,
) -> u32
    ensures no_set { (result ≡ NO_SET) ↔ (¬ IsContext (set_told counts.now undone.now)) }
    ensures made { IsMade result
        → IsPast site.now.history (set_told counts.now undone.now) result out.old out.new needed.new × (why.new ≡ why.old) }
    ensures refused { IsContext (set_told counts.now undone.now) → ¬ IsMade result
        → IsNoPast site.now.history (set_told counts.now undone.now) result why.old why.new }
    ensures err { ¬ IsMade result → (out.new ≡ out.old) × (needed.new ≡ needed.old) }
    ensures kept { result ≡ NO_SET → why.new ≡ why.old }
{
    if !spells_set(counts, undone) {
        return status::NO_SET;
    }
    match read_set(alloc, counts, undone) {
        Ok(set) => text_at_set(alloc, site, &set, out, needed, why),
        Err(_) => status::NO_MEMORY,
    }
}

// The same at the set itself.
fn text_at_set(
    alloc: Global,
    site: &Site,
    set: &Vector,
    out: &mut [u8],
    needed: &mut usize,
    why: &mut CotpadMember,
) -> u32
    ensures set { result ≢ NO_SET }
    ensures made { IsMade result → IsPast site.now.history set.now.set result out.old out.new needed.new × (why.new ≡ why.old) }
    ensures refused { ¬ IsMade result → IsNoPast site.now.history set.now.set result why.old why.new }
    ensures err { ¬ IsMade result → (out.new ≡ out.old) × (needed.new ≡ needed.old) }
{
    let mut bytes = Vec::new(alloc);
    match past_view::text_at(site, set, &mut bytes) {
        Ok(()) => hand_out(bytes.as_slice(), out, needed),
        Err(bad) => past_refused(bad, why),
    }
}

/// The text that the operations before this place of the history show.
pub(crate) fn text_before(
    alloc: Global,
    site: &Site,
    index: u32,
    out: &mut [u8],
    needed: &mut usize,
) -> u32
    ensures wrote { index ≤ length site.now.history
        → (result ≡ NO_MEMORY) ⊎ Wrote result (text_of (take index site.now.history)) out.old out.new needed.new }
    ensures none { length site.now.history < index → (result ≡ NONE) × (out.new ≡ out.old) × (needed.new ≡ needed.old) }
    ensures err { result ≡ NO_MEMORY → (out.new ≡ out.old) × (needed.new ≡ needed.old) }
{
    if site.book().len() < index {
        return status::NONE;
    }
    let mut bytes = Vec::new(alloc);
    match past_view::text_before(alloc, site, index, &mut bytes) {
        Ok(()) => hand_out(bytes.as_slice(), out, needed),
        Err(_) => status::NO_MEMORY,
    }
}
