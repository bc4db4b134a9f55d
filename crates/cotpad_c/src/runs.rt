//! Runs of local edits: a text that is inserted, piece by piece, a range that is deleted, character by character, and a range of the
//! history that is undone or redone, each with the releases after it.

ghost use Rattle.std.specs.Prelude.{◌≡◌, ◌<◌, ◌≤◌, ◌+◌, ◌⊎◌, ◌↔◌, [], IfOk, IsOk, IsTrue, IsUtf8, chars, length};
ghost use Rattle.context_diff.specs.Replays.{shown};
ghost use Rattle.cot_site.specs.Sites.{state_of};
ghost use Rattle.participant.specs.Reached.{from};
ghost use Rattle.cotpad_c.specs.declared.status.TheConstants.{OK, PLACE_OUT, NO_CHARACTER, NONE};
ghost use Rattle.cotpad_c.specs.Hosting.{hosting, reached};
ghost use Rattle.cotpad_c.specs.Runs.{IsTyped, IsUnbegun, IsCut, IsUndone, IsRedone};

use crate::hosted::Hosted;
use crate::status;
use cot_site::Site;
use op_name::Memory;
use std::alloc::Global;

/// Inserts a text after so many shown characters, and answers how many inserts it made.
pub(crate) fn insert_text(
    alloc: Global,
    hosted: &mut Hosted,
    place: u32,
    bytes: &[u8],
    made: &mut u32,
) -> u32
    ensures no_text { ¬ IsUtf8 bytes.now → (result ≡ NO_CHARACTER) × (made.new ≡ 0) × (hosted.new ≡ hosting hosted.old.site) }
    ensures past { IsUtf8 bytes.now → length (shown hosted.old.site.history) < place
        → (result ≡ PLACE_OUT) × (made.new ≡ 0) × (hosted.new ≡ hosting hosted.old.site) }
    ensures typed { IsUtf8 bytes.now → place ≤ length (shown hosted.old.site.history)
        → IsTyped result (from (state_of hosted.old.site)) place (chars bytes.now) (reached hosted.new) made.new
        ⊎ IsUnbegun result hosted.old.site hosted.new made.new }
    ensures nothing { IsUtf8 bytes.now → place ≤ length (shown hosted.old.site.history) → chars bytes.now ≡ [] → result ≡ OK }
{
    *made = 0;
    hosted.forget();
    let Ok(text) = str::from_utf8(bytes) else {
        return status::NO_CHARACTER;
    };
    // A text without characters too has to have a place.
    if hosted.site().visible_len() < place {
        return status::PLACE_OUT;
    }
    match characters(alloc, text) {
        Ok(list) => hosted.insert_runs(place, list.as_slice(), made),
        Err(_) => status::NO_MEMORY,
    }
}

// The characters of a text; an empty one takes no memory.
fn characters(alloc: Global, text: &str) -> Result<Vec<char>, Memory>
    ensures read { IfOk result (λ c. c.items ≡ chars text.now) }
    ensures none { chars text.now ≡ [] → IsOk result }
{
    let mut list = Vec::new(alloc);
    for ch in text.chars() {
        list.push(ch)?;
    }
    Ok(list)
}

/// Deletes so many shown characters from a place on, and answers how many it deleted.
pub(crate) fn delete_range(hosted: &mut Hosted, place: u32, count: u32, made: &mut u32) -> u32
    ensures past { length (shown hosted.old.site.history) < place + count
        → (result ≡ PLACE_OUT) × (made.new ≡ 0) × (hosted.new ≡ hosting hosted.old.site) }
    ensures cut { place + count ≤ length (shown hosted.old.site.history)
        → IsCut result (from (state_of hosted.old.site)) place count (reached hosted.new) made.new }
    ensures nothing { place + count ≤ length (shown hosted.old.site.history) → count ≡ 0 → result ≡ OK }
{
    hosted.forget();
    hosted.delete_range(place, count, made)
}

/// Undoes the inserts and deletes among so many operations of the history from an index on, and answers how many it undid.
pub(crate) fn undo_range(hosted: &mut Hosted, first: u32, count: u32, made: &mut u32) -> u32
    ensures past { length hosted.old.site.history < first + count
        → (result ≡ NONE) × (made.new ≡ 0) × (hosted.new ≡ hosting hosted.old.site) }
    ensures undone { first + count ≤ length hosted.old.site.history
        → IsUndone result hosted.old.site.history first count (from (state_of hosted.old.site)) (reached hosted.new) made.new }
{
    *made = 0;
    hosted.forget();
    if !has_range(hosted.site(), first, count) {
        return status::NONE;
    }
    hosted.undo_range(first, count, made)
}

/// Redoes them likewise, and answers how many it redid.
pub(crate) fn redo_range(hosted: &mut Hosted, first: u32, count: u32, made: &mut u32) -> u32
    ensures past { length hosted.old.site.history < first + count
        → (result ≡ NONE) × (made.new ≡ 0) × (hosted.new ≡ hosting hosted.old.site) }
    ensures redone { first + count ≤ length hosted.old.site.history
        → IsRedone result hosted.old.site.history first count (from (state_of hosted.old.site)) (reached hosted.new) made.new }
{
    *made = 0;
    hosted.forget();
    if !has_range(hosted.site(), first, count) {
        return status::NONE;
    }
    hosted.redo_range(first, count, made)
}

// Whether the history has so many operations from an index on.
fn has_range(site: &Site, first: u32, count: u32) -> bool
    ensures { IsTrue result ↔ (first + count ≤ length site.now.history) }
{
    u64::from(first) + u64::from(count) <= u64::from(site.book().len())
}
