//! What a host calls.

ghost use Rattle.std.specs.Prelude.{◌≡◌, ◌≢◌, ◌⊎◌, ◌↔◌, ◌+◌, ◌++◌, ◌<◌, ◌≤◌, ℕ, [], IsSome, IsSomeAnd, IsUtf8, Some, None, chars, drop, false, length, map, min, slice_get, take, true};
ghost use Rattle.std.specs.Char.{IsScalar};
ghost use Rattle.op_name.specs.NameData.{NameData, IsName};
ghost use Rattle.op_name.specs.declared.name.TheConstants.{SITES};
ghost use Rattle.op_name.specs.declared.member.Member.TheVariants.{Original};
ghost use Rattle.context_vector.specs.Contexts.{IsContext};
ghost use Rattle.context_diff.specs.Histories.{generation_in, is_known};
ghost use Rattle.context_diff.specs.Operations.{OpData};
ghost use Rattle.context_diff.specs.Replays.{Cell, characters_of, shown, text_of};
ghost use Rattle.site_answers.specs.declared.release.Release.{Release};
ghost use Rattle.site_answers.specs.declared.verdict.Verdict.TheVariants.{Integrated};
ghost use Rattle.wire_codec.specs.declared.version.Version.TheVariants.{Two};
ghost use Rattle.wire_codec.specs.Answers.{HasFrame};
ghost use Rattle.wire_codec.specs.Spelling.{frame};
ghost use Rattle.wire_codec.specs.Judging.{judge};
ghost use Rattle.cot_site.specs.Commands.{local_insert, local_delete, local_undo, local_redo};
ghost use Rattle.cot_site.specs.States.{released, after_release, IsSettled};
ghost use Rattle.cot_site.specs.Releases.{IsLater};
ghost use Rattle.session_log.specs.declared.reading.TheConstants.{MAX_LOG};
ghost use Rattle.session_log.specs.Logs.{log_of};
ghost use Rattle.session_log.specs.Loadings.{IsLoaded};
ghost use Rattle.peer_exchange.specs.declared.messages.TheConstants.{MAX_MESSAGE};
ghost use Rattle.peer_exchange.specs.declared.messages.Which.TheVariants.{First};
ghost use Rattle.peer_exchange.specs.Messages.{first_message};
ghost use Rattle.peer_exchange.specs.Refusals.{IsUnread};
ghost use Rattle.peer_exchange.specs.Closing.{IsFinished, IsUnclosed, IsUnfinished};
ghost use Rattle.site_anchors.specs.declared.anchors.Anchor.{Anchor};
ghost use Rattle.site_anchors.specs.declared.anchors.Side.TheVariants.{Left, Right};
ghost use Rattle.site_anchors.specs.Anchors.{anchors_of, place_told};
ghost use Rattle.past_view.specs.Lines.{address_of, place_at};
ghost use Rattle.tombstone_text.specs.declared.measure.Measure.{Measure};
ghost use Rattle.text_positions.specs.Offsets.{offset_at, HasNoPlace};
ghost use Rattle.site_ranges.specs.Frames.{frames_of, lacked_by};
ghost use Rattle.site_ranges.specs.Inserts.{names_at};
ghost use Rattle.site_ranges.specs.Ranges.{text_at};
ghost use Rattle.site_ranges.specs.Undoers.{IsLastUndoer};
ghost use Rattle.participant.specs.Reached.{from, all_settled, IsHalfSettled};
ghost use Rattle.cotpad_c.specs.declared.status.TheConstants.{OK, NO_MEMORY, SITE_OUT, PLACE_OUT, NO_CHARACTER, UNKNOWN, NO_NAME, NONE, TOO_SHORT, TOO_LONG, UNSETTLED, NO_SET};
ghost use Rattle.cotpad_c.specs.declared.exports.TheConstants.{VERSION};
ghost use Rattle.cotpad_c.specs.Operations.{member_told, operation_told, original_told, text_told};
ghost use Rattle.cotpad_c.specs.Anchors.{anchor_told, anchor_given, places_given};
ghost use Rattle.cotpad_c.specs.Changes.{WroteChanges};
ghost use Rattle.cotpad_c.specs.Hosting.{hosting};
ghost use Rattle.cotpad_c.specs.Exchanges.{Answers, Closes};
ghost use Rattle.cotpad_c.specs.Numbers.{AreTheNumbers};
ghost use Rattle.cotpad_c.specs.Pasts.{set_told, IsNoPast, IsPast};
ghost use Rattle.cotpad_c.specs.Positions.{measure_given};
ghost use Rattle.cotpad_c.specs.Refusals.{IsLogRefused, IsRefused};
ghost use Rattle.cotpad_c.specs.Runs.{IsTyped, IsUnbegun, IsCut, IsUndone, IsRedone};
ghost use Rattle.cotpad_c.specs.Saving.{Loads};
ghost use Rattle.cotpad_c.specs.Statuses.{Did, IsMade, Wrote};
ghost use Rattle.cotpad_c.specs.Verdicts.{of_member, answered, received, IsHalfReceived, IsReleased};
ghost use Rattle.cotpad_c.specs.Held.{fresh, held, held_site, held_state, held_releases, held_reached};

use crate::anchors::CotpadAnchor;
use crate::changes::CotpadChange;
use crate::handle::CotpadSite;
use crate::operation::{CotpadCount, CotpadMember, CotpadOperation};
use crate::refusals::log_refused;
use crate::status::{NO_MEMORY, OK, SITE_OUT, TOO_LONG};
use crate::verdict::CotpadVerdict;
use crate::{
    anchors, changes, edits, exchange, frames, making, pasts, positions, ranges, reading,
    receiving, runs, turns,
};
use op_name::SITES;
use peer_exchange::MAX_MESSAGE;
use session_log::MAX_LOG;
use site_anchors::Side;
use std::alloc::Global;
use std::mem::replace;

/// The version of these calls, of their structs and of their numbers.
pub const VERSION: u32 = 4;

/// Tells the version.
#[unsafe(no_mangle)]
pub extern "C" fn cotpad_version() -> u32
    ensures version { result ≡ VERSION }
    // The statuses, kinds and limits, which clauses cite by name, are the numbers of the header.
    ensures numbers { AreTheNumbers }
{
    VERSION
}

/// Makes a site that has done nothing in an empty handle.
#[unsafe(no_mangle)]
pub extern "C" fn cotpad_open(alloc: Global, site: &mut CotpadSite, number: u32) -> u32
    requires { site.old.site ≡ None }
    ensures range { SITES ≤ number → result ≡ SITE_OUT }
    ensures status { number < SITES → (result ≡ OK) ⊎ (result ≡ NO_MEMORY) }
    ensures ok { result ≡ OK → site.new.site ≡ Some (hosting (fresh number)) }
    ensures empty { result ≢ OK → site.new.site ≡ None }
{
    if number >= u32::from(SITES) {
        return SITE_OUT;
    }
    match making::make(alloc, number as u16) {
        Ok(parts) => {
            replace(site, CotpadSite::filled(parts)).let_go();
            OK
        }
        Err(_) => NO_MEMORY,
    }
}

/// Ends the site of a handle, which is empty then.
#[unsafe(no_mangle)]
pub extern "C" fn cotpad_close(alloc: Global, site: &mut CotpadSite)
    requires { IsSome site.old.site }
    ensures { site.new.site ≡ None }
{
    drop(replace(site, CotpadSite::empty(alloc)).emptied().into_box());
}

/// Makes the site of this number from the bytes of a log in an empty handle, or tells why the log is refused.
#[unsafe(no_mangle)]
pub extern "C" fn cotpad_load(
    alloc: Global,
    site: &mut CotpadSite,
    number: u32,
    bytes: &[u8],
    why: &mut CotpadVerdict,
) -> u32
    requires { site.old.site ≡ None }
    ensures range { SITES ≤ number → (result ≡ SITE_OUT) × (why.new ≡ why.old) }
    ensures limit { number < SITES → MAX_LOG < length bytes.now → (result ≡ TOO_LONG) × (why.new ≡ why.old) }
    ensures live { result ≡ OK → IsSome site.new.site }
    ensures loaded { result ≡ OK → IsLoaded number bytes.now (held_state site.new.site) × (why.new ≡ why.old) }
    ensures quiet { result ≡ OK → held_releases site.new.site ≡ [] }
    ensures refused { number < SITES → length bytes.now ≤ MAX_LOG → result ≢ OK → IsLogRefused number bytes.now result why.old why.new }
    ensures empty { result ≢ OK → site.new.site ≡ None }
{
    if number >= u32::from(SITES) {
        return SITE_OUT;
    }
    if bytes.len() > MAX_LOG {
        return TOO_LONG;
    }
    match making::load(alloc, number as u16, bytes) {
        Ok(parts) => {
            replace(site, CotpadSite::filled(parts)).let_go();
            OK
        }
        Err(bad) => log_refused(bad, why),
    }
}

/// Inserts a character after so many shown ones, and releases until no waiting operation is ready.
#[unsafe(no_mangle)]
pub extern "C" fn cotpad_insert(site: &mut CotpadSite, place: u32, scalar: u32) -> u32
    requires { IsSome site.old.site }
    ensures live { IsSome site.new.site }
    ensures done { IsScalar scalar → Did result (local_insert (held_state site.old.site) place scalar) (from (held_state site.old.site))
        (held_reached site.new.site) }
    ensures no_character { (IsScalar scalar → ⊥) → (result ≡ NO_CHARACTER) × (held site.new.site ≡ hosting (held_site site.old.site)) }
{
    edits::insert(site.inner(), place, scalar)
}

/// Deletes a shown character, and releases.
#[unsafe(no_mangle)]
pub extern "C" fn cotpad_delete(site: &mut CotpadSite, place: u32) -> u32
    requires { IsSome site.old.site }
    ensures live { IsSome site.new.site }
    ensures done { Did result (local_delete (held_state site.old.site) place) (from (held_state site.old.site)) (held_reached site.new.site) }
{
    edits::delete(site.inner(), place)
}

/// Inserts a text in UTF-8 after so many shown characters, by inserts of up to `LETTERS` characters, one after the other, each with
/// the releases after it, and answers how many inserts it made.
#[unsafe(no_mangle)]
pub extern "C" fn cotpad_insert_text(
    alloc: Global,
    site: &mut CotpadSite,
    place: u32,
    text: &[u8],
    made: &mut u32,
) -> u32
    requires { IsSome site.old.site }
    ensures live { IsSome site.new.site }
    ensures no_text { ¬ IsUtf8 text.now
        → (result ≡ NO_CHARACTER) × (made.new ≡ 0) × (held site.new.site ≡ hosting (held_site site.old.site)) }
    ensures past { IsUtf8 text.now → length (shown (held_site site.old.site).history) < place
        → (result ≡ PLACE_OUT) × (made.new ≡ 0) × (held site.new.site ≡ hosting (held_site site.old.site)) }
    ensures typed { IsUtf8 text.now → place ≤ length (shown (held_site site.old.site).history)
        → IsTyped result (from (held_state site.old.site)) place (chars text.now) (held_reached site.new.site) made.new
        ⊎ IsUnbegun result (held_site site.old.site) (held site.new.site) made.new }
    ensures nothing { IsUtf8 text.now → place ≤ length (shown (held_site site.old.site).history) → chars text.now ≡ [] → result ≡ OK }
{
    runs::insert_text(alloc, site.inner(), place, text, made)
}

/// Deletes so many shown characters from a place on, one after the other, each with the releases after it, and answers how many it
/// deleted.
#[unsafe(no_mangle)]
pub extern "C" fn cotpad_delete_range(
    site: &mut CotpadSite,
    place: u32,
    count: u32,
    made: &mut u32,
) -> u32
    requires { IsSome site.old.site }
    ensures live { IsSome site.new.site }
    ensures past { length (shown (held_site site.old.site).history) < place + count
        → (result ≡ PLACE_OUT) × (made.new ≡ 0) × (held site.new.site ≡ hosting (held_site site.old.site)) }
    ensures cut { place + count ≤ length (shown (held_site site.old.site).history)
        → IsCut result (from (held_state site.old.site)) place count (held_reached site.new.site) made.new }
    ensures nothing { place + count ≤ length (shown (held_site site.old.site).history) → count ≡ 0 → result ≡ OK }
{
    runs::delete_range(site.inner(), place, count, made)
}

/// Undoes the insert or delete of this name, whoever made it, and releases.
#[unsafe(no_mangle)]
pub extern "C" fn cotpad_undo(site: &mut CotpadSite, author: u32, number: u32) -> u32
    requires { IsSome site.old.site }
    ensures live { IsSome site.new.site }
    ensures done { IsName author number
        → Did result (local_undo (held_state site.old.site) (record { site = author; number = number })) (from (held_state site.old.site))
        (held_reached site.new.site) }
    ensures no_name { (IsName author number → ⊥) → (result ≡ NO_NAME) × (held site.new.site ≡ hosting (held_site site.old.site)) }
{
    edits::undo(site.inner(), author, number)
}

/// Redoes the insert or delete of this name, whoever undid it, and releases.
#[unsafe(no_mangle)]
pub extern "C" fn cotpad_redo(site: &mut CotpadSite, author: u32, number: u32) -> u32
    requires { IsSome site.old.site }
    ensures live { IsSome site.new.site }
    ensures done { IsName author number
        → Did result (local_redo (held_state site.old.site) (record { site = author; number = number })) (from (held_state site.old.site))
        (held_reached site.new.site) }
    ensures no_name { (IsName author number → ⊥) → (result ≡ NO_NAME) × (held site.new.site ≡ hosting (held_site site.old.site)) }
{
    edits::redo(site.inner(), author, number)
}

/// Undoes the inserts and deletes among so many operations of the history from an index on, the last one first, each with the releases
/// after it, and answers how many it undid. One that is undone already is passed over.
#[unsafe(no_mangle)]
pub extern "C" fn cotpad_undo_range(
    site: &mut CotpadSite,
    first: u32,
    count: u32,
    made: &mut u32,
) -> u32
    requires { IsSome site.old.site }
    ensures live { IsSome site.new.site }
    ensures past { length (held_site site.old.site).history < first + count
        → (result ≡ NONE) × (made.new ≡ 0) × (held site.new.site ≡ hosting (held_site site.old.site)) }
    ensures undone { first + count ≤ length (held_site site.old.site).history
        → IsUndone result (held_site site.old.site).history first count (from (held_state site.old.site)) (held_reached site.new.site)
        made.new }
{
    runs::undo_range(site.inner(), first, count, made)
}

/// Redoes them likewise, and answers how many it redid. One that isn't undone is passed over.
#[unsafe(no_mangle)]
pub extern "C" fn cotpad_redo_range(
    site: &mut CotpadSite,
    first: u32,
    count: u32,
    made: &mut u32,
) -> u32
    requires { IsSome site.old.site }
    ensures live { IsSome site.new.site }
    ensures past { length (held_site site.old.site).history < first + count
        → (result ≡ NONE) × (made.new ≡ 0) × (held site.new.site ≡ hosting (held_site site.old.site)) }
    ensures redone { first + count ≤ length (held_site site.old.site).history
        → IsRedone result (held_site site.old.site).history first count (from (held_state site.old.site)) (held_reached site.new.site)
        made.new }
{
    runs::redo_range(site.inner(), first, count, made)
}

/// How often the insert or delete of this name was undone and redone: its generation, odd while it is undone.
#[unsafe(no_mangle)]
pub extern "C" fn cotpad_generation(
    site: &mut CotpadSite,
    name_site: u32,
    number: u32,
    generation: &mut u32,
) -> u32
    requires { IsSome site.old.site }
    ensures known { IsName name_site number
        → is_known (held_site site.old.site).history (Original (record { site = name_site; number = number })) ≡ true
        → (result ≡ OK)
        × (generation.new ≡ generation_in (held_site site.old.site).history (record { site = name_site; number = number })) }
    ensures unknown { IsName name_site number
        → is_known (held_site site.old.site).history (Original (record { site = name_site; number = number })) ≡ false
        → (result ≡ UNKNOWN) × (generation.new ≡ generation.old) }
    ensures no_name { (IsName name_site number → ⊥) → (result ≡ NO_NAME) × (generation.new ≡ generation.old) }
    ensures same { site.new.site ≡ site.old.site }
{
    turns::generation(site.inner().site(), name_site, number, generation)
}

/// Who undid or redid the insert or delete of this name last.
#[unsafe(no_mangle)]
pub extern "C" fn cotpad_undoer(
    site: &mut CotpadSite,
    name_site: u32,
    number: u32,
    author: &mut u32,
) -> u32
    requires { IsSome site.old.site }
    ensures turned { IsName name_site number
        → generation_in (held_site site.old.site).history (record { site = name_site; number = number }) ≢ 0
        → (result ≡ OK)
        × IsLastUndoer (held_site site.old.site).history (record { site = name_site; number = number }) author.new }
    ensures none { IsName name_site number
        → generation_in (held_site site.old.site).history (record { site = name_site; number = number }) ≡ 0
        → (result ≡ NONE) × (author.new ≡ author.old) }
    ensures no_name { (IsName name_site number → ⊥) → (result ≡ NO_NAME) × (author.new ≡ author.old) }
    ensures same { site.new.site ≡ site.old.site }
{
    turns::undoer(site.inner().site(), name_site, number, author)
}

/// The number of integrated operations.
#[unsafe(no_mangle)]
pub extern "C" fn cotpad_operations(site: &mut CotpadSite) -> u32
    requires { IsSome site.old.site }
    ensures count { result ≡ length (held_site site.old.site).history }
    ensures same { site.new.site ≡ site.old.site }
{
    site.inner().site().book().len()
}

/// The number of operations that wait.
#[unsafe(no_mangle)]
pub extern "C" fn cotpad_waiting(site: &mut CotpadSite) -> u32
    requires { IsSome site.old.site }
    ensures count { result ≡ length (held_site site.old.site).waiting }
    ensures same { site.new.site ≡ site.old.site }
{
    site.inner().site().pool().len()
}

/// The number of shown characters.
#[unsafe(no_mangle)]
pub extern "C" fn cotpad_characters(site: &mut CotpadSite) -> u32
    requires { IsSome site.old.site }
    ensures count { result ≡ length (shown (held_site site.old.site).history) }
    ensures same { site.new.site ≡ site.old.site }
{
    site.inner().site().visible_len()
}

/// The insert by which the shown character at this place stands there, from 0, and its offset in the text of that insert.
#[unsafe(no_mangle)]
pub extern "C" fn cotpad_name_at(
    site: &mut CotpadSite,
    place: u32,
    name: &mut CotpadMember,
    offset: &mut u32,
) -> u32
    requires { IsSome site.old.site }
    ensures found { (c : Cell) → slice_get (shown (held_site site.old.site).history) place ≡ Some c
        → (result ≡ OK) × (name.new ≡ member_told (Original c.0)) × (offset.new ≡ c.1) }
    ensures none { slice_get (shown (held_site site.old.site).history) place ≡ None
        → (result ≡ NONE) × (name.new ≡ name.old) × (offset.new ≡ offset.old) }
    ensures same { site.new.site ≡ site.old.site }
{
    reading::name_at(site.inner().site(), place, name, offset)
}

/// The inserts by which so many shown characters from a place on stand in the text, in its order, neighbours of one insert once.
#[unsafe(no_mangle)]
pub extern "C" fn cotpad_names(
    alloc: Global,
    site: &mut CotpadSite,
    place: u32,
    count: u32,
    out: &mut [CotpadMember],
    needed: &mut usize,
) -> u32
    requires { IsSome site.old.site }
    ensures wrote { place + count ≤ length (shown (held_site site.old.site).history) → (result ≡ NO_MEMORY)
        ⊎ Wrote result (map original_told (names_at (held_site site.old.site).history place count)) out.old out.new needed.new }
    ensures past { length (shown (held_site site.old.site).history) < place + count
        → (result ≡ PLACE_OUT) × (out.new ≡ out.old) × (needed.new ≡ needed.old) }
    ensures needed { result ≡ NO_MEMORY → 1 ≤ count }
    ensures err { result ≡ NO_MEMORY → (out.new ≡ out.old) × (needed.new ≡ needed.old) }
    ensures same { site.new.site ≡ site.old.site }
{
    ranges::names(alloc, site.inner().site(), place, count, out, needed)
}

/// The anchor of the place after so many shown characters, which keeps to the character in front of it, or to the front of the text.
#[unsafe(no_mangle)]
pub extern "C" fn cotpad_anchor_left(
    site: &mut CotpadSite,
    place: u32,
    anchor: &mut CotpadAnchor,
) -> u32
    requires { IsSome site.old.site }
    ensures found { (a : Anchor) → slice_get (anchors_of (held_site site.old.site).history Left) place ≡ Some a
        → (result ≡ OK) × (anchor.new ≡ anchor_told a) }
    ensures back { (a : Anchor) → slice_get (anchors_of (held_site site.old.site).history Left) place ≡ Some a
        → (anchor_given anchor.new ≡ Some a) × (place_told (held_site site.old.site).history a ≡ Some place) }
    ensures past { length (shown (held_site site.old.site).history) < place → (result ≡ PLACE_OUT) × (anchor.new ≡ anchor.old) }
    ensures same { site.new.site ≡ site.old.site }
{
    anchors::anchor_at(site.inner().site(), place, Side::Left, anchor)
}

/// The anchor of the place that keeps to the character behind it, or to the end of the text.
#[unsafe(no_mangle)]
pub extern "C" fn cotpad_anchor_right(
    site: &mut CotpadSite,
    place: u32,
    anchor: &mut CotpadAnchor,
) -> u32
    requires { IsSome site.old.site }
    ensures found { (a : Anchor) → slice_get (anchors_of (held_site site.old.site).history Right) place ≡ Some a
        → (result ≡ OK) × (anchor.new ≡ anchor_told a) }
    ensures back { (a : Anchor) → slice_get (anchors_of (held_site site.old.site).history Right) place ≡ Some a
        → (anchor_given anchor.new ≡ Some a) × (place_told (held_site site.old.site).history a ≡ Some place) }
    ensures past { length (shown (held_site site.old.site).history) < place → (result ≡ PLACE_OUT) × (anchor.new ≡ anchor.old) }
    ensures same { site.new.site ≡ site.old.site }
{
    anchors::anchor_at(site.inner().site(), place, Side::Right, anchor)
}

/// How many shown characters stand before the anchor, also where its character is hidden.
#[unsafe(no_mangle)]
pub extern "C" fn cotpad_anchor_place(
    site: &mut CotpadSite,
    anchor: &CotpadAnchor,
    place: &mut u32,
) -> u32
    requires { IsSome site.old.site }
    ensures found { (a : Anchor) (v : ℕ) → anchor_given anchor.now ≡ Some a
        → place_told (held_site site.old.site).history a ≡ Some v → (result ≡ OK) × (place.new ≡ v) }
    ensures none { (a : Anchor) → anchor_given anchor.now ≡ Some a
        → place_told (held_site site.old.site).history a ≡ None → (result ≡ NONE) × (place.new ≡ place.old) }
    ensures no_name { anchor_given anchor.now ≡ None → (result ≡ NO_NAME) × (place.new ≡ place.old) }
    ensures same { site.new.site ≡ site.old.site }
{
    let hosted = site.inner();
    hosted.note_moves();
    anchors::place_of(hosted.site(), anchor, place)
}

/// The places of many anchors, in their order; `NO_PLACE` of each that is no anchor, or whose character the site hasn't.
#[unsafe(no_mangle)]
pub extern "C" fn cotpad_anchor_places(
    alloc: Global,
    site: &mut CotpadSite,
    given: &[CotpadAnchor],
    places: &mut [u32],
) -> u32
    requires { IsSome site.old.site }
    ensures short { length places.old < length given.now → (result ≡ TOO_SHORT) × (places.new ≡ places.old) }
    ensures told { length given.now ≤ length places.old
        → (result ≡ NO_MEMORY) × (places.new ≡ places.old)
        ⊎ (result ≡ OK)
        × (places.new ≡ places_given (held_site site.old.site).history given.now ++ drop (length given.now) places.old) }
    ensures same { site.new.site ≡ site.old.site }
{
    let hosted = site.inner();
    hosted.note_moves();
    anchors::places_of(alloc, hosted.site(), given, places)
}

/// The offset of the place after so many shown characters, counted as the measure says.
#[unsafe(no_mangle)]
pub extern "C" fn cotpad_offset(
    site: &mut CotpadSite,
    measure: u32,
    place: u32,
    offset: &mut u64,
) -> u32
    requires { IsSome site.old.site }
    ensures told { (m : Measure) (o : ℕ) → measure_given measure ≡ Some m
        → offset_at m (characters_of (held_site site.old.site).history) place ≡ Some o → (result ≡ OK) × (offset.new ≡ o) }
    ensures past { (m : Measure) → measure_given measure ≡ Some m
        → length (characters_of (held_site site.old.site).history) < place → (result ≡ PLACE_OUT) × (offset.new ≡ offset.old) }
    ensures no_name { measure_given measure ≡ None → (result ≡ NO_NAME) × (offset.new ≡ offset.old) }
    ensures same { site.new.site ≡ site.old.site }
{
    positions::offset(site.inner().site(), measure, place, offset)
}

/// The place that has this offset, counted as the measure says: no other place has it.
#[unsafe(no_mangle)]
pub extern "C" fn cotpad_place_at(
    site: &mut CotpadSite,
    measure: u32,
    offset: u64,
    place: &mut u32,
) -> u32
    requires { IsSome site.old.site }
    ensures found { (m : Measure) (v : ℕ) → measure_given measure ≡ Some m
        → offset_at m (characters_of (held_site site.old.site).history) v ≡ Some offset → (result ≡ OK) × (place.new ≡ v) }
    ensures none { (m : Measure) → measure_given measure ≡ Some m
        → HasNoPlace m (characters_of (held_site site.old.site).history) offset → (result ≡ NONE) × (place.new ≡ place.old) }
    ensures no_name { measure_given measure ≡ None → (result ≡ NO_NAME) × (place.new ≡ place.old) }
    ensures same { site.new.site ≡ site.old.site }
{
    positions::place_at(site.inner().site(), measure, offset, place)
}

/// The line and the column of the place after so many shown characters, each from 0: how many line feeds are among these, and how many
/// characters stand behind the last of them.
#[unsafe(no_mangle)]
pub extern "C" fn cotpad_line(
    site: &mut CotpadSite,
    place: u32,
    line: &mut u32,
    column: &mut u32,
) -> u32
    requires { IsSome site.old.site }
    ensures told { (l c : ℕ) → address_of (characters_of (held_site site.old.site).history) place ≡ Some (l, c)
        → (result ≡ OK) × (line.new ≡ l) × (column.new ≡ c) }
    ensures past { length (characters_of (held_site site.old.site).history) < place
        → (result ≡ PLACE_OUT) × (line.new ≡ line.old) × (column.new ≡ column.old) }
    ensures same { site.new.site ≡ site.old.site }
{
    positions::line(site.inner().site(), place, line, column)
}

/// The place that has this line and column.
#[unsafe(no_mangle)]
pub extern "C" fn cotpad_line_place(
    site: &mut CotpadSite,
    line: u32,
    column: u32,
    place: &mut u32,
) -> u32
    requires { IsSome site.old.site }
    ensures found { (v : ℕ) → place_at (characters_of (held_site site.old.site).history) line column ≡ Some v
        → (result ≡ OK) × (place.new ≡ v) }
    ensures none { place_at (characters_of (held_site site.old.site).history) line column ≡ None
        → (result ≡ NONE) × (place.new ≡ place.old) }
    ensures same { site.new.site ≡ site.old.site }
{
    positions::line_place(site.inner().site(), line, column, place)
}

/// What the integrated operation at this index is, and who made it. They stand in the order of integration, from 0.
#[unsafe(no_mangle)]
pub extern "C" fn cotpad_operation_at(
    site: &mut CotpadSite,
    index: u32,
    operation: &mut CotpadOperation,
) -> u32
    requires { IsSome site.old.site }
    ensures found { (o : OpData) → slice_get (held_site site.old.site).history index ≡ Some o → result ≡ OK }
    ensures told { (o : OpData) → slice_get (held_site site.old.site).history index ≡ Some o → operation.new ≡ operation_told o }
    ensures none { slice_get (held_site site.old.site).history index ≡ None → (result ≡ NONE) × (operation.new ≡ operation.old) }
    ensures same { site.new.site ≡ site.old.site }
{
    reading::operation_at(site.inner().site(), index, operation)
}

/// The text of the integrated operation at this index, in UTF-8: that of an insert. Others have none.
#[unsafe(no_mangle)]
pub extern "C" fn cotpad_operation_text(
    site: &mut CotpadSite,
    index: u32,
    out: &mut [u8],
    needed: &mut usize,
) -> u32
    requires { IsSome site.old.site }
    ensures wrote { (o : OpData) → slice_get (held_site site.old.site).history index ≡ Some o
        → Wrote result (text_told o) out.old out.new needed.new }
    ensures none { slice_get (held_site site.old.site).history index ≡ None
        → (result ≡ NONE) × (out.new ≡ out.old) × (needed.new ≡ needed.old) }
    ensures same { site.new.site ≡ site.old.site }
{
    reading::operation_text(site.inner().site(), index, out, needed)
}

/// The frame of the integrated operation at this index.
#[unsafe(no_mangle)]
pub extern "C" fn cotpad_frame(
    alloc: Global,
    site: &mut CotpadSite,
    index: u32,
    out: &mut [u8],
    needed: &mut usize,
) -> u32
    requires { IsSome site.old.site }
    ensures wrote { (o : OpData) → slice_get (held_site site.old.site).history index ≡ Some o
        → (result ≡ NO_MEMORY) ⊎ Wrote result (frame Two o) out.old out.new needed.new }
    ensures none { slice_get (held_site site.old.site).history index ≡ None
        → (result ≡ NONE) × (out.new ≡ out.old) × (needed.new ≡ needed.old) }
    ensures err { result ≡ NO_MEMORY → (out.new ≡ out.old) × (needed.new ≡ needed.old) }
    ensures same { site.new.site ≡ site.old.site }
{
    reading::frame_at(alloc, site.inner().site(), index, out, needed)
}

/// The frames of the operations from this index of the history on, one after the other.
#[unsafe(no_mangle)]
pub extern "C" fn cotpad_frames(
    alloc: Global,
    site: &mut CotpadSite,
    first: u32,
    out: &mut [u8],
    needed: &mut usize,
) -> u32
    requires { IsSome site.old.site }
    ensures wrote { first ≤ length (held_site site.old.site).history → (result ≡ NO_MEMORY)
        ⊎ Wrote result (frames_of (drop first (held_site site.old.site).history)) out.old out.new needed.new }
    ensures none { length (held_site site.old.site).history < first
        → (result ≡ NONE) × (out.new ≡ out.old) × (needed.new ≡ needed.old) }
    ensures needed { result ≡ NO_MEMORY → first < length (held_site site.old.site).history }
    ensures err { result ≡ NO_MEMORY → (out.new ≡ out.old) × (needed.new ≡ needed.old) }
    ensures same { site.new.site ≡ site.old.site }
{
    frames::frames(alloc, site.inner().site(), first, out, needed)
}

/// The frames of the operations of the history that the set lacks that the lists spell, one after the other.
#[unsafe(no_mangle)]
pub extern "C" fn cotpad_frames_for(
    alloc: Global,
    site: &mut CotpadSite,
    counts: &[CotpadCount],
    undone: &[CotpadMember],
    out: &mut [u8],
    needed: &mut usize,
) -> u32
    requires { IsSome site.old.site }
    ensures no_set { (result ≡ NO_SET) ↔ (¬ IsContext (set_told counts.now undone.now)) }
    ensures wrote { IsContext (set_told counts.now undone.now) → (result ≡ NO_MEMORY)
        ⊎ Wrote result (frames_of (lacked_by (set_told counts.now undone.now) (held_site site.old.site).history)) out.old out.new
        needed.new }
    ensures err { (result ≡ NO_MEMORY) ⊎ (result ≡ NO_SET) → (out.new ≡ out.old) × (needed.new ≡ needed.old) }
    ensures same { site.new.site ≡ site.old.site }
{
    frames::frames_for(alloc, site.inner().site(), counts, undone, out, needed)
}

/// Delivers the operation of the frame that the bytes begin with, and releases until none is ready.
#[unsafe(no_mangle)]
pub extern "C" fn cotpad_receive(
    alloc: Global,
    site: &mut CotpadSite,
    bytes: &[u8],
    verdict: &mut CotpadVerdict,
) -> u32
    requires { IsSome site.old.site }
    ensures live { IsSome site.new.site }
    ensures status { (result ≡ OK) ⊎ (result ≡ UNSETTLED) ⊎ (result ≡ NO_MEMORY) }
    ensures verdict { result ≢ NO_MEMORY → verdict.new ≡ answered (held_state site.old.site) (judge Two bytes.now) }
    ensures done { result ≡ OK → held_reached site.new.site ≡ received (held_state site.old.site) (judge Two bytes.now) }
    ensures unsettled { result ≡ UNSETTLED → IsHalfReceived (held_state site.old.site) (judge Two bytes.now) (held_reached site.new.site) }
    ensures needed { result ≡ NO_MEMORY → HasFrame Two bytes.now }
    ensures err { result ≡ NO_MEMORY → (held_reached site.new.site ≡ from (held_state site.old.site)) × (verdict.new ≡ verdict.old) }
{
    receiving::receive(alloc, site.inner(), bytes, verdict)
}

/// How many operations the last call released that could change the site.
#[unsafe(no_mangle)]
pub extern "C" fn cotpad_released(site: &mut CotpadSite) -> u32
    requires { IsSome site.old.site }
    ensures count { result ≡ min (length (held_releases site.old.site)) 4294967295 }
    ensures same { site.new.site ≡ site.old.site }
{
    receiving::released(site.inner())
}

/// The release at this index among these, from 0.
#[unsafe(no_mangle)]
pub extern "C" fn cotpad_released_at(
    site: &mut CotpadSite,
    index: u32,
    verdict: &mut CotpadVerdict,
) -> u32
    requires { IsSome site.old.site }
    ensures found { (r : Release) → slice_get (held_releases site.old.site) index ≡ Some r
        → (result ≡ OK) × (verdict.new ≡ of_member r.member r.verdict) }
    ensures none { slice_get (held_releases site.old.site) index ≡ None → (result ≡ NONE) × (verdict.new ≡ verdict.old) }
    ensures same { site.new.site ≡ site.old.site }
{
    receiving::released_at(site.inner(), index, verdict)
}

/// Releases until no waiting operation is ready.
#[unsafe(no_mangle)]
pub extern "C" fn cotpad_settle(site: &mut CotpadSite) -> u32
    requires { IsSome site.old.site }
    ensures live { IsSome site.new.site }
    ensures status { (result ≡ OK) ⊎ (result ≡ UNSETTLED) }
    ensures done { result ≡ OK → held_reached site.new.site ≡ all_settled (from (held_state site.old.site)) }
    ensures unsettled { result ≡ UNSETTLED → IsHalfSettled (from (held_state site.old.site)) (held_reached site.new.site) }
    ensures nothing { IsSettled (held_state site.old.site) → result ≡ OK }
{
    receiving::settle(site.inner())
}

/// Releases the first waiting operation that is ready.
#[unsafe(no_mangle)]
pub extern "C" fn cotpad_release(site: &mut CotpadSite, verdict: &mut CotpadVerdict) -> u32
    requires { IsSome site.old.site }
    ensures live { IsSome site.new.site }
    ensures status { (result ≡ OK) ⊎ (result ≡ NO_MEMORY) ⊎ (result ≡ NONE) }
    ensures answer { result ≢ NO_MEMORY → IsReleased result (released (held_state site.old.site)) verdict.old verdict.new }
    ensures state { result ≢ NO_MEMORY
        → held_state site.new.site ≡ after_release (held_state site.old.site) (released (held_state site.old.site)) }
    ensures quiet { held_releases site.new.site ≡ [] }
    ensures needed { result ≡ NO_MEMORY → IsSomeAnd (released (held_state site.old.site)) (λ r. r.verdict ≡ Integrated) }
    ensures err { result ≡ NO_MEMORY → (held_state site.new.site ≡ held_state site.old.site) × (verdict.new ≡ verdict.old) }
{
    receiving::release(site.inner(), verdict)
}

/// The shown text in UTF-8.
#[unsafe(no_mangle)]
pub extern "C" fn cotpad_text(
    alloc: Global,
    site: &mut CotpadSite,
    out: &mut [u8],
    needed: &mut usize,
) -> u32
    requires { IsSome site.old.site }
    ensures wrote { (result ≡ NO_MEMORY) ⊎ Wrote result (text_of (held_site site.old.site).history) out.old out.new needed.new }
    ensures err { result ≡ NO_MEMORY → (out.new ≡ out.old) × (needed.new ≡ needed.old) }
    ensures same { site.new.site ≡ site.old.site }
{
    reading::text(alloc, site.inner().site(), out, needed)
}

/// The text of so many shown characters from a place on, in UTF-8.
#[unsafe(no_mangle)]
pub extern "C" fn cotpad_text_range(
    alloc: Global,
    site: &mut CotpadSite,
    place: u32,
    count: u32,
    out: &mut [u8],
    needed: &mut usize,
) -> u32
    requires { IsSome site.old.site }
    ensures wrote { place + count ≤ length (shown (held_site site.old.site).history)
        → (result ≡ NO_MEMORY) ⊎ Wrote result (text_at (held_site site.old.site).history place count) out.old out.new needed.new }
    ensures past { length (shown (held_site site.old.site).history) < place + count
        → (result ≡ PLACE_OUT) × (out.new ≡ out.old) × (needed.new ≡ needed.old) }
    ensures needed { result ≡ NO_MEMORY → 1 ≤ count }
    ensures err { result ≡ NO_MEMORY → (out.new ≡ out.old) × (needed.new ≡ needed.old) }
    ensures same { site.new.site ≡ site.old.site }
{
    ranges::text_range(alloc, site.inner().site(), place, count, out, needed)
}

/// By what the shown text changed since the history had so many operations: changes from left to right, each in what those before it
/// left.
#[unsafe(no_mangle)]
pub extern "C" fn cotpad_changes(
    alloc: Global,
    site: &mut CotpadSite,
    since: u32,
    out: &mut [CotpadChange],
    needed: &mut usize,
) -> u32
    requires { IsSome site.old.site }
    ensures wrote { since ≤ length (held_site site.old.site).history → (result ≡ NO_MEMORY)
        ⊎ WroteChanges (shown (take since (held_site site.old.site).history)) (shown (held_site site.old.site).history) result
        out.old out.new needed.new }
    ensures none { length (held_site site.old.site).history < since
        → (result ≡ NONE) × (out.new ≡ out.old) × (needed.new ≡ needed.old) }
    ensures err { result ≡ NO_MEMORY → (out.new ≡ out.old) × (needed.new ≡ needed.old) }
    ensures same { site.new.site ≡ site.old.site }
{
    changes::changes(alloc, site.inner().site(), since, out, needed)
}

/// The text at the set of members that the lists spell, in UTF-8, or why it has none.
#[unsafe(no_mangle)]
pub extern "C" fn cotpad_text_at(
    alloc: Global,
    site: &mut CotpadSite,
    counts: &[CotpadCount],
    undone: &[CotpadMember],
    out: &mut [u8],
    needed: &mut usize,
    why: &mut CotpadMember,
) -> u32
    requires { IsSome site.old.site }
    ensures no_set { (result ≡ NO_SET) ↔ (¬ IsContext (set_told counts.now undone.now)) }
    ensures made { IsMade result
        → IsPast (held_site site.old.site).history (set_told counts.now undone.now) result out.old out.new needed.new
        × (why.new ≡ why.old) }
    ensures refused { IsContext (set_told counts.now undone.now) → ¬ IsMade result
        → IsNoPast (held_site site.old.site).history (set_told counts.now undone.now) result why.old why.new }
    ensures err { ¬ IsMade result → (out.new ≡ out.old) × (needed.new ≡ needed.old) }
    ensures kept { result ≡ NO_SET → why.new ≡ why.old }
    ensures same { site.new.site ≡ site.old.site }
{
    pasts::text_at(alloc, site.inner().site(), counts, undone, out, needed, why)
}

/// The text that the operations before this index show, in UTF-8: the empty one at 0, and the present one at the number of operations.
#[unsafe(no_mangle)]
pub extern "C" fn cotpad_text_before(
    alloc: Global,
    site: &mut CotpadSite,
    index: u32,
    out: &mut [u8],
    needed: &mut usize,
) -> u32
    requires { IsSome site.old.site }
    ensures wrote { index ≤ length (held_site site.old.site).history
        → (result ≡ NO_MEMORY) ⊎ Wrote result (text_of (take index (held_site site.old.site).history)) out.old out.new needed.new }
    ensures none { length (held_site site.old.site).history < index
        → (result ≡ NONE) × (out.new ≡ out.old) × (needed.new ≡ needed.old) }
    ensures err { result ≡ NO_MEMORY → (out.new ≡ out.old) × (needed.new ≡ needed.old) }
    ensures same { site.new.site ≡ site.old.site }
{
    pasts::text_before(alloc, site.inner().site(), index, out, needed)
}

/// The log of the site, where it is loaded again.
#[unsafe(no_mangle)]
pub extern "C" fn cotpad_save(
    alloc: Global,
    site: &mut CotpadSite,
    out: &mut [u8],
    needed: &mut usize,
) -> u32
    requires { IsSome site.old.site }
    ensures unsettled { (result ≡ UNSETTLED) ↔ (¬ IsSettled (held_state site.old.site)) }
    ensures long { IsSettled (held_state site.old.site)
        → MAX_LOG < length (log_of (held_site site.old.site).history (held_site site.old.site).waiting)
        → (result ≡ NO_MEMORY) ⊎ (result ≡ TOO_LONG) }
    ensures wrote { IsSettled (held_state site.old.site)
        → length (log_of (held_site site.old.site).history (held_site site.old.site).waiting) ≤ MAX_LOG
        → (result ≡ NO_MEMORY) ⊎ Wrote result (log_of (held_site site.old.site).history (held_site site.old.site).waiting) out.old out.new
        needed.new }
    ensures loads { result ≡ OK → Loads (take needed.new out.new) (held_state site.old.site) }
    ensures err { result ≢ OK → result ≢ TOO_SHORT → (out.new ≡ out.old) × (needed.new ≡ needed.old) }
    ensures same { site.new.site ≡ site.old.site }
{
    reading::log(alloc, site.inner().site(), out, needed)
}

/// The first message of an exchange, by which a site asks another for what it lacks.
#[unsafe(no_mangle)]
pub extern "C" fn cotpad_exchange_offer(
    alloc: Global,
    site: &mut CotpadSite,
    out: &mut [u8],
    needed: &mut usize,
) -> u32
    requires { IsSome site.old.site }
    ensures wrote { (result ≡ NO_MEMORY) ⊎ Wrote result (first_message (held_site site.old.site).history) out.old out.new needed.new }
    ensures err { result ≡ NO_MEMORY → (out.new ≡ out.old) × (needed.new ≡ needed.old) }
    ensures same { site.new.site ≡ site.old.site }
{
    exchange::offer(alloc, site.inner().site(), out, needed)
}

/// The second message, which answers the first one of another site, or why that isn't one.
#[unsafe(no_mangle)]
pub extern "C" fn cotpad_exchange_answer(
    alloc: Global,
    site: &mut CotpadSite,
    first: &[u8],
    out: &mut [u8],
    needed: &mut usize,
    why: &mut CotpadVerdict,
) -> u32
    requires { IsSome site.old.site }
    ensures limit { MAX_MESSAGE < length first.now → (result ≡ TOO_LONG) × (why.new ≡ why.old) }
    ensures made { IsMade result → Answers (held_site site.old.site).history first.now result out.old out.new needed.new
        × (why.new ≡ why.old) }
    ensures refused { length first.now ≤ MAX_MESSAGE → ¬ IsMade result → IsRefused (IsUnread First first.now) result why.old why.new }
    ensures err { ¬ IsMade result → (out.new ≡ out.old) × (needed.new ≡ needed.old) }
    ensures same { site.new.site ≡ site.old.site }
{
    if first.len() > MAX_MESSAGE {
        return TOO_LONG;
    }
    exchange::answer(alloc, site.inner().site(), first, out, needed, why)
}

/// Takes in the operations of the second message, and hands out the third, which answers it; or tells why it isn't taken.
#[unsafe(no_mangle)]
pub extern "C" fn cotpad_exchange_close(
    alloc: Global,
    site: &mut CotpadSite,
    second: &[u8],
    out: &mut [u8],
    needed: &mut usize,
    why: &mut CotpadVerdict,
) -> u32
    requires { IsSome site.old.site }
    ensures live { IsSome site.new.site }
    ensures limit { MAX_MESSAGE < length second.now
        → (result ≡ TOO_LONG) × (why.new ≡ why.old) × (held site.new.site ≡ hosting (held_site site.old.site)) }
    ensures made { IsMade result → Closes (held_state site.old.site) second.now (held_state site.new.site) result out.old out.new needed.new
        × (why.new ≡ why.old) }
    ensures refused { length second.now ≤ MAX_MESSAGE → ¬ IsMade result
        → IsRefused (IsUnclosed (held_state site.old.site) second.now (held_state site.new.site)) result why.old why.new }
    ensures later { IsLater (held_state site.old.site) (held_state site.new.site) }
    ensures quiet { held_releases site.new.site ≡ [] }
    ensures err { ¬ IsMade result → (out.new ≡ out.old) × (needed.new ≡ needed.old) }
{
    exchange::close(alloc, site.inner(), second, out, needed, why)
}

/// Takes in the operations of the third message, or tells why it isn't taken.
#[unsafe(no_mangle)]
pub extern "C" fn cotpad_exchange_finish(
    alloc: Global,
    site: &mut CotpadSite,
    third: &[u8],
    why: &mut CotpadVerdict,
) -> u32
    requires { IsSome site.old.site }
    ensures live { IsSome site.new.site }
    ensures limit { MAX_MESSAGE < length third.now
        → (result ≡ TOO_LONG) × (why.new ≡ why.old) × (held site.new.site ≡ hosting (held_site site.old.site)) }
    ensures finished { result ≡ OK → ((count : ℕ) × IsFinished (held_state site.old.site) third.now (held_state site.new.site) count)
        × (why.new ≡ why.old) }
    ensures refused { length third.now ≤ MAX_MESSAGE → result ≢ OK
        → IsRefused (IsUnfinished (held_state site.old.site) third.now (held_state site.new.site)) result why.old why.new }
    ensures needed { result ≡ NO_MEMORY → HasFrame Two third.now }
    ensures later { IsLater (held_state site.old.site) (held_state site.new.site) }
    ensures quiet { held_releases site.new.site ≡ [] }
{
    exchange::finish(alloc, site.inner(), third, why)
}
