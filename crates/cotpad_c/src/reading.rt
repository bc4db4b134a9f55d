//! What a site shows and has, as bytes in a buffer of the host's.

ghost use Rattle.std.specs.Prelude.{◌≡◌, ◌≢◌, ◌⊎◌, ◌<◌, ◌≤◌, ◌↔◌, IsTrue, Some, None, length, option_map, slice_get, take};
ghost use Rattle.op_name.specs.declared.member.Member.TheVariants.{Original};
ghost use Rattle.context_diff.specs.Operations.{OpData};
ghost use Rattle.context_diff.specs.Ops.{data_of};
ghost use Rattle.context_diff.specs.Replays.{Cell, shown, text_of};
ghost use Rattle.ttf_form.specs.Cells.{cell_key};
ghost use Rattle.wire_codec.specs.declared.version.Version.TheVariants.{Two};
ghost use Rattle.wire_codec.specs.Spelling.{frame};
ghost use Rattle.cot_site.specs.Sites.{state_of};
ghost use Rattle.cot_site.specs.States.{IsSettled};
ghost use Rattle.session_log.specs.declared.reading.TheConstants.{MAX_LOG};
ghost use Rattle.session_log.specs.Logs.{log_of};
ghost use Rattle.cotpad_c.specs.declared.status.TheConstants.{OK, NO_MEMORY, NONE, TOO_SHORT, TOO_LONG, UNSETTLED};
ghost use Rattle.cotpad_c.specs.Operations.{member_told, operation_told, text_told};
ghost use Rattle.cotpad_c.specs.Saving.{Loads};
ghost use Rattle.cotpad_c.specs.Statuses.{Wrote};

use crate::operation::{CotpadMember, CotpadOperation, member_told, operation_told};
use crate::spelling::hand_out_spelled;
use crate::status::{NO_MEMORY, NONE, OK, TOO_LONG, TOO_SHORT, UNSETTLED};
use context_diff::Op;
use cot_site::{Site, settled_states_have_none_ready};
use op_name::Member;
use session_log::{MAX_LOG, round_trip, write_log};
use std::alloc::Global;
use tombstone_text::{CellId, Cells};
use visible_view::cell_of_visible;
use wire_codec::encode2;

/// Copies the bytes, if there is room for all, and answers their number.
pub(crate) fn hand_out(bytes: &[u8], out: &mut [u8], needed: &mut usize) -> u32
    ensures { Wrote result bytes.now out.old out.new needed.new }
{
    let n = bytes.len();
    *needed = n;
    if out.len() < n {
        return TOO_SHORT;
    }
    let (front, _) = out.split_at_mut(n);
    front.copy_from_slice(bytes);
    OK
}

/// The shown text in UTF-8.
pub(crate) fn text(alloc: Global, site: &Site, out: &mut [u8], needed: &mut usize) -> u32
    ensures wrote { (result ≡ NO_MEMORY) ⊎ Wrote result (text_of site.now.history) out.old out.new needed.new }
    ensures err { result ≡ NO_MEMORY → (out.new ≡ out.old) × (needed.new ≡ needed.old) }
{
    let mut bytes = Vec::new(alloc);
    match site.text(&mut bytes) {
        Ok(()) => hand_out(bytes.as_slice(), out, needed),
        Err(_) => NO_MEMORY,
    }
}

/// The log of the site, where it is loaded again.
pub(crate) fn log(alloc: Global, site: &Site, out: &mut [u8], needed: &mut usize) -> u32
    ensures unsettled { (result ≡ UNSETTLED) ↔ (¬ IsSettled (state_of site.now)) }
    ensures long { IsSettled (state_of site.now) → MAX_LOG < length (log_of site.now.history site.now.waiting)
        → (result ≡ NO_MEMORY) ⊎ (result ≡ TOO_LONG) }
    ensures wrote { IsSettled (state_of site.now) → length (log_of site.now.history site.now.waiting) ≤ MAX_LOG
        → (result ≡ NO_MEMORY) ⊎ Wrote result (log_of site.now.history site.now.waiting) out.old out.new needed.new }
    ensures loads { result ≡ OK → Loads (take needed.new out.new) (state_of site.now) }
    ensures err { result ≢ OK → result ≢ TOO_SHORT → (out.new ≡ out.old) × (needed.new ≡ needed.old) }
{
    if !is_settled(site) {
        return UNSETTLED;
    }
    settled_log(alloc, site, out, needed)
}

// The same of a settled site.
fn settled_log(alloc: Global, site: &Site, out: &mut [u8], needed: &mut usize) -> u32
    requires { IsSettled (state_of site.now) }
    ensures settled { result ≢ UNSETTLED }
    ensures long { MAX_LOG < length (log_of site.now.history site.now.waiting) → (result ≡ NO_MEMORY) ⊎ (result ≡ TOO_LONG) }
    ensures wrote { length (log_of site.now.history site.now.waiting) ≤ MAX_LOG
        → (result ≡ NO_MEMORY) ⊎ Wrote result (log_of site.now.history site.now.waiting) out.old out.new needed.new }
    ensures loads { result ≡ OK → Loads (take needed.new out.new) (state_of site.now) }
    ensures err { result ≢ OK → result ≢ TOO_SHORT → (out.new ≡ out.old) × (needed.new ≡ needed.old) }
{
    site.known();
    site.pool().known();
    round_trip();
    let mut bytes = Vec::new(alloc);
    match write_log(site, &mut bytes) {
        Ok(()) => hand_out_log(bytes.as_slice(), out, needed),
        Err(_) => NO_MEMORY,
    }
}

// Copies the bytes of a log, unless they are too many to be loaded.
fn hand_out_log(log: &[u8], out: &mut [u8], needed: &mut usize) -> u32
    ensures long { MAX_LOG < length log.now → (result ≡ TOO_LONG) × (out.new ≡ out.old) × (needed.new ≡ needed.old) }
    ensures wrote { length log.now ≤ MAX_LOG → Wrote result log.now out.old out.new needed.new }
{
    if log.len() > MAX_LOG {
        return TOO_LONG;
    }
    hand_out(log, out, needed)
}

// Whether no waiting operation is ready.
fn is_settled(site: &Site) -> bool
    ensures { IsTrue result ↔ IsSettled (state_of site.now) }
{
    site.known();
    settled_states_have_none_ready();
    site.pool().first_ready(site.vector()).is_none()
}

/// The frame of the operation at this place of the history.
pub(crate) fn frame_at(
    alloc: Global,
    site: &Site,
    index: u32,
    out: &mut [u8],
    needed: &mut usize,
) -> u32
    ensures wrote { (o : OpData) → slice_get site.now.history index ≡ Some o
        → (result ≡ NO_MEMORY) ⊎ Wrote result (frame Two o) out.old out.new needed.new }
    ensures none { slice_get site.now.history index ≡ None → (result ≡ NONE) × (out.new ≡ out.old) × (needed.new ≡ needed.old) }
    ensures err { result ≡ NO_MEMORY → (out.new ≡ out.old) × (needed.new ≡ needed.old) }
{
    site.known();
    let Some(op) = site.book().op(index) else {
        return NONE;
    };
    let mut bytes = Vec::new(alloc);
    match encode2(op, &mut bytes) {
        Ok(()) => hand_out(bytes.as_slice(), out, needed),
        Err(_) => NO_MEMORY,
    }
}

/// What the operation at this place of the history is, and who made it.
pub(crate) fn operation_at(site: &Site, index: u32, operation: &mut CotpadOperation) -> u32
    ensures found { (o : OpData) → slice_get site.now.history index ≡ Some o → result ≡ OK }
    ensures told { (o : OpData) → slice_get site.now.history index ≡ Some o → operation.new ≡ operation_told o }
    ensures none { slice_get site.now.history index ≡ None → (result ≡ NONE) × (operation.new ≡ operation.old) }
{
    let Some(op) = site.book().op(index) else {
        return NONE;
    };
    *operation = operation_told(op);
    OK
}

/// The text of the operation at this place of the history, in UTF-8.
pub(crate) fn operation_text(site: &Site, index: u32, out: &mut [u8], needed: &mut usize) -> u32
    ensures wrote { (o : OpData) → slice_get site.now.history index ≡ Some o → Wrote result (text_told o) out.old out.new needed.new }
    ensures none { slice_get site.now.history index ≡ None → (result ≡ NONE) × (out.new ≡ out.old) × (needed.new ≡ needed.old) }
{
    let Some(op) = site.book().op(index) else {
        return NONE;
    };
    hand_out_text(op, out, needed)
}

// Copies the text of an operation: that of an insert, and else none.
fn hand_out_text(op: &Op, out: &mut [u8], needed: &mut usize) -> u32
    ensures { Wrote result (text_told (data_of op.now)) out.old out.new needed.new }
{
    match op {
        Op::Insert { text, .. } => {
            text.known();
            hand_out_spelled(text.as_slice(), out, needed)
        }
        Op::Delete { .. } | Op::Undo { .. } => hand_out(&[], out, needed),
    }
}

/// The insert by which the character at this place stands there, from 0, and its offset in the text of that insert.
pub(crate) fn name_at(site: &Site, place: u32, name: &mut CotpadMember, offset: &mut u32) -> u32
    ensures found { (c : Cell) → slice_get (shown site.now.history) place ≡ Some c
        → (result ≡ OK) × (name.new ≡ member_told (Original c.0)) × (offset.new ≡ c.1) }
    ensures none { slice_get (shown site.now.history) place ≡ None
        → (result ≡ NONE) × (name.new ≡ name.old) × (offset.new ≡ offset.old) }
{
    match cell_at(site, place) {
        Some(cell) => {
            *name = member_told(Member::Original(cell.name));
            *offset = u32::from(cell.offset);
            OK
        }
        None => NONE,
    }
}

// The cell of the shown character at this place, if there is one.
fn cell_at(site: &Site, place: u32) -> Option<CellId>
    ensures { option_map (λ c. (c.name, c.offset)) result ≡ slice_get (shown site.now.history) place }
{
    let cells = site.cells();
    match cell_of_visible(cells, place) {
        Some(at) => id_of(cells, at),
        None => None,
    }
}

// Which cell stands at this place among all cells, if one does.
fn id_of(cells: &Cells, at: u32) -> Option<CellId>
    ensures { option_map (λ c. (c.name, c.offset)) result ≡ option_map cell_key (slice_get cells.now.cells at) }
{
    match cells.cell(at) {
        Some(cell) => Some(cell.id()),
        None => None,
    }
}
