//! Runs of edits, one after the other, each with the releases after it.

ghost use Rattle.std.specs.Prelude.{◌≡◌, ◌≢◌, ◌+◌, ◌<◌, ◌≤◌, true, false, Some, Err, OnOk, OnErr, chars, length, map, reverse};
ghost use Rattle.context_diff.specs.Replays.{shown};
ghost use Rattle.cot_site.specs.Releases.{IsLater};
ghost use Rattle.cot_site.specs.Sites.{state_of};
ghost use Rattle.cot_site.specs.States.{IsSettled};
ghost use Rattle.participant.specs.Reached.{at};
ghost use Rattle.participant.specs.Runs.{inserts, runs, pieces, deletes, undos, redos, past_end, progress, is_passed, after_edit, StopsAt, IsRun};
ghost use Rattle.participant.specs.Code.Running.{turning, IsStop};

use crate::edits::{Edit, Stopped, do_edit, do_insert};
use cot_site::{Local, Release, Site};
use op_name::{LETTERS, Name};
use std::slice;

/// What a run of edits did.
#[derive(Clone, Copy, Debug)]
pub struct Run {
    /// How many operations it made.
    pub made: u32,
    /// That it went through all edits, or why it stopped at one.
    pub end: Result<(), Stopped>,
}

/// Inserts the characters of a text after so many shown ones, each after the one before it, and after each releases everything that is
/// ready. Each release is appended.
///
/// A place counts what is shown at that moment: where the release after a character shows or hides others before it, the next
/// character stands among them. It stops at the first character that is refused, as `Site::insert` says: at once, by PlaceOut, where
/// the text shows fewer characters. Those before it stay inserted. A text without characters is refused nowhere.
pub fn insert_text(site: &mut Site, place: u32, text: &str, released: &mut Vec<Release>) -> Run
    ensures run { IsRun (inserts place (chars text.now)) (at site.old released.old.items) result (at site.new released.new.items) }
    ensures within { result.made ≤ length (chars text.now) }
    ensures whole { OnOk result.end (result.made ≡ length (chars text.now)) }
    ensures settled { IsSettled (state_of site.old) → result.end ≢ Err Stopped.Unsettled → IsSettled (state_of site.new) }
    ensures later { IsLater (state_of site.old) (state_of site.new) }
{
    let mut made = 0;
    let mut next = place;
    for ch in text.chars() {
        match put(site, next, slice::from_ref(&ch), &mut made, released) {
            Ok(()) => next += 1,
            Err(why) => {
                return Run {
                    made,
                    end: Err(why),
                };
            }
        }
    }
    Run { made, end: Ok(()) }
}

/// Inserts a text after so many shown characters by as few operations as do: it is cut from the front into pieces of `LETTERS` characters
/// and a shorter last one, and each piece is one insert, after the one before it. After each it releases everything that is ready. Each
/// release is appended.
///
/// A place counts what is shown at that moment: where the release after a piece shows or hides characters before its end, the next piece
/// stands among others. It stops at the first piece that is refused, as `Site::insert_run` says: at once, by PlaceOut, where the text
/// shows fewer characters. Those before it stay inserted. A text without characters is refused nowhere.
pub fn insert_runs(site: &mut Site, place: u32, text: &[char], released: &mut Vec<Release>) -> Run
    ensures run { IsRun (runs place text.now) (at site.old released.old.items) result (at site.new released.new.items) }
    ensures within { result.made ≤ length text.now }
    ensures whole { OnOk result.end (result.made ≡ length (pieces text.now)) }
    ensures settled { IsSettled (state_of site.old) → result.end ≢ Err Stopped.Unsettled → IsSettled (state_of site.new) }
    ensures later { IsLater (state_of site.old) (state_of site.new) }
{
    let mut made = 0;
    let mut next = place;
    let mut rest = text;
    while !rest.is_empty() {
        let (piece, behind) = rest.split_at((LETTERS as usize).min(rest.len()));
        match put(site, next, piece, &mut made, released) {
            Ok(()) => next += piece.len() as u32,
            Err(why) => {
                return Run {
                    made,
                    end: Err(why),
                };
            }
        }
        rest = behind;
    }
    Run { made, end: Ok(()) }
}

/// Deletes so many shown characters from a place on, one after the other, and after each releases everything that is ready. Each
/// release is appended.
///
/// A place counts what is shown at that moment: where a release shows or hides characters before what is left of the range, other
/// characters are deleted. A range that isn't there in whole is refused by PlaceOut, with nothing done, at the first place of it that
/// isn't there, also where it is empty. Else it stops at the first delete that is refused, as `Site::delete` says. What was deleted
/// before stays so.
pub fn delete_range(site: &mut Site, place: u32, count: u32, released: &mut Vec<Release>) -> Run
    ensures past { length (shown site.old.history) < place + count → result ≡ past_end place (length (shown site.old.history)) }
    ensures undone { length (shown site.old.history) < place + count → (site.new ≡ site.old) × (released.new.items ≡ released.old.items) }
    ensures run { place + count ≤ length (shown site.old.history)
        → IsRun (deletes place count) (at site.old released.old.items) result (at site.new released.new.items) }
    ensures within { result.made ≤ count }
    ensures whole { OnOk result.end (result.made ≡ count) }
    ensures settled { IsSettled (state_of site.old) → result.end ≢ Err Stopped.Unsettled → IsSettled (state_of site.new) }
    ensures later { IsLater (state_of site.old) (state_of site.new) }
{
    let visible = site.visible_len();
    if u64::from(visible) < u64::from(place) + u64::from(count) {
        return past_end(place, visible);
    }
    delete_all(site, place, count, released)
}

/// Undoes the inserts and deletes of these names, the last one first, and after each releases everything that is ready. One that is
/// undone already is passed over. Each release is appended.
///
/// It stops at the first name that is refused, as `Site::undo` says, for another reason. What was undone before stays so, and is
/// passed over where the same names are given again.
pub fn undo_all(site: &mut Site, names: &[Name], released: &mut Vec<Release>) -> Run
    ensures run { IsRun (undos names.now) (at site.old released.old.items) result (at site.new released.new.items) }
    ensures within { result.made ≤ length names.now }
    ensures settled { IsSettled (state_of site.old) → result.end ≢ Err Stopped.Unsettled → IsSettled (state_of site.new) }
    ensures later { IsLater (state_of site.old) (state_of site.new) }
{
    turn_all(site, names, false, released)
}

/// Redoes the inserts and deletes of these names, the last one first, and after each releases everything that is ready. One that isn't
/// undone is passed over. Each release is appended.
///
/// It stops at the first name that is refused, as `Site::redo` says, for another reason. What was redone before stays so, and is
/// passed over where the same names are given again.
pub fn redo_all(site: &mut Site, names: &[Name], released: &mut Vec<Release>) -> Run
    ensures run { IsRun (redos names.now) (at site.old released.old.items) result (at site.new released.new.items) }
    ensures within { result.made ≤ length names.now }
    ensures settled { IsSettled (state_of site.old) → result.end ≢ Err Stopped.Unsettled → IsSettled (state_of site.new) }
    ensures later { IsLater (state_of site.old) (state_of site.new) }
{
    turn_all(site, names, true, released)
}

// The refusal of a range of which not all is there, where the text shows so many characters.
fn past_end(place: u32, visible: u32) -> Run
    ensures { result ≡ past_end place visible }
{
    let place = place.max(visible);
    let why = Local::PlaceOut { place, visible };
    Run {
        made: 0,
        end: Err(Stopped::Refused { why }),
    }
}

// Deletes so many shown characters from this place on.
fn delete_all(site: &mut Site, place: u32, count: u32, released: &mut Vec<Release>) -> Run
    ensures run { IsRun (deletes place count) (at site.old released.old.items) result (at site.new released.new.items) }
    ensures within { result.made ≤ count }
    ensures whole { OnOk result.end (result.made ≡ count) }
    ensures settled { IsSettled (state_of site.old) → result.end ≢ Err Stopped.Unsettled → IsSettled (state_of site.new) }
    ensures later { IsLater (state_of site.old) (state_of site.new) }
{
    let mut made = 0;
    while made < count {
        match step(site, Edit::Delete { place }, &mut made, released) {
            Ok(()) => {}
            Err(why) => {
                return Run {
                    made,
                    end: Err(why),
                };
            }
        }
    }
    Run { made, end: Ok(()) }
}

// Undoes what has these names, the last of them first; or redoes it.
fn turn_all(site: &mut Site, names: &[Name], redo: bool, released: &mut Vec<Release>) -> Run
    ensures run { IsRun (map (turning redo) (reverse names.now)) (at site.old released.old.items) result (at site.new released.new.items) }
    ensures within { result.made ≤ length names.now }
    ensures settled { IsSettled (state_of site.old) → result.end ≢ Err Stopped.Unsettled → IsSettled (state_of site.new) }
    ensures later { IsLater (state_of site.old) (state_of site.new) }
{
    let mut made = 0;
    let mut left = names.len();
    while left > 0 {
        left -= 1;
        match step(site, turning(names[left], redo), &mut made, released) {
            Ok(()) => {}
            Err(why) => {
                return Run {
                    made,
                    end: Err(why),
                };
            }
        }
    }
    Run { made, end: Ok(()) }
}

// The undo or the redo of this name.
fn turning(name: Name, redo: bool) -> Edit
    ensures { result ≡ turning redo name }
{
    if redo {
        Edit::Redo { name }
    } else {
        Edit::Undo { name }
    }
}

// One insert of a run that has made so many operations, of which the history has each. The place behind its text is a number yet.
fn put(
    site: &mut Site,
    place: u32,
    text: &[char],
    made: &mut u32,
    released: &mut Vec<Release>,
) -> Result<(), Stopped>
    requires counted { made.old ≤ length site.old.history }
    requires some { 1 ≤ length text.now }
    requires most { length text.now ≤ LETTERS }
    ensures next { OnOk result (after_edit (Edit.Insert place text.now) (progress site.old released.old.items made.old)
        ≡ Some (progress site.new released.new.items made.new)) }
    ensures stop { OnErr result (StopsAt (Edit.Insert place text.now) (progress site.old released.old.items made.old) result
        (progress site.new released.new.items made.new)) }
    ensures count { made.new ≤ length site.new.history }
    ensures one { made.new ≤ made.old + 1 }
    ensures room { OnOk result (place + length text.now ≤ u32.MAX) }
    ensures settled { IsSettled (state_of site.old) → result ≢ Err Stopped.Unsettled → IsSettled (state_of site.new) }
    ensures later { IsLater (state_of site.old) (state_of site.new) }
{
    match do_insert(site, place, text, released) {
        Ok(_made) => {
            site.book().known();
            count(site, made);
            Ok(())
        }
        Err(Stopped::Unsettled) => {
            count(site, made);
            Err(Stopped::Unsettled)
        }
        Err(Stopped::Refused { why }) => Err(Stopped::Refused { why }),
    }
}

// One edit of a run that has made so many operations, of which the history has each.
fn step(
    site: &mut Site,
    edit: Edit,
    made: &mut u32,
    released: &mut Vec<Release>,
) -> Result<(), Stopped>
    requires { made.old ≤ length site.old.history }
    ensures next { OnOk result (after_edit edit (progress site.old released.old.items made.old)
        ≡ Some (progress site.new released.new.items made.new)) }
    ensures stop { OnErr result (StopsAt edit (progress site.old released.old.items made.old) result
        (progress site.new released.new.items made.new)) }
    ensures count { made.new ≤ length site.new.history }
    ensures one { made.new ≤ made.old + 1 }
    ensures settled { IsSettled (state_of site.old) → result ≢ Err Stopped.Unsettled → IsSettled (state_of site.new) }
    ensures later { IsLater (state_of site.old) (state_of site.new) }
{
    match do_edit(site, &edit, released) {
        Ok(_made) => {
            count(site, made);
            Ok(())
        }
        Err(why) => stop(site, &edit, why, made),
    }
}

// Counts one operation more, where the history has as many.
fn count(site: &Site, made: &mut u32)
    requires { made.old < length site.now.history }
    ensures { made.new ≡ made.old + 1 }
{
    let _all = site.book().len();
    *made += 1;
}

// Stops a run at an edit, unless that is passed over.
fn stop(site: &Site, edit: &Edit, why: Stopped, made: &mut u32) -> Result<(), Stopped>
    requires { why ≡ Stopped.Unsettled → made.old < length site.now.history }
    ensures { IsStop edit.now why result made.old made.new }
{
    match why {
        Stopped::Unsettled => {
            count(site, made);
            Err(Stopped::Unsettled)
        }
        Stopped::Refused { why } => pass_over(edit, why),
    }
}

// Passes an edit over for which there is no operation, where there is nothing to do.
fn pass_over(edit: &Edit, why: Local) -> Result<(), Stopped>
    ensures ok { OnOk result (is_passed edit.now why ≡ true) }
    ensures err { OnErr result ((is_passed edit.now why ≡ false) × (result ≡ Err (Stopped.Refused why))) }
{
    if is_passed(edit, &why) {
        Ok(())
    } else {
        Err(Stopped::Refused { why })
    }
}

// Whether the edit is passed over for this reason: what it would undo is undone, or what it would redo isn't.
fn is_passed(edit: &Edit, why: &Local) -> bool
    ensures { result ≡ is_passed edit.now why.now }
{
    match edit {
        Edit::Insert { .. } | Edit::Delete { .. } => false,
        Edit::Undo { .. } => matches!(why, Local::NotInForce { .. }),
        Edit::Redo { .. } => matches!(why, Local::InForce { .. }),
    }
}
