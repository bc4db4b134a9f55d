//! The command `edit`.

ghost use Rattle.std.specs.Prelude.{◌≡◌, ◌≢◌, ◌++◌, ◌∷◌, ◌<◌, [], chars, IfOk, OnOk};
ghost use Rattle.op_name.specs.declared.name.TheConstants.{SITES};
ghost use Rattle.cot_site.specs.Sites.{state_of};
ghost use Rattle.participant.specs.Runs.{inserts, runs};
ghost use Rattle.log_replies.specs.Editing.{edit_data, edited, all_made};
ghost use Rattle.log_replies.specs.Replies.{IsEdited, edit_reply, refused_edit_text};
ghost use Rattle.log_replies.specs.Code.Editing.{IsDone, IsEditReply, ended, reason_of};

use crate::replying::Replies;
use crate::written::put_log;
use context_diff::Letters;
use cot_site::{Local, Release, Site};
use op_name::{Memory, Name};
use participant::{Edit as One, Stopped};
use script_text::local_line;
use std::alloc::Global;

/// What is done at a site. Places count shown characters.
#[derive(Clone, Copy, Debug)]
pub enum Edit<'a> {
    /// `ins V TEXT`: inserts each character of a text, after so many shown ones and on.
    Ins { place: u32, text: &'a str },
    /// `run V TEXT`: inserts a text after so many shown characters, cut from the front into pieces of 256 characters and a shorter
    /// last one: one operation each.
    Run { place: u32, text: &'a str },
    /// `nl V`: inserts a line feed.
    Nl { place: u32 },
    /// `del V`: deletes the shown character at this place, from 0.
    Del { place: u32 },
    /// `undo NAME`: undoes an insert or delete.
    Undo { name: Name },
    /// `redo NAME`: redoes an insert or delete.
    Redo { name: Name },
}

/// Loads a log as this site, does the edit there, and writes the log of the site. Where an operation of the edit is
/// refused, all of it is, and no log is written; nor is one that is too long to be read again.
#[derive(Drop)]
pub struct Editing<'a> {
    pub site: u16,
    pub edit: Edit<'a>,
}

impl<'a> Replies for Editing<'a> {
    ghost replies = { λ e. IsEdited e.site (edit_data e.edit) };

    ghost number = { λ e. e.site };

    ghost replies_to = { λ e s reply. reply ≡ edit_reply (edited s (edit_data e.edit)) };

    ghost in_range = { λ e. e.site < SITES };

    fn site(&self) -> u16 {
        self.site
    }

    fn reply(&self, alloc: Global, site: &mut Site, out: &mut Vec<u8>) -> Result<bool, Memory> {
        edit_log(alloc, site, &self.edit, out)
    }

    ghost by_log = { λ _ bytes reply it. it };
}

// Edits the site, and appends its log, or why the edit is refused. Answers whether it is.
fn edit_log(
    alloc: Global,
    site: &mut Site,
    edit: &Edit<'_>,
    out: &mut Vec<u8>,
) -> Result<bool, Memory>
    ensures { IfOk result (IsEditReply (edited (state_of site.old) (edit_data edit.now)) out.old.items out.new.items) }
{
    match do_edit(alloc, site, edit) {
        Ok(()) => put_log(site, out),
        Err(Local::Memory) => Err(Memory),
        Err(why) => {
            refuse_edit(why, out)?;
            Ok(true)
        }
    }
}

// Appends the line that says why an edit is refused.
fn refuse_edit(why: Local, out: &mut Vec<u8>) -> Result<(), Memory>
    requires { why ≢ Local.Memory }
    ensures written { OnOk result (out.new.items ≡ out.old.items ++ refused_edit_text why) }
    ensures why { OnOk result (why ≢ Local.Memory) }
{
    out.extend_from_slice(b"refused ")?;
    local_line(why, out)
}

// Does the edit at the site. A refused one may have done some of it.
fn do_edit(alloc: Global, site: &mut Site, edit: &Edit<'_>) -> Result<(), Local>
    ensures { IsDone (edited (state_of site.old) (edit_data edit.now)) result (state_of site.new) }
{
    let mut released = Vec::new(alloc);
    match edit {
        Edit::Ins { place, text } => type_text(site, *place, text, &mut released),
        Edit::Run { place, text } => run_text(alloc, site, *place, text, &mut released),
        Edit::Nl { place } => make(
            site,
            One::Insert {
                place: *place,
                text: Letters::one('\n'),
            },
            &mut released,
        ),
        Edit::Del { place } => make(site, One::Delete { place: *place }, &mut released),
        Edit::Undo { name } => make(site, One::Undo { name: *name }, &mut released),
        Edit::Redo { name } => make(site, One::Redo { name: *name }, &mut released),
    }
}

// Inserts each character of the text, after so many shown ones and on, until one is refused. Each release is appended.
fn type_text(
    site: &mut Site,
    place: u32,
    text: &str,
    released: &mut Vec<Release>,
) -> Result<(), Local>
    ensures { IsDone (all_made (inserts place (chars text.now)) (state_of site.old)) result (state_of site.new) }
{
    ended(participant::insert_text(site, place, text, released).end)
}

// Inserts the text after so many shown characters, one operation for each piece of it, until one is refused. Each release is appended.
fn run_text(
    alloc: Global,
    site: &mut Site,
    place: u32,
    text: &str,
    released: &mut Vec<Release>,
) -> Result<(), Local>
    ensures { IsDone (all_made (runs place (chars text.now)) (state_of site.old)) result (state_of site.new) }
{
    match characters(alloc, text) {
        Ok(list) => ended(participant::insert_runs(site, place, list.as_slice(), released).end),
        Err(Memory) => Err(Local::Memory),
    }
}

// The characters of a text.
fn characters(alloc: Global, text: &str) -> Result<Vec<char>, Memory>
    ensures { IfOk result (λ list. list.items ≡ chars text.now) }
{
    let list = text.chars().collect(alloc)?;
    Ok(list)
}

// How a run of edits ended, as it is answered.
fn ended(end: Result<(), Stopped>) -> Result<(), Local>
    ensures { result ≡ ended end }
{
    match end {
        Ok(()) => Ok(()),
        Err(why) => Err(reason_of(why)),
    }
}

// Makes an edit of one operation. Each release is appended.
fn make(site: &mut Site, edit: One, released: &mut Vec<Release>) -> Result<(), Local>
    ensures { IsDone (all_made (edit ∷ []) (state_of site.old)) result (state_of site.new) }
{
    match participant::do_edit(site, &edit, released) {
        Ok(_made) => Ok(()),
        Err(why) => Err(reason_of(why)),
    }
}

// Why an edit isn't done, by how it stopped: memory may run out among the releases too.
fn reason_of(why: Stopped) -> Local
    ensures { result ≡ reason_of why }
{
    match why {
        Stopped::Refused { why } => why,
        Stopped::Unsettled => Local::Memory,
    }
}
