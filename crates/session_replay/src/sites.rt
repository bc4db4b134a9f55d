//! The sites of a session and their messages.

ghost use Rattle.std.specs.Prelude.{◌≡◌, ◌≢◌, ◌++◌, ◌<◌, ◌≤◌, ◌↔◌, ℕ, [], IsNone, IsTrue, OnOk, IfErr, IfOk, IfSome, length, map, nat_lt, option_map, slice_get, slice_index};
ghost use Rattle.std.specs.Char.{IsScalar};
ghost use Rattle.std.specs.Str.{all_scalars};
ghost use Rattle.cot_site.specs.Sites.{state_of};
ghost use Rattle.participant.specs.Edits.{made_by};
ghost use Rattle.script_text.specs.Lines.{line_site};
ghost use Rattle.session_replay.specs.Answers.{IsDone, HasStep};
ghost use Rattle.session_replay.specs.LineSteps.{line_steps, commanded, at_site_of, steps_there, opening, AreValues};
ghost use Rattle.session_replay.specs.Code.Doing.{IsPlace, IsLineDone, IsRefusedFor, as_step};
ghost use Rattle.session_replay.specs.Sessions.{unstarted, opened, new_sites, site_at};
ghost use Rattle.session_replay.specs.Code.Knowing.{AreKnown};
ghost use Rattle.session_replay.specs.Generating.{counts_of};
ghost use Rattle.session_replay.specs.declared.generator.TheConstants.{MAX_EVENTS};
ghost use Rattle.script_text.specs.declared.reading.line.Line.TheVariants.{Sync};

use crate::generated::Generated;
use crate::message::Message;
use crate::session::StepBad;
use context_diff::Letters;
use cot_site::{Release, Site};
use op_name::{LETTERS, Memory, SITES};
use participant::Edit;
use script_text::Line;
use std::alloc::Global;
use std::marker::Model;
use wire_codec::Version;

mod commands;
mod deliveries;
mod drawing;
mod raw;
mod shows;

/// The sites of a script, none before it makes them, and the messages, numbered from 0, that their local
/// operations became. An operation is held in the history of the site that made it, and a message says where.
///
/// Beside each site stands how many of the first messages it is known to have while none of its operations is
/// ready: among many deliveries, theirs would tell nothing and change nothing, so they are passed over. The list of the releases of
/// an event is kept for the next one, so that not each takes memory.
#[derive(Drop)]
pub(crate) struct Sites {
    sites: Vec<Site>,
    known: Vec<usize>,
    messages: Vec<Message>,
    released: Vec<Release>,
}

impl Model for Sites {
    ghost use Rattle.std.specs.Prelude.{map};
    ghost use Rattle.cot_site.specs.Sites.{state_of};
    ghost use Rattle.session_replay.specs.Sessions.{SessionData};
    ghost use Rattle.session_replay.specs.Code.Messages.{IsKept, operations_of};

    ghost Value = { SessionData };

    ghost view = { λ s. record {
      sites = map state_of s.sites.items;
      messages = operations_of (map state_of s.sites.items) s.messages.items;
    } };

    ghost invariant = { λ s. IsKept (map state_of s.sites.items) s.known.items s.messages.items };
}

impl Sites {
    /// No sites and no messages; takes no memory.
    pub(crate) fn new(alloc: Global) -> Sites
        ensures { result ≡ unstarted }
    {
        Sites {
            sites: Vec::new(alloc),
            known: Vec::new(alloc),
            messages: Vec::new(alloc),
            released: Vec::new(alloc),
        }
    }

    /// So many sites, and no message.
    pub(crate) fn opened(alloc: Global, count: u16) -> Result<Sites, Memory>
        requires { count ≤ SITES }
        ensures { IfOk result (λ s. s ≡ opened count) }
    {
        let known = none_known(alloc, count)?;
        match new_sites(alloc, count) {
            Ok(sites) => Ok(Sites {
                sites,
                known,
                messages: Vec::new(alloc),
                released: Vec::new(alloc),
            }),
            Err(memory) => Err(memory),
        }
    }

    /// The site of this number; None exactly where it isn't below the number of sites.
    pub(crate) fn site(&self, site: u16) -> Option<&Site>
        ensures site { option_map (λ s. state_of s.now) result ≡ slice_get self.now.sites site }
        ensures none { IsNone result ↔ (length self.now.sites ≤ site) }
    {
        self.sites.get(site as usize)
    }

    /// The sites, with how many of the messages are of each kind.
    pub(crate) fn into_generated(self) -> Generated
        requires { length self.messages ≤ MAX_EVENTS }
        ensures sites { result.sites ≡ self.sites }
        ensures counts { result.counts ≡ counts_of self.messages }
    {
        Generated::new(self.sites, &self.messages)
    }

    /// Does a line, and appends its report lines; a line that isn't done may leave some of them.
    pub(crate) fn do_line(&mut self, line: &Line, out: &mut Vec<u8>) -> Result<(), StepBad>
        ensures done { IsLineDone (line_steps line.now self.old) result self.old self.new out.old.items out.new.items }
        ensures needed { result ≡ Err StepBad.Memory → HasStep (line_steps line.now self.old) }
        ensures values { AreValues line.now }
    {
        check_values(line);
        match self.check_site(line) {
            Ok(()) => self.do_there(line, out),
            Err(why) => Err(why),
        }
    }

    // Whether the site that the line speaks of is there, if it speaks of one.
    fn check_site(&self, line: &Line) -> Result<(), StepBad>
        ensures there { OnOk result (IfSome (line_site line.now) (λ i. i < length self.now.sites)) }
        ensures ok { OnOk result (at_site_of (line_site line.now) self.now (steps_there line.now self.now)
            ≡ steps_there line.now self.now) }
        ensures refused { IfErr result (λ why. IsRefusedFor (at_site_of (line_site line.now) self.now
            (steps_there line.now self.now)) why) }
        ensures known { IfErr result (λ why. why ≢ StepBad.Memory) }
    {
        match line.site() {
            Some(site) => match self.place_of(site) {
                Ok(_) => Ok(()),
                Err(why) => Err(why),
            },
            None => Ok(()),
        }
    }

    // A line whose site is there, if it speaks of one.
    fn do_there(&mut self, line: &Line, out: &mut Vec<u8>) -> Result<(), StepBad>
        requires { IfSome (line_site line.now) (λ i. i < length self.old.sites) }
        ensures done { IsLineDone (steps_there line.now self.old) result self.old self.new out.old.items out.new.items }
        ensures needed { result ≡ Err StepBad.Memory → HasStep (steps_there line.now self.old) }
    {
        match line {
            Line::Blank => Ok(()),
            Line::Sites { count } => self.start(*count),
            Line::Ins { site, place, text } => {
                done(self.type_text(*site as usize, *place, text.as_slice(), 1, out))
            }
            Line::Run { site, place, text } => {
                let size = LETTERS as usize;
                done(self.type_text(*site as usize, *place, text.as_slice(), size, out))
            }
            Line::Nl { site, place } => self.do_command(
                *site as usize,
                Edit::Insert {
                    place: *place,
                    text: Letters::one('\n'),
                },
                out,
            ),
            Line::Del { site, place } => {
                self.do_command(*site as usize, Edit::Delete { place: *place }, out)
            }
            Line::Undo { site, name } => {
                self.do_command(*site as usize, Edit::Undo { name: *name }, out)
            }
            Line::Redo { site, name } => {
                self.do_command(*site as usize, Edit::Redo { name: *name }, out)
            }
            Line::Give { site, message } => self.give(*site as usize, *message, out),
            Line::All { site } => done(self.give_all(*site as usize, out)),
            Line::Sync => self.sync_started(out),
            Line::Raw { site, bytes } => {
                done(self.give_frames(Version::One, *site, bytes.as_slice(), out))
            }
            Line::Raw2 { site, bytes } => {
                done(self.give_frames(Version::Two, *site, bytes.as_slice(), out))
            }
            Line::Show { site } => done(self.show(*site as usize, out)),
            Line::State { site } => done(self.show_state(*site, out)),
        }
    }

    // Delivers every message to each site, once sites are made.
    fn sync_started(&mut self, out: &mut Vec<u8>) -> Result<(), StepBad>
        ensures done { IsLineDone (steps_there Sync self.old) result self.old self.new out.old.items out.new.items }
        ensures needed { result ≡ Err StepBad.Memory → HasStep (steps_there Sync self.old) }
    {
        if !self.is_started() {
            return Err(StepBad::NoSites);
        }
        done(self.sync(out))
    }

    // A local command at the site.
    fn do_command(&mut self, at: usize, edit: Edit, out: &mut Vec<u8>) -> Result<(), StepBad>
        requires { at < length self.old.sites }
        ensures { IsLineDone (Ok (commanded at (made_by edit (site_at self.old at)) self.old)) result self.old self.new
            out.old.items out.new.items }
    {
        match self.command(at, &edit, out) {
            Ok(_) => Ok(()),
            Err(_) => Err(StepBad::Memory),
        }
    }

    // Whether sites were made.
    fn is_started(&self) -> bool
        ensures { result ≡ nat_lt 0 (length self.now.sites) }
    {
        !self.sites.is_empty()
    }

    // The place of the site of this number among the sites.
    fn place_of(&self, site: u16) -> Result<usize, StepBad>
        ensures { IsPlace self.now site result }
    {
        if !self.is_started() {
            return Err(StepBad::NoSites);
        }
        let at = site as usize;
        if at < self.sites.len() {
            Ok(at)
        } else {
            Err(StepBad::NoSite)
        }
    }

    // Makes the sites; no message is there.
    fn start(&mut self, count: u16) -> Result<(), StepBad>
        ensures { IsDone (opening count self.old) result self.old self.new }
    {
        if self.is_started() {
            return Err(StepBad::Twice);
        }
        if count > SITES {
            return Err(StepBad::NoSite);
        }
        match Sites::opened(*self.sites.allocator(), count) {
            Ok(opened) => {
                *self = opened;
                Ok(())
            }
            Err(_) => Err(StepBad::Memory),
        }
    }
}

// The sites of the numbers below `count`, which is at most `SITES`.
fn new_sites(alloc: Global, count: u16) -> Result<Vec<Site>, Memory>
    requires { count ≤ SITES }
    ensures { IfOk result (λ sites. map state_of sites.items ≡ new_sites 0 count) }
{
    let mut sites = Vec::new(alloc);
    for number in 0..count {
        match Site::new(alloc, number) {
            Ok(site) => {
                if sites.push(site).is_err() {
                    return Err(Memory);
                }
            }
            Err(memory) => return Err(memory),
        }
    }
    Ok(sites)
}

// That no message is known to be at any of so many sites.
fn none_known(alloc: Global, count: u16) -> Result<Vec<usize>, Memory>
    ensures { IfOk result (λ known. AreKnown (new_sites 0 count) known.items []) }
{
    match vec![in alloc; 0usize; count as usize] {
        Ok(known) => Ok(known),
        Err(_) => Err(Memory),
    }
}

// Whether steps of a line were done.
fn done(ending: Result<(), Memory>) -> Result<(), StepBad>
    ensures { result ≡ as_step ending }
{
    match ending {
        Ok(()) => Ok(()),
        Err(_) => Err(StepBad::Memory),
    }
}

// Nothing but what the types of a line's parts say: its text is characters, its bytes are bytes.
fn check_values(line: &Line)
    ensures { AreValues line.now }
{
    match line {
        Line::Ins { text, .. } | Line::Run { text, .. } => are_characters(text.as_slice()),
        Line::Raw { bytes, .. } | Line::Raw2 { bytes, .. } => are_bytes(bytes.as_slice()),
        Line::Blank
        | Line::Sites { .. }
        | Line::Nl { .. }
        | Line::Del { .. }
        | Line::Undo { .. }
        | Line::Redo { .. }
        | Line::Give { .. }
        | Line::All { .. }
        | Line::Sync
        | Line::Show { .. }
        | Line::State { .. } => {}
    }
}

fn are_characters(text: &[char])
    ensures { IsTrue (all_scalars text.now) }
{
    for ch in text {
        is_character(*ch);
    }
}

// Nothing but what the type of a character says.
fn is_character(ch: char)
    ensures { IsScalar ch }
{}

fn are_bytes(bytes: &[u8])
    ensures { (k : ℕ) → slice_index bytes.now k < 256 }
{}
