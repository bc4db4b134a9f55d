//! Local commands: an operation becomes the next message, and a refusal is reported.

ghost use Rattle.std.specs.Prelude.{◌≡◌, ◌≢◌, ◌++◌, ◌+◌, ◌<◌, ◌≤◌, true, IfOk, OnOk, OnErr, length, vec_len, vec_capacity};
ghost use Rattle.std.specs.Result.{is_ok};
ghost use Rattle.op_name.specs.declared.limits.TheConstants.{LETTERS};
ghost use Rattle.context_diff.specs.declared.op.TheConstants.{PLACES};
ghost use Rattle.cot_site.specs.Commands.{local_run};
ghost use Rattle.participant.specs.Edits.{made_by};
ghost use Rattle.script_text.specs.Verdicts.{local_text};
ghost use Rattle.session_replay.specs.Sessions.{site_at};
ghost use Rattle.session_replay.specs.LineSteps.{commanded, typed};
ghost use Rattle.session_replay.specs.Code.Doing.{AreDone, HasPlaceBehind};
ghost use Rattle.session_replay.specs.Code.Typing.{parts};

use crate::message::Message;
use crate::releases::edit_and_tell;
use crate::sites::Sites;
use crate::sites::deliveries::still_known;
use context_diff::Letters;
use cot_site::Local;
use op_name::Memory;
use participant::Edit;
use script_text::local_line;

impl Sites {
    // Inserts a text at the site, cut from the front into parts of `size` characters and a shorter last one: the first at shown place
    // `from`, each other one behind the part before it, until one is refused.
    pub(super) fn type_text(
        &mut self,
        at: usize,
        from: u32,
        text: &[char],
        size: usize,
        out: &mut Vec<u8>,
    ) -> Result<(), Memory>
        requires site { at < length self.old.sites }
        requires some { 1 ≤ size }
        requires most { size ≤ LETTERS }
        ensures done { AreDone result (typed at from (parts size text.now) self.old) self.old self.new out.old.items out.new.items }
        ensures needed { OnErr result (0 < length text.now) }
    {
        let mut place = from;
        let mut rest = text;
        while !rest.is_empty() {
            let (part, behind) = rest.split_at(size.min(rest.len()));
            if !self.type_part(at, place, part, out)? {
                return Ok(());
            }
            place += part.len() as u32;
            rest = behind;
        }
        Ok(())
    }

    // Inserts these characters at the site, by one operation. Answers whether it was made.
    fn type_part(
        &mut self,
        at: usize,
        place: u32,
        part: &[char],
        out: &mut Vec<u8>,
    ) -> Result<bool, Memory>
        requires site { at < length self.old.sites }
        requires some { 1 ≤ length part.now }
        requires most { length part.now ≤ LETTERS }
        ensures done { AreDone result (commanded at (local_run (site_at self.old at) place part.now) self.old) self.old self.new
            out.old.items out.new.items }
        ensures made { IfOk result (λ more. more ≡ is_ok (local_run (site_at self.old at) place part.now)) }
        ensures behind { IfOk result (λ more. more ≡ true → place + length part.now ≤ PLACES) }
        ensures sites { length self.new.sites ≡ length self.old.sites }
    {
        let alloc = *self.sites.allocator();
        match Letters::new(alloc, part) {
            Ok(text) => self.command(at, &Edit::Insert { place, text }, out),
            Err(_) => Err(Memory),
        }
    }

    // Does a local command at the site. Answers whether it made an operation.
    pub(super) fn command(
        &mut self,
        at: usize,
        edit: &Edit,
        out: &mut Vec<u8>,
    ) -> Result<bool, Memory>
        requires { at < length self.old.sites }
        ensures done { AreDone result (commanded at (made_by edit.now (site_at self.old at)) self.old) self.old self.new
            out.old.items out.new.items }
        ensures made { IfOk result (λ more. more ≡ is_ok (made_by edit.now (site_at self.old at))) }
        ensures behind { IfOk result (λ more. more ≡ true → HasPlaceBehind edit.now) }
        ensures sites { length self.new.sites ≡ length self.old.sites }
    {
        make_room(&mut self.messages)?;
        let number = self.messages.len() as u32;
        let place = self.sites[at].book().len();
        match edit_and_tell(number, edit, &mut self.sites[at], &mut self.released, out) {
            Ok(told) => {
                self.messages.push_reserved(Message {
                    site: at as u16,
                    place,
                });
                self.known[at] = still_known(told.is_ok(), self.known[at]);
                match told {
                    Ok(()) => Ok(true),
                    Err(memory) => Err(memory),
                }
            }
            Err(why) => match refuse(why, out) {
                Ok(()) => Ok(false),
                Err(memory) => Err(memory),
            },
        }
    }
}

// Makes room for one more message. Numbers of messages have 32 bits.
fn make_room(messages: &mut Vec<Message>) -> Result<(), Memory>
    ensures same { messages.new.items ≡ messages.old.items }
    ensures room { OnOk result (vec_len messages.new < vec_capacity messages.new) }
    ensures number { OnOk result (length messages.old.items < 4294967295) }
{
    if messages.len() >= u32::MAX as usize {
        return Err(Memory);
    }
    match messages.reserve(1) {
        Ok(()) => Ok(()),
        Err(_) => Err(Memory),
    }
}

// Tells a refusal; out of memory isn't told.
fn refuse(why: Local, out: &mut Vec<u8>) -> Result<(), Memory>
    ensures told { OnOk result (why ≢ Local.Memory) }
    ensures ok { OnOk result (out.new.items ≡ out.old.items ++ local_text why) }
    ensures err { OnErr result (out.new.items ≡ out.old.items) }
{
    match why {
        Local::Memory => Err(Memory),
        _ => local_line(why, out),
    }
}
