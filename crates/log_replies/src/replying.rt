//! Commands that load their input as a log, and write one reply to it.

ghost use Rattle.std.specs.Prelude.{◌≡◌, ◌⊎◌, ◌+◌, ◌<◌, ℕ, List, drop, IfOk, IfSome, OnOk, OnErr, IsErrOf, Ok, false};
ghost use Rattle.std.specs.Io.KnownBytes.{IsAtEnd};
ghost use Rattle.outside_io.specs.Faults.{Rose};
ghost use Rattle.outside_io.specs.Reading.{LosesFront};
ghost use Rattle.cot_site.specs.States.{State};
ghost use Rattle.cot_site.specs.Sites.{state_of};
ghost use Rattle.script_text.specs.Report.{Report};
ghost use Rattle.log_replies.specs.Outside.{told};
ghost use Rattle.log_replies.specs.Answers.{IsAppended, IsAnswered};
ghost use Rattle.log_replies.specs.Replies.{RepliesToLogBy};

use crate::loaded::load_input;
use crate::status::Status;
use cot_site::Site;
use op_name::{Memory, SITES};
use outside_io::{Failed, MAX_INPUT, ReadBad, Sink, Source, write_whole};
use std::alloc::Global;

/// A command that loads its input as a log, and replies to the site.
pub trait Replies {
    /// What may be replied to these bytes.
    ghost replies: { Self → List ℕ → Report → Type 0 };

    /// The number of the site that is loaded.
    ghost number: { Self → ℕ };

    /// What may be replied to a site in this state.
    ghost replies_to: { Self → State → Report → Type 0 };

    /// Whether the parts of the command are in range.
    ghost in_range: { Self → Type 0 };

    /// The number of the site that is loaded.
    fn site(&self) -> u16
        requires { in_range self.now }
        ensures number { result ≡ number self.now }
        ensures below { result < SITES };

    /// Appends the reply to the site that was loaded, and may change the site. Answers whether it refuses something.
    fn reply(&self, alloc: Global, site: &mut Site, out: &mut Vec<u8>) -> Result<bool, Memory>
        ensures { IfOk result (λ refused. IsAppended (replies_to self.now) refused (state_of site.old) out.old.items out.new.items) };

    /// Bytes that are refused as a log are replied by their line, and others by a reply to the site that they give.
    ghost by_log: { (c : Self) (bytes : List ℕ) (reply : Report) → RepliesToLogBy (number c) (replies_to c) bytes reply
        → replies c bytes reply };
}

/// Reads the input to its end, at most `MAX_INPUT` bytes, and writes the reply of the command.
pub fn answer<C: Replies, S: Source, K: Sink>(
    alloc: Global,
    command: &C,
    source: &mut S,
    sink: &mut K,
) -> Status
    requires { C.in_range command.now }
    ensures answer { IsAnswered (C.replies command.now)
        (told (S.left source.old) (S.faults source.old) (K.held sink.old) (K.faults sink.old))
        (told (S.left source.new) (S.faults source.new) (K.held sink.new) (K.faults sink.new))
        result }
    ensures untouched { (result ≡ Status.ReadFault) ⊎ (result ≡ Status.Memory) → sink.new ≡ sink.old }
{
    let mut out = Vec::new(alloc);
    let refused = match reply_to_input(alloc, command, source, &mut out) {
        Ok(refused) => refused,
        Err(ReadBad::Fault) => return Status::ReadFault,
        Err(ReadBad::Memory) => return Status::Memory,
    };
    match write_whole(sink, &out) {
        Ok(()) if refused => Status::Refused,
        Ok(()) => Status::Done,
        Err(Failed) => Status::WriteFault,
    }
}

// Appends the reply of the command to the input, which is read to its end, at most `MAX_INPUT` bytes. Answers whether it
// refuses something.
fn reply_to_input<C: Replies, S: Source>(
    alloc: Global,
    command: &C,
    source: &mut S,
    out: &mut Vec<u8>,
) -> Result<bool, ReadBad>
    requires { C.in_range command.now }
    ensures reply { IfOk result (λ refused. IfSome (S.left source.old) (λ bytes.
        IsAppended (C.replies command.now) refused bytes out.old.items out.new.items)) }
    ensures ended { result ≡ Ok false → IsAtEnd (S.left source.new) }
    ensures rest { OnOk result (IfSome (S.left source.old) (λ bytes. S.left source.new ≡ Some (drop (MAX_INPUT + 1) bytes))) }
    ensures lost { OnErr result (LosesFront (MAX_INPUT + 1) (S.left source.old) (S.left source.new)) }
    ensures fault { IsErrOf result ReadBad.Fault → Rose (S.faults source.old) (S.faults source.new) }
    ensures no_fault { (IsErrOf result ReadBad.Fault → ⊥) → S.faults source.new ≡ S.faults source.old }
{
    match load_input(alloc, command.site(), source, out) {
        Ok(Some(site)) => match reply_to_site(alloc, command, site, out) {
            Ok(refused) => Ok(refused),
            Err(Memory) => Err(ReadBad::Memory),
        },
        Ok(None) => Ok(true),
        Err(why) => Err(why),
    }
}

// Appends the reply to the site, which is given up.
fn reply_to_site<C: Replies>(
    alloc: Global,
    command: &C,
    site: Site,
    out: &mut Vec<u8>,
) -> Result<bool, Memory>
    ensures { IfOk result (λ refused. IsAppended (C.replies_to command.now) refused (state_of site) out.old.items out.new.items) }
{
    let mut site = site;
    command.reply(alloc, &mut site, out)
}
