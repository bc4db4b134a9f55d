//! What a site does at once, and what is told of it: a local operation or a delivery, with the releases after it.

ghost use Rattle.std.specs.Prelude.{◌≡◌, ◌++◌, Err, IfOk, IfErr, OnOk, OnErr};
ghost use Rattle.context_diff.specs.Ops.{data_of};
ghost use Rattle.context_diff.specs.Operations.{IsWellFormed};
ghost use Rattle.cot_site.specs.Commands.{IsAnswer};
ghost use Rattle.cot_site.specs.Releases.{IsSound};
ghost use Rattle.cot_site.specs.Sites.{state_of};
ghost use Rattle.cot_site.specs.States.{judged};
ghost use Rattle.participant.specs.Edits.{made_by};
ghost use Rattle.participant.specs.Taking.{is_had};
ghost use Rattle.script_text.specs.Report.{op_text};
ghost use Rattle.session_replay.specs.Code.Doing.{AreDone, HasLetters, HasPlaceBehind, IsFront, IsTold, free_lines};
ghost use Rattle.session_replay.specs.Sessions.{taking_in, told_verdict};

use context_diff::Op;
use cot_site::{Local, Release, Site, Verdict};
use op_name::Memory;
use participant::{Edit, Stopped, Taking, do_edit, is_had, take_in};
use script_text::{Event, op_line, verdict_line};

/// Does a local command at the site, and tells its operation, as the message of this number, with the releases after it, of which
/// `released` is the list.
///
/// `Ok` where the operation was made, with whether all was told; `Err` says why there is none, and nothing was done then.
pub(crate) fn edit_and_tell(
    number: u32,
    edit: &Edit,
    site: &mut Site,
    released: &mut Vec<Release>,
    out: &mut Vec<u8>,
) -> Result<Result<(), Memory>, Local>
    ensures told { IfOk result (λ told. IsTold edit.now number told (state_of site.old) (state_of site.new) out.old.items out.new.items) }
    ensures refused { IfErr result (λ why. IsAnswer (made_by edit.now (state_of site.old)) (Err why)) }
    ensures state { OnErr result (state_of site.new ≡ state_of site.old) }
    ensures err { OnErr result (out.new.items ≡ out.old.items) }
    ensures sound { IsSound (state_of site.old) }
    ensures behind { IfOk result (λ told. OnOk told (HasPlaceBehind edit.now)) }
{
    site.known();
    check_letters(edit);
    released.clear();
    match do_edit(site, edit, released) {
        Ok(op) => {
            site.book().known();
            Ok(tell_made(number, &op, site.number(), released, out))
        }
        Err(Stopped::Unsettled) => Ok(Err(Memory)),
        Err(Stopped::Refused { why }) => Err(why),
    }
}

// Nothing but what the type of a local command's text says.
fn check_letters(edit: &Edit)
    ensures { HasLetters edit.now }
{
    match edit {
        Edit::Insert { text, .. } => text.known(),
        Edit::Delete { .. } | Edit::Undo { .. } | Edit::Redo { .. } => {}
    }
}

// Appends the lines of an operation that the site of this number made, and of the releases after it.
fn tell_made(
    number: u32,
    op: &Op,
    site: u16,
    released: &[Release],
    out: &mut Vec<u8>,
) -> Result<(), Memory>
    ensures ok { OnOk result (out.new.items ≡ out.old.items ++ (op_text number (data_of op.now) ++ free_lines site released.now)) }
    ensures err { OnErr result (IsFront out.old.items out.new.items) }
{
    op_line(number, op, out)?;
    tell_releases(site, released, out)
}

/// Delivers an operation, which is well formed, to the site, tells its verdict, and the releases after it, of which `released` is the
/// list. Where many messages are delivered at once, a repeat isn't told. Answers whether the verdict says that the history has the
/// operation then.
pub(crate) fn take_in_and_tell(
    many: bool,
    op: &mut Op,
    site: &mut Site,
    released: &mut Vec<Release>,
    out: &mut Vec<u8>,
) -> Result<bool, Memory>
    requires { IsWellFormed (data_of op.old) }
    ensures done { AreDone result (taking_in many (data_of op.old) (state_of site.old)) (state_of site.old) (state_of site.new)
        out.old.items out.new.items }
    ensures had { IfOk result (λ had. had ≡ is_had (judged (state_of site.old) (data_of op.old))) }
{
    released.clear();
    match take_in(site, op, Taking::All, released) {
        Ok(verdict) => {
            tell_taken(many, op, verdict, site.number(), released, out)?;
            Ok(is_had(&verdict))
        }
        Err(_) => Err(Memory),
    }
}

// Appends the lines of a verdict at the site of this number, and of the releases after the delivery.
fn tell_taken(
    many: bool,
    op: &Op,
    verdict: Verdict,
    site: u16,
    released: &[Release],
    out: &mut Vec<u8>,
) -> Result<(), Memory>
    requires { IsWellFormed (data_of op.now) }
    ensures ok { OnOk result (out.new.items
        ≡ out.old.items ++ (told_verdict many (data_of op.now) verdict site ++ free_lines site released.now)) }
    ensures err { OnErr result (IsFront out.old.items out.new.items) }
{
    tell_verdict(many, op, verdict, site, out)?;
    tell_releases(site, released, out)
}

// Appends the line of a verdict, but that of a repeat among many deliveries.
fn tell_verdict(
    many: bool,
    op: &Op,
    verdict: Verdict,
    site: u16,
    out: &mut Vec<u8>,
) -> Result<(), Memory>
    requires { IsWellFormed (data_of op.now) }
    ensures ok { OnOk result (out.new.items ≡ out.old.items ++ told_verdict many (data_of op.now) verdict site) }
    ensures err { OnErr result (out.new.items ≡ out.old.items) }
{
    if many && matches!(verdict, Verdict::Repeat) {
        return Ok(());
    }
    verdict_line(Event::Give, site, op.member(), verdict, out)
}

// Appends the line of each release at the site of this number. Out of memory, some lines may stand in `out`.
fn tell_releases(number: u16, released: &[Release], out: &mut Vec<u8>) -> Result<(), Memory>
    ensures ok { OnOk result (out.new.items ≡ out.old.items ++ free_lines number released.now) }
    ensures err { OnErr result (IsFront out.old.items out.new.items) }
{
    for release in released {
        verdict_line(Event::Free, number, release.member, release.verdict, out)?;
    }
    Ok(())
}
