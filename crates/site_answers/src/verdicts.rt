//! The words of verdicts on operations that others made.

ghost use Rattle.std.specs.Prelude.{◌≡◌, ◌++◌, OnOk, OnErr, codes, decimal, length, take};
ghost use Rattle.site_answers.specs.Names.{member_text};
ghost use Rattle.site_answers.specs.Words.{forged_text, verdict_text};

use crate::members::{put_member, put_name};
use crate::put;
use crate::verdict::Verdict;
use op_name::{Member, Memory, Name};

/// Appends a verdict and the operation's member, with what the verdict names; a forged operation is named by its
/// name. A refused call leaves `out` as it was.
pub fn put_verdict(member: Member, verdict: Verdict, out: &mut Vec<u8>) -> Result<(), Memory>
    ensures ok { OnOk result (out.new.items ≡ out.old.items ++ verdict_text member verdict) }
    ensures err { OnErr result (out.new.items ≡ out.old.items) }
{
    let start = out.len();
    let done = verdict_parts(member, verdict, out);
    put::take_back(out, start, done)
}

// The same, but a refused call may leave some of it after what `out` held.
fn verdict_parts(member: Member, verdict: Verdict, out: &mut Vec<u8>) -> Result<(), Memory>
    ensures ok { OnOk result (out.new.items ≡ out.old.items ++ verdict_text member verdict) }
    ensures err { OnErr result (take (length out.old.items) out.new.items ≡ out.old.items) }
{
    match verdict {
        Verdict::Repeat => told_parts(b"repeat ", member, out),
        Verdict::Forged { name } => forged_parts(name, out),
        Verdict::Waits { missing } => waits_parts(member, missing, out),
        Verdict::NotClosed { site } => not_closed_parts(member, site, out),
        Verdict::PlaceOut { place, cells } => place_out_parts(member, place, cells, out),
        Verdict::Integrated => told_parts(b"integrated ", member, out),
    }
}

// A word and the member.
fn told_parts(word: &[u8], member: Member, out: &mut Vec<u8>) -> Result<(), Memory>
    ensures ok { OnOk result (out.new.items ≡ out.old.items ++ (word.now ++ member_text member)) }
    ensures err { OnErr result (take (length out.old.items) out.new.items ≡ out.old.items) }
{
    put::text(out, word)?;
    put_member(member, out)
}

// `forged NAME`
fn forged_parts(name: Name, out: &mut Vec<u8>) -> Result<(), Memory>
    ensures ok { OnOk result (out.new.items ≡ out.old.items ++ forged_text name) }
    ensures err { OnErr result (take (length out.old.items) out.new.items ≡ out.old.items) }
{
    put::text(out, b"forged ")?;
    put_name(name, out)
}

// `waits MEMBER MISSING`
fn waits_parts(member: Member, missing: Member, out: &mut Vec<u8>) -> Result<(), Memory>
    ensures ok { OnOk result (out.new.items
        ≡ out.old.items ++ (codes "waits " ++ (member_text member ++ (codes " " ++ member_text missing)))) }
    ensures err { OnErr result (take (length out.old.items) out.new.items ≡ out.old.items) }
{
    put::text(out, b"waits ")?;
    put_member(member, out)?;
    put::text(out, b" ")?;
    put_member(missing, out)
}

// `notclosed MEMBER SITE`
fn not_closed_parts(member: Member, site: u16, out: &mut Vec<u8>) -> Result<(), Memory>
    ensures ok { OnOk result (out.new.items
        ≡ out.old.items ++ (codes "notclosed " ++ (member_text member ++ (codes " " ++ decimal site)))) }
    ensures err { OnErr result (take (length out.old.items) out.new.items ≡ out.old.items) }
{
    put::text(out, b"notclosed ")?;
    put_member(member, out)?;
    put::number(out, b" ", u64::from(site))
}

// `placeout MEMBER PLACE CELLS`
fn place_out_parts(member: Member, place: u32, cells: u32, out: &mut Vec<u8>) -> Result<(), Memory>
    ensures ok { OnOk result (out.new.items
        ≡ out.old.items ++ (codes "placeout " ++ (member_text member ++ (codes " " ++ (decimal place ++ (codes " " ++ decimal cells)))))) }
    ensures err { OnErr result (take (length out.old.items) out.new.items ≡ out.old.items) }
{
    put::text(out, b"placeout ")?;
    put_member(member, out)?;
    put::number(out, b" ", u64::from(place))?;
    put::number(out, b" ", u64::from(cells))
}
