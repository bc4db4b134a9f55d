//! Reading the undone names of a checkpoint.

ghost use Rattle.std.specs.Prelude.{◌≡◌, ◌+◌, ◌≤◌, IfOk};
ghost use Rattle.wire_codec.specs.Reading.{many};
ghost use Rattle.checkpoint_codec.specs.Reading.{is_above, undone_name_at, generation_at, undone_at, no_name, last_after, names_at};
ghost use Rattle.checkpoint_codec.specs.Code.Reads.{after, IsRead};

use crate::fields::name;
use crate::flaw::{Flaw, Stop};
use crate::left::{Left, check};
use context_diff::UNDO_ENTRIES;
use context_vector::{Entry, Vector};
use op_name::{Member, Name};
use std::alloc::Global;
use wire_codec::Cause;

/// What the greatest generations of the undone names of a checkpoint may add up to.
pub const GROUPS: u32 = 1_000_000;

/// What stands before an undone name: the one before it, if there is one, and what the generations add up to so far.
#[derive(Clone, Copy)]
pub(crate) struct Last {
    name: Option<Name>,
    sum: u32,
}

fn is_above(last: &Option<Name>, name: &Name) -> bool
    ensures { result ≡ is_above last.now name.now }
{
    match last {
        None => true,
        Some(before) => before.is_before(name),
    }
}

// A name above the last one, and one of the originals.
fn undone_name(left: &mut Left, known: &Vector, last: &Option<Name>) -> Result<Name, Flaw>
    ensures { after result left.new ≡ undone_name_at known.now.set last.now left.old }
{
    let start = left.at();
    let name = name(left)?;
    check(is_above(last, &name), Cause::Order, start)?;
    check(known.contains(&Member::Original(name)), Cause::Stray, start)?;
    Ok(name)
}

// A generation; those before it add up to `sum`.
fn generation(left: &mut Left, sum: u32) -> Result<u16, Flaw>
    requires { sum ≤ GROUPS }
    ensures read { after result left.new ≡ generation_at sum left.old }
    ensures few { IfOk result (λ g. sum + g ≤ GROUPS) }
{
    let start = left.at();
    let generation = left.number16()?;
    check(generation > 0, Cause::Zero, start)?;
    check(sum + u32::from(generation) <= GROUPS, Cause::Range, start)?;
    Ok(generation)
}

#[tactic(auto, unfolding(crate::specs::Reading::undone_at))]
fn undone(left: &mut Left, known: &Vector, last: &Last) -> Result<(Name, u16), Flaw>
    requires { last.now.sum ≤ GROUPS }
    ensures read { after result left.new ≡ undone_at known.now.set last.now left.old }
    ensures few { IfOk result (λ e. last.now.sum + e.1 ≤ GROUPS) }
{
    let name = undone_name(left, known, &last.name)?;
    let generation = generation(left, last.sum)?;
    Ok((name, generation))
}

// So many undone names with their generations.
fn undone_list(alloc: Global, left: &mut Left, known: &Vector, len: u32) -> Result<Vec<Entry>, Stop>
    ensures { IsRead (λ v. v.items) result left.new (many (undone_at known.now.set) last_after len no_name left.old) }
{
    let mut list = Vec::new(alloc);
    let mut last = Last { name: None, sum: 0 };
    for _ in 0..len {
        let (name, generation) = undone(left, known, &last)?;
        list.push(Entry::new(name, generation))?;
        last = Last {
            name: Some(name),
            sum: last.sum + u32::from(generation),
        };
    }
    Ok(list)
}

/// The undone names, which are originals that are known, and before them how many they are.
#[tactic(auto, unfolding(crate::specs::Reading::names_at))]
pub(crate) fn names(alloc: Global, left: &mut Left, known: &Vector) -> Result<Vec<Entry>, Stop>
    ensures { IsRead (λ v. v.items) result left.new (names_at known.now.set left.old) }
{
    let len = left.bounded32(0, UNDO_ENTRIES, Cause::Range)?;
    undone_list(alloc, left, known, len)
}
