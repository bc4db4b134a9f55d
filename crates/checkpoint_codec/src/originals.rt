//! Reading the originals of a checkpoint.

ghost use Rattle.std.specs.Prelude.{◌≡◌, IfOk};
ghost use Rattle.op_name.specs.declared.member.Member.TheVariants.{Original};
ghost use Rattle.context_vector.specs.Contexts.{raised, empty};
ghost use Rattle.wire_codec.specs.declared.cause.Cause.TheVariants as causes;
ghost use Rattle.wire_codec.specs.Reading.{tested, many};
ghost use Rattle.flat_history.specs.Checkpoints.{name_of, with_placed, with_all_placed};
ghost use Rattle.checkpoint_codec.specs.Reading.{start_at, is_next, insert_at, delete_at, rest_at, placed_at, originals_at};
ghost use Rattle.checkpoint_codec.specs.Code.Reads.{after, IsRead};

use crate::fields::{kind, name, place};
use crate::flaw::{Flaw, Stop};
use crate::left::Left;
use crate::placed::Placed;
use crate::texts::{text, text_len};
use context_vector::{AddBad, Vector};
use op_name::{Member, Name};
use std::alloc::Global;
use wire_codec::Cause;

#[tactic(auto, unfolding(crate::specs::Reading::start_at))]
fn start(left: &mut Left) -> Result<(u8, Name), Flaw>
    ensures { after result left.new ≡ start_at left.old }
{
    let kind = kind(left)?;
    let name = name(left)?;
    Ok((kind, name))
}

// The kind and the name of the next original of its site, which is known then.
fn next_start(left: &mut Left, known: &mut Vector) -> Result<(u8, Name), Stop>
    ensures read { IsRead (λ s. s) result left.new (tested (is_next known.old.set) causes.Own start_at left.old) }
    ensures known { IfOk result (λ s. known.new.set ≡ raised known.old.set (Original s.1)) }
{
    let offset = left.at();
    let (kind, name) = start(left)?;
    match known.add(&Member::Original(name)) {
        Ok(()) => Ok((kind, name)),
        Err(AddBad::NotNext { .. }) => Err(Stop::At(Flaw {
            cause: Cause::Own,
            offset,
        })),
        Err(AddBad::Memory) => Err(Stop::Memory),
    }
}

#[tactic(auto, unfolding(crate::specs::Reading::insert_at))]
fn insert(alloc: Global, left: &mut Left, kind: u8, name: Name) -> Result<Placed, Stop>
    ensures read { IsRead (λ e. e) result left.new (insert_at kind name left.old) }
    ensures name { IfOk result (λ e. name_of e ≡ name) }
{
    let place = place(left)?;
    let len = text_len(left, kind)?;
    let text = text(alloc, left, len)?;
    Ok(Placed::insert(name, place, text))
}

#[tactic(auto, unfolding(crate::specs::Reading::delete_at))]
fn delete(left: &mut Left, name: Name) -> Result<Placed, Stop>
    ensures read { IsRead (λ e. e) result left.new (delete_at name left.old) }
    ensures name { IfOk result (λ e. name_of e ≡ name) }
{
    let place = place(left)?;
    Ok(Placed::delete(name, place))
}

// What comes after a kind and a name.
fn rest(alloc: Global, left: &mut Left, kind: u8, name: Name) -> Result<Placed, Stop>
    ensures read { IsRead (λ e. e) result left.new (rest_at (kind, name) left.old) }
    ensures name { IfOk result (λ e. name_of e ≡ name) }
{
    if kind == 2 {
        delete(left, name)
    } else {
        insert(alloc, left, kind, name)
    }
}

// The next original, which is known then.
#[tactic(auto, unfolding(crate::specs::Reading::placed_at))]
fn placed(alloc: Global, left: &mut Left, known: &mut Vector) -> Result<Placed, Stop>
    ensures read { IsRead (λ e. e) result left.new (placed_at known.old.set left.old) }
    ensures known { IfOk result (λ e. known.new.set ≡ with_placed known.old.set e) }
{
    let (kind, name) = next_start(left, known)?;
    rest(alloc, left, kind, name)
}

// So many originals, which are known then.
fn placed_list(
    alloc: Global,
    left: &mut Left,
    known: &mut Vector,
    len: u32,
) -> Result<Vec<Placed>, Stop>
    ensures read { IsRead (λ v. v.items) result left.new (many placed_at with_placed len known.old.set left.old) }
    ensures known { IfOk result (λ v. known.new.set ≡ with_all_placed known.old.set v.items) }
{
    let mut list = Vec::new(alloc);
    for _ in 0..len {
        let next = placed(alloc, left, known)?;
        list.push(next)?;
    }
    Ok(list)
}

/// The originals, and before them how many they are. They are known then.
#[tactic(auto, unfolding(crate::specs::Reading::originals_at))]
pub(crate) fn originals(
    alloc: Global,
    left: &mut Left,
    known: &mut Vector,
) -> Result<Vec<Placed>, Stop>
    requires { known.old.set ≡ empty }
    ensures read { IsRead (λ v. v.items) result left.new (originals_at left.old) }
    ensures known { IfOk result (λ v. known.new.set ≡ with_all_placed empty v.items) }
{
    let len = left.number32()?;
    placed_list(alloc, left, known, len)
}
