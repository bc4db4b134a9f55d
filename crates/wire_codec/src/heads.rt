//! Reading names, and the fields before a context.

ghost use Rattle.std.specs.Prelude.{◌≡◌, ◌<◌, IfOk};
ghost use Rattle.wire_codec.specs.Reading.{after, site_at, number_at, place_at, generation_at, name_at, insert_at, delete_at, undo_at, fields_at, head_at};

use crate::cause::Cause;
use crate::fault::Fault;
use crate::head::Head;
use crate::left::{Left, check};
use crate::limits::{SITES_OF_ONE, SITES_OF_TWO};
use crate::texts::{characters_of, text_len};
use crate::version::Version;
use op_name::{NUMBERS, Name};

pub(crate) fn site(left: &mut Left, version: Version) -> Result<u16, Fault>
    ensures read { after result left.new ≡ site_at version left.old }
    ensures within { IfOk result (λ s. s < SITES_OF_TWO) }
{
    match version {
        Version::One => {
            let site = left.bounded8(0, SITES_OF_ONE as u8 - 1, Cause::Range)?;
            Ok(u16::from(site))
        }
        Version::Two => left.bounded16(0, SITES_OF_TWO - 1, Cause::Range),
    }
}

#[tactic(auto, unfolding(crate::specs::Reading::name_at))]
pub(crate) fn name(left: &mut Left, version: Version) -> Result<Name, Fault>
    ensures { after result left.new ≡ name_at version left.old }
{
    let site = site(left, version)?;
    let number = left.bounded32(1, NUMBERS, Cause::Range)?;
    Ok(Name { site, number })
}

fn place(left: &mut Left) -> Result<u32, Fault>
    ensures { after result left.new ≡ place_at left.old }
{
    left.number32()
}

fn generation(left: &mut Left) -> Result<u16, Fault>
    ensures { after result left.new ≡ generation_at left.old }
{
    let start = left.at();
    let generation = left.number16()?;
    check(generation > 0, Cause::Range, start)?;
    Ok(generation)
}

#[tactic(auto, unfolding(crate::specs::Reading::insert_at))]
fn insert<'a>(left: &mut Left<'a>, version: Version, kind: u8) -> Result<Head<'a>, Fault>
    ensures { after result left.new ≡ insert_at version kind left.old }
{
    let name = name(left, version)?;
    let place = place(left)?;
    let len = text_len(left, kind)?;
    let text = characters_of(left, len)?;
    Ok(Head::Insert(name, place, text))
}

#[tactic(auto, unfolding(crate::specs::Reading::delete_at))]
fn delete<'a>(left: &mut Left<'a>, version: Version) -> Result<Head<'a>, Fault>
    ensures { after result left.new ≡ delete_at version left.old }
{
    let name = name(left, version)?;
    let place = place(left)?;
    Ok(Head::Delete(name, place))
}

#[tactic(auto, unfolding(crate::specs::Reading::undo_at))]
fn undo<'a>(left: &mut Left<'a>, version: Version) -> Result<Head<'a>, Fault>
    ensures { after result left.new ≡ undo_at version left.old }
{
    let author = site(left, version)?;
    let target = name(left, version)?;
    let generation = generation(left)?;
    Ok(Head::Undo(author, target, generation))
}

/// The fields before the context.
#[tactic(auto, unfolding(crate::specs::Reading::head_at))]
pub(crate) fn head<'a>(left: &mut Left<'a>, version: Version) -> Result<Head<'a>, Fault>
    ensures { after result left.new ≡ head_at version left.old }
{
    let kind = left.bounded8(1, 4, Cause::Kind)?;
    match kind {
        2 => delete(left, version),
        3 => undo(left, version),
        _ => insert(left, version, kind),
    }
}
