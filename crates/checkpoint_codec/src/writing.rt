//! Checkpoints to bytes.

ghost use Rattle.std.specs.Prelude.{◌≡◌, ◌++◌, ◌<◌, ◌^◌, length, IfOk, OnOk, OnErr};
ghost use Rattle.std.specs.List.{flat_map};
ghost use Rattle.wire_codec.specs.declared.version.Version.TheVariants.{Two};
ghost use Rattle.wire_codec.specs.Spelling.{name_bytes, length_bytes, character_bytes, text_bytes};
ghost use Rattle.checkpoint_codec.specs.Spelling.{header, kind_of, rest_bytes, placed_bytes, undone_bytes, originals_bytes, names_bytes, fields_bytes, checkpoint_bytes};
ghost use Rattle.checkpoint_codec.specs.Spelled.{IsSpelled};

use crate::checkpoint::Checkpoint;
use crate::placed::Placed;
use crate::reading::header;
use context_diff::Letters;
use context_vector::Entry;
use op_name::{Memory, Name};
use std::alloc::Global;

fn put_name(out: &mut Vec<u8>, name: &Name) -> Result<(), Memory>
    ensures { OnOk result (out.new.items ≡ out.old.items ++ name_bytes Two name.now) }
{
    out.extend_from_slice(&name.site.to_be_bytes())?;
    out.extend_from_slice(&name.number.to_be_bytes())?;
    Ok(())
}

fn put_each_character(out: &mut Vec<u8>, chars: &[char]) -> Result<(), Memory>
    ensures { OnOk result (out.new.items ≡ out.old.items ++ flat_map character_bytes chars.now) }
{
    for ch in chars {
        out.extend_from_slice(&u32::from(*ch).to_be_bytes())?;
    }
    Ok(())
}

// How many characters follow, which isn't said of one.
fn put_length(out: &mut Vec<u8>, len: u16) -> Result<(), Memory>
    ensures { OnOk result (out.new.items ≡ out.old.items ++ length_bytes len) }
{
    if len != 1 {
        out.extend_from_slice(&len.to_be_bytes())?;
    }
    Ok(())
}

fn put_text(out: &mut Vec<u8>, text: &Letters) -> Result<(), Memory>
    ensures { OnOk result (out.new.items ≡ out.old.items ++ text_bytes text.now) }
{
    put_length(out, text.len())?;
    put_each_character(out, text.as_slice())
}

fn kind_of(placed: &Placed) -> u8
    ensures { result ≡ kind_of placed.now }
{
    match placed.text() {
        Some(text) => if text.len() == 1 { 1 } else { 4 },
        None => 2,
    }
}

// The place, and the text of an insert.
fn put_rest(out: &mut Vec<u8>, placed: &Placed) -> Result<(), Memory>
    ensures { OnOk result (out.new.items ≡ out.old.items ++ rest_bytes placed.now) }
{
    out.extend_from_slice(&placed.place().to_be_bytes())?;
    match placed.text() {
        Some(text) => put_text(out, text),
        None => Ok(()),
    }
}

fn put_placed(out: &mut Vec<u8>, placed: &Placed) -> Result<(), Memory>
    ensures { OnOk result (out.new.items ≡ out.old.items ++ placed_bytes placed.now) }
{
    out.extend_from_slice(&[kind_of(placed)])?;
    put_name(out, &placed.name())?;
    put_rest(out, placed)
}

fn put_each_original(out: &mut Vec<u8>, originals: &[Placed]) -> Result<(), Memory>
    ensures { OnOk result (out.new.items ≡ out.old.items ++ flat_map placed_bytes originals.now) }
{
    for placed in originals {
        put_placed(out, placed)?;
    }
    Ok(())
}

fn put_originals(out: &mut Vec<u8>, originals: &[Placed]) -> Result<(), Memory>
    requires { length originals.now < 2 ^ 32 }
    ensures { OnOk result (out.new.items ≡ out.old.items ++ originals_bytes originals.now) }
{
    let len = originals.len() as u32;
    out.extend_from_slice(&len.to_be_bytes())?;
    put_each_original(out, originals)
}

fn put_undone(out: &mut Vec<u8>, entry: &Entry) -> Result<(), Memory>
    ensures { OnOk result (out.new.items ≡ out.old.items ++ undone_bytes entry.now) }
{
    put_name(out, &entry.name())?;
    out.extend_from_slice(&entry.generation().to_be_bytes())?;
    Ok(())
}

fn put_each_name(out: &mut Vec<u8>, undone: &[Entry]) -> Result<(), Memory>
    ensures { OnOk result (out.new.items ≡ out.old.items ++ flat_map undone_bytes undone.now) }
{
    for entry in undone {
        put_undone(out, entry)?;
    }
    Ok(())
}

fn put_names(out: &mut Vec<u8>, undone: &[Entry]) -> Result<(), Memory>
    requires { length undone.now < 2 ^ 32 }
    ensures { OnOk result (out.new.items ≡ out.old.items ++ names_bytes undone.now) }
{
    let len = undone.len() as u32;
    out.extend_from_slice(&len.to_be_bytes())?;
    put_each_name(out, undone)
}

// The bytes of the checkpoint, in a list of their own.
fn spelling(alloc: Global, checkpoint: &Checkpoint) -> Result<Vec<u8>, Memory>
    requires { IsSpelled checkpoint.now }
    ensures { IfOk result (λ v. v.items ≡ checkpoint_bytes checkpoint.now) }
{
    let mut bytes = Vec::from_slice(alloc, header())?;
    put_originals(&mut bytes, checkpoint.originals())?;
    put_names(&mut bytes, checkpoint.undone())?;
    Ok(bytes)
}

/// Appends the one spelling of a checkpoint, which has to have one.
///
/// On `Memory` nothing is appended: the bytes are made aside first.
pub fn write_checkpoint(
    alloc: Global,
    checkpoint: &Checkpoint,
    out: &mut Vec<u8>,
) -> Result<(), Memory>
    requires { IsSpelled checkpoint.now }
    ensures ok { OnOk result (out.new.items ≡ out.old.items ++ checkpoint_bytes checkpoint.now) }
    ensures err { OnErr result (out.new.items ≡ out.old.items) }
{
    let bytes = spelling(alloc, checkpoint)?;
    out.extend_from_slice(bytes.as_slice())?;
    Ok(())
}
