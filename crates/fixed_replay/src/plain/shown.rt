//! Which cells are shown, and their characters.

ghost use Rattle.std.specs.Prelude.{◌≡◌, IfOk, OnOk, ◌∷◌, ◌++◌, [], map, slice_index_or};
ghost use Rattle.std.specs.List.{list_any};
ghost use Rattle.op_name.specs.declared.member.Member.TheVariants.{Original};
ghost use Rattle.context_vector.specs.Contexts.{has};
ghost use Rattle.context_diff.specs.Ops.{data_of};
ghost use Rattle.context_diff.specs.Histories.{generation_at, generation_in, in_force};
ghost use Rattle.context_diff.specs.Replays.{replay_of, seen, stands_at, covers, is_shown, character_in, characters_of};
ghost use Rattle.fixed_replay.specs.Code.PlainCells.{characters_among};

use super::cells::CellName;
use context_diff::{Letters, Op};
use context_vector::Vector;
use op_name::{Memory, Name};
use std::alloc::Global;

/// The characters of the shown ones of the cells, which are those of the replay.
pub fn shown_characters(alloc: Global, ops: &[Op], cells: &[CellName]) -> Result<Vec<char>, Memory>
    requires { cells.now ≡ replay_of (map data_of ops.now) }
    ensures { IfOk result (λ cs. cs.items ≡ characters_of (map data_of ops.now)) }
{
    let mut characters = Vec::new(alloc);
    for cell in cells {
        add_shown(ops, cells, cell, &mut characters)?;
    }
    Ok(characters)
}

// Adds the character of the cell, if it is shown.
fn add_shown(
    ops: &[Op],
    cells: &[CellName],
    cell: &CellName,
    characters: &mut Vec<char>,
) -> Result<(), Memory>
    requires { cells.now ≡ replay_of (map data_of ops.now) }
    ensures { OnOk result (characters.new.items ≡ characters.old.items ++ characters_among (map data_of ops.now) (cell.now ∷ [])) }
{
    if is_shown(ops, cells, cell) {
        add(characters, character_in(ops, cell))
    } else {
        Ok(())
    }
}

fn add(characters: &mut Vec<char>, ch: char) -> Result<(), Memory>
    ensures { OnOk result (characters.new.items ≡ characters.old.items ++ ch ∷ []) }
{
    match characters.push(ch) {
        Ok(()) => Ok(()),
        Err(_) => Err(Memory),
    }
}

// Whether the cell's insert is in force and no delete in force hits the cell.
fn is_shown(ops: &[Op], cells: &[CellName], cell: &CellName) -> bool
    requires { cells.now ≡ replay_of (map data_of ops.now) }
    ensures { result ≡ is_shown (map data_of ops.now) cell.now }
{
    in_force(ops, cell.name()) && !is_covered(ops, cells, cell)
}

// Whether a delete in force hits the cell.
fn is_covered(ops: &[Op], cells: &[CellName], cell: &CellName) -> bool
    requires { cells.now ≡ replay_of (map data_of ops.now) }
    ensures { result ≡ list_any (covers (map data_of ops.now) cell.now) (map data_of ops.now) }
{
    for op in ops {
        if covers(ops, cells, cell, op) {
            return true;
        }
    }
    false
}

// Whether the operation is a delete that is in force and hits the cell.
fn covers(ops: &[Op], cells: &[CellName], cell: &CellName, op: &Op) -> bool
    requires { cells.now ≡ replay_of (map data_of ops.now) }
    ensures { result ≡ covers (map data_of ops.now) cell.now (data_of op.now) }
{
    match op {
        Op::Delete {
            name,
            place,
            context,
        } => in_force(ops, name) && hits(*place, context, cells, cell),
        Op::Insert { .. } | Op::Undo { .. } => false,
    }
}

// Whether the cell stands at this place among those cells that the context holds.
fn hits(place: u32, context: &Vector, cells: &[CellName], cell: &CellName) -> bool
    ensures { result ≡ stands_at place (seen (λ n. has context.now.set (Original n)) cells.now) cell.now }
{
    let mut before = place;
    for other in cells {
        if other.is_in(context) {
            if before == 0 {
                return other.is(cell);
            }
            before -= 1;
        }
    }
    false
}

// Whether the original is not undone, or redone.
fn in_force(ops: &[Op], name: &Name) -> bool
    ensures { result ≡ in_force (map data_of ops.now) name.now }
{
    generation_in(ops, name) % 2 == 0
}

// The greatest generation of an undo of this original, 0 if there is none.
fn generation_in(ops: &[Op], name: &Name) -> u16
    ensures { result ≡ generation_in (map data_of ops.now) name.now }
{
    let mut greatest = 0;
    for op in ops {
        let generation = generation_at(op, name);
        if generation > greatest {
            greatest = generation;
        }
    }
    greatest
}

// The generation of an undo of this original, 0 for any other operation.
fn generation_at(op: &Op, name: &Name) -> u16
    ensures { result ≡ generation_at (data_of op.now) name.now }
{
    match op {
        Op::Undo {
            target,
            generation,
            ..
        } if target == name => *generation,
        _ => 0,
    }
}

// The character of the cell; 0 where no insert has its name.
fn character_in(ops: &[Op], cell: &CellName) -> char
    ensures { result ≡ character_in (map data_of ops.now) cell.now }
{
    for op in ops {
        if let Op::Insert { name, text, .. } = op {
            if cell.is_of(name) {
                return character_at(text, cell.offset());
            }
        }
    }
    '\0'
}

// The character of the text at the offset; 0 past its end.
fn character_at(text: &Letters, offset: u16) -> char
    ensures { result ≡ slice_index_or text.now offset 0 }
{
    let characters = text.as_slice();
    let offset = usize::from(offset);
    if offset < characters.len() {
        characters[offset]
    } else {
        '\0'
    }
}
