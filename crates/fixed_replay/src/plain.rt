//! The text of a list of operations, computed step by step in the words of its definition.
//!
//! This is a yardstick: it is slow, it has no state, and no transformed form occurs in it. It answers for
//! every list of operations, also for one that no site could have integrated.

ghost use Rattle.std.specs.Prelude.{◌≡◌, ◌++◌, IfOk, OnOk, map, string_bytes, encode_utf8, encode_utf8_all};
ghost use Rattle.context_diff.specs.Ops.{data_of};
ghost use Rattle.context_diff.specs.Replays.{characters_of, text_of};

use context_diff::Op;
use op_name::Memory;
use std::alloc::Global;

mod cells;
mod order;
mod places;
mod shown;

use order::fixed_order;
use places::replay;
use shown::shown_characters;

/// The text that the operations show, in UTF-8 (RFC 3629).
pub fn plain_text(alloc: Global, ops: &[Op]) -> Result<String, Memory>
    ensures { IfOk result (λ s. string_bytes s ≡ text_of (map data_of ops.now)) }
{
    let characters = plain_characters(alloc, ops)?;
    encoded(alloc, characters.as_slice())
}

/// The characters that the operations show.
pub fn plain_characters(alloc: Global, ops: &[Op]) -> Result<Vec<char>, Memory>
    ensures { IfOk result (λ cs. cs.items ≡ characters_of (map data_of ops.now)) }
{
    let order = fixed_order(alloc, ops)?;
    let cells = replay(alloc, order.as_slice())?;
    shown_characters(alloc, ops, cells.as_slice())
}

// The characters in UTF-8.
fn encoded(alloc: Global, characters: &[char]) -> Result<String, Memory>
    ensures { IfOk result (λ s. string_bytes s ≡ encode_utf8_all characters.now) }
{
    let mut text = String::new(alloc);
    for ch in characters {
        push(&mut text, *ch)?;
    }
    Ok(text)
}

fn push(text: &mut String, ch: char) -> Result<(), Memory>
    ensures { OnOk result (string_bytes text.new ≡ string_bytes text.old ++ encode_utf8 ch) }
{
    text.push(ch)?;
    Ok(())
}
