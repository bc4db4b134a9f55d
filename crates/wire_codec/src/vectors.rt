//! Texts and contexts of their own from lent ones.

ghost use Rattle.std.specs.Prelude.{◌≡◌, ◌∷◌, [], IfOk, IfSome};
ghost use Rattle.context_vector.specs.Contexts.{AreCounts};
ghost use Rattle.context_diff.specs.Operations.{IsInRange, IsLetters};
ghost use Rattle.context_diff.specs.Ops.{data_of};
ghost use Rattle.wire_codec.specs.Code.Lent.{context_seen, op_seen};

use crate::head::Head;
use crate::rules::{LentContext, LentOp};
use crate::runs::with_entries;
use crate::sections::Counts;
use crate::texts::Characters;
use context_diff::{Letters, LettersBad, Op};
use context_vector::Vector;
use op_name::Memory;
use std::alloc::Global;

fn with_counts(alloc: Global, counts: &Counts) -> Result<Vector, Memory>
    requires { AreCounts 0 counts.now }
    ensures { IfOk result (λ v. v.set ≡ record { counts = counts.now; entries = [] }) }
{
    let mut vector = Vector::new(alloc);
    for (site, count) in counts.again() {
        vector.push_count(site, count)?;
    }
    Ok(vector)
}

/// The context as a vector of its own.
pub(crate) fn vector_of(alloc: Global, context: &LentContext) -> Result<Vector, Memory>
    requires { AreCounts 0 context.now.counts }
    ensures { IfOk result (λ v. v.set ≡ context_seen context.now) }
{
    let counted = with_counts(alloc, &context.counts)?;
    with_entries(counted, &context.runs)
}

// The characters in a list of their own.
fn copied(alloc: Global, text: &Characters) -> Result<Vec<char>, Memory>
    ensures { IfOk result (λ chars. chars.items ≡ text.now) }
{
    let mut chars = Vec::with_capacity(alloc, usize::from(text.len()))?;
    for ch in text.again() {
        chars.push(ch)?;
    }
    Ok(chars)
}

// The first character, where it is the only one.
fn only(text: &Characters) -> Option<char>
    ensures { IfSome result (λ ch. text.now ≡ ch ∷ []) }
{
    if text.len() == 1 {
        text.again().next()
    } else {
        None
    }
}

// The text of its own, of which one character takes no memory.
fn letters_of(alloc: Global, text: &Characters) -> Result<Letters, Memory>
    requires { IsLetters text.now }
    ensures { IfOk result (λ l. l ≡ text.now) }
{
    if let Some(ch) = only(text) {
        return Ok(Letters::one(ch));
    }
    let chars = copied(alloc, text)?;
    match Letters::new(alloc, chars.as_slice()) {
        Ok(letters) => Ok(letters),
        Err(LettersBad::Memory) => Err(Memory),
        Err(LettersBad::Empty | LettersBad::Long) => unreachable!(),
    }
}

/// The operation with a text and a context of its own.
pub(crate) fn op_of(alloc: Global, op: &LentOp) -> Result<Op, Memory>
    requires { IsInRange (op_seen op.now) }
    ensures { IfOk result (λ o. data_of o ≡ op_seen op.now) }
{
    let context = vector_of(alloc, &op.context)?;
    Ok(match &op.head {
        Head::Insert(name, place, text) => Op::Insert {
            name: *name,
            place: *place,
            text: letters_of(alloc, text)?,
            context,
        },
        Head::Delete(name, place) => Op::Delete {
            name: *name,
            place: *place,
            context,
        },
        Head::Undo(author, target, generation) => Op::Undo {
            author: *author,
            target: *target,
            generation: *generation,
            context,
        },
    })
}
