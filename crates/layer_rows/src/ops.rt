//! Calls of one operation.

use crate::answers::{put_number, put_truth};
use crate::words::Words;
use context_diff::{Op, OpFault};
use op_name::Memory;
use std::alloc::Global;

/// Reads an operation: `insert NAME PLACE TEXT SET`, `delete NAME PLACE SET` or `undo AUTHOR NAME GENERATION SET`, with
/// the set as its context. Answers whether there is one.
pub(crate) fn read_op(
    alloc: Global,
    words: &mut Words<'_>,
    op: &mut Option<Op>,
) -> Result<bool, Memory> {
    match words.word() {
        "insert" => read_insert(alloc, words, op),
        "delete" => read_delete(alloc, words, op),
        "undo" => read_undo(alloc, words, op),
        _ => Ok(false),
    }
}

fn read_insert(alloc: Global, words: &mut Words<'_>, op: &mut Option<Op>) -> Result<bool, Memory> {
    let (Some(name), Some(place)) = (words.name(), words.number()) else {
        return Ok(false);
    };
    let Some(text) = words.letters(alloc)? else {
        return Ok(false);
    };
    let Some(context) = words.set(alloc)? else {
        return Ok(false);
    };
    *op = Some(Op::Insert {
        name,
        place,
        text,
        context,
    });
    Ok(true)
}

fn read_delete(alloc: Global, words: &mut Words<'_>, op: &mut Option<Op>) -> Result<bool, Memory> {
    let (Some(name), Some(place)) = (words.name(), words.number()) else {
        return Ok(false);
    };
    let Some(context) = words.set(alloc)? else {
        return Ok(false);
    };
    *op = Some(Op::Delete {
        name,
        place,
        context,
    });
    Ok(true)
}

fn read_undo(alloc: Global, words: &mut Words<'_>, op: &mut Option<Op>) -> Result<bool, Memory> {
    let (Some(author), Some(target), Some(generation)) = (
        words.short(),
        words.name(),
        words.short(),
    ) else {
        return Ok(false);
    };
    let Some(context) = words.set(alloc)? else {
        return Ok(false);
    };
    *op = Some(Op::Undo {
        author,
        target,
        generation,
        context,
    });
    Ok(true)
}

pub(crate) fn call_op(
    alloc: Global,
    words: &mut Words<'_>,
    op: &mut Option<Op>,
    out: &mut String,
) -> Result<bool, Memory> {
    let call = words.word();
    if !read_op(alloc, words, op)? {
        return Ok(false);
    }
    match op {
        Some(op) => call_of(call, op, out),
        None => Ok(false),
    }
}

fn call_of(call: &str, op: &Op, out: &mut String) -> Result<bool, Memory> {
    match call {
        "fault" => put_fault(out, op.fault())?,
        "isinsert" => put_truth(out, op.is_insert())?,
        "cells" => put_number(out, u64::from(op.cells()))?,
        "copied" => put_truth(out, is_copied(op)?)?,
        _ => return Ok(false),
    }
    Ok(true)
}

// The first rule that it breaks.
fn put_fault(out: &mut String, fault: Option<OpFault>) -> Result<(), Memory> {
    out.push_str(match fault {
        None => "none",
        Some(OpFault::Range) => "range",
        Some(OpFault::Own) => "own",
        Some(OpFault::Target) => "target",
        Some(OpFault::Stray) => "stray",
    })?;
    Ok(())
}

// Whether a copy of it is equal.
fn is_copied(op: &Op) -> Result<bool, Memory> {
    let copy = op.try_clone()?;
    Ok(copy == *op)
}
