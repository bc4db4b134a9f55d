//! Calls of a pool of waiting operations.

ghost use Rattle.std.specs.Prelude.{IsTrue};
ghost use Rattle.context_diff.specs.Ops.{data_of};
ghost use Rattle.causal_gate.specs.Waiting.{NamesAgree};

use crate::answers::{put_any_member, put_any_op, put_found, put_none, put_number, put_op};
use crate::ops::read_op;
use crate::words::Words;
use causal_gate::Pool;
use context_diff::Op;
use context_vector::Vector;
use op_name::Memory;
use std::alloc::Global;

pub(crate) fn call_pool(
    alloc: Global,
    words: &mut Words<'_>,
    pool: &mut Pool,
    op: &mut Option<Op>,
    out: &mut String,
) -> Result<bool, Memory> {
    match words.word() {
        "hold" => hold(alloc, words, pool, op, out),
        "take" => take(words, pool, out),
        "renew" => renew(alloc, words, pool),
        "ready" => ready(alloc, words, pool, out),
        "lacks" => lacks(alloc, words, pool, out),
        "get" => get(words, pool, out),
        "named" => named(words, pool, out),
        "len" => {
            pool.known();
            put_number(out, u64::from(pool.len()))?;
            Ok(true)
        }
        _ => Ok(false),
    }
}

/// Whether no waiting insert or delete has the operation's name and other content.
fn agrees(pool: &Pool, op: &Op) -> bool
    ensures { IsTrue result → NamesAgree pool.now (data_of op.now) }
{
    pool.known();
    match op {
        Op::Insert { name, .. } | Op::Delete { name, .. } => match pool.named(name) {
            Some(other) => other == op,
            None => true,
        },
        Op::Undo { .. } => true,
    }
}

/// Holds the operation where its name agrees; answers whether it is new.
fn hold_one(pool: &mut Pool, op: &Op) -> Result<Option<bool>, Memory> {
    if agrees(pool, op) {
        let is_new = pool.hold(op)?;
        return Ok(Some(is_new));
    }
    Ok(None)
}

// `hold OP`: `new` or `known`, or `other` where another one of its name waits.
fn hold(
    alloc: Global,
    words: &mut Words<'_>,
    pool: &mut Pool,
    op: &mut Option<Op>,
    out: &mut String,
) -> Result<bool, Memory> {
    if !read_op(alloc, words, op)? {
        return Ok(false);
    }
    let Some(op) = op else {
        return Ok(false);
    };
    out.push_str(match hold_one(pool, op)? {
        Some(true) => "new",
        Some(false) => "known",
        None => "other",
    })?;
    Ok(true)
}

// `take PLACE`: the operation that is taken out.
fn take(words: &mut Words<'_>, pool: &mut Pool, out: &mut String) -> Result<bool, Memory> {
    match words.number() {
        Some(i) if i < pool.len() => {
            let op = pool.take(i);
            put_op(out, &op)?;
            Ok(true)
        }
        Some(_) => {
            put_none(out)?;
            Ok(true)
        }
        None => Ok(false),
    }
}

// `renew SET`
fn renew(alloc: Global, words: &mut Words<'_>, pool: &mut Pool) -> Result<bool, Memory> {
    let Some(have) = words.set(alloc)? else {
        return Ok(false);
    };
    pool.renew(&have);
    Ok(true)
}

// `ready SET`: the first place of an operation that is ready.
fn ready(
    alloc: Global,
    words: &mut Words<'_>,
    pool: &Pool,
    out: &mut String,
) -> Result<bool, Memory> {
    let Some(have) = words.set(alloc)? else {
        return Ok(false);
    };
    put_found(out, pool.first_ready(&have))?;
    Ok(true)
}

// `lacks SET PLACE`: what the operation there waits for first.
fn lacks(
    alloc: Global,
    words: &mut Words<'_>,
    pool: &Pool,
    out: &mut String,
) -> Result<bool, Memory> {
    let Some(have) = words.set(alloc)? else {
        return Ok(false);
    };
    lacks_of(words, pool, &have, out)
}

fn lacks_of(
    words: &mut Words<'_>,
    pool: &Pool,
    have: &Vector,
    out: &mut String,
) -> Result<bool, Memory> {
    match words.number() {
        Some(i) if i < pool.len() => {
            put_any_member(out, &pool.waiting(have, i))?;
            Ok(true)
        }
        _ => Ok(false),
    }
}

// `get PLACE`
fn get(words: &mut Words<'_>, pool: &Pool, out: &mut String) -> Result<bool, Memory> {
    let Some(i) = words.number() else {
        return Ok(false);
    };
    put_any_op(out, pool.get(i))?;
    Ok(true)
}

// `named NAME`
fn named(words: &mut Words<'_>, pool: &Pool, out: &mut String) -> Result<bool, Memory> {
    let Some(name) = words.name() else {
        return Ok(false);
    };
    put_any_op(out, pool.named(&name))?;
    Ok(true)
}
