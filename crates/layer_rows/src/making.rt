//! Calls, by what they are calls of.

use crate::book::call_book;
use crate::cache::call_cache;
use crate::cells::{call_cells, call_view};
use crate::flags::call_flags;
use crate::forms::call_form;
use crate::letters::call_letters;
use crate::names::{call_member, call_name};
use crate::ops::call_op;
use crate::pool::call_pool;
use crate::registers::Registers;
use crate::sets::call_set;
use crate::trace::call_trace;
use crate::words::Words;
use op_name::Memory;
use std::alloc::Global;

/// Room for an answer, so that none is cut off once its call is done.
const ROOM: usize = 4096;

/// Makes the call of a line; its answer replaces what stood in `out`. Answers whether the line is a call. Out of memory
/// nothing is changed, and the call is made once more.
pub(crate) fn answer_of(alloc: Global, line: &str, all: &mut Registers, out: &mut String) -> bool {
    match make(alloc, line, all, out) {
        Ok(is_read) => is_read,
        Err(Memory) => match make(alloc, line, all, out) {
            Ok(is_read) => is_read,
            Err(Memory) => false,
        },
    }
}

fn make(alloc: Global, line: &str, all: &mut Registers, out: &mut String) -> Result<bool, Memory> {
    out.clear();
    out.reserve(ROOM)?;
    let mut words = Words::new(line);
    let is_read = make_one(alloc, &mut words, all, out)?;
    Ok(is_read && words.is_done())
}

fn make_one(
    alloc: Global,
    words: &mut Words<'_>,
    all: &mut Registers,
    out: &mut String,
) -> Result<bool, Memory> {
    match words.word() {
        "name" => call_name(words, out),
        "member" => call_member(words, out),
        "form" => call_form(words, out),
        "letters" => call_letters(alloc, words, out),
        "op" => call_op(alloc, words, &mut all.op, out),
        "book" => call_book(alloc, words, &mut all.book, &mut all.op, out),
        "pool" => call_pool(alloc, words, &mut all.pool, &mut all.op, out),
        "cells" => call_cells(alloc, words, &mut all.text, out),
        "view" => call_view(alloc, words, &all.text, out),
        "cache" => call_cache(alloc, words, &mut all.cache, out),
        "flags" => call_flags(words, &mut all.flags, out),
        "trace" => call_trace(alloc, words, &all.book, &mut all.lines, out),
        letter => call_set(alloc, letter, words, &mut all.sets, out),
    }
}
