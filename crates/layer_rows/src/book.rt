//! Calls of a book, and the laws of differences.

ghost use Rattle.std.specs.Prelude.{◌≡◌, IsTrue, true};
ghost use Rattle.context_diff.specs.Histories.{is_known};
ghost use Rattle.context_diff.specs.Differences.{LastMayBeTakenOut, TwoMayBeTakenOut, DifferenceIsReady};

use crate::answers::{
    put_any_member, put_any_op, put_form, put_found, put_member, put_none, put_number, put_set,
    put_truth,
};
use crate::bases::base_of;
use crate::ops::read_op;
use crate::words::Words;
use context_diff::{
    Book, Letters, Op, base_context, closed, difference, difference_is_ready,
    last_may_be_taken_out, two_may_be_taken_out,
};
use context_vector::Vector;
use op_name::{Member, Memory, Name};
use std::alloc::Global;
use ttf_form::Form;
use undo_group::TextBases;

pub(crate) fn call_book(
    alloc: Global,
    words: &mut Words<'_>,
    book: &mut Book,
    op: &mut Option<Op>,
    out: &mut String,
) -> Result<bool, Memory> {
    match words.word() {
        "push" => push(alloc, words, book, op, out),
        "pop" => pop(alloc, words, book, op, out),
        "popnone" => pop_none(alloc, out),
        "poplast" => pop_last(book, out),
        "type" => type_on(alloc, words, book),
        "share" => {
            book.share();
            Ok(true)
        }
        call => call_reading(alloc, call, words, book, out),
    }
}

/// Appends the operation where it is next; answers whether it was.
fn take_in(book: &mut Book, op: Op) -> Result<bool, Memory> {
    if !book.is_next(&op) {
        return Ok(false);
    }
    book.reserve(&op)?;
    book.push(op);
    Ok(true)
}

fn put_next(out: &mut String, is_next: bool) -> Result<bool, Memory> {
    if !is_next {
        out.push_str("not next")?;
    }
    Ok(true)
}

// `push OP`
fn push(
    alloc: Global,
    words: &mut Words<'_>,
    book: &mut Book,
    op: &mut Option<Op>,
    out: &mut String,
) -> Result<bool, Memory> {
    if !read_op(alloc, words, op)? {
        return Ok(false);
    }
    match op.take() {
        Some(op) => put_next(out, take_in(book, op)?),
        None => Ok(false),
    }
}

/// Appends the operation where it is next, and takes it out again.
fn back(book: &mut Book, op: Op) -> Result<Option<Op>, Memory> {
    if !book.is_next(&op) {
        return Ok(None);
    }
    book.reserve(&op)?;
    book.push(op);
    Ok(book.pop())
}

// `pop OP`: it is pushed and popped; what comes back.
fn pop(
    alloc: Global,
    words: &mut Words<'_>,
    book: &mut Book,
    op: &mut Option<Op>,
    out: &mut String,
) -> Result<bool, Memory> {
    if !read_op(alloc, words, op)? {
        return Ok(false);
    }
    if let Some(given) = op.take() {
        *op = back(book, given)?;
    }
    put_any_op(out, op.as_ref())?;
    Ok(true)
}

// `popnone`: whether nothing comes out of an empty book.
fn pop_none(alloc: Global, out: &mut String) -> Result<bool, Memory> {
    let mut book = Book::new(alloc);
    let is_empty = book.pop().is_none();
    put_truth(out, is_empty)?;
    Ok(true)
}

// `poplast`: the last operation is taken out; what comes back.
fn pop_last(book: &mut Book, out: &mut String) -> Result<bool, Memory> {
    let last = book.pop();
    put_any_op(out, last.as_ref())?;
    Ok(true)
}

// `type COUNT`: site 0 writes on, in front of all cells, until it has written so many characters.
fn type_on(alloc: Global, words: &mut Words<'_>, book: &mut Book) -> Result<bool, Memory> {
    let Some(count) = words.number() else {
        return Ok(false);
    };
    for number in book.have().count(0)..count {
        if !type_one(alloc, number, book)? {
            return Ok(false);
        }
    }
    Ok(true)
}

// The insert after so many of site 0, which knows these alone.
fn type_one(alloc: Global, before: u32, book: &mut Book) -> Result<bool, Memory> {
    let Ok(name) = Name::new(0, before.saturating_add(1)) else {
        return Ok(false);
    };
    let op = Op::Insert {
        name,
        place: 0,
        text: Letters::one('a'),
        context: first_of(alloc, before)?,
    };
    take_in(book, op)
}

// The first originals of site 0.
fn first_of(alloc: Global, count: u32) -> Result<Vector, Memory> {
    let mut set = Vector::new(alloc);
    if let Ok(name) = Name::new(0, count) {
        set.raise(&Member::Original(name))?;
    }
    Ok(set)
}

fn call_reading(
    alloc: Global,
    call: &str,
    words: &mut Words<'_>,
    book: &Book,
    out: &mut String,
) -> Result<bool, Memory> {
    match call {
        "len" => {
            put_number(out, u64::from(book.len()))?;
            Ok(true)
        }
        "op" => op_at(words, book, out),
        "member" => member_at(words, book, out),
        "original" => original(words, book, out),
        "open" => open(alloc, words, book, out),
        "cells" => cells(alloc, words, book, out),
        "base" => base(alloc, words, book, out),
        "form" => form(words, book, out),
        "difference" => lacking(alloc, words, book, out),
        "laws" => {
            laws_of_differences();
            put_truth(out, true)?;
            Ok(true)
        }
        _ => Ok(false),
    }
}

// `op PLACE`
fn op_at(words: &mut Words<'_>, book: &Book, out: &mut String) -> Result<bool, Memory> {
    let Some(i) = words.number() else {
        return Ok(false);
    };
    put_any_op(out, book.op(i))?;
    Ok(true)
}

// `member PLACE`
fn member_at(words: &mut Words<'_>, book: &Book, out: &mut String) -> Result<bool, Memory> {
    let Some(i) = words.number() else {
        return Ok(false);
    };
    put_any_member(out, &book.member(i))?;
    Ok(true)
}

// `original NAME`
fn original(words: &mut Words<'_>, book: &Book, out: &mut String) -> Result<bool, Memory> {
    let Some(name) = words.name() else {
        return Ok(false);
    };
    put_any_op(out, book.original(&name))?;
    Ok(true)
}

/// The first open site of the set; None too where the book lacks a member of it.
fn open_site(book: &Book, set: &Vector) -> Option<u16> {
    if book.have().covers(set) {
        return closed(book, set);
    }
    None
}

// `open SET`
fn open(
    alloc: Global,
    words: &mut Words<'_>,
    book: &Book,
    out: &mut String,
) -> Result<bool, Memory> {
    let Some(set) = words.set(alloc)? else {
        return Ok(false);
    };
    let site = open_site(book, &set).map(u32::from);
    put_found(out, site)?;
    Ok(true)
}

/// The number of cells that the set's inserts put; None where the book lacks a member of it.
fn cells_in(book: &Book, set: &Vector) -> Option<u32> {
    if book.have().covers(set) {
        return Some(book.cells_in(set));
    }
    None
}

// `cells SET`
fn cells(
    alloc: Global,
    words: &mut Words<'_>,
    book: &Book,
    out: &mut String,
) -> Result<bool, Memory> {
    let Some(set) = words.set(alloc)? else {
        return Ok(false);
    };
    let count = cells_in(book, &set);
    put_found(out, count)?;
    Ok(true)
}

/// Whether the book has the member.
fn holds(book: &Book, m: &Member) -> bool
    ensures { IsTrue result → is_known book.now.ops m.now ≡ true }
{
    book.known();
    book.have().contains(m)
}

// `base MEMBER`: its base context.
fn base(
    alloc: Global,
    words: &mut Words<'_>,
    book: &Book,
    out: &mut String,
) -> Result<bool, Memory> {
    let Some(member) = words.member() else {
        return Ok(false);
    };
    if holds(book, &member) {
        put_base(alloc, book, &member, out)?;
    } else {
        put_none(out)?;
    }
    Ok(true)
}

fn put_base(alloc: Global, book: &Book, m: &Member, out: &mut String) -> Result<(), Memory>
    requires { is_known book.now.ops m.now ≡ true }
{
    let base = base_context(alloc, book, m)?;
    put_set(out, &base)
}

/// The base form of a member of the book.
fn form_in(book: &Book, m: &Member) -> Option<Form> {
    book.known();
    if book.have().contains(m) {
        Some(base_of(&TextBases::new(book), m))
    } else {
        None
    }
}

// `form MEMBER`: its base form.
fn form(words: &mut Words<'_>, book: &Book, out: &mut String) -> Result<bool, Memory> {
    let Some(member) = words.member() else {
        return Ok(false);
    };
    match form_in(book, &member) {
        Some(form) => put_form(out, &form)?,
        None => put_none(out)?,
    }
    Ok(true)
}

fn put_members(out: &mut String, members: &[Member]) -> Result<(), Memory> {
    let from = out.len();
    for member in members {
        if out.len() > from {
            out.push(' ')?;
        }
        put_member(out, member)?;
    }
    Ok(())
}

// `difference SET SET`: the members that the second one has and the first lacks, in the order of integration.
fn lacking(
    alloc: Global,
    words: &mut Words<'_>,
    book: &Book,
    out: &mut String,
) -> Result<bool, Memory> {
    let Some(from) = words.set(alloc)? else {
        return Ok(false);
    };
    lacking_of(alloc, words, book, &from, out)
}

fn lacking_of(
    alloc: Global,
    words: &mut Words<'_>,
    book: &Book,
    from: &Vector,
    out: &mut String,
) -> Result<bool, Memory> {
    let Some(to) = words.set(alloc)? else {
        return Ok(false);
    };
    if !book.have().covers(&to) {
        return Ok(false);
    }
    let mut members = Vec::new(alloc);
    difference(book, from, &to, &mut members)?;
    put_members(out, &members)?;
    Ok(true)
}

/// What the laws of differences say, for whoever calls them.
fn laws_of_differences()
    ensures last { LastMayBeTakenOut }
    ensures two { TwoMayBeTakenOut }
    ensures ready { DifferenceIsReady }
{
    last_may_be_taken_out();
    two_may_be_taken_out();
    difference_is_ready();
}
