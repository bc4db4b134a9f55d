//! Contexts on the way from the base context of a member to the one at which it is executed.

ghost use Rattle.std.specs.Prelude.{◌≡◌, ◌≢◌, ◌<◌, true, Some, IfOk, length, slice_get};
ghost use Rattle.context_vector.specs.Vectors.{lowered};
ghost use Rattle.context_diff.specs.Histories.{is_known, members_in};
ghost use Rattle.context_diff.specs.Bases.{base_context_of};
ghost use Rattle.transform_rec.specs.Histories.{MayBeAddedTo};
ghost use Rattle.undo_group.specs.BaseForms.{base_form};
ghost use Rattle.trace_explain.specs.Traces.{context_before, pair};
ghost use Rattle.trace_explain.specs.Listings.{IsLastBetween};

use crate::row::are_same;
use context_diff::{Book, difference, last_may_be_taken_out};
use context_vector::Vector;
use op_name::{Member, Memory};
use std::alloc::Global;
use ttf_form::{Bases, Form};
use undo_group::TextBases;

/// All members that the book holds before this one, which it has.
pub fn context_before(alloc: Global, book: &Book, m: &Member) -> Result<Vector, Memory>
    requires { is_known book.now.ops m.now ≡ true }
    ensures value { IfOk result (λ v. v.set ≡ context_before book.now.ops m.now) }
    ensures added { IfOk result (λ v. MayBeAddedTo book.now.ops v.set m.now) }
{
    book.known();
    let mut context = Vector::new(alloc);
    for i in 0..book.len() {
        let x = member_at(book, i);
        if are_same(&x, m) {
            return Ok(context);
        }
        context.reserve(&x)?;
        context.add_reserved(&x);
    }
    Ok(context)
}

// The member at this place of the book.
fn member_at(book: &Book, i: u32) -> Member
    requires { i < length book.now.ops }
    ensures { slice_get (members_in book.now.ops) i ≡ Some result }
{
    book.known();
    match book.member(i) {
        Some(x) => x,
        None => unreachable!(),
    }
}

/// The last member, in the book's order, that the context has beyond `own`, the base context of m, which is another one.
pub fn last_between(
    alloc: Global,
    book: &Book,
    m: &Member,
    context: &Vector,
    own: &Vector,
) -> Result<Member, Memory>
    requires added { MayBeAddedTo book.now.ops context.now.set m.now }
    requires own { own.now.set ≡ base_context_of book.now.ops m.now }
    requires more { context.now.set ≢ base_context_of book.now.ops m.now }
    ensures { IfOk result (IsLastBetween book.now.ops (pair m.now context.now.set)) }
{
    book.known();
    own.known();
    context.known();
    let mut between = Vec::new(alloc);
    difference(book, own, context, &mut between)?;
    match between.pop() {
        Some(x) => Ok(x),
        None => unreachable!(),
    }
}

/// The context without x, its last member beyond the base context of m.
pub fn without_last(book: &Book, m: &Member, context: &Vector, x: &Member) -> Result<Vector, Memory>
    requires added { MayBeAddedTo book.now.ops context.now.set m.now }
    requires last { IsLastBetween book.now.ops (pair m.now context.now.set) x.now }
    ensures { IfOk result (λ d. d.set ≡ lowered context.now.set x.now) }
{
    book.known();
    context.known();
    last_may_be_taken_out();
    let mut smaller = context.try_clone()?;
    smaller.reserve(x)?;
    smaller.drop_last(x);
    Ok(smaller)
}

/// The base form of a member of the book.
pub fn base_of(book: &Book, m: &Member) -> Form
    requires { is_known book.now.ops m.now ≡ true }
    ensures { result ≡ base_form book.now.ops m.now }
{
    book.known();
    TextBases::new(book).base(m)
}
