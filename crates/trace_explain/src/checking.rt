//! Checking traces.

ghost use Rattle.std.specs.Prelude.{◌≡◌, ◌≢◌, ◌<◌, ◌↔◌, [], IfOk, IfSome, IsNone, IsTrue, OnErr, length};
ghost use Rattle.trace_explain.specs.declared.line.TraceLine.TheVariants.{Base};
ghost use Rattle.trace_explain.specs.declared.row.Row.{Row};
ghost use Rattle.trace_explain.specs.Traces.{IsInclusionOf, IsLine, IsRowOf, IsTrace, context_before, pair};
ghost use Rattle.trace_explain.specs.Code.Checked.{AreDerivedRows, EndsAt, IsDerivedRow, IsStepTo, MayInclude};

use crate::contexts::{base_of, context_before};
use crate::line::TraceLine;
use crate::row::{Row, are_equal, are_same, context_in, member_in};
use crate::same::is_same;
use context_diff::{Book, base_context};
use form_cache::Key;
use op_name::{Member, Memory};
use std::alloc::Global;
use ttf_form::{Form, Include};

/// Whether the lines are a trace of the member: each base has the base form of a member of the book, each step includes the
/// form of one earlier line in that of another, at equal contexts, and the last line is about the member at all members that
/// the book holds before it. Out of memory comes only where there is a line.
pub fn check_trace(
    alloc: Global,
    book: &Book,
    m: &Member,
    lines: &[TraceLine],
) -> Result<bool, Memory>
    ensures exact { IfOk result (λ b. IsTrue b ↔ IsTrace book.now.ops m.now lines.now) }
    ensures needed { OnErr result (lines.now ≢ []) }
{
    let mut rows: Vec<Row> = Vec::new(alloc);
    for line in lines {
        match row_of(alloc, book, &rows, line)? {
            Some(row) => {
                rows.reserve(1)?;
                rows.push_reserved(row);
            }
            None => return Ok(false),
        }
    }
    ends_at(alloc, book, m, &rows)
}

// Whether the last row is that of the member at all members that the book holds before it.
fn ends_at(alloc: Global, book: &Book, m: &Member, rows: &[Row]) -> Result<bool, Memory>
    requires { AreDerivedRows book.now.ops rows.now }
    ensures exact { IfOk result (λ b. IsTrue b ↔ EndsAt book.now.ops m.now rows.now) }
    ensures needed { OnErr result (0 < length rows.now) }
{
    match row_at(rows, rows.len() as u64) {
        Some(last) => is_executed(alloc, book, m, last),
        None => Ok(false),
    }
}

// Whether the row is that of the member at all members that the book holds before it.
fn is_executed(alloc: Global, book: &Book, m: &Member, last: &Row) -> Result<bool, Memory>
    requires { IsDerivedRow book.now.ops last.now }
    ensures { IfOk result (λ b. IsTrue b ↔ (last.now.at ≡ pair m.now (context_before book.now.ops m.now))) }
{
    book.known();
    if !are_same(&member_in(&last.at), m) {
        return Ok(false);
    }
    let to = context_before(alloc, book, m)?;
    Ok(are_equal(context_in(&last.at), &to))
}

// What the line says after lines with these rows, if it is right.
fn row_of(alloc: Global, book: &Book, rows: &[Row], line: &TraceLine) -> Result<Option<Row>, Memory>
    requires { AreDerivedRows book.now.ops rows.now }
    ensures right { IfOk result (λ o. IfSome o (IsLine book.now.ops rows.now line.now)) }
    ensures wrong { IfOk result (λ o. IsNone o → (r : Row) → IsLine book.now.ops rows.now line.now r → ⊥) }
    ensures derived { IfOk result (λ o. IfSome o (IsDerivedRow book.now.ops)) }
{
    match line {
        TraceLine::Base { member, form } => base_row(alloc, book, rows, member, form),
        TraceLine::Step {
            left,
            over,
            member,
            form,
        } => {
            match row_at(rows, *left) {
                Some(a) => match row_at(rows, *over) {
                    Some(b) => step_row(book, a, b, member, form),
                    None => Ok(None),
                },
                None => Ok(None),
            }
        }
    }
}

// What a base of this member with this form says, if it is right.
fn base_row(
    alloc: Global,
    book: &Book,
    rows: &[Row],
    member: &Member,
    form: &Form,
) -> Result<Option<Row>, Memory>
    ensures right { IfOk result (λ o. IfSome o (IsLine book.now.ops rows.now (Base member.now form.now))) }
    ensures wrong { IfOk result (λ o. IsNone o → (r : Row) → IsLine book.now.ops rows.now (Base member.now form.now) r → ⊥) }
    ensures derived { IfOk result (λ o. IfSome o (IsDerivedRow book.now.ops)) }
{
    book.known();
    if !book.have().contains(member) {
        return Ok(None);
    }
    if !is_same(&base_of(book, member), form) {
        return Ok(None);
    }
    let context = base_context(alloc, book, member)?;
    Ok(Some(Row {
        at: Key {
            member: *member,
            context,
        },
        form: *form,
    }))
}

// What a step from these two rows to this form of the member says, if it is right.
fn step_row(
    book: &Book,
    a: &Row,
    b: &Row,
    member: &Member,
    form: &Form,
) -> Result<Option<Row>, Memory>
    requires left { IsDerivedRow book.now.ops a.now }
    requires over { IsDerivedRow book.now.ops b.now }
    ensures right { IfOk result (λ o. IfSome o (IsStepTo a.now b.now member.now form.now)) }
    ensures wrong { IfOk result (λ o. IsNone o → IsInclusionOf a.now b.now member.now form.now → ⊥) }
    ensures derived { IfOk result (λ o. IfSome o (IsDerivedRow book.now.ops)) }
{
    book.known();
    if !may_include(a, b, member) || !is_same(&a.form.include(&b.form), form) {
        return Ok(None);
    }
    let x = member_in(&b.at);
    let mut context = context_in(&a.at).try_clone()?;
    context.reserve(&x)?;
    context.add_reserved(&x);
    Ok(Some(Row {
        at: Key {
            member: *member,
            context,
        },
        form: *form,
    }))
}

// Whether a step of the member may include the second row's form in the first one's.
fn may_include(a: &Row, b: &Row, member: &Member) -> bool
    ensures { IsTrue result ↔ MayInclude a.now b.now member.now }
{
    let x = member_in(&b.at);
    if !are_same(&member_in(&a.at), member) || are_same(&x, member) {
        return false;
    }
    are_equal(context_in(&b.at), context_in(&a.at)) && !context_in(&a.at).contains(&x)
}

// The row of the line with this number, if there is one.
fn row_at(rows: &[Row], number: u64) -> Option<&Row>
    ensures there { IfSome result (λ r. IsRowOf rows.now number r.now) }
    ensures none { IsNone result → (r : Row) → IsRowOf rows.now number r → ⊥ }
{
    let place = number.checked_sub(1)?;
    rows.get(place as usize)
}
