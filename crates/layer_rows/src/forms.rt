//! Calls of forms.

ghost use Rattle.std.specs.Prelude.{◌≡◌, ◌+◌, ◌≤◌};
ghost use Rattle.ttf_form.specs.declared.include.TheConstants.{CELLS};
ghost use Rattle.ttf_form.specs.Forms.{place_of};

use crate::answers::{put_form, put_truth};
use crate::bases::base_of_one;
use crate::words::Words;
use op_name::Memory;
use ttf_form::{Applies, Exclude, Form, Include};
use undo_group::{followed, groups_follow};

/// Places that are taken in are below this one.
const MOST: u32 = 1_000_000;

pub(crate) fn call_form(words: &mut Words<'_>, out: &mut String) -> Result<bool, Memory> {
    match words.word() {
        "over" => over(words, out),
        "back" => back(words, out),
        "moved" => moved(words, out),
        "inert" => inert(words, out),
        "followed" => follow(words, out),
        "one" => one(words, out),
        _ => Ok(false),
    }
}

fn place(form: &Form) -> u32
    ensures { result ≡ place_of form.now }
{
    match form {
        Form::Ins(ins) => ins.place,
        Form::Cover(cover) => cover.place,
    }
}

/// Inclusion through the bound; what a form adds stays.
fn included<F: Applies>(a: &F, b: &F) -> F
    requires { F.place a.now + F.extent b.now ≤ CELLS }
    ensures over { result ≡ F.over a.now b.now }
    ensures added { F.added result ≡ F.added a.now }
{
    a.include(b)
}

/// Taking back through the bound.
fn taken_back<F: Exclude>(a: &F, b: &F) -> F
    ensures { result ≡ F.back a.now b.now }
{
    a.exclude(b)
}

// `over FORM FORM`: the first one after the inclusion of the second.
fn over(words: &mut Words<'_>, out: &mut String) -> Result<bool, Memory> {
    match (words.form(), words.form()) {
        (Some(a), Some(b)) => put_over(out, &a, &b),
        _ => Ok(false),
    }
}

fn put_over(out: &mut String, a: &Form, b: &Form) -> Result<bool, Memory> {
    if place(a) >= MOST {
        return Ok(false);
    }
    put_form(out, &included(a, b))?;
    Ok(true)
}

// `back FORM FORM`: the first one after the inclusion of the second is taken back.
fn back(words: &mut Words<'_>, out: &mut String) -> Result<bool, Memory> {
    match (words.form(), words.form()) {
        (Some(a), Some(b)) => {
            put_form(out, &taken_back(&a, &b))?;
            Ok(true)
        }
        _ => Ok(false),
    }
}

// The form over an insert, by the row of its kind.
fn over_insert(form: &Form, other: &Form) -> Option<Form> {
    match (form, other) {
        (Form::Ins(ins), Form::Ins(added)) if ins.place < MOST => Some(Form::Ins(ins.over_ins(
            added,
        ))),
        (Form::Cover(cover), Form::Ins(added)) if cover.place < MOST => Some(Form::Cover(
            cover.over_ins_at(added.place, added.len),
        )),
        _ => None,
    }
}

// `moved FORM FORM`: the first one over the second, an insert, by the row of its kind.
fn moved(words: &mut Words<'_>, out: &mut String) -> Result<bool, Memory> {
    match (words.form(), words.form()) {
        (Some(a), Some(b)) => match over_insert(&a, &b) {
            Some(form) => {
                put_form(out, &form)?;
                Ok(true)
            }
            None => Ok(false),
        },
        _ => Ok(false),
    }
}

// `inert FORM`
fn inert(words: &mut Words<'_>, out: &mut String) -> Result<bool, Memory> {
    let Some(form) = words.form() else {
        return Ok(false);
    };
    put_truth(out, form.inert())?;
    Ok(true)
}

// `followed MARK FORM`: the mark at the place of the form.
fn follow(words: &mut Words<'_>, out: &mut String) -> Result<bool, Memory> {
    groups_follow();
    match (words.mark(), words.form()) {
        (Some(mark), Some(form)) => {
            put_form(out, &followed(mark, &form))?;
            Ok(true)
        }
        _ => Ok(false),
    }
}

// `one NAME`: the base form in a family of one insert.
fn one(words: &mut Words<'_>, out: &mut String) -> Result<bool, Memory> {
    let Some(name) = words.name() else {
        return Ok(false);
    };
    put_form(out, &base_of_one(name))?;
    Ok(true)
}
