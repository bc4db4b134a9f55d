//! Calls of traces.

use crate::answers::{put_form, put_further, put_member, put_none, put_number, put_truth};
use crate::words::Words;
use context_diff::Book;
use op_name::Memory;
use std::alloc::Global;
use trace_explain::{TraceLine, check_trace, trace};

pub(crate) fn call_trace(
    alloc: Global,
    words: &mut Words<'_>,
    book: &Book,
    lines: &mut Vec<TraceLine>,
    out: &mut String,
) -> Result<bool, Memory> {
    match words.word() {
        "of" => trace_of(alloc, words, book, lines, out),
        "check" => check(alloc, words, book, lines, out),
        "base" => add_base(words, lines),
        "step" => add_step(words, lines),
        "line" => line_at(words, lines, out),
        "len" => {
            put_number(out, lines.len() as u64)?;
            Ok(true)
        }
        _ => Ok(false),
    }
}

// `of MEMBER`: the lines are those of its trace, if the book has it; whether it has.
fn trace_of(
    alloc: Global,
    words: &mut Words<'_>,
    book: &Book,
    lines: &mut Vec<TraceLine>,
    out: &mut String,
) -> Result<bool, Memory> {
    let Some(member) = words.member() else {
        return Ok(false);
    };
    lines.clear();
    put_truth(out, trace(alloc, book, &member, lines)?)?;
    Ok(true)
}

// `check MEMBER`: whether the lines are a trace of it.
fn check(
    alloc: Global,
    words: &mut Words<'_>,
    book: &Book,
    lines: &[TraceLine],
    out: &mut String,
) -> Result<bool, Memory> {
    let Some(member) = words.member() else {
        return Ok(false);
    };
    put_truth(out, check_trace(alloc, book, &member, lines)?)?;
    Ok(true)
}

// `base MEMBER FORM`: one more line.
fn add_base(words: &mut Words<'_>, lines: &mut Vec<TraceLine>) -> Result<bool, Memory> {
    match (words.member(), words.form()) {
        (Some(member), Some(form)) => {
            lines.push(TraceLine::Base { member, form })?;
            Ok(true)
        }
        _ => Ok(false),
    }
}

// `step LEFT OVER MEMBER FORM`: one more line.
fn add_step(words: &mut Words<'_>, lines: &mut Vec<TraceLine>) -> Result<bool, Memory> {
    let (Some(left), Some(over)) = (words.number(), words.number()) else {
        return Ok(false);
    };
    match (words.member(), words.form()) {
        (Some(member), Some(form)) => {
            lines.push(TraceLine::Step {
                left: u64::from(left),
                over: u64::from(over),
                member,
                form,
            })?;
            Ok(true)
        }
        _ => Ok(false),
    }
}

// `line NUMBER`, from 1
fn line_at(words: &mut Words<'_>, lines: &[TraceLine], out: &mut String) -> Result<bool, Memory> {
    match words.number() {
        Some(number) if 1 <= number => match lines.get(number as usize - 1) {
            Some(line) => put_line(out, line)?,
            None => put_none(out)?,
        },
        _ => return Ok(false),
    }
    Ok(true)
}

fn put_line(out: &mut String, line: &TraceLine) -> Result<(), Memory> {
    match line {
        TraceLine::Base { member, form } => {
            out.push_str("base ")?;
            put_member(out, member)?;
            out.push(' ')?;
            put_form(out, form)
        }
        TraceLine::Step {
            left,
            over,
            member,
            form,
        } => {
            out.push_str("step")?;
            put_further(out, *left)?;
            put_further(out, *over)?;
            out.push(' ')?;
            put_member(out, member)?;
            out.push(' ')?;
            put_form(out, form)
        }
    }
}
