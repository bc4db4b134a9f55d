//! Calls of names and members.

use crate::answers::{put_further, put_name, put_number, put_truth};
use crate::words::Words;
use op_name::{GENERATIONS, Member, Memory, NUMBERS, Name, SITES};
use std::alloc::{AllocError, AllocFailed};

pub(crate) fn call_name(words: &mut Words<'_>, out: &mut String) -> Result<bool, Memory> {
    match words.word() {
        "is" => is_name(words, out),
        "before" => is_name_before(words, out),
        "limits" => limits(out),
        "refused" => refused(out),
        _ => Ok(false),
    }
}

// `is SITE.NUMBER`: whether the two are in range.
fn is_name(words: &mut Words<'_>, out: &mut String) -> Result<bool, Memory> {
    let Some((site, number)) = words.parts() else {
        return Ok(false);
    };
    put_truth(out, Name::new(site, number).is_ok())?;
    Ok(true)
}

// `before NAME NAME`
fn is_name_before(words: &mut Words<'_>, out: &mut String) -> Result<bool, Memory> {
    match (words.name(), words.name()) {
        (Some(one), Some(other)) => {
            put_truth(out, one.is_before(&other))?;
            Ok(true)
        }
        _ => Ok(false),
    }
}

// `limits`: the sites, the numbers of each, and the generations of a name.
fn limits(out: &mut String) -> Result<bool, Memory> {
    put_number(out, u64::from(SITES))?;
    put_further(out, u64::from(NUMBERS))?;
    put_further(out, u64::from(GENERATIONS))?;
    Ok(true)
}

// `refused`: whether a refused allocation is out of memory, and whether a refused value is.
fn refused(out: &mut String) -> Result<bool, Memory> {
    put_truth(out, Memory::from(AllocError) == Memory)?;
    out.push(' ')?;
    put_truth(out, Memory::from(AllocFailed { value: 7 }) == Memory)?;
    Ok(true)
}

pub(crate) fn call_member(words: &mut Words<'_>, out: &mut String) -> Result<bool, Memory> {
    match words.word() {
        "before" => is_member_before(words, out),
        "less" => is_less(words, out),
        "equal" => is_equal(words, out),
        "target" => target(words, out),
        _ => Ok(false),
    }
}

// `before MEMBER MEMBER`
fn is_member_before(words: &mut Words<'_>, out: &mut String) -> Result<bool, Memory> {
    match (words.member(), words.member()) {
        (Some(one), Some(other)) => {
            put_truth(out, one.is_before(&other))?;
            Ok(true)
        }
        _ => Ok(false),
    }
}

// `less MEMBER MEMBER`, by the order of the type
fn is_less(words: &mut Words<'_>, out: &mut String) -> Result<bool, Memory> {
    match (words.member(), words.member()) {
        (Some(one), Some(other)) => {
            put_truth(out, one < other)?;
            Ok(true)
        }
        _ => Ok(false),
    }
}

// `equal MEMBER MEMBER`
fn is_equal(words: &mut Words<'_>, out: &mut String) -> Result<bool, Memory> {
    match (words.member(), words.member()) {
        (Some(one), Some(other)) => {
            put_truth(out, one == other)?;
            Ok(true)
        }
        _ => Ok(false),
    }
}

// `target MEMBER`
fn target(words: &mut Words<'_>, out: &mut String) -> Result<bool, Memory> {
    let Some(member) = words.member() else {
        return Ok(false);
    };
    put_name(out, &member.target())?;
    Ok(true)
}
