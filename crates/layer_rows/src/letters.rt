//! Calls of texts of inserts.

use crate::answers::{put_number, put_truth};
use crate::words::Words;
use context_diff::{Letters, LettersBad};
use op_name::Memory;
use std::alloc::Global;

pub(crate) fn call_letters(
    alloc: Global,
    words: &mut Words<'_>,
    out: &mut String,
) -> Result<bool, Memory> {
    match words.word() {
        "len" => len(alloc, words, out),
        "equal" => are_equal(alloc, words, out),
        _ => Ok(false),
    }
}

// `len TEXT`: the number of its characters, or why they are no text of an insert.
fn len(alloc: Global, words: &mut Words<'_>, out: &mut String) -> Result<bool, Memory> {
    let text = words.text(alloc)?;
    match Letters::new(alloc, &text) {
        Ok(letters) => put_number(out, u64::from(letters.len()))?,
        Err(LettersBad::Empty) => out.push_str("empty")?,
        Err(LettersBad::Long) => out.push_str("long")?,
        Err(LettersBad::Memory) => return Err(Memory),
    }
    Ok(true)
}

// `equal TEXT TEXT`: whether they are, and whether a copy of the first one is equal to the second.
fn are_equal(alloc: Global, words: &mut Words<'_>, out: &mut String) -> Result<bool, Memory> {
    match (words.letters(alloc)?, words.letters(alloc)?) {
        (Some(one), Some(other)) => {
            put_truth(out, one == other)?;
            out.push(' ')?;
            put_truth(out, one.try_clone()? == other)?;
            Ok(true)
        }
        _ => Ok(false),
    }
}
