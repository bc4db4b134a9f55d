//! Calls of a column of flags, also beside a plain walk.

ghost use Rattle.std.specs.Prelude.{◌<◌, ◌≤◌, ◌^◌, length};

use crate::answers::{put_found, put_number, put_truth};
use crate::words::Words;
use lane_rank::{ones, prefix_ones, select};
use op_name::Memory;

/// Columns that are looked at are shorter.
const MOST: usize = 1_000_000;

pub(crate) fn call_flags(
    words: &mut Words<'_>,
    flags: &mut Vec<u8>,
    out: &mut String,
) -> Result<bool, Memory> {
    match words.word() {
        "are" => are(words.word(), flags),
        "repeat" => repeat(words, flags),
        "squares" => squares(words, flags),
        call => {
            if flags.len() >= MOST {
                return Ok(false);
            }
            call_reading(call, words, flags, out)
        }
    }
}

// `are DIGITS`
fn are(digits: &str, flags: &mut Vec<u8>) -> Result<bool, Memory> {
    flags.clear();
    for byte in digits.as_bytes() {
        flags.push(byte.saturating_sub(b'0'))?;
    }
    Ok(true)
}

// `repeat COUNT BYTE`
fn repeat(words: &mut Words<'_>, flags: &mut Vec<u8>) -> Result<bool, Memory> {
    flags.clear();
    match (words.number(), words.number()) {
        (Some(count), Some(byte)) => {
            for _ in 0..count {
                flags.push((byte % 256) as u8)?;
            }
            Ok(true)
        }
        _ => Ok(false),
    }
}

// `squares COUNT`: the squares of 0, 1, 2 .. modulo 5.
fn squares(words: &mut Words<'_>, flags: &mut Vec<u8>) -> Result<bool, Memory> {
    flags.clear();
    let Some(count) = words.number() else {
        return Ok(false);
    };
    for i in 0..count {
        flags.push((i.wrapping_mul(i) % 5) as u8)?;
    }
    Ok(true)
}

fn call_reading(
    call: &str,
    words: &mut Words<'_>,
    flags: &[u8],
    out: &mut String,
) -> Result<bool, Memory>
    requires { length flags.now < 2 ^ 32 }
{
    match call {
        "ones" => put_number(out, u64::from(ones(flags)))?,
        "walk" => put_truth(out, all_agree(flags))?,
        _ => match words.number() {
            Some(k) => return call_of_number(call, k, flags, out),
            None => return Ok(false),
        },
    }
    Ok(true)
}

// `select K` and `prefix LENGTH`
fn call_of_number(call: &str, k: u32, flags: &[u8], out: &mut String) -> Result<bool, Memory>
    requires { length flags.now < 2 ^ 32 }
{
    match call {
        "select" => put_found(out, select(flags, k))?,
        "prefix" if k as usize <= flags.len() => put_number(out, u64::from(prefix_ones(flags, k)))?,
        _ => return Ok(false),
    }
    Ok(true)
}

/// Whether the ones are found where they are, and no more of them.
fn selections_agree(flags: &[u8]) -> bool
    requires { length flags.now < 2 ^ 32 }
{
    let mut before: u32 = 0;
    for at in 0..flags.len() {
        if flags[at] == 1 {
            if select(flags, before) != Some(at as u32) {
                return false;
            }
            before = before.saturating_add(1);
        }
    }
    select(flags, before).is_none() && ones(flags) == before
}

/// Whether the ones of each prefix are counted.
fn prefixes_agree(flags: &[u8]) -> bool
    requires { length flags.now < 2 ^ 32 }
{
    let mut before: u32 = 0;
    for at in 0..flags.len() {
        if prefix_ones(flags, at as u32) != before {
            return false;
        }
        if flags[at] == 1 {
            before = before.saturating_add(1);
        }
    }
    prefix_ones(flags, flags.len() as u32) == before
}

/// Whether the first `n` bytes are counted and searched as a plain walk does it.
fn agrees(column: &[u8], n: usize) -> bool
    requires within { n ≤ length column.now }
    requires short { length column.now < 2 ^ 32 }
{
    selections_agree(&column[..n]) && prefixes_agree(&column[..n])
}

// `walk`: whether that is so for each beginning of the column.
fn all_agree(flags: &[u8]) -> bool
    requires { length flags.now < 2 ^ 32 }
{
    for n in 0..flags.len() {
        if !agrees(flags, n) {
            return false;
        }
    }
    agrees(flags, flags.len())
}
