//! The lines of the table. Each function below answers whether the line is one of its kind.

use crate::pieces::{Pieces, put_digits};
use crate::row::Row;
use std::alloc::{AllocError, Global};

/// Takes in a line that names bytes: `def NAME PIECE..` or `line NAME TEXT`.
pub(crate) fn define(
    alloc: Global,
    pieces: &mut Pieces,
    word: &str,
    rest: &str,
) -> Result<bool, AllocError> {
    let Some((name, value)) = rest.split_once(' ') else {
        return Ok(false);
    };
    let mut bytes = Vec::new(alloc);
    if !put_value(alloc, pieces, word, value, &mut bytes)? || !is_name(alloc, name)? {
        return Ok(false);
    }
    pieces.name(name.to_string(alloc)?, bytes)?;
    Ok(true)
}

fn put_value(
    alloc: Global,
    pieces: &Pieces,
    word: &str,
    value: &str,
    to: &mut Vec<u8>,
) -> Result<bool, AllocError> {
    match word {
        "def" => pieces.put_all(alloc, value, to),
        _ => {
            put_line(to, value)?;
            Ok(true)
        }
    }
}

// Whether a piece may have this name: one word that isn't read as bytes where nothing has it.
fn is_name(alloc: Global, name: &str) -> Result<bool, AllocError> {
    let is_word = name.split_once(' ').is_none() && name.split_once('*').is_none();
    let mut bytes = Vec::new(alloc);
    let is_digits = put_digits(alloc, name, &mut bytes)?;
    Ok(is_word && !name.is_empty() && !is_digits)
}

/// Takes in a line of a row.
pub(crate) fn take_in(
    alloc: Global,
    row: &mut Row,
    pieces: &Pieces,
    word: &str,
    rest: &str,
) -> Result<bool, AllocError> {
    let is_taken = take_number(row, word, rest)?
        || take_given(alloc, row, word, rest)?
        || take_wanted(alloc, row, word, rest)?
        || take_bytes(alloc, row, pieces, word, rest)?;
    Ok(is_taken)
}

fn take_number(row: &mut Row, word: &str, rest: &str) -> Result<bool, AllocError> {
    match rest.parse::<u32>() {
        Ok(number) => put_number(row, word, number),
        Err(_) => Ok(false),
    }
}

fn put_number(row: &mut Row, word: &str, number: u32) -> Result<bool, AllocError> {
    match word {
        "status" => row.status = number,
        "badread" => row.bad_reads.push(number)?,
        "badwrite" => row.bad_writes.push(number)?,
        "badcall" => row.bad_calls.push(number)?,
        _ => return Ok(is_count_put(row, word, number)),
    }
    Ok(true)
}

// Counts begin at 1.
fn is_count_put(row: &mut Row, word: &str, count: u32) -> bool {
    match word {
        "reads" => row.chunk = count,
        "orders" => row.orders = count,
        _ => return false,
    }
    count > 0
}

fn take_given(alloc: Global, row: &mut Row, word: &str, rest: &str) -> Result<bool, AllocError> {
    match word {
        "words" => put_words(alloc, row, rest)?,
        "word" => put_word(alloc, row, rest)?,
        "in" => put_line(&mut row.given, rest)?,
        "part" => row.given.extend_from_slice(rest.as_bytes())?,
        "mixed" => row.mixed.push(rest.to_string(alloc)?)?,
        "then" => put_line(&mut row.then, rest)?,
        "reads" => {
            row.has_each_chunk = true;
            return Ok(rest == "each");
        }
        _ => return Ok(false),
    }
    Ok(true)
}

fn put_line(to: &mut Vec<u8>, text: &str) -> Result<(), AllocError> {
    to.extend_from_slice(text.as_bytes())?;
    to.push(b'\n')?;
    Ok(())
}

fn put_word(alloc: Global, row: &mut Row, word: &str) -> Result<(), AllocError> {
    row.has_words = true;
    row.words.push(word.to_string(alloc)?)?;
    Ok(())
}

fn put_words(alloc: Global, row: &mut Row, text: &str) -> Result<(), AllocError> {
    row.has_words = true;
    if text.is_empty() {
        return Ok(());
    }
    for word in text.split(' ') {
        put_word(alloc, row, word)?;
    }
    Ok(())
}

fn take_wanted(alloc: Global, row: &mut Row, word: &str, rest: &str) -> Result<bool, AllocError> {
    match word {
        "out" => {
            row.tells_out = true;
            put_line(&mut row.out, rest)?;
        }
        "has" => row.has.push(rest.to_string(alloc)?)?,
        "ends" => put_line(&mut row.ending, rest)?,
        "keep" => return put_kept(alloc, row, rest),
        "nothing" => {
            row.tells_out = true;
            return Ok(rest.is_empty());
        }
        _ => return Ok(false),
    }
    Ok(true)
}

// One name a row.
fn put_kept(alloc: Global, row: &mut Row, name: &str) -> Result<bool, AllocError> {
    let is_first = row.kept.is_empty();
    row.kept.push_str(name)?;
    Ok(is_first && is_name(alloc, name)?)
}

fn take_bytes(
    alloc: Global,
    row: &mut Row,
    pieces: &Pieces,
    word: &str,
    rest: &str,
) -> Result<bool, AllocError> {
    match word {
        "hex" => pieces.put_all(alloc, rest, &mut row.given),
        "peer" => {
            row.has_peer = true;
            pieces.put_all(alloc, rest, &mut row.peer)
        }
        "outhex" => {
            row.tells_out = true;
            pieces.put_all(alloc, rest, &mut row.out)
        }
        "sent" => {
            row.tells_sent = true;
            pieces.put_all(alloc, rest, &mut row.sent)
        }
        _ => Ok(false),
    }
}
