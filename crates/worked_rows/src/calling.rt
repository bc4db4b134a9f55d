//! Calls of the program in memory.

use crate::order::order;
use crate::row::Row;
use cotpad_run::{code_of, run};
use outside_io::{SinkMem, SourceMem, WireMem};
use std::alloc::{AllocError, Global};

/// What a call does otherwise than its row says: the first such thing in the first order in which there is one. Leaves what the
/// newest call wrote in `written`.
pub(crate) fn first_difference(
    alloc: Global,
    row: &Row,
    written: &mut Vec<u8>,
) -> Result<Option<String>, AllocError> {
    for number in 0..row.orders {
        if let Some(what) = difference_in_order(alloc, row, number, written)? {
            return Ok(Some(in_order(alloc, row, number, what)?));
        }
    }
    Ok(None)
}

// What differs, with the number of the order where there are several.
fn in_order(alloc: Global, row: &Row, number: u32, what: String) -> Result<String, AllocError> {
    if row.orders > 1 {
        format!(in alloc; "in order {number}, {what}")
    } else {
        Ok(what)
    }
}

fn difference_in_order(
    alloc: Global,
    row: &Row,
    number: u32,
    written: &mut Vec<u8>,
) -> Result<Option<String>, AllocError> {
    let order = order(alloc, row.mixed.len(), number)?;
    let given = given(alloc, row, &order)?;
    if row.has_each_chunk {
        difference_in_chunks(alloc, row, &given, written)
    } else {
        difference_for(alloc, row, &given, row.chunk, written)
    }
}

// The first one where reads give at most 1, 2 and so on bytes, up to all.
fn difference_in_chunks(
    alloc: Global,
    row: &Row,
    given: &[u8],
    written: &mut Vec<u8>,
) -> Result<Option<String>, AllocError> {
    let mut chunk = 1u32;
    for _ in 0..given.len() {
        let what = difference_for(alloc, row, given, chunk, written)?;
        if what.is_some() {
            return Ok(what);
        }
        chunk = chunk.saturating_add(1);
    }
    Ok(None)
}

// The bytes of the source, with the lines that come in this order.
fn given(alloc: Global, row: &Row, order: &[usize]) -> Result<Vec<u8>, AllocError> {
    let mut given = row.given.to_vec(alloc)?;
    put_mixed(row, order, &mut given)?;
    given.extend_from_slice(&row.then)?;
    Ok(given)
}

fn put_mixed(row: &Row, order: &[usize], given: &mut Vec<u8>) -> Result<(), AllocError> {
    for place in order {
        if let Some(line) = row.mixed.get(*place) {
            given.extend_from_slice(line.as_bytes())?;
            given.push(b'\n')?;
        }
    }
    Ok(())
}

fn source(alloc: Global, row: &Row, given: &[u8], chunk: u32) -> Result<SourceMem, AllocError> {
    let bytes = given.to_vec(alloc)?;
    let failing = row.bad_reads.to_vec(alloc)?;
    Ok(SourceMem::new(bytes, chunk.max(1), failing))
}

fn difference_for(
    alloc: Global,
    row: &Row,
    given: &[u8],
    chunk: u32,
    written: &mut Vec<u8>,
) -> Result<Option<String>, AllocError> {
    let mut source = source(alloc, row, given, chunk)?;
    let mut sink = SinkMem::new(alloc, row.bad_writes.to_vec(alloc)?);
    difference_from(alloc, row, &mut source, &mut sink, written)
}

fn difference_from(
    alloc: Global,
    row: &Row,
    source: &mut SourceMem,
    sink: &mut SinkMem,
    written: &mut Vec<u8>,
) -> Result<Option<String>, AllocError> {
    let failing = row.bad_calls.to_vec(alloc)?;
    let mut wire = WireMem::new(alloc, row.peer.to_vec(alloc)?, failing);
    let status = run(alloc, &row.words, source, sink, &mut wire);
    written.clear();
    written.extend_from_slice(sink.held())?;
    difference(alloc, row, code_of(status), sink.held(), wire.sent(0))
}

fn difference(
    alloc: Global,
    row: &Row,
    status: u8,
    held: &[u8],
    sent: &[u8],
) -> Result<Option<String>, AllocError> {
    if u32::from(status) != row.status {
        return Ok(Some(format!(in alloc; "its status is {status}")?));
    }
    if !is_written(row, held) {
        return Ok(Some(format!(in alloc; "it wrote {:?}", String::from_utf8_lossy(alloc, held)?)?));
    }
    if row.tells_sent && sent != row.sent.as_slice() {
        return Ok(Some(format!(in alloc; "it sent {}", hex::encode(alloc, sent)?)?));
    }
    Ok(None)
}

// Whether this is all that the row tells, has the lines that it names, and ends as it says.
fn is_written(row: &Row, held: &[u8]) -> bool {
    (!row.tells_out || held == row.out.as_slice()) && has_lines(row, held) && has_end(row, held)
}

fn has_lines(row: &Row, held: &[u8]) -> bool {
    for line in row.has.iter() {
        if !has_line(held, line.as_bytes()) {
            return false;
        }
    }
    true
}

fn has_line(held: &[u8], line: &[u8]) -> bool {
    for found in held.split(|byte| *byte == b'\n') {
        if found == line {
            return true;
        }
    }
    false
}

// Whether the last bytes are these lines, and a line begins there.
fn has_end(row: &Row, held: &[u8]) -> bool {
    match held.strip_suffix(row.ending.as_slice()) {
        Some(front) => row.ending.is_empty() || front.is_empty() || front.ends_with(b"\n"),
        None => false,
    }
}
