//! Frames and states, byte by byte: operations as bytes and back, and the longest frames.

ghost use Rattle.context_diff.specs.Operations.{IsWellFormed};
ghost use Rattle.context_diff.specs.Ops.{data_of};

use crate::made::{bytes_of, op_of};
use context_diff::Op;
use op_name::Memory;
use std::alloc::Global;
use std::test::Fail;
use wire_codec::{
    Cause, Decoded, DecodedState, LONGEST_BODY, LONGEST_BODY_TWO, Scan, Version, decode, decode_in,
    decode_state, decode2, encode, encode_state, encode2, fits1, scan, scan2,
};

/// Whether more bytes are asked for, four in all.
fn asks_for_four(decoded: &Result<Decoded, Memory>) -> bool {
    match decoded {
        Ok(Decoded::More { at_least }) => *at_least == 4,
        _ => false,
    }
}

/// Whether `decode` and `decode2` ask for four bytes where there is none.
fn asks_for_a_length(alloc: Global) -> bool {
    asks_for_four(&decode(alloc, b"")) && asks_for_four(&decode2(alloc, b""))
}

// A line of bytes has one byte at least, and in a message the second of these is the end mark.
#[test]
fn bytes_that_no_row_has(rt: HostRuntime) {
    assert!(rt; asks_for_a_length(rt.alloc()));
    assert!(rt; scan(b"") == Scan::More { at_least: 4 });
    let bad = Scan::Bad {
        cause: Cause::Length,
        offset: 4,
    };
    assert!(rt; scan(b"\x00\x00\x00\x00") == bad);
    assert!(rt; scan2(b"") == Scan::More { at_least: 4 });
    assert!(rt; scan2(b"\x00\x00\x00\x00") == bad);
}

/// Operations with their frames of version 1 and of version 2.
const SPELLED: [(&str, &str, &str); 10] = [
    (
        "0.1 0 a |",
        "000000110100000000010000000000000061000000",
        "0000001301000000000001000000000000006100000000",
    ),
    (
        "0.2 1 b | 0.1",
        "0000001601000000000200000001000000620100000000010000",
        "0000001901000000000002000000010000006200010000000000010000",
    ),
    (
        "1.1 0 p |",
        "000000110101000000010000000000000070000000",
        "0000001301000100000001000000000000007000000000",
    ),
    (
        "2.1 0 q |",
        "000000110102000000010000000000000071000000",
        "0000001301000200000001000000000000007100000000",
    ),
    (
        "0.1 0 ab |",
        "000000170400000000010000000000020000006100000062000000",
        "0000001904000000000001000000000002000000610000006200000000",
    ),
    (
        "1.1 2 pqr | 0.1",
        "000000200401000000010000000200030000007000000071000000720100000000010000",
        "000000230400010000000100000002000300000070000000710000007200010000000000010000",
    ),
    (
        "0.2 0 | 0.1",
        "00000012020000000002000000000100000000010000",
        "00000015020000000000020000000000010000000000010000",
    ),
    (
        "0.1/1 1 | 0.1",
        "000000110301000000000100010100000000010000",
        "00000015030001000000000001000100010000000000010000",
    ),
    (
        "0.1/2 1 | 0.1 0.1/1",
        "00000018030100000000010002010000000001000100000000010001",
        "0000001f03000100000000000100020001000000000001000100000000000100010001",
    ),
    (
        "0.4 0 c | 0.3 0.1/1 0.2/1 0.3/2",
        "0000002b01000000000400000000000000630100000000030003000000000100010000000002000100000000030002",
        "0000002d010000000000040000000000000063000100000000000300020000000000010002000100000000000300010002",
    ),
];

/// Operations of sites that version 1 can't name, with their frames of version 2.
const SPELLED_NEWLY: [(&str, &str); 2] = [
    (
        "1023.1 0 z |",
        "000000130103ff00000001000000000000007a00000000",
    ),
    (
        "0.1 0 a | 64.2",
        "0000001901000000000001000000000000006100010040000000020000",
    ),
];

/// Appends the frame of the operation, if it is well formed and has one.
fn put(version: Version, op: &Op, out: &mut Vec<u8>) -> Result<(), Memory> {
    if op.fault().is_some() {
        return Ok(());
    }
    put_well_formed(version, op, out)
}

/// Appends the frame of the operation, if it has one.
pub(crate) fn put_well_formed(version: Version, op: &Op, out: &mut Vec<u8>) -> Result<(), Memory>
    requires { IsWellFormed (data_of op.now) }
{
    match version {
        Version::One => put_of_one(op, out),
        Version::Two => encode2(op, out),
    }
}

/// Appends the frame of version 1, if that names all sites of the operation.
fn put_of_one(op: &Op, out: &mut Vec<u8>) -> Result<(), Memory>
    requires { IsWellFormed (data_of op.now) }
{
    if fits1(op) { encode(op, out) } else { Ok(()) }
}

/// Whether the operation is written so.
fn is_written(alloc: Global, version: Version, op: &Op, bytes: &[u8]) -> Result<bool, Memory> {
    let mut out = Vec::new(alloc);
    put(version, op, &mut out)?;
    Ok(out.as_slice() == bytes)
}

/// Whether the bytes are read as this operation, to their end.
fn is_read(alloc: Global, version: Version, op: &Op, bytes: &[u8]) -> bool {
    match decode_in(version, alloc, bytes) {
        Ok(Decoded::Got { op: found, used }) => found == *op && used as usize == bytes.len(),
        _ => false,
    }
}

fn is_spelled(alloc: Global, version: Version, words: &str, digits: &str) -> Result<bool, Fail> {
    let bytes = bytes_of(alloc, digits)?;
    let op = op_of(alloc, words)?;
    Ok(
        is_written(alloc, version, &op, bytes.as_slice())?
            && is_read(alloc, version, &op, bytes.as_slice()),
    )
}

#[test]
fn operations_are_written_and_read(rt: HostRuntime) -> Result<(), Fail> {
    for (words, first, second) in SPELLED {
        assert!(rt;
            is_spelled(rt.alloc(), Version::One, words, first)?,
            "{words}"
        );
        assert!(rt;
            is_spelled(rt.alloc(), Version::Two, words, second)?,
            "{words}"
        );
    }
    for (words, digits) in SPELLED_NEWLY {
        assert!(rt;
            is_written(rt.alloc(), Version::One, &op_of(rt.alloc(), words)?, b"")?,
            "{words}"
        );
        assert!(rt;
            is_spelled(rt.alloc(), Version::Two, words, digits)?,
            "{words}"
        );
    }
    Ok(())
}

fn put_site(bytes: &mut Vec<u8>, version: Version, site: u16) -> Result<(), Memory> {
    match version {
        Version::One => bytes.push((site % 256) as u8)?,
        Version::Two => bytes.extend_from_slice(&site.to_be_bytes())?,
    }
    Ok(())
}

// A count of each site: of the first one 16,385.
fn put_counts(bytes: &mut Vec<u8>, version: Version) -> Result<(), Memory> {
    put_site(bytes, version, version.sites())?;
    for site in 0..version.sites() {
        let count = if site == 0 { 16_385u32 } else { 1 };
        put_site(bytes, version, site)?;
        bytes.extend_from_slice(&count.to_be_bytes())?;
    }
    Ok(())
}

// 16,384 undone names of the first site. Their generations are 1 and 2 in turn, so each is a run of its own.
fn put_entries(bytes: &mut Vec<u8>, version: Version) -> Result<(), Memory> {
    bytes.extend_from_slice(&16_384u16.to_be_bytes())?;
    for number in 1..16_385u32 {
        put_site(bytes, version, 0)?;
        bytes.extend_from_slice(&number.to_be_bytes())?;
        if version == Version::Two {
            bytes.extend_from_slice(b"\x00\x01")?;
        }
        bytes.extend_from_slice(if number % 2 == 1 {
            b"\x00\x01"
        } else {
            b"\x00\x02"
        })?;
    }
    Ok(())
}

// 256 times the character `a`, after how many there are.
fn put_text(bytes: &mut Vec<u8>) -> Result<(), Memory> {
    bytes.extend_from_slice(b"\x01\x00")?;
    for _ in 0..256 {
        bytes.extend_from_slice(b"\x00\x00\x00\x61")?;
    }
    Ok(())
}

fn put_full(bytes: &mut Vec<u8>, version: Version, length: u32) -> Result<(), Memory> {
    bytes.extend_from_slice(&length.to_be_bytes())?;
    bytes.push(4)?;
    put_site(bytes, version, version.sites() - 1)?;
    bytes.extend_from_slice(b"\x00\x00\x00\x02\x00\x00\x00\x00")?;
    put_text(bytes)?;
    put_counts(bytes, version)?;
    put_entries(bytes, version)
}

/// The second insert of the last site, of 256 characters, with a count for each site and as many undone names as there may be.
fn full(alloc: Global, version: Version, length: u32) -> Result<Vec<u8>, Memory> {
    let mut bytes = Vec::new(alloc);
    put_full(&mut bytes, version, length)?;
    Ok(bytes)
}

fn is_written_again(alloc: Global, version: Version, bytes: &[u8]) -> Result<bool, Memory> {
    match decode_in(version, alloc, bytes)? {
        Decoded::Got { op, .. } => is_written(alloc, version, &op, bytes),
        _ => Ok(false),
    }
}

#[test]
fn the_longest_frame_is_read_and_written_again(rt: HostRuntime) -> Result<(), Memory> {
    let bytes = full(rt.alloc(), Version::One, LONGEST_BODY)?;
    let again = is_written_again(rt.alloc(), Version::One, bytes.as_slice())?;
    assert_eq!(rt; LONGEST_BODY, 116_047);
    assert_eq!(rt; bytes.len(), 116_051);
    assert!(rt; again && scan(bytes.as_slice()) == Scan::Frame { used: 116_051 });
    Ok(())
}

#[test]
fn the_longest_frame_of_version_2_is_read_and_written_again(rt: HostRuntime) -> Result<(), Memory> {
    let bytes = full(rt.alloc(), Version::Two, LONGEST_BODY_TWO)?;
    let again = is_written_again(rt.alloc(), Version::Two, bytes.as_slice())?;
    assert_eq!(rt; LONGEST_BODY_TWO, 171_025);
    assert_eq!(rt; bytes.len(), 171_029);
    assert!(rt; again && scan2(bytes.as_slice()) == Scan::Frame { used: 171_029 });
    Ok(())
}

/// Whether the bytes, of which there are few, are a state of this rank, which is written so again.
fn is_state(alloc: Global, bytes: &[u8], rank: u32) -> Result<bool, Memory> {
    if bytes.len() > 100 {
        return Ok(false);
    }
    let mut out = Vec::new(alloc);
    match decode_state(alloc, bytes)? {
        DecodedState::Got { vector, used } => {
            encode_state(&vector, &mut out)?;
            Ok(used as usize == bytes.len() && vector.rank() == rank && out.as_slice() == bytes)
        }
        _ => Ok(false),
    }
}

// 0.1 to 0.3, with the first undo of 0.1 and of 0.2, and 1023.1.
#[test]
fn a_state_is_read_and_written_again(rt: HostRuntime) -> Result<(), Fail> {
    let bytes = bytes_of(
        rt.alloc(),
        "000200000000000303ff0000000100000001000000000001000000020001",
    )?;
    let right = is_state(rt.alloc(), bytes.as_slice(), 4)?;
    assert!(rt; right);
    Ok(())
}
