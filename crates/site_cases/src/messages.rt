//! The messages of an exchange: how long they are, as far as their bytes tell, and one that is cut.

use cot_site::Site;
use op_name::Memory;
use peer_exchange::{MAX_MESSAGE, Measure, MessageReader, Peer, PeerCause, Which, close, measure};
use std::alloc::Global;
use wire_codec::Cause;

/// The head, the state 0:1, the frame of insert 0.1 of `a`, and the end mark.
const SECOND: &[u8] = b"COTVEC2\n\x00\x01\x00\x00\x00\x00\x00\x01\x00\x00\x00\x00\
    \x00\x00\x00\x13\x01\x00\x00\x00\x00\x00\x01\x00\x00\x00\x00\x00\x00\x00\x61\x00\x00\x00\x00\
    \x00\x00\x00\x00";

/// The same without its end mark.
const CUT: &[u8] = b"COTVEC2\n\x00\x01\x00\x00\x00\x00\x00\x01\x00\x00\x00\x00\
    \x00\x00\x00\x13\x01\x00\x00\x00\x00\x00\x01\x00\x00\x00\x00\x00\x00\x00\x61\x00\x00\x00\x00";

const MEASURED: [(&str, Which, &[u8], Measure); 16] = [
    ("nothing", Which::First, b"", Measure::More { at_least: 8 }),
    (
        "a head",
        Which::First,
        b"COTVEC2\n",
        Measure::More { at_least: 10 },
    ),
    (
        "the head of version 1, at the server",
        Which::First,
        b"COTVEC1\n",
        Measure::Bad {
            offset: 0,
            cause: PeerCause::Head,
        },
    ),
    (
        "the head of version 1, at the joiner",
        Which::Second,
        b"COTVEC1\n\x00",
        Measure::Bad {
            offset: 0,
            cause: PeerCause::Head,
        },
    ),
    (
        "a first",
        Which::First,
        b"COTVEC2\n\x00\x00\x00\x00\x00\x00",
        Measure::Whole { used: 14 },
    ),
    (
        "a count",
        Which::First,
        b"COTVEC2\n\x00\x01\x00",
        Measure::More { at_least: 16 },
    ),
    (
        "a run",
        Which::First,
        b"COTVEC2\n\x00\x00\x00\x00\x00\x01",
        Measure::More { at_least: 26 },
    ),
    (
        "a run of 65,536 names",
        Which::First,
        b"COTVEC2\n\x00\x01\x00\x00\x00\x01\x00\x00\x00\x00\x00\x01\x00\x00\x00\x00\x00\x01\x00\x01\x00\x00\x00\x01",
        Measure::Whole { used: 32 },
    ),
    (
        "a run that could have been longer",
        Which::First,
        b"COTVEC2\n\x00\x01\x00\x00\x00\x00\x00\x02\x00\x00\x00\x02\
          \x00\x00\x00\x00\x00\x01\x00\x00\x00\x01\x00\x01\x00\x00\x00\x00\x00\x02\x00\x00\x00\x01\x00\x01",
        Measure::Bad {
            offset: 32,
            cause: PeerCause::Frame(Cause::Order),
        },
    ),
    (
        "a run that names what the state lacks",
        Which::First,
        b"COTVEC2\n\x00\x01\x00\x00\x00\x00\x00\x02\x00\x00\x00\x01\
          \x00\x00\x00\x00\x00\x02\x00\x00\x00\x02\x00\x01",
        Measure::Bad {
            offset: 20,
            cause: PeerCause::Frame(Cause::Stray),
        },
    ),
    (
        "1,025 sites",
        Which::First,
        b"COTVEC2\n\x04\x01",
        Measure::Bad {
            offset: 8,
            cause: PeerCause::Frame(Cause::Range),
        },
    ),
    (
        "sites that fall",
        Which::First,
        b"COTVEC2\n\x00\x02\x00\x01\x00\x00\x00\x01\x00\x00\x00\x00\x00\x01",
        Measure::Bad {
            offset: 16,
            cause: PeerCause::Frame(Cause::Order),
        },
    ),
    (
        "a second",
        Which::Second,
        SECOND,
        Measure::Whole { used: 47 },
    ),
    (
        "cut before its end mark",
        Which::Second,
        CUT,
        Measure::More { at_least: 47 },
    ),
    (
        "an end mark, and a byte more",
        Which::Third,
        b"\x00\x00\x00\x00\x01",
        Measure::Whole { used: 4 },
    ),
    (
        "a kind that is none",
        Which::Third,
        b"\x00\x00\x00\x01\x09",
        Measure::Bad {
            offset: 4,
            cause: PeerCause::Frame(Cause::Kind),
        },
    ),
];

fn is_measured(which: Which, bytes: &[u8], wanted: Measure) -> bool {
    bytes.len() <= MAX_MESSAGE && measure(which, bytes) == wanted
}

#[test]
fn messages_say_how_long_they_are(rt: HostRuntime) {
    for (why, which, bytes, wanted) in MEASURED {
        assert!(rt; is_measured(which, bytes, wanted), "{why}");
    }
}

/// Feeds a piece; answers whether the message then has this measure.
fn measures(reader: &mut MessageReader, piece: &[u8], wanted: Measure) -> Result<bool, Memory> {
    reader.feed(piece)?;
    Ok(reader.len() <= MAX_MESSAGE && reader.measure() == wanted)
}

/// The same for the head, the state, and what follows.
fn measures_all(reader: &mut MessageReader) -> Result<bool, Memory> {
    Ok(
        measures(reader, &SECOND[..8], Measure::More { at_least: 10 })?
            && measures(reader, &SECOND[8..20], Measure::More { at_least: 24 })?
            && measures(reader, &SECOND[20..], Measure::Whole { used: 47 })?
            && reader.bytes() == SECOND,
    )
}

#[test]
fn a_message_is_read_in_pieces(rt: HostRuntime) -> Result<(), Memory> {
    let mut reader = MessageReader::new(rt.alloc(), Which::Second);
    let right = measures_all(&mut reader)?;
    assert!(rt; right);
    assert!(rt; reader.into_bytes().as_slice() == SECOND);
    Ok(())
}

/// Whether the joiner refuses a message for being cut at its end, and has nothing after that.
fn is_cut(alloc: Global, joiner: &mut Site, bytes: &[u8], third: &mut Vec<u8>) -> bool {
    if bytes.len() > MAX_MESSAGE {
        return false;
    }
    match close(alloc, joiner, bytes, third) {
        Err(Peer::Bytes { offset, cause }) => {
            offset as usize == bytes.len()
                && cause == PeerCause::Cut
                && third.len() == 0
                && joiner.book().len() == 0
        }
        _ => false,
    }
}

/// Whether the joiner takes in one frame of the message, and sends none.
fn takes_one(alloc: Global, joiner: &mut Site, third: &mut Vec<u8>) -> bool {
    match close(alloc, joiner, SECOND, third) {
        Ok((taken, sent)) => {
            taken == 1 && sent == 0 && third.as_slice() == b"\x00\x00\x00\x00".as_slice()
        }
        Err(_) => false,
    }
}

#[test]
fn a_message_that_is_cut_changes_nothing(rt: HostRuntime) -> Result<(), Memory> {
    let alloc = rt.alloc();
    let mut third = Vec::new(alloc);
    let mut joiner = Site::new(alloc, 1)?;
    let right = is_cut(alloc, &mut joiner, CUT, &mut third)
        && is_cut(alloc, &mut joiner, &SECOND[..8], &mut third)
        && takes_one(alloc, &mut joiner, &mut third);
    assert!(rt; right);
    Ok(())
}
