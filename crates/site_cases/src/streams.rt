//! Streams of frames that come in pieces.

ghost use Rattle.std.specs.Prelude.{◌≤◌, length};

use crate::frames::put_well_formed;
use context_diff::Op;
use op_name::{Member, Memory};
use std::alloc::Global;
use wire_codec::{Cause, FrameStream, StreamBad, Version};

const FIRST: &[u8] =
    b"\x00\x00\x00\x11\x01\x00\x00\x00\x00\x01\x00\x00\x00\x00\x00\x00\x00\x61\x00\x00\x00";

/// Insert 0.1 of version 2.
const FIRST_OF_TWO: &[u8] =
    b"\x00\x00\x00\x13\x01\x00\x00\x00\x00\x00\x01\x00\x00\x00\x00\x00\x00\x00\x61\x00\x00\x00\x00";

/// Insert 0.1, insert 0.2 after it, and insert 1.1 of two characters, which knows nothing.
const THREE: &[u8] =
    b"\x00\x00\x00\x11\x01\x00\x00\x00\x00\x01\x00\x00\x00\x00\x00\x00\x00\x61\x00\x00\x00\
    \x00\x00\x00\x16\x01\x00\x00\x00\x00\x02\x00\x00\x00\x01\x00\x00\x00\x62\x01\x00\x00\x00\x00\x01\x00\x00\
    \x00\x00\x00\x17\x04\x01\x00\x00\x00\x01\x00\x00\x00\x00\x00\x02\x00\x00\x00\x70\x00\x00\x00\x71\x00\x00\x00";

/// The same three of version 2, but that the last one is 1023.1, and knows 0.1 and 0.2, both undone.
const THREE_OF_TWO: &[u8] =
    b"\x00\x00\x00\x13\x01\x00\x00\x00\x00\x00\x01\x00\x00\x00\x00\x00\x00\x00\x61\x00\x00\x00\x00\
    \x00\x00\x00\x19\x01\x00\x00\x00\x00\x00\x02\x00\x00\x00\x01\x00\x00\x00\x62\x00\x01\x00\x00\x00\x00\x00\x01\x00\x00\
    \x00\x00\x00\x29\x04\x03\xff\x00\x00\x00\x01\x00\x00\x00\x00\x00\x02\x00\x00\x00\x70\x00\x00\x00\x71\
    \x00\x01\x00\x00\x00\x00\x00\x02\x00\x01\x00\x00\x00\x00\x00\x01\x00\x02\x00\x01";

/// Puts the frames of what a stream gives one after the other.
fn drain(version: Version, stream: &mut FrameStream, out: &mut Vec<u8>) -> Result<(), Memory> {
    for _ in 0..4 {
        match stream.take() {
            Ok(Some(op)) => put_well_formed(version, &op, out)?,
            Ok(None) => return Ok(()),
            Err(_) => return Err(Memory),
        }
    }
    Ok(())
}

fn pass(
    version: Version,
    stream: &mut FrameStream,
    piece: &[u8],
    out: &mut Vec<u8>,
) -> Result<(), Memory> {
    stream.feed(piece)?;
    drain(version, stream, out)
}

/// Whether what a stream gives, fed by the one piece and then by the other, is both.
fn comes_through(
    alloc: Global,
    version: Version,
    stream: &mut FrameStream,
    all: &[u8],
    cut: usize,
) -> Result<bool, Memory>
    requires { cut ≤ length all.now }
{
    let (front, rest) = all.split_at(cut);
    let mut out = Vec::new(alloc);
    pass(version, stream, front, &mut out)?;
    pass(version, stream, rest, &mut out)?;
    Ok(out.as_slice() == all && stream.rest() == 0)
}

fn comes_through_cut(
    alloc: Global,
    version: Version,
    all: &[u8],
    cut: usize,
) -> Result<bool, Memory>
    requires { cut ≤ length all.now }
{
    let mut stream = FrameStream::of(alloc, version)?;
    comes_through(alloc, version, &mut stream, all, cut)
}

#[test]
fn a_stream_cut_at_each_place(rt: HostRuntime) -> Result<(), Memory> {
    for cut in 0..THREE.len() {
        assert!(rt;
            comes_through_cut(rt.alloc(), Version::One, THREE, cut)?,
            "{cut}"
        );
    }
    for cut in 0..THREE_OF_TWO.len() {
        assert!(rt;
            comes_through_cut(rt.alloc(), Version::Two, THREE_OF_TWO, cut)?,
            "{cut}"
        );
    }
    Ok(())
}

/// What a stream gives.
#[derive(Clone, Copy)]
enum Answer {
    Nothing,
    /// An insert of this member.
    Insert(Member),
    Other,
    Bad(Cause, u64),
    Memory,
}

fn answer_of(op: &Op) -> Answer {
    if matches!(op, Op::Insert { .. }) {
        Answer::Insert(op.member())
    } else {
        Answer::Other
    }
}

fn given(stream: &mut FrameStream) -> Answer {
    match stream.take() {
        Ok(Some(op)) => answer_of(&op),
        Ok(None) => Answer::Nothing,
        Err(StreamBad::Bad { cause, offset }) => Answer::Bad(cause, offset),
        Err(StreamBad::Memory) => Answer::Memory,
    }
}

fn is_nothing(answer: Answer) -> bool {
    match answer {
        Answer::Nothing => true,
        _ => false,
    }
}

fn is_the_first(member: Member) -> bool {
    match member {
        Member::Original(name) => name.site == 0 && name.number == 1,
        Member::Group(..) => false,
    }
}

/// Whether the stream gave insert 0.1.
fn is_first(answer: Answer) -> bool {
    match answer {
        Answer::Insert(member) => is_the_first(member),
        _ => false,
    }
}

fn is_kind_at(answer: Answer, at: u64) -> bool {
    match answer {
        Answer::Bad(cause, offset) => cause == Cause::Kind && offset == at,
        _ => false,
    }
}

fn goes_on_after_a_part(stream: &mut FrameStream, first: &[u8]) -> Result<bool, Memory>
    requires { 5 ≤ length first.now }
{
    let (front, behind) = first.split_at(5);
    stream.feed(front)?;
    let waits = is_nothing(given(stream)) && stream.rest() == 5;
    stream.feed(behind)?;
    Ok(waits && is_first(given(stream)) && stream.rest() == 0)
}

#[test]
fn a_stream_fed_by_a_part_of_a_frame(rt: HostRuntime) -> Result<(), Memory> {
    let mut stream = FrameStream::new(rt.alloc())?;
    let mut second = FrameStream::new2(rt.alloc())?;
    let right = goes_on_after_a_part(&mut stream, FIRST)?
        && goes_on_after_a_part(&mut second, FIRST_OF_TWO)?;
    assert!(rt; right);
    Ok(())
}

fn stays_at_a_fault(stream: &mut FrameStream) -> Result<bool, Memory> {
    stream.feed(FIRST)?;
    stream.feed(b"\x00\x00\x00\x01\x05")?;
    let first = is_first(given(stream));
    let once = is_kind_at(given(stream), 25);
    stream.feed(b"\x00")?;
    let twice = is_kind_at(given(stream), 25);
    stream.feed(b"\x00")?;
    Ok(first && once && twice && stream.rest() == 7)
}

#[test]
fn a_stream_stays_at_a_fault(rt: HostRuntime) -> Result<(), Memory> {
    let mut stream = FrameStream::new(rt.alloc())?;
    let right = stays_at_a_fault(&mut stream)?;
    assert!(rt; right);
    Ok(())
}

fn holds_long_frames(stream: &mut FrameStream, piece: &[u8]) -> Result<bool, Memory> {
    stream.feed(b"\x00\x01\xc5\x4f")?;
    stream.feed(piece)?;
    let waits = is_nothing(given(stream)) && stream.rest() == 65_540;
    stream.feed(piece)?;
    Ok(waits && is_kind_at(given(stream), 4))
}

#[test]
fn a_stream_holds_more_than_65_536_bytes(rt: HostRuntime) -> Result<(), Memory> {
    let piece = vec![in rt.alloc(); 0u8; 65_536]?;
    let mut stream = FrameStream::new(rt.alloc())?;
    let right = holds_long_frames(&mut stream, piece.as_slice())?;
    assert!(rt; right);
    Ok(())
}
