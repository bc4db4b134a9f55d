//! Checkpoints byte by byte: what is written of a site, what is read back, and what is refused.

use crate::edits::{Edit, does_all, take_in};
use crate::made::{bytes_of, op_of};
use checkpoint::{FlatBad, flatten};
use checkpoint_codec::{CheckpointBad, check_frames, read_checkpoint, write_checkpoint};
use cot_site::Site;
use op_name::Name;
use std::alloc::Global;
use std::test::Fail;
use wire_codec::Cause;

/// 0.1 of `x`, and 0.2 of `y` behind it.
const TWO: &str =
    "434f5443484b310a00000002010000000000010000000000000078010000000000020000000100000079\
    00000000";

/// 0.1 of `xx`, 0.2 deletes the second, and that was undone and redone.
const UNDONE: &str =
    "434f5443484b310a0000000204000000000001000000000002000000780000007802000000000002\
    00000001000000010000000000020002";

/// 0.1 of `x`, 0.2 of `y` behind it, and 1.1 of `p` at place 0 of an empty text, which was executed behind both.
const MOVED: &str =
    "434f5443484b310a00000003010000000000010000000000000078010000000000020000000100000079\
    01000100000001000000020000007000000000";

/// Bytes that begin with no checkpoint.
const REFUSED: [(&str, CheckpointBad); 9] = [
    ("434f544c4f47320a0000000000000000", CheckpointBad::Header),
    ("434f5443484b31", CheckpointBad::Header),
    ("434f5443484b310a000000", CheckpointBad::Cut { offset: 8 }),
    (
        "434f5443484b310a00000002010000000000010000000000000078010000000000020000000100000079000000",
        CheckpointBad::Cut { offset: 42 },
    ),
    (
        "434f5443484b310a0000000103000000000001",
        CheckpointBad::Bad {
            offset: 12,
            cause: Cause::Kind,
        },
    ),
    (
        "434f5443484b310a0000000101000000000002",
        CheckpointBad::Bad {
            offset: 12,
            cause: Cause::Own,
        },
    ),
    (
        "434f5443484b310a00000001010000000000010000000000000078000000010000000000020001",
        CheckpointBad::Bad {
            offset: 31,
            cause: Cause::Stray,
        },
    ),
    (
        "434f5443484b310a00000001010000000000010000000000000078000000020000000000010001000000000001",
        CheckpointBad::Bad {
            offset: 39,
            cause: Cause::Order,
        },
    ),
    (
        "434f5443484b310a00000001010000000000010000000000000078000000010000000000010000",
        CheckpointBad::Bad {
            offset: 37,
            cause: Cause::Zero,
        },
    ),
];

/// Whether these bytes are the checkpoint of the site.
fn is_written(alloc: Global, site: &Site, digits: &str) -> Result<bool, Fail> {
    let mut out = Vec::new(alloc);
    if flatten(alloc, site, &mut out).is_err() {
        return Ok(false);
    }
    Ok(out.as_slice() == bytes_of(alloc, digits)?.as_slice())
}

/// Whether these bytes are the checkpoint of site 0 after the commands.
fn is_written_after(alloc: Global, edits: &[Edit], digits: &str) -> Result<bool, Fail> {
    let mut site = Site::new(alloc, 0)?;
    if !does_all(&mut site, edits) {
        return Ok(false);
    }
    is_written(alloc, &site, digits)
}

#[test]
fn checkpoints_of_commands(rt: HostRuntime) -> Result<(), Fail> {
    let typed = [Edit::Insert(0, 'x'), Edit::Insert(1, 'y')];
    assert!(rt; is_written_after(rt.alloc(), &typed, TWO)?);
    let deleted = Name { site: 0, number: 2 };
    let undone = [
        Edit::Run(0, 2),
        Edit::Delete(1),
        Edit::Undo(deleted),
        Edit::Redo(deleted),
    ];
    assert!(rt; is_written_after(rt.alloc(), &undone, UNDONE)?);
    Ok(())
}

/// Whether the checkpoint of two inserts and a concurrent one of a peer tells the place at which that was executed.
fn tells_executed_places(alloc: Global) -> Result<bool, Fail> {
    let mut site = Site::new(alloc, 0)?;
    if !does_all(&mut site, &[Edit::Insert(0, 'x'), Edit::Insert(1, 'y')]) {
        return Ok(false);
    }
    take_in(&mut site, &op_of(alloc, "1.1 0 p |")?)?;
    is_written(alloc, &site, MOVED)
}

/// Whether a site at which one operation waits has no checkpoint.
fn one_may_not_wait(alloc: Global) -> Result<bool, Fail> {
    let mut site = Site::new(alloc, 0)?;
    take_in(&mut site, &op_of(alloc, "1.2 0 p | 1.1")?)?;
    let mut out = Vec::new(alloc);
    Ok(flatten(alloc, &site, &mut out) == Err(FlatBad::Waiting { count: 1 }) && out.is_empty())
}

#[test]
fn checkpoints_of_delivered_operations(rt: HostRuntime) -> Result<(), Fail> {
    assert!(rt; tells_executed_places(rt.alloc())?);
    assert!(rt; one_may_not_wait(rt.alloc())?);
    Ok(())
}

/// Whether the bytes are read to their end, and written again.
fn is_read_back(alloc: Global, bytes: &[u8]) -> Result<bool, Fail> {
    if bytes.len() > u32::MAX as usize {
        return Ok(false);
    }
    match read_checkpoint(alloc, bytes) {
        Ok(front) => {
            let mut out = Vec::new(alloc);
            write_checkpoint(alloc, &front.checkpoint, &mut out)?;
            Ok(front.used as usize == bytes.len() && out.as_slice() == bytes)
        }
        Err(_) => Ok(false),
    }
}

#[test]
fn checkpoints_are_read_back(rt: HostRuntime) -> Result<(), Fail> {
    for digits in [TWO, UNDONE, MOVED] {
        let bytes = bytes_of(rt.alloc(), digits)?;
        assert!(rt; is_read_back(rt.alloc(), bytes.as_slice())?, "{digits}");
    }
    Ok(())
}

/// Whether the bytes are refused so.
fn is_refused(alloc: Global, bytes: &[u8], why: CheckpointBad) -> bool {
    if bytes.len() > u32::MAX as usize {
        return false;
    }
    match read_checkpoint(alloc, bytes) {
        Ok(_) => false,
        Err(bad) => bad == why,
    }
}

#[test]
fn bytes_that_are_no_checkpoint(rt: HostRuntime) -> Result<(), Fail> {
    for (digits, why) in REFUSED {
        let bytes = bytes_of(rt.alloc(), digits)?;
        assert!(rt; is_refused(rt.alloc(), bytes.as_slice(), why), "{digits}");
    }
    Ok(())
}

/// Eight bytes, and after them: a frame of 23 bytes, one that names 255 runs of undone names that aren't there, one without its last byte,
/// and none.
const FRAMES: [(&str, Result<(), CheckpointBad>); 4] = [
    (
        "00000000000000000000001301000100000001000000000000007000000000",
        Ok(()),
    ),
    (
        "000000000000000000000013010001000000010000000000000070000000ff",
        Err(CheckpointBad::Bad {
            offset: 31,
            cause: Cause::Length,
        }),
    ),
    (
        "000000000000000000000013010001000000010000000000000070000000",
        Err(CheckpointBad::Cut { offset: 8 }),
    ),
    ("0000000000000000", Ok(())),
];

/// Whether the frames behind the first eight bytes are judged so.
fn are_judged(bytes: &[u8], want: Result<(), CheckpointBad>) -> bool {
    if bytes.len() < 8 || bytes.len() > u32::MAX as usize {
        return false;
    }
    check_frames(bytes, 8) == want
}

#[test]
fn frames_behind_a_checkpoint(rt: HostRuntime) -> Result<(), Fail> {
    for (digits, want) in FRAMES {
        let bytes = bytes_of(rt.alloc(), digits)?;
        assert!(rt; are_judged(bytes.as_slice(), want), "{digits}");
    }
    Ok(())
}
