//! The frames that follow a checkpoint.

ghost use Rattle.std.specs.Prelude.{◌≡◌, ◌+◌, ◌≤◌, ◌<◌, ◌^◌, List, OnOk, IfErr, drop, length};
ghost use Rattle.context_diff.specs.Operations.{OpData};
ghost use Rattle.checkpoint_codec.specs.Frames.{AreFrames, IsNoFrame};

use crate::refusal::CheckpointBad;
use wire_codec::{Scan, scan2};

/// Goes over the frames of later operations, which begin at the offset `at` and go on to the end, and tells the first fault, if there is
/// one.
///
/// Refused by Cut, at the offset of the frame in which the bytes end, or by Bad, with the cause and the offset of the fault. It takes no
/// memory.
pub fn check_frames(bytes: &[u8], at: u32) -> Result<(), CheckpointBad>
    requires short { length bytes.now < 2 ^ 32 }
    requires within { at ≤ length bytes.now }
    ensures frames { OnOk result ((os : List OpData) × AreFrames (drop at bytes.now) os) }
    ensures refused { IfErr result (IsNoFrame (drop at bytes.now) at) }
{
    let mut offset = at;
    let mut left = bytes.split_at(at as usize).1;
    while !left.is_empty() {
        match scan2(left) {
            Scan::Frame { used } => {
                offset += used;
                left = left.split_at(used as usize).1;
            }
            Scan::More { .. } => return Err(CheckpointBad::Cut { offset }),
            Scan::Bad {
                cause,
                offset: within,
            } => {
                return Err(CheckpointBad::Bad {
                    offset: offset + within,
                    cause,
                });
            }
        }
    }
    Ok(())
}
