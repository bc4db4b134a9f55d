//! Bytes to checkpoints.

ghost use Rattle.std.specs.Prelude.{◌≡◌, ◌≢◌, ◌+◌, ◌++◌, ◌<◌, ◌^◌, ℕ, List, IfOk, IfErr, IfSome, IsNone, length};
ghost use Rattle.flat_history.specs.Checkpoints as flat;
ghost use Rattle.checkpoint_codec.specs.Spelling.{header, checkpoint_bytes};
ghost use Rattle.checkpoint_codec.specs.Spelled.{IsSpelled};
ghost use Rattle.checkpoint_codec.specs.Reading.{fields_at};
ghost use Rattle.checkpoint_codec.specs.Answers.{found_in, IsAnswer, IsFront, SaysOf};
ghost use Rattle.checkpoint_codec.specs.Code.Reads.{IsRead};

use crate::checkpoint::Checkpoint;
use crate::flaw::Stop;
use crate::left::Left;
use crate::originals::originals;
use crate::refusal::{CheckpointBad, refusal_of};
use crate::undone::names;
use context_vector::Vector;
use std::alloc::Global;

/// How many bytes the header has.
pub(crate) const HEADER_LEN: u32 = 8;

/// What each checkpoint begins with.
const HEADER: &[u8] = b"COTCHK1\n";

/// A checkpoint that bytes begin with, and how many bytes it has.
#[derive(Drop)]
pub struct Front {
    pub checkpoint: Checkpoint,
    pub used: u32,
}

/// What each checkpoint begins with.
pub(crate) fn header() -> &'static [u8]
    ensures { result.now ≡ header }
{
    HEADER
}

// What comes after the header. None where the bytes don't begin with it.
fn after_header(bytes: &[u8]) -> Option<&[u8]>
    ensures some { IfSome result (λ rest. bytes.now ≡ header ++ rest.now) }
    ensures none { IsNone result → (rest : List ℕ) → bytes.now ≢ header ++ rest }
{
    if bytes.starts_with(header()) {
        Some(bytes.split_at(HEADER_LEN as usize).1)
    } else {
        None
    }
}

// All fields after the header.
#[tactic(auto, unfolding(crate::specs::Reading::fields_at))]
fn fields(alloc: Global, left: &mut Left) -> Result<Checkpoint, Stop>
    ensures { IsRead (λ p. p) result left.new (fields_at left.old) }
{
    let mut known = Vector::new(alloc);
    let originals = originals(alloc, left, &mut known)?;
    let undone = names(alloc, left, &known)?;
    Ok(Checkpoint::new(originals, undone))
}

// The checkpoint whose fields the bytes after the header begin with.
fn front_of(alloc: Global, rest: &[u8]) -> Result<Front, CheckpointBad>
    requires { HEADER_LEN + length rest.now < 2 ^ 32 }
    ensures { IsAnswer result (found_in rest.now) }
{
    let mut left = Left::new(HEADER_LEN, rest);
    match fields(alloc, &mut left) {
        Ok(checkpoint) => Ok(Front {
            checkpoint,
            used: left.at(),
        }),
        Err(stop) => Err(refusal_of(stop)),
    }
}

/// The checkpoint that the bytes begin with, and how many bytes it has; frames of later operations may follow.
///
/// Refused by Header; by Cut or Bad, the first fault as the fields are read from the front, with its offset; or by Memory.
pub fn read_checkpoint(alloc: Global, bytes: &[u8]) -> Result<Front, CheckpointBad>
    requires { length bytes.now < 2 ^ 32 }

    // The fields after the header decide, and a refusal tells their first fault.
    ensures exact { (rest : List ℕ) → bytes.now ≡ header ++ rest → IsAnswer result (found_in rest) }

    // What the answer says: the first bytes are the spelling of this checkpoint, or there is a fault in the bytes, and they begin with no
    // checkpoint.
    ensures tells { IfOk result (IsFront bytes.now) }
    ensures refused { IfErr result (SaysOf bytes.now) }

    // Each checkpoint that has a spelling is read back from it, whatever follows it.
    ensures only { (p : flat.Checkpoint) (rest : List ℕ) → IsSpelled p → bytes.now ≡ checkpoint_bytes p ++ rest
        → IfErr result (λ why. why ≡ CheckpointBad.Memory) }
    ensures same { (p : flat.Checkpoint) (rest : List ℕ) → IsSpelled p → bytes.now ≡ checkpoint_bytes p ++ rest
        → IfOk result (λ f. f.checkpoint ≡ p) }
{
    match after_header(bytes) {
        Some(rest) => front_of(alloc, rest),
        None => Err(CheckpointBad::Header),
    }
}
