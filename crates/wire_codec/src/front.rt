//! Judging bytes from anywhere.

ghost use Rattle.std.specs.Prelude.{◌≡◌, ◌++◌, ℕ, List, length, Ok, IfOk, IsOk, OnErr};
ghost use Rattle.context_diff.specs.Operations.{OpData, IsInRange, IsWellFormed};
ghost use Rattle.wire_codec.specs.declared.version.Version.TheVariants.{One, Two};
ghost use Rattle.wire_codec.specs.Versions.{Fits};
ghost use Rattle.wire_codec.specs.Spelling.{frame};
ghost use Rattle.wire_codec.specs.Judging.{judge};
ghost use Rattle.wire_codec.specs.Code.Lent.{op_seen, judged_as};
ghost use Rattle.wire_codec.specs.Answers.{scan_of, judgement_of, HasFrame, SaysOf, TellsOf};

use crate::answers::{Decoded, Scan};
use crate::fault::Refused;
use crate::rules::{LentOp, judge};
use crate::vectors::op_of;
use crate::version::Version;
use op_name::Memory;
use std::alloc::Global;

// What is answered to a judgement, without its operation.
fn scanned(judged: Result<(LentOp, u32), Refused>) -> Scan
    ensures { result ≡ scan_of (judged_as op_seen judged.entry) }
{
    match judged {
        Ok((_, used)) => Scan::Frame { used },
        Err(Refused::More(at_least)) => Scan::More { at_least },
        Err(Refused::Bad(fault)) => Scan::Bad {
            cause: fault.cause,
            offset: fault.offset,
        },
    }
}

// What is answered to a judgement, the operation with a text and a context of its own.
fn decoded(alloc: Global, judged: Result<(LentOp, u32), Refused>) -> Result<Decoded, Memory>
    requires { IfOk judged (λ p. IsInRange (op_seen p.0)) }
    ensures exact { IfOk result (λ d. judgement_of d ≡ judged_as op_seen judged.entry) }
    ensures memory { OnErr result (IsOk judged.entry) }
{
    Ok(match judged {
        Ok((op, used)) => Decoded::Got {
            op: op_of(alloc, &op)?,
            used,
        },
        Err(Refused::More(at_least)) => Decoded::More { at_least },
        Err(Refused::Bad(fault)) => Decoded::Bad {
            cause: fault.cause,
            offset: fault.offset,
        },
    })
}

/// What the bytes begin with: the frame of a well-formed operation in this version, too few bytes to tell, or a fault,
/// of which the first in the order of the rules is answered.
///
/// It takes no memory, and goes over the bytes of one frame once.
pub fn scan_in(version: Version, bytes: &[u8]) -> Scan
    ensures exact { result ≡ scan_of (judge version bytes.now) }

    // What the answer says: a frame is there, more bytes are asked for than there are, or there is a fault in the
    // bytes, and no continuation of them begins with a frame.
    ensures says { SaysOf version bytes.now result }

    // Each frame is found, whatever follows it.
    ensures only { (o : OpData) (rest : List ℕ) → IsWellFormed o → Fits version o → bytes.now ≡ frame version o ++ rest
        → result ≡ scan_of (Ok (o, length (frame version o))) }
{
    scanned(judge(version, bytes))
}

/// `scan_in` version 1.
pub fn scan(bytes: &[u8]) -> Scan
    ensures exact { result ≡ scan_of (judge One bytes.now) }
    ensures says { SaysOf One bytes.now result }
    ensures only { (o : OpData) (rest : List ℕ) → IsWellFormed o → Fits One o → bytes.now ≡ frame One o ++ rest
        → result ≡ scan_of (Ok (o, length (frame One o))) }
{
    scan_in(Version::One, bytes)
}

/// `scan_in` version 2, which has a frame for each well-formed operation.
pub fn scan2(bytes: &[u8]) -> Scan
    ensures exact { result ≡ scan_of (judge Two bytes.now) }
    ensures says { SaysOf Two bytes.now result }
    ensures only { (o : OpData) (rest : List ℕ) → IsWellFormed o → bytes.now ≡ frame Two o ++ rest
        → result ≡ scan_of (Ok (o, length (frame Two o))) }
{
    scan_in(Version::Two, bytes)
}

/// What the bytes begin with, as `scan_in` answers, and the operation of the frame.
///
/// It answers `Memory` where the text or the context of the operation found none, so only where the bytes begin with a frame.
pub fn decode_in(version: Version, alloc: Global, bytes: &[u8]) -> Result<Decoded, Memory>
    ensures exact { IfOk result (λ d. judgement_of d ≡ judge version bytes.now) }

    // What the answer says: the first bytes are the frame of that well-formed operation, more bytes are asked for
    // than there are, or there is a fault in the bytes, and no continuation of them begins with a frame.
    ensures tells { IfOk result (TellsOf version bytes.now) }

    // Each frame is found, whatever follows it.
    ensures only { (o : OpData) (rest : List ℕ) → IsWellFormed o → Fits version o → bytes.now ≡ frame version o ++ rest
        → IfOk result (λ d. judgement_of d ≡ Ok (o, length (frame version o))) }

    ensures memory { OnErr result (HasFrame version bytes.now) }
{
    decoded(alloc, judge(version, bytes))
}

/// `decode_in` version 1.
pub fn decode(alloc: Global, bytes: &[u8]) -> Result<Decoded, Memory>
    ensures exact { IfOk result (λ d. judgement_of d ≡ judge One bytes.now) }
    ensures tells { IfOk result (TellsOf One bytes.now) }
    ensures only { (o : OpData) (rest : List ℕ) → IsWellFormed o → Fits One o → bytes.now ≡ frame One o ++ rest
        → IfOk result (λ d. judgement_of d ≡ Ok (o, length (frame One o))) }
    ensures memory { OnErr result (HasFrame One bytes.now) }
{
    decode_in(Version::One, alloc, bytes)
}

/// `decode_in` version 2, which has a frame for each well-formed operation.
pub fn decode2(alloc: Global, bytes: &[u8]) -> Result<Decoded, Memory>
    ensures exact { IfOk result (λ d. judgement_of d ≡ judge Two bytes.now) }
    ensures tells { IfOk result (TellsOf Two bytes.now) }
    ensures only { (o : OpData) (rest : List ℕ) → IsWellFormed o → bytes.now ≡ frame Two o ++ rest
        → IfOk result (λ d. judgement_of d ≡ Ok (o, length (frame Two o))) }
    ensures memory { OnErr result (HasFrame Two bytes.now) }
{
    decode_in(Version::Two, alloc, bytes)
}
