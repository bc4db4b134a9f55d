//! Reading a source to its end.

ghost use Rattle.std.specs.Prelude.{◌≡◌, ◌++◌, ◌+◌, ◌-◌, ◌<◌, ◌≤◌, Some, Ok, Err, length, take, drop, vec_len, IfOk, IfSome, OnOk, OnErr, IsErrOf};
ghost use Rattle.std.specs.Io.{StartsWith};
ghost use Rattle.std.specs.Io.KnownBytes.{IsAtEnd, Keeps};
ghost use Rattle.outside_io.specs.Faults.{Rose};
ghost use Rattle.outside_io.specs.Reading.{LosesFront};
ghost use Rattle.outside_io.specs.Code.Gathering.{Gathers};

use crate::failed::Failed;
use crate::source::Source;

/// The most bytes that an input may have: 64 MiB.
pub const MAX_INPUT: usize = 67_108_864;

/// How many bytes are read at once.
const PIECE: usize = 65_536;

/// How much of a source was read.
#[derive(Clone, Copy, Debug, PartialEq, Eq)]
pub enum Taken {
    /// All that it had left, at most `MAX_INPUT` bytes.
    End,
    /// It had more than `MAX_INPUT` bytes left. The first of them stand in the output, and one more was
    /// read, to see that it was there.
    Past,
}

/// Why a source wasn't read.
#[derive(Clone, Copy, Debug, PartialEq, Eq)]
pub enum ReadBad {
    /// A read failed.
    Fault,
    /// Out of memory.
    Memory,
}

/// Appends to `out` what the source has left, at most `MAX_INPUT` bytes. A refused call leaves `out` as it
/// was; what it read, at most `MAX_INPUT + 1` bytes, is gone from the source. The count of faults rises
/// exactly where the answer is Fault.
pub fn read_whole<S: Source>(source: &mut S, out: &mut Vec<u8>) -> Result<Taken, ReadBad>
    ensures limit { MAX_INPUT ≡ 67108864 }

    ensures end { result ≡ Ok Taken.End → IfSome (S.left source.old) (λ bytes.
        (length bytes ≤ MAX_INPUT) × (out.new.items ≡ out.old.items ++ bytes)) }
    ensures ended { result ≡ Ok Taken.End → IsAtEnd (S.left source.new) }
    ensures past { result ≡ Ok Taken.Past → IfSome (S.left source.old) (λ bytes.
        (MAX_INPUT < length bytes) × (out.new.items ≡ out.old.items ++ take MAX_INPUT bytes)) }
    // Read to the end, or to one byte past the limit.
    ensures rest { OnOk result (IfSome (S.left source.old) (λ bytes.
        S.left source.new ≡ Some (drop (MAX_INPUT + 1) bytes))) }

    // Also of a source that doesn't tell its bytes.
    ensures front { StartsWith out.new.items out.old.items }
    ensures room { vec_len out.new ≤ vec_len out.old + MAX_INPUT }
    ensures full { result ≡ Ok Taken.Past → vec_len out.new ≡ vec_len out.old + MAX_INPUT }

    ensures kept { OnErr result (out.new.items ≡ out.old.items) }
    ensures lost { OnErr result (LosesFront (MAX_INPUT + 1) (S.left source.old) (S.left source.new)) }

    ensures fault { IsErrOf result ReadBad.Fault → Rose (S.faults source.old) (S.faults source.new) }
    ensures no_fault { (IsErrOf result ReadBad.Fault → ⊥) → S.faults source.new ≡ S.faults source.old }
    ensures later { S.faults source.old ≤ S.faults source.new }
{
    let start = out.len();
    let gathered = gather(source, out);
    if gathered.is_err() {
        out.truncate(start);
        return gathered;
    }
    if out.len() - start > MAX_INPUT {
        out.truncate(start + MAX_INPUT);
    }
    gathered
}

// Reads to the end, or until there is a byte past `MAX_INPUT`, which it appends too.
fn gather<S: Source>(source: &mut S, out: &mut Vec<u8>) -> Result<Taken, ReadBad>
    ensures gathers { OnOk result (Gathers (S.left source.old) (S.left source.new)
        out.old.items out.new.items) }
    ensures lost { OnErr result (LosesFront (MAX_INPUT + 1) (S.left source.old) (S.left source.new)) }
    ensures front { StartsWith out.new.items out.old.items }
    ensures end { result ≡ Ok Taken.End → IsAtEnd (S.left source.new) }
    ensures few { result ≡ Ok Taken.End → vec_len out.new ≤ vec_len out.old + MAX_INPUT }
    ensures past { result ≡ Ok Taken.Past → vec_len out.new ≡ vec_len out.old + MAX_INPUT + 1 }
    ensures fault { IsErrOf result ReadBad.Fault → Rose (S.faults source.old) (S.faults source.new) }
    ensures no_fault { (IsErrOf result ReadBad.Fault → ⊥) → S.faults source.new ≡ S.faults source.old }
    ensures later { S.faults source.old ≤ S.faults source.new }
{
    let start = out.len();
    let mut piece = empty_piece();
    while out.len() - start <= MAX_INPUT {
        let most = MAX_INPUT + 1 - (out.len() - start);
        match read_piece(source, &mut piece, most, out) {
            Ok(0) => return Ok(Taken::End),
            Ok(_) => {}
            Err(bad) => return Err(bad),
        }
    }
    Ok(Taken::Past)
}

// Reads at most `most` bytes by way of `piece`, and appends them.
fn read_piece<S: Source>(
    source: &mut S,
    piece: &mut [u8],
    most: usize,
    out: &mut Vec<u8>,
) -> Result<usize, ReadBad>
    requires room { 0 < length piece.old }
    requires some { 0 < most }
    ensures amount { IfOk result (λ n. (n ≤ most) × (vec_len out.new ≡ vec_len out.old + n)) }
    ensures gathers { OnOk result (Gathers (S.left source.old) (S.left source.new)
        out.old.items out.new.items) }
    ensures end { result ≡ Ok 0 → IsAtEnd (S.left source.new) }
    ensures kept { OnErr result (out.new.items ≡ out.old.items) }
    ensures unread { IsErrOf result ReadBad.Fault → Keeps (S.left source.old) (S.left source.new) }
    ensures lost { OnErr result (LosesFront most (S.left source.old) (S.left source.new)) }
    ensures fault { IsErrOf result ReadBad.Fault → Rose (S.faults source.old) (S.faults source.new) }
    ensures no_fault { (IsErrOf result ReadBad.Fault → ⊥) → S.faults source.new ≡ S.faults source.old }
    ensures later { S.faults source.old ≤ S.faults source.new }
{
    let room = piece.len().min(most);
    match source.read(&mut piece[..room]) {
        Ok(given) => match out.extend_from_slice(&piece[..given]) {
            Ok(()) => Ok(given),
            Err(_) => Err(ReadBad::Memory),
        },
        Err(Failed) => Err(ReadBad::Fault),
    }
}

// A function of its own, so that no goal spells out so long a list.
fn empty_piece() -> [u8; PIECE] {
    [0; PIECE]
}
