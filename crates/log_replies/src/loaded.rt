//! The input as the log of a site, which is loaded while it is read.

ghost use Rattle.std.specs.Prelude.{◌≡◌, ◌++◌, ◌+◌, ◌-◌, ◌<◌, ◌≤◌, ℕ, List, [], Option, length, drop, IfOk, IfSome, IfNone, OnOk, OnErr, IsErrOf};
ghost use Rattle.std.specs.Io.KnownBytes.{IsAtEnd};
ghost use Rattle.outside_io.specs.Faults.{Rose};
ghost use Rattle.outside_io.specs.Reading.{LosesFront};
ghost use Rattle.cot_site.specs.Sites.{state_of};
ghost use Rattle.session_log.specs.Readers.{Keeps};
ghost use Rattle.log_replies.specs.Replies.{IsLoadedAs, limit_line, IsRefusedInto};
ghost use Rattle.log_replies.specs.Code.Loading.{Feeds, IsFed};

use cot_site::Site;
use op_name::{Memory, SITES};
use outside_io::{Failed, MAX_INPUT, ReadBad, Source};
use session_log::{LogBad, LogReader, refused_log_line};
use std::alloc::Global;

/// How many bytes are read at once.
pub const PIECE: usize = 65_536;

/// The site of this number that the input gives as a log, which is read to its end, at most `MAX_INPUT` bytes, and loaded
/// piece by piece. None where the input is refused; then the line that says why was appended.
///
/// A fault or a lack of memory leaves `out` as it was; what was read, at most `MAX_INPUT + 1` bytes, is gone from the
/// source.
pub fn load_input<S: Source>(
    alloc: Global,
    site: u16,
    source: &mut S,
    out: &mut Vec<u8>,
) -> Result<Option<Site>, ReadBad>
    requires { site < SITES }
    ensures loaded { IfOk result (λ r. IfSome r (λ s. IfSome (S.left source.old) (λ bytes. IsLoadedAs site bytes (state_of s)))) }
    ensures same { IfOk result (λ r. IfSome r (λ s. out.new.items ≡ out.old.items)) }
    ensures refused { IfOk result (λ r.
        IfNone r (IfSome (S.left source.old) (λ bytes. IsRefusedInto site bytes out.old.items out.new.items))) }
    ensures ended { IfOk result (λ r. IfSome r (λ s. IsAtEnd (S.left source.new))) }
    // Read to the end, or to one byte past the limit.
    ensures rest { OnOk result (IfSome (S.left source.old) (λ bytes. S.left source.new ≡ Some (drop (MAX_INPUT + 1) bytes))) }
    ensures kept { OnErr result (out.new.items ≡ out.old.items) }
    ensures lost { OnErr result (LosesFront (MAX_INPUT + 1) (S.left source.old) (S.left source.new)) }
    ensures fault { IsErrOf result ReadBad.Fault → Rose (S.faults source.old) (S.faults source.new) }
    ensures no_fault { (IsErrOf result ReadBad.Fault → ⊥) → S.faults source.new ≡ S.faults source.old }
    ensures later { S.faults source.old ≤ S.faults source.new }
{
    let mut reader = match LogReader::new(alloc, site) {
        Ok(reader) => reader,
        Err(Memory) => return Err(ReadBad::Memory),
    };
    match feed_all(source, &mut reader) {
        Ok(read) => match end_log(reader, read, out) {
            Ok(loaded) => Ok(loaded),
            Err(Memory) => Err(ReadBad::Memory),
        },
        Err(why) => Err(why),
    }
}

// Feeds the reader what the source has left, but none past `MAX_INPUT` bytes. Answers how many bytes were read: one more,
// where there are too many.
fn feed_all<S: Source>(source: &mut S, reader: &mut LogReader) -> Result<usize, ReadBad>
    requires { Keeps reader.old [] }
    ensures fed { IfOk result (λ read. IfSome (S.left source.old) (λ bytes. IsFed reader.old.site bytes read reader.new)) }
    ensures ended { IfOk result (λ read. read ≤ MAX_INPUT → IsAtEnd (S.left source.new)) }
    ensures rest { OnOk result (IfSome (S.left source.old) (λ bytes. S.left source.new ≡ Some (drop (MAX_INPUT + 1) bytes))) }
    ensures lost { OnErr result (LosesFront (MAX_INPUT + 1) (S.left source.old) (S.left source.new)) }
    ensures fault { IsErrOf result ReadBad.Fault → Rose (S.faults source.old) (S.faults source.new) }
    ensures no_fault { (IsErrOf result ReadBad.Fault → ⊥) → S.faults source.new ≡ S.faults source.old }
    ensures later { S.faults source.old ≤ S.faults source.new }
{
    let mut piece = empty_piece();
    let mut read = 0;
    while read <= MAX_INPUT {
        match feed_piece(source, &mut piece, read, reader) {
            Ok(0) => return Ok(read),
            Ok(given) => read += given,
            Err(why) => return Err(why),
        }
    }
    Ok(read)
}

// Reads the next bytes, by way of `piece`, where so many were read before, and feeds them, but none past `MAX_INPUT`. Answers
// how many were read.
fn feed_piece<S: Source>(
    source: &mut S,
    piece: &mut [u8],
    read: usize,
    reader: &mut LogReader,
) -> Result<usize, ReadBad>
    requires room { 0 < length piece.old }
    requires limit { read ≤ MAX_INPUT }
    requires fed { reader.old.fed ≡ read }
    ensures amount { IfOk result (λ n. read + n ≤ MAX_INPUT + 1) }
    ensures feeds { (site : ℕ) (left : Option (List ℕ)) → Feeds site left (S.left source.old) read reader.old
        → IfOk result (λ n. Feeds site left (S.left source.new) (read + n) reader.new) }
    ensures end { result ≡ Ok 0 → IsAtEnd (S.left source.new) }
    ensures lost { OnErr result (LosesFront (MAX_INPUT + 1 - read) (S.left source.old) (S.left source.new)) }
    ensures fault { IsErrOf result ReadBad.Fault → Rose (S.faults source.old) (S.faults source.new) }
    ensures no_fault { (IsErrOf result ReadBad.Fault → ⊥) → S.faults source.new ≡ S.faults source.old }
    ensures later { S.faults source.old ≤ S.faults source.new }
{
    let room = piece.len().min(MAX_INPUT + 1 - read);
    match source.read(&mut piece[..room]) {
        Ok(given) => {
            let fits = given.min(MAX_INPUT - read);
            match reader.feed(&piece[..fits]) {
                Ok(()) => Ok(given),
                Err(Memory) => Err(ReadBad::Memory),
            }
        }
        Err(Failed) => Err(ReadBad::Fault),
    }
}

/// Room for what is read at once. A function of its own, so that no goal spells out so long a list.
pub fn empty_piece() -> [u8; PIECE] {
    [0; PIECE]
}

// Ends the log, of which so many bytes were read: its site, or none, and then the line that says why was appended.
fn end_log(reader: LogReader, read: usize, out: &mut Vec<u8>) -> Result<Option<Site>, Memory>
    ensures loaded { (site : ℕ) (bytes : List ℕ) → IsFed site bytes read reader → IfOk result (λ r. IfSome r (λ s.
        IsLoadedAs site bytes (state_of s))) }
    ensures same { IfOk result (λ r. IfSome r (λ s. out.new.items ≡ out.old.items)) }
    ensures refused { (site : ℕ) (bytes : List ℕ) → IsFed site bytes read reader → IfOk result (λ r. IfNone r (
        IsRefusedInto site bytes out.old.items out.new.items)) }
    ensures short { IfOk result (λ r. IfSome r (λ s. read ≤ MAX_INPUT)) }
    ensures kept { OnErr result (out.new.items ≡ out.old.items) }
{
    if read > MAX_INPUT {
        match refuse_limit(out) {
            Ok(()) => Ok(None),
            Err(memory) => Err(memory),
        }
    } else {
        match reader.finish() {
            Ok(site) => Ok(Some(site)),
            Err(LogBad::Memory) => Err(Memory),
            Err(why) => match refused_log_line(why, out) {
                Ok(()) => Ok(None),
                Err(memory) => Err(memory),
            },
        }
    }
}

// Appends the line of an input that is too long. A refused call leaves `out` as it was.
fn refuse_limit(out: &mut Vec<u8>) -> Result<(), Memory>
    ensures ok { OnOk result (out.new.items ≡ out.old.items ++ limit_line) }
    ensures err { OnErr result (out.new.items ≡ out.old.items) }
{
    out.extend_from_slice(b"refused limit\n")?;
    Ok(())
}
