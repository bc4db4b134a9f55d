//! The command `replay`.

ghost use Rattle.std.specs.Prelude.{◌≡◌, ◌≤◌, ◌<◌, ◌+◌, [], Ok, ℕ, List, Option, length, IfOk, IfErr, OnOk, OnErr};
ghost use Rattle.std.specs.Io.KnownBytes.{Appends, IsAtEnd};
ghost use Rattle.outside_io.specs.Faults.{HasCause};
ghost use Rattle.outside_io.specs.Writing.{WritesFront};
ghost use Rattle.session_replay.specs.Scripts.{script_report};
ghost use Rattle.session_replay.specs.Readers.{KeepsSome, AwaitsSome};
ghost use Rattle.log_replies.specs.Outside.{Outside, told};
ghost use Rattle.log_replies.specs.declared.loaded.TheConstants.{PIECE};
ghost use Rattle.cotpad_run.specs.Replaying.{IsScriptReport, IsReplayed};
ghost use Rattle.cotpad_run.specs.Code.Replaying.{IsPassed, IsReading, IsWaiting};

use log_replies::{Status, empty_piece};
use op_name::Memory;
use outside_io::{Failed, MAX_INPUT, Sink, Source, write_whole};
use session_replay::{
    Next, ScriptReader, derived_reports_are_there, one_derived_report, one_transcript,
    transcripts_are_there,
};
use std::alloc::Global;

/// A report of so many bytes is written before the next line is done.
const ENOUGH: usize = 65_536;

/// Reads a script as it comes, does its lines, and writes what they report: before each read, all that the lines done so far
/// report. A script of more than `MAX_INPUT` bytes is refused at the first line that doesn't end within these.
///
/// A script is lines, each ended by a line feed, which the last one may lack. Lines that are empty or start
/// with `#` do nothing. `sites N` comes first and makes N sites; then characters are inserted, deleted, undone
/// and redone at a site, each operation becomes a message, messages and frames are delivered, and texts and
/// states are shown. Any other line is refused, and the script ends there.
pub(crate) fn answer_replay<S: Source, K: Sink>(
    alloc: Global,
    source: &mut S,
    sink: &mut K,
) -> Status
    ensures answer { IsReplayed
        (told (S.left source.old) (S.faults source.old) (K.held sink.old) (K.faults sink.old))
        (told (S.left source.new) (S.faults source.new) (K.held sink.new) (K.faults sink.new))
        result }
{
    reports_are_there();
    let mut reader = ScriptReader::new(alloc);
    let mut out = Vec::new(alloc);
    let mut piece = empty_piece();
    let mut fed = 0;
    loop {
        match do_lines(&mut reader, sink, &mut out) {
            Ok(()) => {}
            Err(status) => return status,
        }
        match read_on(source, &mut reader, &mut piece, MAX_INPUT + 1 - fed) {
            Ok(0) => return end(reader, sink, &mut out),
            Ok(given) => fed += given,
            Err(status) => return status,
        }
    }
}

// Each script has the report that `replay` has to write. It does nothing.
fn reports_are_there()
    ensures { (bytes : List ℕ) → IsScriptReport bytes (script_report bytes) }
{
    transcripts_are_there();
    one_transcript();
    derived_reports_are_there();
    one_derived_report();
}

// Does all lines that are there whole, and writes what they report. An `Err` says how the command ends.
fn do_lines<K: Sink>(
    reader: &mut ScriptReader,
    sink: &mut K,
    out: &mut Vec<u8>,
) -> Result<(), Status>
    requires keeps { KeepsSome reader.old }
    requires empty { out.old.items ≡ [] }
    ensures done { OnOk result ((old : Outside) (left : Option (List ℕ)) (read_faults fed : ℕ)
        → IsReading old (told left read_faults (K.held sink.old) (K.faults sink.old)) reader.old fed out.old.items
        → IsWaiting old (told left read_faults (K.held sink.new) (K.faults sink.new)) reader.new fed) }
    ensures written { OnOk result (out.new.items ≡ []) }
    ensures stopped { IfErr result (λ status. (old : Outside) (left : Option (List ℕ)) (read_faults fed : ℕ)
        → IsReading old (told left read_faults (K.held sink.old) (K.faults sink.old)) reader.old fed out.old.items
        → IsReplayed old (told left read_faults (K.held sink.new) (K.faults sink.new)) status) }
{
    reports_are_there();
    loop {
        match reader.advance(out) {
            Ok(Next::Done) => flush(sink, out, ENOUGH)?,
            Ok(Next::Awaited) => return flush(sink, out, 1),
            Ok(Next::Refused) => {
                flush(sink, out, 1)?;
                return Err(Status::Refused);
            }
            Err(Memory) => return Err(Status::Memory),
        }
    }
}

// Reads at most `most` bytes by way of `piece`, and feeds them. `Ok(0)` is the end of the source; an `Err` says how the
// command ends.
fn read_on<S: Source>(
    source: &mut S,
    reader: &mut ScriptReader,
    piece: &mut [u8],
    most: usize,
) -> Result<usize, Status>
    requires room { 0 < length piece.old }
    requires short { length piece.old ≤ PIECE }
    requires some { 0 < most }
    ensures room { length piece.new ≡ length piece.old }
    ensures amount { IfOk result (λ n. n ≤ most) }
    ensures fed { IfOk result (λ n. (old : Outside) (held : Option (List ℕ)) (write_faults fed : ℕ)
        → IsWaiting old (told (S.left source.old) (S.faults source.old) held write_faults) reader.old fed
        → fed + most ≤ MAX_INPUT + 1
        → IsReading old (told (S.left source.new) (S.faults source.new) held write_faults) reader.new (fed + n) []) }
    ensures end { result ≡ Ok 0 → (old : Outside) (held : Option (List ℕ)) (write_faults fed : ℕ)
        → IsWaiting old (told (S.left source.old) (S.faults source.old) held write_faults) reader.old fed
        → IsWaiting old (told (S.left source.new) (S.faults source.new) held write_faults) reader.new fed }
    ensures ended { result ≡ Ok 0 → IsAtEnd (S.left source.new) }
    ensures stopped { IfErr result (λ status. (old : Outside) (held : Option (List ℕ)) (write_faults fed : ℕ)
        → IsWaiting old (told (S.left source.old) (S.faults source.old) held write_faults) reader.old fed
        → fed + most ≤ MAX_INPUT + 1
        → IsReplayed old (told (S.left source.new) (S.faults source.new) held write_faults) status) }
{
    reports_are_there();
    let room = piece.len().min(most);
    match source.read(&mut piece[..room]) {
        Ok(0) => Ok(0),
        Ok(given) => match reader.feed(&piece[..given]) {
            Ok(()) => Ok(given),
            Err(Memory) => Err(Status::Memory),
        },
        Err(Failed) => Err(Status::ReadFault),
    }
}

// Does the last line, if no line feed ended it, and writes what it reports. Answers how the command ends.
fn end<K: Sink>(reader: ScriptReader, sink: &mut K, out: &mut Vec<u8>) -> Status
    requires awaits { AwaitsSome reader }
    requires empty { out.old.items ≡ [] }
    ensures { (old : Outside) (left : Option (List ℕ)) (read_faults fed : ℕ)
        → IsWaiting old (told left read_faults (K.held sink.old) (K.faults sink.old)) reader fed
        → IsAtEnd left
        → IsReplayed old (told left read_faults (K.held sink.new) (K.faults sink.new)) result }
{
    reports_are_there();
    let refused = match reader.finish(out) {
        Ok(refused) => refused,
        Err(Memory) => return Status::Memory,
    };
    match flush(sink, out, 1) {
        Ok(()) if refused => Status::Refused,
        Ok(()) => Status::Done,
        Err(status) => status,
    }
}

// Writes what stands in `out`, and empties it, if that is `least` bytes or more.
fn flush<K: Sink>(sink: &mut K, out: &mut Vec<u8>, least: usize) -> Result<(), Status>
    ensures passed { OnOk result (IsPassed (K.held sink.old) (K.held sink.new) out.old.items out.new.items) }
    ensures written { least ≤ 1 → OnOk result (Appends (K.held sink.old) (K.held sink.new) out.old.items) }
    ensures empty { least ≤ 1 → OnOk result (out.new.items ≡ []) }
    ensures few { 1 ≤ least → OnOk result (length out.new.items < least) }
    ensures front { OnErr result (WritesFront (K.held sink.old) (K.held sink.new) out.old.items) }
    ensures cause { HasCause (K.faults sink.old) (K.faults sink.new) result }
    ensures status { IfErr result (λ status. status ≡ Status.WriteFault) }
{
    if out.len() < least {
        return Ok(());
    }
    match write_whole(sink, out) {
        Ok(()) => {
            out.clear();
            Ok(())
        }
        Err(Failed) => Err(Status::WriteFault),
    }
}
