//! Scripts: line after line is done, and the report is written.

ghost use Rattle.std.specs.Prelude.{◌≡◌, ◌≢◌, ◌<◌, ◌+◌, ◌^◌, ◌++◌, [], ℕ, List, true, IfOk, OnOk, OnErr, length, Ok};
ghost use Rattle.script_text.specs.Streams.{looked_at};
ghost use Rattle.session_replay.specs.LineSteps.{line_steps};
ghost use Rattle.session_replay.specs.Scripts.{Piece, script_report, report_from, report_on, prepended};
ghost use Rattle.session_replay.specs.Readers.{Keeps, KeepsSome, Awaits, AwaitsSome, DoesSomething, NextDoesSomething};
ghost use Rattle.session_replay.specs.Code.Reading.{Follows, TellsRefusal, is_refused};

use crate::causes::{reading_refused, step_refused};
use crate::session::Session;
use op_name::Memory;
use script_text::{Line, LineBad, LineStream, lines_stay_the_same, refused_line};
use std::alloc::Global;
use std::marker::Model;

/// Appends the whole report of a script. `Ok(true)` exactly where the script is refused; then the last line of the report
/// says at which line, and why. A line that isn't within the first `script_text::MAX_SCRIPT` bytes is refused by Limit.
///
/// Out of memory, which comes only where the script has a byte, `out` is as it was. The report is held apart until it is whole, so it
/// takes memory twice for a while; `ScriptReader` writes straight into `out`.
pub fn replay(alloc: Global, bytes: &[u8], out: &mut Vec<u8>) -> Result<bool, Memory>
    ensures report { IfOk result (λ refused.
        prepended out.old.items (script_report bytes.now) ≡ record { written = out.new.items; refused = refused }) }
    ensures err { OnErr result (out.new.items ≡ out.old.items) }
    ensures needed { OnErr result (bytes.now ≢ []) }
{
    let mut report = Vec::new(alloc);
    let refused = do_whole(alloc, bytes, &mut report)?;
    out.extend_from_slice(&report)?;
    Ok(refused)
}

// The same where nothing was written before.
fn do_whole(alloc: Global, bytes: &[u8], out: &mut Vec<u8>) -> Result<bool, Memory>
    requires { out.old.items ≡ [] }
    ensures report { IfOk result (λ refused. script_report bytes.now ≡ record { written = out.new.items; refused = refused }) }
    ensures needed { OnErr result (bytes.now ≢ []) }
{
    let mut reader = ScriptReader::new(alloc);
    reader.feed(bytes)?;
    loop {
        match reader.advance(out)? {
            Next::Done => {}
            Next::Awaited => return reader.finish(out),
            Next::Refused => return Ok(true),
        }
    }
}

/// What a reader finds in front.
#[derive(Clone, Copy, Debug, PartialEq, Eq)]
pub enum Next {
    /// A line, which was done.
    Done,
    /// No line that a line feed ended: the next one is still coming, or the script ends here.
    Awaited,
    /// A line that is refused, which ends the script.
    Refused,
}

/// A script that comes in pieces, which may be cut anywhere; its lines are done as they come.
///
/// It *is* the lines that are left, the number of the next one, from 1, and the session that the lines before it left.
/// `Keeps` relates these to all bytes fed. A line without an end costs no memory past its first `LONGEST + 1` bytes.
#[derive(Drop)]
pub struct ScriptReader {
    lines: LineStream,
    number: u32,
    running: Session,
}

impl Model for ScriptReader {
    ghost use Rattle.std.specs.Prelude.{◌≡◌, false};
    ghost use Rattle.session_replay.specs.ReaderData.{ReaderData};

    ghost Value = { ReaderData };

    ghost view = { λ r. record { input = r.lines; number = r.number; session = r.running.session } };

    ghost invariant = { λ r. r.lines.over ≡ false };
}

impl ScriptReader {
    /// A reader to which nothing was fed yet; takes no memory.
    pub fn new(alloc: Global) -> ScriptReader
        ensures { Keeps result [] [] }
    {
        ScriptReader {
            lines: LineStream::new(alloc),
            number: 1,
            running: Session::new(alloc),
        }
    }

    /// Appends a piece of the script; no line is done yet. Out of memory, which comes only where a byte of the piece is looked at, nothing
    /// of the piece was taken.
    pub fn feed(&mut self, piece: &[u8]) -> Result<(), Memory>
        ensures keeps { (all written : List ℕ) → Keeps self.old all written → OnOk result (Keeps self.new (all ++ piece.now) written) }
        ensures err { OnErr result (self.new ≡ self.old) }
        ensures needed { OnErr result (looked_at self.old.input.fed piece.now ≢ []) }
    {
        lines_stay_the_same();
        self.lines.feed(piece)
    }

    /// Does the next line, if a line feed ended it, and appends what it reports. The report so far is what the caller has
    /// written already, followed by `out`.
    ///
    /// Refused, the report is whole, however the script goes on. Out of memory, which comes only where a line is next that
    /// has a step or is refused, `out` is as it was. After either nothing is said of the reader.
    pub fn advance(&mut self, out: &mut Vec<u8>) -> Result<Next, Memory>
        requires { KeepsSome self.old }
        ensures done { result ≡ Ok Next.Done → (all before : List ℕ) → Keeps self.old all (before ++ out.old.items)
            → Keeps self.new all (before ++ out.new.items) }
        ensures fewer { result ≡ Ok Next.Done → length self.new.input.lines < length self.old.input.lines }
        ensures awaited { result ≡ Ok Next.Awaited → (all before : List ℕ) → Keeps self.old all (before ++ out.old.items)
            → Awaits self.new all (before ++ out.new.items) }
        ensures refused { result ≡ Ok Next.Refused → (all before : List ℕ) → Keeps self.old all (before ++ out.old.items)
            → (more : List ℕ) → script_report (all ++ more) ≡ record { written = before ++ out.new.items; refused = true } }
        ensures err { OnErr result (out.new.items ≡ out.old.items) }
        ensures needed { OnErr result (NextDoesSomething self.old.input self.old.session) }
    {
        match self.lines.take() {
            Ok(None) => Ok(Next::Awaited),
            Ok(Some(line)) => do_line(&mut self.running, &mut self.number, line, out),
            Err(why) => refuse(self.number, why, out),
        }
    }

    /// Ends the script: the last line, which no line feed ended, is done, if it has a byte, and what it reports is appended.
    /// Answers whether it is refused. Out of memory, which comes only where that line has a step or is refused, `out` is as
    /// it was.
    pub fn finish(self, out: &mut Vec<u8>) -> Result<bool, Memory>
        requires { AwaitsSome self }
        ensures report { IfOk result (λ refused. (all before : List ℕ) → Keeps self all (before ++ out.old.items)
            → script_report all ≡ record { written = before ++ out.new.items; refused = refused }) }
        ensures err { OnErr result (out.new.items ≡ out.old.items) }
        ensures needed { OnErr result (NextDoesSomething (record self.input { over = true }) self.session) }
    {
        let ScriptReader {
            mut lines,
            mut number,
            mut running,
        } = self;
        lines.end();
        match lines.take() {
            Ok(None) => Ok(false),
            Ok(Some(line)) => Ok(is_refused(do_line(&mut running, &mut number, line, out)?)),
            Err(why) => Ok(is_refused(refuse(number, why, out)?)),
        }
    }
}

// One line, as it was read.
fn do_line(
    running: &mut Session,
    number: &mut u32,
    line: Line,
    out: &mut Vec<u8>,
) -> Result<Next, Memory>
    requires { number.old + 1 < 2 ^ 32 }
    ensures report { IfOk result (λ next. (pieces : List Piece) → Follows next
        (prepended out.old.items (report_on (report_from (number.old + 1) pieces) number.old
        (line_steps line running.old.session) running.old.session))
        out.new.items (report_from number.new pieces running.new.session)) }
    ensures number { result ≡ Ok Next.Done → number.new ≡ number.old + 1 }
    ensures err { OnErr result (out.new.items ≡ out.old.items) }
    ensures needed { OnErr result (DoesSomething (line_steps line running.old.session)) }
{
    match running.step(&line, out) {
        Ok(()) => {
            *number += 1;
            Ok(Next::Done)
        }
        Err(why) => {
            let cause = step_refused(why)?;
            refused_line(*number, cause, out)?;
            Ok(Next::Refused)
        }
    }
}

// Whether the script ends here refused.
fn is_refused(next: Next) -> bool
    ensures { result ≡ is_refused next }
{
    matches!(next, Next::Refused)
}

// A line that can't be read.
fn refuse(number: u32, why: LineBad, out: &mut Vec<u8>) -> Result<Next, Memory>
    ensures refused { IfOk result (λ next. next ≡ Next.Refused) }
    ensures told { OnOk result (TellsRefusal why number out.old.items out.new.items) }
    ensures err { OnErr result (out.new.items ≡ out.old.items) }
{
    let cause = reading_refused(why)?;
    refused_line(number, cause, out)?;
    Ok(Next::Refused)
}
