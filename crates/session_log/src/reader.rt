//! Loading a log that comes in pieces.

ghost use Rattle.std.specs.Prelude.{◌≡◌, ◌≢◌, ◌⊎◌, ◌+◌, ◌<◌, ◌≤◌, ◌++◌, [], ℕ, List, true, false, None, Err, IfOk, IfErr, OnOk, OnErr, IsErr, length};
ghost use Rattle.cot_site.specs.Sites.{state_of};
ghost use Rattle.session_log.specs.Loadings.{IsLoaded, IsUnloaded};
ghost use Rattle.session_log.specs.Readers.{Keeps, KeepsSome, Begins, GoesPastHeader, GoesOn, IsLoadedOn, IsUnloadedOn};
ghost use Rattle.session_log.specs.ReaderData.{IsCounted, reader_of};
ghost use Rattle.session_log.specs.Code.Steps.{end_fault};

use crate::front::after_header;
use crate::headers::HEADER_LEN;
use crate::intake::Intake;
use crate::laws::what_is_kept_decides;
use crate::log_bad::LogBad;
use crate::next_frame::take_frames;
use crate::reading::MAX_LOG;
use crate::stream::LogStream;
use cot_site::Site;
use op_name::{Memory, SITES};
use std::alloc::Global;
use std::marker::Model;

/// A log that comes in pieces, which may be cut anywhere; its operations are taken in as their frames come.
///
/// It *is* the number of its site, the version that the header tells and the state so far, the bytes not decoded yet, the number of
/// bytes fed, whether the header was read, the first fault of the bytes, the first refused verdict, and whether it is out of memory:
/// then each later call answers so.
pub struct LogReader {
    number: u16,
    fed: u32,
    frames: LogStream,
    intake: Intake,
    fault: Option<LogBad>,
    spent: bool,
}

impl Model for LogReader {
    ghost use Rattle.std.specs.Prelude.{◌≡◌, false, None};
    ghost use Rattle.cot_site.specs.Sites.{state_of};
    ghost use Rattle.session_log.specs.ReaderData.{ReaderData, IsCounted, reader_of};

    ghost Value = { ReaderData };

    ghost view = { λ r. reader_of r.number r.frames.version r.fed r.frames.stream.left (state_of r.intake.site) r.intake.refused r.fault
        r.spent };

    ghost invariant = { λ r. r.spent ≡ false → r.fault ≡ None
        → IsCounted r.fed r.frames.stream × (r.frames.stream.version ≡ r.frames.version) };
}

// Written out, as a site's is: whoever gives up a reader makes one call.
impl Drop for LogReader {
    fn drop(self) {
        let LogReader {
            number: _number,
            fed: _fed,
            frames: _frames,
            intake: _intake,
            fault: _fault,
            spent: _spent,
        } = self;
    }
}

impl LogReader {
    /// A reader of a log for the site of this number, of which nothing was fed yet.
    pub fn new(alloc: Global, site: u16) -> Result<LogReader, Memory>
        requires { site < SITES }
        ensures keeps { IfOk result (λ r. Keeps r []) }
        ensures load_on { IfOk result (Begins site) }
        ensures site { IfOk result (λ r. r.site ≡ site) }
    {
        let frames = LogStream::new(alloc)?;
        Ok(LogReader {
            number: site,
            fed: 0,
            frames,
            intake: Intake::new(alloc, site)?,
            fault: None,
            spent: false,
        })
    }

    /// Appends a piece: takes in the operation of each whole frame, unless an earlier one was refused, and keeps the first
    /// fault of the bytes and the first refused verdict for `finish`. At most `MAX_LOG` bytes are fed in all.
    ///
    /// Out of memory comes only where no fault was met before, and bytes of the piece come after the header; then each later
    /// call answers so too.
    pub fn feed(&mut self, piece: &[u8]) -> Result<(), Memory>
        requires { self.old.fed + length piece.now ≤ MAX_LOG }
        ensures keeps { (all : List ℕ) → Keeps self.old all → OnOk result (Keeps self.new (all ++ piece.now)) }
        ensures load_on { KeepsSome self.old → OnOk result (GoesOn self.old piece.now self.new) }
        ensures fed { self.new.fed ≡ self.old.fed + length piece.now }
        ensures site { self.new.site ≡ self.old.site }
        ensures needed { OnErr result ((self.old.spent ≡ true) ⊎ ((self.old.fault ≡ None) × GoesPastHeader self.old.fed piece.now)) }
        ensures spent { OnErr result (self.new.spent ≡ true) }
        ensures stays { self.old.spent ≡ true → IsErr result }
    {
        what_is_kept_decides();
        let before = self.fed;
        self.fed += piece.len() as u32;
        if self.spent {
            return Err(Memory);
        }
        if self.fault.is_some() {
            return Ok(());
        }
        match read_piece(before, piece, &mut self.frames, &mut self.intake) {
            Ok(fault) => {
                self.fault = fault;
                Ok(())
            }
            Err(memory) => {
                self.spent = true;
                Err(memory)
            }
        }
    }

    /// How many bytes were fed.
    pub fn fed(&self) -> u32
        ensures { result ≡ self.now.fed }
    {
        self.fed
    }

    /// Ends the log: answers its site, or why there is none, as `load` does for all bytes fed: a fault of the bytes before
    /// any verdict. It takes no memory.
    pub fn finish(self) -> Result<Site, LogBad>
        ensures loaded { (all : List ℕ) → Keeps self all → IfOk result (λ s. IsLoaded self.site all (state_of s)) }
        ensures refused { (all : List ℕ) → Keeps self all → IfErr result (IsUnloaded self.site all) }
        ensures loaded_on { KeepsSome self → IfOk result (λ s. IsLoadedOn self [] (state_of s)) }
        ensures refused_on { KeepsSome self → IfErr result (IsUnloadedOn self []) }
        ensures memory { (all : List ℕ) → Keeps self all → result ≢ Err LogBad.Memory }
        ensures spent { self.spent ≡ true → result ≡ Err LogBad.Memory }
    {
        let LogReader {
            number: _,
            fed,
            frames,
            intake,
            fault,
            spent,
        } = self;
        intake.finish(fault_at_end(spent, fault, fed, frames.stream.rest()))
    }
}

// Why bytes are no log that end where so many were fed, of which so many are left after the header; or that memory ran out.
fn fault_at_end(spent: bool, fault: Option<LogBad>, fed: u32, rest: u32) -> Option<LogBad>
    requires { spent ≡ false → fault ≡ None → rest ≤ fed }
    ensures { result ≡ end_fault spent fault fed rest }
{
    if spent {
        return Some(LogBad::Memory);
    }
    if fault.is_some() {
        return fault;
    }
    if fed < HEADER_LEN as u32 {
        return Some(LogBad::Header);
    }
    if rest > 0 {
        return Some(LogBad::Cut { offset: fed - rest });
    }
    None
}

// Reads on where so many bytes were fed before, which have no fault: takes in the operations of whole frames, and answers
// the first fault. Memory is asked for only where bytes come after the header.
fn read_piece(
    before: u32,
    piece: &[u8],
    frames: &mut LogStream,
    intake: &mut Intake,
) -> Result<Option<LogBad>, Memory>
    requires limit { before + length piece.now ≤ MAX_LOG }
    requires counted { IsCounted before frames.old.stream }
    requires version { frames.old.stream.version ≡ frames.old.version }
    ensures keeps { (site : ℕ) (all : List ℕ)
        → Keeps (reader_of site frames.old.version before frames.old.stream.left (state_of intake.old.site)
        intake.old.refused None false) all
        → IfOk result (λ why. Keeps (reader_of site frames.new.version (before + length piece.now) frames.new.stream.left
        (state_of intake.new.site) intake.new.refused why false) (all ++ piece.now)) }
    ensures counted { IfOk result (λ why. why ≡ None → IsCounted (before + length piece.now) frames.new.stream) }
    ensures version { IfOk result (λ why. why ≡ None → frames.new.stream.version ≡ frames.new.version) }
    ensures needed { OnErr result (GoesPastHeader before piece.now) }
{
    let fed = before + piece.len() as u32;
    match after_header(frames.version, (before as usize).min(HEADER_LEN), piece) {
        None => Ok(Some(LogBad::Header)),
        Some((told, rest)) => {
            frames.turn(before, told)?;
            if rest.is_empty() {
                return Ok(None);
            }
            frames.stream.feed(rest)?;
            take_frames(&mut frames.stream, fed, intake)
        }
    }
}
