//! The lines of an input that comes in pieces.

ghost use Rattle.std.specs.Prelude.{◌≡◌, ◌≢◌, ◌≤◌, ◌+◌, ◌∷◌, ◌++◌, [], ℕ, List, true, false, ◌↔◌, Some, None, Ok, Err, OnOk, OnErr, IsTrue};
ghost use Rattle.script_text.specs.LeftLines.{LeftLine, InputData};
ghost use Rattle.script_text.specs.Code.Keeping.{FrontIs, HasFrontLine, IsInput};
ghost use Rattle.script_text.specs.Streams.{fed_with, looked_at, TakesLine, HasNoLine, HasLongLine, IsPastLimit};

use crate::reading::kept::{Kept, first};
use crate::reading::line::{Line, LineBad};
use crate::reading::parse::parse_line;
use op_name::Memory;
use std::alloc::Global;
use std::marker::Model;

/// The most bytes of an input that are lines: 64 MiB.
pub const MAX_SCRIPT: usize = 67_108_864;

/// The lines of an input that comes in pieces, which may be cut anywhere.
///
/// It *is* the lines that are left, of each its first `LONGEST + 1` bytes, its length and whether a line feed ended it; the
/// number of bytes fed, up to one past `MAX_SCRIPT`; whether the input has ended; and the refusal that `take` gave, if it
/// gave one. Each byte is looked at once where it is fed and once where its line is taken. A line keeps no memory past its
/// first `LONGEST + 1` bytes.
#[derive(Drop)]
pub struct LineStream {
    lines: Kept,
    fed: u32,
    over: bool,
    refusal: Option<LineBad>,
    alloc: Global,
}

impl Model for LineStream {
    ghost use Rattle.script_text.specs.LeftLines.{InputData};

    ghost Value = { InputData };

    ghost use Rattle.script_text.specs.Code.Keeping.{lines_kept, IsInput};

    ghost view = { λ s. record { lines = lines_kept s.lines; fed = s.fed; over = s.over; refusal = s.refusal } };

    ghost invariant = { λ s. IsInput (record { lines = lines_kept s.lines; fed = s.fed; over = s.over; refusal = s.refusal }) };
}

impl LineStream {
    /// An input of which nothing was fed yet; takes no memory.
    pub fn new(alloc: Global) -> LineStream
        ensures { result ≡ record { lines = []; fed = 0; over = false; refusal = None } }
    {
        LineStream {
            lines: Kept::new(alloc),
            fed: 0,
            over: false,
            refusal: None,
            alloc,
        }
    }

    /// Appends a piece of the input: it goes on with the last line, if no line feed ended that, and brings the lines after
    /// it. What follows the first `MAX_SCRIPT + 1` bytes fed is passed over.
    ///
    /// Out of memory, which comes only where a byte of the piece is looked at, nothing of the piece was taken.
    pub fn feed(&mut self, piece: &[u8]) -> Result<(), Memory>
        requires { self.old.over ≡ false }
        ensures ok { OnOk result (self.new ≡ fed_with self.old piece.now) }
        ensures needed { OnErr result (looked_at self.old.fed piece.now ≢ []) }
        ensures err { OnErr result (self.new ≡ self.old) }
    {
        let looked_at = first(MAX_SCRIPT + 1 - self.fed as usize, piece);
        self.lines.known();
        self.lines.add(looked_at)?;
        self.fed += looked_at.len() as u32;
        Ok(())
    }

    /// Says that the input has ended: a last line without its line feed is whole then.
    pub fn end(&mut self)
        ensures { self.new ≡ record self.old { over = true } }
    {
        self.over = true;
    }

    /// Takes the front line. `Ok(None)` exactly where at most `MAX_SCRIPT` bytes were fed, and either all lines are taken
    /// after the end, or no line feed is left before it.
    ///
    /// Refused by Limit exactly where the front line holds the byte after the first `MAX_SCRIPT`, or would begin with it;
    /// then by the causes of `parse_line`. On any refusal nothing is taken; each later call answers the same, but for
    /// Memory.
    pub fn take(&mut self) -> Result<Option<Line>, LineBad>
        ensures taken { TakesLine self.old result self.new }
        ensures none { (result ≡ Ok None) ↔ HasNoLine self.old }
        ensures limit { (result ≡ Err LineBad.Limit) ↔ IsPastLimit self.old }
        ensures long { (result ≡ Err LineBad.Long) ↔ HasLongLine self.old }
        ensures again { (why : LineBad) → self.old.refusal ≡ Some why → result ≡ Err why }
        ensures fed { self.new.fed ≡ self.old.fed }
        ensures over { self.new.over ≡ self.old.over }
    {
        self.known();
        self.take_line()
    }

    fn take_line(&mut self) -> Result<Option<Line>, LineBad>
        ensures taken { TakesLine self.old result self.new }
        ensures again { (why : LineBad) → self.old.refusal ≡ Some why → result ≡ Err why }
    {
        match self.refusal {
            Some(why) => Err(why),
            None => self.take_next(),
        }
    }

    // The same where none was refused before.
    fn take_next(&mut self) -> Result<Option<Line>, LineBad>
        requires { self.old.refusal ≡ None }
        ensures { TakesLine self.old result self.new }
    {
        match self.next() {
            Ok(None) => Ok(None),
            Ok(Some(line)) => {
                self.lines.drop_front();
                Ok(Some(line))
            }
            Err(why) => {
                self.refuse(why);
                Err(why)
            }
        }
    }

    // Keeps the cause for which the front line is refused; out of memory is no such cause.
    fn refuse(&mut self, why: LineBad)
        requires fresh { self.old.refusal ≡ None }
        requires cause { FrontIs self.old (Err why) }
        ensures { TakesLine self.old (Err why) self.new }
    {
        match why {
            LineBad::Memory => {}
            cause => self.refusal = Some(cause),
        }
    }

    // What the front line is read as, where none was refused before.
    fn next(&self) -> Result<Option<Line>, LineBad>
        ensures { FrontIs self.now result }
    {
        self.known();
        if self.is_past_limit() {
            return Err(LineBad::Limit);
        }
        let Some(front) = self.lines.front() else {
            return Ok(None);
        };
        if !front.ended && !self.over {
            return Ok(None);
        }
        match parse_line(self.alloc, front.bytes) {
            Ok(line) => Ok(Some(line)),
            Err(why) => Err(why),
        }
    }

    // Whether the front line holds the byte after the limit.
    fn is_past_limit(&self) -> bool
        ensures { IsTrue result ↔ IsPastLimit self.now }
    {
        self.fed as usize > MAX_SCRIPT && self.lines.len() <= 1
    }

    // Nothing but what the type keeps.
    fn known(&self)
        ensures input { IsInput self.now }
        ensures front { HasFrontLine self.now.lines }
    {
        self.lines.known();
    }
}

/// Laws: an input is the same however it was cut into pieces, and however many of its lines were taken between them.
pub fn lines_stay_the_same()
    ensures cut { (s : InputData) (a b : List ℕ) → s.fed ≤ MAX_SCRIPT + 1 → fed_with (fed_with s a) b ≡ fed_with s (a ++ b) }
    ensures taken { (s : InputData) (line : LeftLine) (rest : List LeftLine) (piece : List ℕ) → line.ended ≡ true
        → (fed_with (record s { lines = line ∷ rest }) piece).lines ≡ line ∷ (fed_with (record s { lines = rest }) piece).lines }
{}
