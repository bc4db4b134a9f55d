//! The frames of a log that comes in pieces.

ghost use Rattle.std.specs.Prelude.{◌≡◌, ℕ, ◌+◌, ◌≤◌, List, length, IfOk, IfErr};
ghost use Rattle.cot_site.specs.Sites.{state_of};
ghost use Rattle.session_log.specs.Readers.{HasTaken};
ghost use Rattle.session_log.specs.ReaderData.{IsCounted};
ghost use Rattle.session_log.specs.Code.Steps.{TakesFrame, Stops, Ends};

use crate::headers::HEADER_LEN;
use crate::intake::Intake;
use crate::log_bad::LogBad;
use crate::placed::Placed;
use crate::reading::MAX_LOG;
use op_name::Memory;
use wire_codec::{FrameStream, StreamBad};

/// Takes the operation of each whole frame, and takes it in at the site; answers the fault of what is left, if it has one.
/// So many bytes of the log were fed.
pub(crate) fn take_frames(
    frames: &mut FrameStream,
    fed: u32,
    intake: &mut Intake,
) -> Result<Option<LogBad>, Memory>
    requires counted { IsCounted fed frames.old }
    requires header { HEADER_LEN ≤ fed }
    requires limit { fed ≤ MAX_LOG }
    ensures ends { (site : ℕ) (all : List ℕ) → fed ≡ length all
        → HasTaken site frames.old.version all frames.old.left (state_of intake.old.site) intake.old.refused
        → IfOk result (Ends site frames.new.version all frames.new.left (state_of intake.new.site) intake.new.refused) }
    ensures counted { IsCounted fed frames.new }
    ensures version { frames.new.version ≡ frames.old.version }
{
    loop {
        match next(frames, fed) {
            Ok(Some(placed)) => intake.take(placed)?,
            Ok(None) => return Ok(None),
            Err(LogBad::Bad { offset, cause }) => return Ok(Some(LogBad::Bad { offset, cause })),
            Err(_) => return Err(Memory),
        }
    }
}

// Takes the next whole frame, if there is one.
fn next(frames: &mut FrameStream, fed: u32) -> Result<Option<Placed>, LogBad>
    requires counted { IsCounted fed frames.old }
    requires header { HEADER_LEN ≤ fed }
    requires limit { fed ≤ MAX_LOG }
    ensures takes { IfOk result (λ p. TakesFrame fed frames.old p frames.new) }
    ensures stops { IfErr result (Stops fed frames.old) }
    ensures counted { IsCounted fed frames.new }
    ensures version { frames.new.version ≡ frames.old.version }
{
    let offset = fed - frames.rest();
    match frames.take() {
        Ok(Some(op)) => Ok(Some(Placed { offset, op })),
        Ok(None) => Ok(None),
        Err(StreamBad::Bad { cause, offset }) => Err(LogBad::Bad {
            offset: HEADER_LEN as u32 + offset as u32,
            cause,
        }),
        Err(StreamBad::Memory) => Err(LogBad::Memory),
    }
}
