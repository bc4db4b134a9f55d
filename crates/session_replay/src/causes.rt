//! Words for causes.

ghost use Rattle.std.specs.Prelude.{◌≡◌, Some, IfOk, OnErr};
ghost use Rattle.session_replay.specs.Answers.{refusal_by, unread_by};

use crate::session::StepBad;
use op_name::Memory;
use script_text::{LineBad, Refusal};

/// Why a script ends at a line whose bytes can't be read.
pub(crate) fn reading_refused(why: LineBad) -> Result<Refusal, Memory>
    ensures cause { IfOk result (λ cause. unread_by why ≡ Some cause) }
    ensures memory { OnErr result (why ≡ LineBad.Memory) }
{
    match why {
        LineBad::Limit => Ok(Refusal::Limit),
        LineBad::Long => Ok(Refusal::Long),
        LineBad::Utf8 => Ok(Refusal::Utf8),
        LineBad::Form => Ok(Refusal::Form),
        LineBad::Memory => Err(Memory),
    }
}

/// Why a script ends at a line that a session refuses.
pub(crate) fn step_refused(why: StepBad) -> Result<Refusal, Memory>
    ensures cause { IfOk result (λ cause. refusal_by why ≡ Some cause) }
    ensures refused { IfOk result (λ cause. why ≡ StepBad.Memory → ⊥) }
    ensures memory { OnErr result (why ≡ StepBad.Memory) }
{
    match why {
        StepBad::NoSites => Ok(Refusal::NoSites),
        StepBad::Twice => Ok(Refusal::Twice),
        StepBad::NoSite => Ok(Refusal::NoSite),
        StepBad::NoMessage => Ok(Refusal::NoMessage),
        StepBad::Memory => Err(Memory),
    }
}
