//! What happens at a site to an operation that others made.

ghost use Rattle.std.specs.Prelude.{◌≡◌, ◌++◌, OnOk, OnErr, length, take};
ghost use Rattle.script_text.specs.Verdicts.{verdict_line_text};

use op_name::{Member, Memory};
use site_answers::{Verdict, put, put_verdict};

/// How an operation came to its verdict: delivered, or released after it had waited.
#[derive(Clone, Copy, Debug, PartialEq, Eq)]
pub enum Event {
    Give,
    Free,
}

impl Event {
    ghost use Rattle.script_text.specs.Verdicts.{event_word};

    fn word(self) -> &'static str
        ensures { result.now ≡ event_word self }
    {
        match self {
            Event::Give => "give",
            Event::Free => "free",
        }
    }
}

/// Appends the report line of a verdict on the operation of this member at a site: `give S VERDICT` or
/// `free S VERDICT`, and a line feed.
///
/// A refused call leaves `out` as it was.
pub fn verdict_line(
    event: Event,
    site: u16,
    member: Member,
    verdict: Verdict,
    out: &mut Vec<u8>,
) -> Result<(), Memory>
    ensures ok { OnOk result (out.new.items ≡ out.old.items ++ verdict_line_text event site member verdict) }
    ensures err { OnErr result (out.new.items ≡ out.old.items) }
{
    let start = out.len();
    let done = verdict_parts(event, site, member, verdict, out);
    put::take_back(out, start, done)
}

// The same, but a refused call may leave some of it after what `out` held.
fn verdict_parts(
    event: Event,
    site: u16,
    member: Member,
    verdict: Verdict,
    out: &mut Vec<u8>,
) -> Result<(), Memory>
    ensures ok { OnOk result (out.new.items ≡ out.old.items ++ verdict_line_text event site member verdict) }
    ensures err { OnErr result (take (length out.old.items) out.new.items ≡ out.old.items) }
{
    put::text(out, event.word().as_bytes())?;
    put::number(out, b" ", u64::from(site))?;
    put::text(out, b" ")?;
    put_verdict(member, verdict, out)?;
    put::text(out, b"\n")
}
