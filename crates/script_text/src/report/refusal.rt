//! Causes for which a script ends.

ghost use Rattle.std.specs.Prelude.{◌≡◌, ◌++◌, OnOk, OnErr, length, take};
ghost use Rattle.script_text.specs.Report.{refused_text};

use op_name::Memory;
use site_answers::put;

/// Why a line of a script is refused; the script ends there.
#[derive(Clone, Copy, Debug, PartialEq, Eq)]
pub enum Refusal {
    /// The line holds, or would begin with, the byte after the first 67,108,864.
    Limit,
    /// The line has more than `LONGEST` bytes.
    Long,
    /// The line isn't UTF-8.
    Utf8,
    /// The line is no row of the table.
    Form,
    /// Another command stands before `sites`.
    NoSites,
    /// `sites` is given a second time.
    Twice,
    /// The site isn't below the number of sites.
    NoSite,
    /// The message wasn't made yet.
    NoMessage,
}

impl Refusal {
    ghost use Rattle.script_text.specs.Report.{refusal_word};

    /// The word for the cause in reports.
    pub fn word(self) -> &'static str
        ensures { result.now ≡ refusal_word self }
    {
        match self {
            Refusal::Limit => "limit",
            Refusal::Long => "long",
            Refusal::Utf8 => "utf8",
            Refusal::Form => "form",
            Refusal::NoSites => "nosites",
            Refusal::Twice => "twice",
            Refusal::NoSite => "nosite",
            Refusal::NoMessage => "nomessage",
        }
    }
}

/// Appends the report line of a refused line: `refused LINE CAUSE` and a line feed. Lines are numbered from 1.
///
/// A refused call leaves `out` as it was.
pub fn refused_line(line: u32, cause: Refusal, out: &mut Vec<u8>) -> Result<(), Memory>
    ensures ok { OnOk result (out.new.items ≡ out.old.items ++ refused_text line cause) }
    ensures err { OnErr result (out.new.items ≡ out.old.items) }
{
    let start = out.len();
    let done = refused_parts(line, cause, out);
    put::take_back(out, start, done)
}

// The same, but a refused call may leave some of it after what `out` held.
fn refused_parts(line: u32, cause: Refusal, out: &mut Vec<u8>) -> Result<(), Memory>
    ensures ok { OnOk result (out.new.items ≡ out.old.items ++ refused_text line cause) }
    ensures err { OnErr result (take (length out.old.items) out.new.items ≡ out.old.items) }
{
    put::number(out, b"refused ", u64::from(line))?;
    put::text(out, b" ")?;
    put::text(out, cause.word().as_bytes())?;
    put::text(out, b"\n")
}
