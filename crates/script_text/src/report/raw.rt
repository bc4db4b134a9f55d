//! The report lines that end a line of bytes, `raw` or `raw2`, each of which begins with the line's word.

ghost use Rattle.std.specs.Prelude.{◌≡◌, ◌++◌, OnOk, OnErr, length, take};
ghost use Rattle.script_text.specs.Report.{raw_bad_text, raw_more_text};

use op_name::Memory;
use site_answers::put;

/// Appends the report line of a frame that is bad: `WORD S bad CAUSE OFFSET` and a line feed. The offset counts
/// bytes from the start of the frame.
///
/// A refused call leaves `out` as it was.
pub fn raw_bad_line(
    word: &str,
    site: u16,
    cause: &str,
    offset: u32,
    out: &mut Vec<u8>,
) -> Result<(), Memory>
    ensures ok { OnOk result (out.new.items ≡ out.old.items ++ raw_bad_text word.now site cause.now offset) }
    ensures err { OnErr result (out.new.items ≡ out.old.items) }
{
    let start = out.len();
    let done = raw_bad_parts(word, site, cause, offset, out);
    put::take_back(out, start, done)
}

// The same, but a refused call may leave some of it after what `out` held.
fn raw_bad_parts(
    word: &str,
    site: u16,
    cause: &str,
    offset: u32,
    out: &mut Vec<u8>,
) -> Result<(), Memory>
    ensures ok { OnOk result (out.new.items ≡ out.old.items ++ raw_bad_text word.now site cause.now offset) }
    ensures err { OnErr result (take (length out.old.items) out.new.items ≡ out.old.items) }
{
    put::text(out, word.as_bytes())?;
    put::number(out, b" ", u64::from(site))?;
    put::text(out, b" bad ")?;
    put::text(out, cause.as_bytes())?;
    put::number(out, b" ", u64::from(offset))?;
    put::text(out, b"\n")
}

/// Appends the report line of a frame that is cut: `WORD S more AT_LEAST` and a line feed. The frame has at least
/// so many bytes.
///
/// A refused call leaves `out` as it was.
pub fn raw_more_line(word: &str, site: u16, at_least: u32, out: &mut Vec<u8>) -> Result<(), Memory>
    ensures ok { OnOk result (out.new.items ≡ out.old.items ++ raw_more_text word.now site at_least) }
    ensures err { OnErr result (out.new.items ≡ out.old.items) }
{
    let start = out.len();
    let done = raw_more_parts(word, site, at_least, out);
    put::take_back(out, start, done)
}

// The same, but a refused call may leave some of it after what `out` held.
fn raw_more_parts(word: &str, site: u16, at_least: u32, out: &mut Vec<u8>) -> Result<(), Memory>
    ensures ok { OnOk result (out.new.items ≡ out.old.items ++ raw_more_text word.now site at_least) }
    ensures err { OnErr result (take (length out.old.items) out.new.items ≡ out.old.items) }
{
    put::text(out, word.as_bytes())?;
    put::number(out, b" ", u64::from(site))?;
    put::number(out, b" more ", u64::from(at_least))?;
    put::text(out, b"\n")
}
