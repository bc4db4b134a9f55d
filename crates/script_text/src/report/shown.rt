//! The report lines that show a text.

ghost use Rattle.std.specs.Prelude.{◌≡◌, ◌++◌, OnOk, OnErr, length, take};
ghost use Rattle.script_text.specs.Report.{shown_text};

use op_name::Memory;
use site_answers::put;

/// Appends the report lines of a text of so many characters: `text CHARS BYTES`, a line feed, the text and a line feed.
///
/// A refused call leaves `out` as it was.
pub fn shown_lines(chars: u32, text: &[u8], out: &mut Vec<u8>) -> Result<(), Memory>
    ensures ok { OnOk result (out.new.items ≡ out.old.items ++ shown_text chars text.now) }
    ensures err { OnErr result (out.new.items ≡ out.old.items) }
{
    let start = out.len();
    let done = shown_parts(chars, text, out);
    put::take_back(out, start, done)
}

// The same, but a refused call may leave some of it after what `out` held.
fn shown_parts(chars: u32, text: &[u8], out: &mut Vec<u8>) -> Result<(), Memory>
    ensures ok { OnOk result (out.new.items ≡ out.old.items ++ shown_text chars text.now) }
    ensures err { OnErr result (take (length out.old.items) out.new.items ≡ out.old.items) }
{
    put::number(out, b"text ", u64::from(chars))?;
    put::number(out, b" ", text.len() as u64)?;
    put::text(out, b"\n")?;
    put::text(out, text)?;
    put::text(out, b"\n")
}
