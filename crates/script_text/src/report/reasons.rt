//! The report line of a local operation that was refused.

ghost use Rattle.std.specs.Prelude.{◌≡◌, ◌≢◌, ◌++◌, OnOk, OnErr, length, take};
ghost use Rattle.script_text.specs.Verdicts.{local_text};

use op_name::Memory;
use site_answers::{Local, put, put_reason};

/// Appends the report line of a refused local operation: `no REASON` and a line feed. Out of memory is no
/// reason of a report.
///
/// A refused call leaves `out` as it was.
pub fn local_line(why: Local, out: &mut Vec<u8>) -> Result<(), Memory>
    requires { why ≢ Local.Memory }
    ensures ok { OnOk result (out.new.items ≡ out.old.items ++ local_text why) }
    ensures err { OnErr result (out.new.items ≡ out.old.items) }
{
    let start = out.len();
    let done = local_parts(why, out);
    put::take_back(out, start, done)
}

// The same, but a refused call may leave some of it after what `out` held.
fn local_parts(why: Local, out: &mut Vec<u8>) -> Result<(), Memory>
    requires { why ≢ Local.Memory }
    ensures ok { OnOk result (out.new.items ≡ out.old.items ++ local_text why) }
    ensures err { OnErr result (take (length out.old.items) out.new.items ≡ out.old.items) }
{
    put::text(out, b"no ")?;
    put_reason(why, out)?;
    put::text(out, b"\n")
}
