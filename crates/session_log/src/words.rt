//! The line that says why a log was refused.

ghost use Rattle.std.specs.Prelude.{◌≡◌, ◌≢◌, ◌++◌, OnOk, OnErr, length, take};
ghost use Rattle.session_log.specs.Words.{log_bad_words, refused_log_text};

use crate::log_bad::LogBad;
use op_name::Memory;
use site_answers::put_verdict;

/// Appends the line that says why a log was refused: `refused log header`, `refused log cut OFFSET`,
/// `refused log bad OFFSET CAUSE` or `refused log op OFFSET VERDICT`, and a line feed. Out of memory is no reason to
/// print. A refused call leaves `out` as it was.
pub fn refused_log_line(why: LogBad, out: &mut Vec<u8>) -> Result<(), Memory>
    requires { why ≢ LogBad.Memory }
    ensures ok { OnOk result (out.new.items ≡ out.old.items ++ refused_log_text why) }
    ensures err { OnErr result (out.new.items ≡ out.old.items) }
{
    let start = out.len();
    let done = line_parts(why, out);
    if done.is_err() {
        out.truncate(start);
    }
    done
}

// The same, but a refused call may leave some of it after what `out` held.
fn line_parts(why: LogBad, out: &mut Vec<u8>) -> Result<(), Memory>
    requires { why ≢ LogBad.Memory }
    ensures ok { OnOk result (out.new.items ≡ out.old.items ++ refused_log_text why) }
    ensures err { OnErr result (take (length out.old.items) out.new.items ≡ out.old.items) }
{
    put(out, "refused log ")?;
    put_words(why, out)?;
    put(out, "\n")
}

// The same of the words between these.
fn put_words(why: LogBad, out: &mut Vec<u8>) -> Result<(), Memory>
    requires { why ≢ LogBad.Memory }
    ensures ok { OnOk result (out.new.items ≡ out.old.items ++ log_bad_words why) }
    ensures err { OnErr result (take (length out.old.items) out.new.items ≡ out.old.items) }
{
    let alloc = *out.allocator();
    match why {
        LogBad::Header => put(out, "header"),
        LogBad::Cut { offset } => {
            let words = format!(in alloc; "cut {offset}")?;
            put(out, words.as_str())
        }
        LogBad::Bad { offset, cause } => {
            let words = format!(in alloc; "bad {offset} {}", cause.word())?;
            put(out, words.as_str())
        }
        LogBad::Refused {
            offset,
            member,
            verdict,
        } => {
            let words = format!(in alloc; "op {offset} ")?;
            put(out, words.as_str())?;
            put_verdict(member, verdict, out)
        }
        LogBad::Memory => unreachable!(),
    }
}

// Appends the text. A refused call leaves `out` as it was.
fn put(out: &mut Vec<u8>, text: &str) -> Result<(), Memory>
    ensures ok { OnOk result (out.new.items ≡ out.old.items ++ text.now) }
    ensures err { OnErr result (out.new.items ≡ out.old.items) }
{
    out.extend_from_slice(text.as_bytes())?;
    Ok(())
}
