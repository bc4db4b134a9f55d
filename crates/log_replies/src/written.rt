//! The log of a site, as it is written.

ghost use Rattle.std.specs.Prelude.{◌≡◌, ◌++◌, IfOk, OnOk};
ghost use Rattle.cot_site.specs.Sites.{state_of};
ghost use Rattle.log_replies.specs.Answers.{IsAppended};
ghost use Rattle.log_replies.specs.Replies.{log_reply, too_long_text};

use cot_site::Site;
use op_name::Memory;
use session_log::{MAX_LOG, write_log};
use site_answers::put;

/// Appends the log of the site or, where it is too long to be read again, the line that says so. Answers whether it is.
pub(crate) fn put_log(site: &Site, out: &mut Vec<u8>) -> Result<bool, Memory>
    ensures { IfOk result (λ refused.
        IsAppended (λ s reply. reply ≡ log_reply s) refused (state_of site.now) out.old.items out.new.items) }
{
    let start = out.len();
    write_log(site, out)?;
    let len = out.len() - start;
    if len <= MAX_LOG {
        return Ok(false);
    }
    out.truncate(start);
    refuse_long(len, out)?;
    Ok(true)
}

// Appends the line that a log has so many bytes, which are too many.
fn refuse_long(len: usize, out: &mut Vec<u8>) -> Result<(), Memory>
    ensures { OnOk result (out.new.items ≡ out.old.items ++ too_long_text len) }
{
    put::number(out, b"refused toolong ", len as u64)?;
    put::text(out, b"\n")
}
