//! Writing logs.

ghost use Rattle.std.specs.Prelude.{◌≡◌, ◌++◌, OnOk, OnErr, length, take};
ghost use Rattle.cot_site.specs.Sites.{AllFormed};
ghost use Rattle.wire_codec.specs.declared.version.Version.TheVariants.{Two};
ghost use Rattle.session_log.specs.Logs.{frames, log_of};

use crate::headers::header;
use causal_gate::Pool;
use context_diff::Book;
use cot_site::Site;
use op_name::Memory;
use wire_codec::{Version, encode2};

/// Appends the log of the site, in version 2: the header, the frames of its history in the order of integration, and the frames of what
/// waits in the order of arrival. Out of memory, `out` is as it was. It goes over the operations once.
///
/// A log may be longer than `MAX_LOG`; then a reader refuses it.
pub fn write_log(site: &Site, out: &mut Vec<u8>) -> Result<(), Memory>
    ensures ok { OnOk result (out.new.items ≡ out.old.items ++ log_of site.now.history site.now.waiting) }
    ensures err { OnErr result (out.new.items ≡ out.old.items) }
{
    let start = out.len();
    let done = log_parts(site, out);
    if done.is_err() {
        out.truncate(start);
    }
    done
}

// The same, but a refused call may leave some of it after what `out` held.
fn log_parts(site: &Site, out: &mut Vec<u8>) -> Result<(), Memory>
    ensures ok { OnOk result (out.new.items ≡ out.old.items ++ log_of site.now.history site.now.waiting) }
    ensures err { OnErr result (take (length out.old.items) out.new.items ≡ out.old.items) }
{
    site.known();
    out.extend_from_slice(header(Version::Two))?;
    put_history(site.book(), out)?;
    put_waiting(site.pool(), out)
}

// The frames of a history.
fn put_history(book: &Book, out: &mut Vec<u8>) -> Result<(), Memory>
    ensures ok { OnOk result (out.new.items ≡ out.old.items ++ frames Two book.now.ops) }
    ensures err { OnErr result (take (length out.old.items) out.new.items ≡ out.old.items) }
{
    book.known();
    for i in 0..book.len() {
        match book.op(i) {
            Some(op) => encode2(op, out)?,
            None => unreachable!(),
        }
    }
    Ok(())
}

// The frames of what waits, of which each is well formed.
fn put_waiting(pool: &Pool, out: &mut Vec<u8>) -> Result<(), Memory>
    requires { AllFormed pool.now }
    ensures ok { OnOk result (out.new.items ≡ out.old.items ++ frames Two pool.now) }
    ensures err { OnErr result (take (length out.old.items) out.new.items ≡ out.old.items) }
{
    for i in 0..pool.len() {
        match pool.get(i) {
            Some(op) => encode2(op, out)?,
            None => unreachable!(),
        }
    }
    Ok(())
}
