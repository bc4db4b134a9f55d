//! Reading logs.

ghost use Rattle.std.specs.Prelude.{◌≡◌, ◌≢◌, ◌≤◌, ◌++◌, ◌∷◌, [], List, Err, OnOk, OnErr, IfErr, length, take};
ghost use Rattle.context_diff.specs.Operations.{OpData};
ghost use Rattle.session_log.specs.Logs.{IsLogOf};
ghost use Rattle.session_log.specs.Readings.{IsListed, IsUnread};

use crate::left::Left;
use crate::log_bad::LogBad;
use crate::placed::Placed;
use op_name::Memory;

/// The most bytes of a log that is read: 64 MiB. A longer one is refused before it is looked at.
pub const MAX_LOG: usize = 67_108_864;

/// Appends the operations of a log of at most `MAX_LOG` bytes, in the order of their frames, each with the offset of its
/// frame. Refused by Header, Cut or Bad, the first fault of the bytes, or by Memory, which comes only where an operation
/// is there; then `out` is as it was. It goes over the bytes once.
pub fn read_log(bytes: &[u8], out: &mut Vec<Placed>) -> Result<(), LogBad>
    requires { length bytes.now ≤ MAX_LOG }
    ensures ok { OnOk result (IsListed bytes.now out.old.items out.new.items) }
    ensures refused { IfErr result (IsUnread bytes.now) }
    ensures err { OnErr result (out.new.items ≡ out.old.items) }
{
    let start = out.len();
    let done = read_into(bytes, out);
    if done.is_err() {
        out.truncate(start);
    }
    done
}

// The same, but a refused call may leave some operations after what `out` held.
fn read_into(bytes: &[u8], out: &mut Vec<Placed>) -> Result<(), LogBad>
    requires { length bytes.now ≤ MAX_LOG }
    ensures ok { OnOk result (IsListed bytes.now out.old.items out.new.items) }
    ensures refused { IfErr result (IsUnread bytes.now) }
    ensures err { OnErr result (take (length out.old.items) out.new.items ≡ out.old.items) }
{
    let alloc = *out.allocator();
    let mut left = Left::after_header(bytes)?;
    while let Some(placed) = left.next(alloc)? {
        append(out, placed)?;
    }
    Ok(())
}

fn append(out: &mut Vec<Placed>, placed: Placed) -> Result<(), Memory>
    ensures ok { OnOk result (out.new.items ≡ out.old.items ++ placed ∷ []) }
    ensures err { OnErr result (out.new.items ≡ out.old.items) }
{
    out.push(placed)?;
    Ok(())
}

/// Goes over the bytes once, and tells the first fault, if there is one. It takes no memory.
pub(crate) fn check(bytes: &[u8]) -> Result<(), LogBad>
    requires { length bytes.now ≤ MAX_LOG }
    ensures log { OnOk result ((os : List OpData) × IsLogOf bytes.now os) }
    ensures refused { IfErr result (IsUnread bytes.now) }
    ensures memory { result ≢ Err LogBad.Memory }
{
    let mut left = Left::after_header(bytes)?;
    loop {
        if !left.pass()? {
            return Ok(());
        }
    }
}
