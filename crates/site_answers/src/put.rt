//! Texts and numbers at the end of bytes.

ghost use Rattle.std.specs.Prelude.{◌≡◌, ◌++◌, OnOk, OnErr, decimal, length, take};

use itoa::Buffer;
use op_name::Memory;

/// Appends the text. A refused call leaves `out` as it was.
pub fn text(out: &mut Vec<u8>, text: &[u8]) -> Result<(), Memory>
    ensures ok { OnOk result (out.new.items ≡ out.old.items ++ text.now) }
    ensures err { OnErr result (out.new.items ≡ out.old.items) }
{
    out.extend_from_slice(text)?;
    Ok(())
}

/// Appends the text and the number in decimal digits. A refused call leaves `out` as it was.
pub fn number(out: &mut Vec<u8>, before: &[u8], number: u64) -> Result<(), Memory>
    ensures ok { OnOk result (out.new.items ≡ out.old.items ++ (before.now ++ decimal number)) }
    ensures err { OnErr result (out.new.items ≡ out.old.items) }
{
    let start = out.len();
    let done = text_and_number(out, before, number);
    take_back(out, start, done)
}

// The same, but a refused call may leave some of it after what `out` held.
fn text_and_number(out: &mut Vec<u8>, before: &[u8], number: u64) -> Result<(), Memory>
    ensures ok { OnOk result (out.new.items ≡ out.old.items ++ (before.now ++ decimal number)) }
    ensures err { OnErr result (take (length out.old.items) out.new.items ≡ out.old.items) }
{
    let mut digits = Buffer::new();
    out.extend_from_slice(before)?;
    out.extend_from_slice(digits.format(number).as_bytes())?;
    Ok(())
}

/// Takes back what was appended after the first `start` bytes, where memory ran out on the way.
pub fn take_back(out: &mut Vec<u8>, start: usize, done: Result<(), Memory>) -> Result<(), Memory>
    ensures same { result ≡ done }
    ensures ok { OnOk result (out.new.items ≡ out.old.items) }
    ensures err { OnErr result (out.new.items ≡ take start out.old.items) }
{
    if done.is_err() {
        out.truncate(start);
    }
    done
}
