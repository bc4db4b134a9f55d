//! Characters in UTF-8, put into a buffer of the host's: that takes no memory.

ghost use Rattle.std.specs.Prelude.{◌≡◌, ◌≤◌, ◌+◌, ◌++◌, drop, encode_utf8_all, length, take};
ghost use Rattle.op_name.specs.declared.limits.TheConstants.{LETTERS};
ghost use Rattle.cotpad_c.specs.Statuses.{Wrote};

use crate::status::{OK, TOO_SHORT};

/// Puts the characters of an insert into the front of the buffer, if there is room for all, and tells how many bytes they take.
pub(crate) fn hand_out_spelled(chars: &[char], out: &mut [u8], needed: &mut usize) -> u32
    requires { length chars.now ≤ LETTERS }
    ensures { Wrote result (encode_utf8_all chars.now) out.old out.new needed.new }
{
    let count = byte_count(chars);
    *needed = count;
    if out.len() < count {
        return TOO_SHORT;
    }
    spell(chars, out);
    OK
}

// How many bytes the characters take.
fn byte_count(chars: &[char]) -> usize
    requires { length chars.now ≤ LETTERS }
    ensures { result ≡ length (encode_utf8_all chars.now) }
{
    let mut count = 0;
    for ch in chars {
        count += ch.len_utf8();
    }
    count
}

// Puts the characters into the front of a buffer that has room for them.
fn spell(chars: &[char], out: &mut [u8])
    requires { length (encode_utf8_all chars.now) ≤ length out.old }
    ensures { out.new ≡ encode_utf8_all chars.now ++ drop (length (encode_utf8_all chars.now)) out.old }
{
    let mut at = 0;
    for ch in chars {
        let mut room = [0u8; 4];
        let bytes = ch.encode_utf8(&mut room).as_bytes();
        put(bytes, at, out);
        at += bytes.len();
    }
}

// Puts bytes into a buffer, at this place of it.
fn put(bytes: &[u8], at: usize, out: &mut [u8])
    requires { at + length bytes.now ≤ length out.old }
    ensures { out.new ≡ take at out.old ++ (bytes.now ++ drop (at + length bytes.now) out.old) }
{
    let (_, rest) = out.split_at_mut(at);
    let (front, _) = rest.split_at_mut(bytes.len());
    front.copy_from_slice(bytes);
}
