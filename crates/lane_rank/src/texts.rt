//! How many lines and characters the bytes of a text have.

ghost use Rattle.std.specs.Prelude.{◌≡◌, ◌+◌, ◌<◌, ◌≤◌, ◌^◌, length, slice_range};
ghost use Rattle.lane_rank.specs.Texts.{newlines_of, starts_of, starts_char};

use std::simd::prelude::*;

/// The number of line feeds, the bytes 0A hexadecimal.
pub fn newlines(bytes: &[u8]) -> u32
    requires { length bytes.now < 2 ^ 32 }
    ensures { result ≡ newlines_of bytes.now }
{
    let mut total = 0;
    let mut at = 0;
    while at + 32 <= bytes.len() {
        total += newlines_in(bytes, at);
        at += 32;
    }
    while at < bytes.len() {
        if bytes[at] == 10 {
            total += 1;
        }
        at += 1;
    }
    total
}

/// The number of bytes that are not 80 to BF hexadecimal: in UTF-8, the number of characters.
pub fn utf8_len(bytes: &[u8]) -> u32
    requires { length bytes.now < 2 ^ 32 }
    ensures { result ≡ starts_of bytes.now }
{
    let mut total = 0;
    let mut at = 0;
    while at + 32 <= bytes.len() {
        total += starts_in(bytes, at);
        at += 32;
    }
    while at < bytes.len() {
        if starts(bytes[at]) {
            total += 1;
        }
        at += 1;
    }
    total
}

/// The number of line feeds among the 32 bytes from a place on.
fn newlines_in(bytes: &[u8], at: usize) -> u32
    requires { at + 32 ≤ length bytes.now }
    ensures { result ≡ newlines_of (slice_range bytes.now at (at + 32)) }
{
    let lanes = u8x32::from_slice(&bytes[at..]);
    lanes.simd_eq(u8x32::splat(10)).to_bitmask().count_ones()
}

/// The number of bytes that start a character among the 32 from a place on.
fn starts_in(bytes: &[u8], at: usize) -> u32
    requires { at + 32 ≤ length bytes.now }
    ensures { result ≡ starts_of (slice_range bytes.now at (at + 32)) }
{
    let lanes = u8x32::from_slice(&bytes[at..]);
    let below = lanes.simd_lt(u8x32::splat(0x80)).to_bitmask().count_ones();
    let above = lanes.simd_gt(u8x32::splat(0xBF)).to_bitmask().count_ones();
    below + above
}

/// Whether a byte starts a character.
fn starts(byte: u8) -> bool
    ensures { result ≡ starts_char byte }
{
    byte < 0x80 || byte > 0xBF
}
