//! How many ones a column has, and where they are.

ghost use Rattle.std.specs.Prelude.{◌≡◌, ◌+◌, ◌<◌, ◌≤◌, ◌^◌, length, take, slice_range, MatchOption};
ghost use Rattle.lane_rank.specs.Ones.{ones_of, IsSelected};

use std::simd::prelude::*;

/// The number of ones among the 32 bytes from a place on.
fn ones_in(flags: &[u8], at: usize) -> u32
    requires { at + 32 ≤ length flags.now }
    ensures { result ≡ ones_of (slice_range flags.now at (at + 32)) }
{
    let lanes = u8x32::from_slice(&flags[at..]);
    lanes.simd_eq(u8x32::splat(1)).to_bitmask().count_ones()
}

/// The number of bytes that are 1.
pub fn ones(flags: &[u8]) -> u32
    requires { length flags.now < 2 ^ 32 }
    ensures { result ≡ ones_of flags.now }
{
    let mut total = 0;
    let mut at = 0;
    while at + 32 <= flags.len() {
        total += ones_in(flags, at);
        at += 32;
    }
    while at < flags.len() {
        if flags[at] == 1 {
            total += 1;
        }
        at += 1;
    }
    total
}

/// The number of bytes that are 1 among the first `n`.
pub fn prefix_ones(flags: &[u8], n: u32) -> u32
    requires within { n ≤ length flags.now }
    requires short { length flags.now < 2 ^ 32 }
    ensures { result ≡ ones_of (take n flags.now) }
{
    ones(&flags[..n as usize])
}

/// The place of the `k`-th byte that is 1, counted from 0; None exactly where there are not so many.
pub fn select(flags: &[u8], k: u32) -> Option<u32>
    requires { length flags.now < 2 ^ 32 }
    ensures { MatchOption result (ones_of flags.now ≤ k) (IsSelected flags.now k) }
{
    let mut seen = 0;
    let mut at = 0;
    while at + 32 <= flags.len() {
        let here = ones_in(flags, at);
        if k - seen < here {
            return select_from(flags, k, at, seen);
        }
        seen += here;
        at += 32;
    }
    select_from(flags, k, at, seen)
}

/// The place of the `k`-th one from a place on, before which so many were seen.
fn select_from(flags: &[u8], k: u32, from: usize, before: u32) -> Option<u32>
    requires within { from ≤ length flags.now }
    requires short { length flags.now < 2 ^ 32 }
    requires counted { before ≡ ones_of (take from flags.now) }
    requires later { before ≤ k }
    ensures { MatchOption result (ones_of flags.now ≤ k) (IsSelected flags.now k) }
{
    let mut seen = before;
    let mut at = from;
    while at < flags.len() {
        if flags[at] == 1 {
            if seen == k {
                return Some(at as u32);
            }
            seen += 1;
        }
        at += 1;
    }
    None
}
