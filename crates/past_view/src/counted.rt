//! Where the characters and the line feeds of a text stand.

ghost use Rattle.std.specs.Prelude.{◌≡◌, ◌+◌, ◌<◌, ◌≤◌, ◌^◌, length, take, MatchOption};
ghost use Rattle.std.specs.List.{count_by};
ghost use Rattle.past_view.specs.Code.Counted.{counts, IsNth};

use lane_rank::{newlines, utf8_len};

/// So many bytes are passed over at once.
const BLOCK: usize = 1_024;

/// What is counted in a text.
#[derive(Clone, Copy)]
pub(crate) enum Counted {
    /// Its characters, by the bytes that start them.
    Characters,
    /// Its line feeds.
    LineFeeds,
}

/// How many of them the bytes have.
fn count(counted: Counted, bytes: &[u8]) -> u32
    requires { length bytes.now < 2 ^ 32 }
    ensures { result ≡ count_by (counts counted) bytes.now }
{
    match counted {
        Counted::Characters => utf8_len(bytes),
        Counted::LineFeeds => newlines(bytes),
    }
}

/// Whether a byte is counted.
fn is_counted(counted: Counted, byte: u8) -> bool
    ensures { result ≡ counts counted byte }
{
    match counted {
        Counted::Characters => byte < 0x80 || byte > 0xBF,
        Counted::LineFeeds => byte == b'\n',
    }
}

/// Where the `k`-th of them stands, counted from 0. None exactly where there are not so many.
pub(crate) fn nth(counted: Counted, bytes: &[u8], k: u32) -> Option<usize>
    ensures { MatchOption result (count_by (counts counted) bytes.now ≤ k) (IsNth (counts counted) bytes.now k) }
{
    let mut seen = 0;
    let mut at = 0;
    while at + BLOCK <= bytes.len() {
        let here = count(counted, &bytes[at..at + BLOCK]);
        if k - seen < here {
            return nth_from(counted, bytes, k, at, seen);
        }
        seen += here;
        at += BLOCK;
    }
    nth_from(counted, bytes, k, at, seen)
}

/// Where the `k`-th of them stands, from a place on, before which so many were seen.
fn nth_from(counted: Counted, bytes: &[u8], k: u32, from: usize, before: u32) -> Option<usize>
    requires within { from ≤ length bytes.now }
    requires counted { before ≡ count_by (counts counted) (take from bytes.now) }
    requires later { before ≤ k }
    ensures { MatchOption result (count_by (counts counted) bytes.now ≤ k) (IsNth (counts counted) bytes.now k) }
{
    let mut seen = before;
    let mut at = from;
    while at < bytes.len() {
        if is_counted(counted, bytes[at]) {
            if seen == k {
                return Some(at);
            }
            seen += 1;
        }
        at += 1;
    }
    None
}
