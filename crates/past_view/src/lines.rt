//! Places of a text by lines and columns, each counted from 0: a line ends with its line feed, and a column counts characters.

ghost use Rattle.std.specs.Prelude.{◌≡◌, ◌<◌, ◌^◌, ℕ, List, length, encode_utf8_all, MatchOption};
ghost use Rattle.lane_rank.specs.Texts.{newlines_of, starts_of};
ghost use Rattle.past_view.specs.Lines.{address_of, place_at};
ghost use Rattle.past_view.specs.Code.Counted.{IsPlaceEnd, IsLineStart, IsLineEnd};

use crate::counted::{Counted, nth};
use lane_rank::{newlines, utf8_len};

/// The line and the column of the place after `v` characters of a text in UTF-8: the number of line feeds among these, and the
/// number of characters after the last of them. None exactly where the text has fewer characters.
pub fn line_of_place(text: &[u8], v: u32) -> Option<(u32, u32)>
    requires { length text.now < 2 ^ 32 }
    ensures { (cs : List ℕ) → encode_utf8_all cs ≡ text.now → result ≡ address_of cs v }
{
    let end = place_end(text, v)?;
    let front = &text[..end];
    let line = newlines(front);
    let start = line_start(front, line)?;
    Some((line, utf8_len(&front[start..])))
}

/// The place that has this line and column in a text in UTF-8: after so many of its characters. None exactly where no place has them.
pub fn place_of_line(text: &[u8], line: u32, column: u32) -> Option<u32>
    requires { length text.now < 2 ^ 32 }
    ensures { (cs : List ℕ) → encode_utf8_all cs ≡ text.now → result ≡ place_at cs line column }
{
    let start = line_start(text, line)?;
    let rest = &text[start..];
    let end = line_end(rest);
    if column <= utf8_len(&rest[..end]) {
        Some(utf8_len(&text[..start]) + column)
    } else {
        None
    }
}

/// Where so many characters end. None exactly where the text has fewer.
fn place_end(text: &[u8], v: u32) -> Option<usize>
    requires { length text.now < 2 ^ 32 }
    ensures { MatchOption result (starts_of text.now < v) (IsPlaceEnd text.now v) }
{
    match nth(Counted::Characters, text, v) {
        Some(at) => Some(at),
        None if utf8_len(text) == v => Some(text.len()),
        None => None,
    }
}

/// Where the line begins, counted from 0. None exactly where the text has fewer line feeds.
fn line_start(text: &[u8], line: u32) -> Option<usize>
    requires { length text.now < 2 ^ 32 }
    ensures { MatchOption result (newlines_of text.now < line) (IsLineStart text.now line) }
{
    if line == 0 {
        return Some(0);
    }
    let at = nth(Counted::LineFeeds, text, line - 1)?;
    Some(at + 1)
}

/// Where the first line ends: its line feed, or the end of the text.
fn line_end(text: &[u8]) -> usize
    requires { length text.now < 2 ^ 32 }
    ensures { IsLineEnd text.now result }
{
    match nth(Counted::LineFeeds, text, 0) {
        Some(at) => at,
        None => text.len(),
    }
}
