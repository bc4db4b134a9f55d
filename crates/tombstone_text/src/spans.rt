//! The spans of a chunk, one after the other.

ghost use Rattle.std.specs.Prelude.{◌≡◌, ◌+◌, ◌<◌, ◌≤◌, ◌++◌, [], length, map, take, position, slice_index_or, vec_len, vec_capacity, IsFalse, IsTrue};
ghost use Rattle.ttf_form.specs.Cells.{bare_cells, change_at, marked, put_in};
ghost use Rattle.tombstone_text.specs.Cells.{HasRoomOn};
ghost use Rattle.tombstone_text.specs.Chunks.{flag_of, flat};
ghost use Rattle.tombstone_text.specs.Code.Cells.{cut, is_sought};
ghost use Rattle.tombstone_text.specs.Code.Chunks.{blank};
ghost use Rattle.tombstone_text.specs.Code.Inserts.{IsFound};
ghost use Rattle.tombstone_text.specs.Code.Spans.{AreFilled, IsPlace, IsSpot, cells_in, pieces, raised_run, span_cells};
ghost use Rattle.tombstone_text.specs.declared.chunk.TheConstants.{FULL};

use crate::chunk::FULL;
use crate::deleters::Spare;
use crate::sought::{Found, Sought};
use crate::span::Span;
use op_name::Name;
use ttf_form::{Ins, Mark};

/// The span within which a place lies, and the place in it; at the end of all, the number of spans and 0.
pub(crate) fn find(spans: &[Span], at: usize) -> (usize, usize)
    ensures { IsPlace (pieces spans.now) result.0 result.1 at }
{
    let (mut i, mut left) = past_fours(spans, at);
    while i < spans.len() {
        let count = spans[i].count();
        if left < count {
            return (i, left);
        }
        left -= count;
        i += 1;
    }
    (i, left)
}

/// A span not behind the place, with the distance from its start: four at a time are passed, as far as the place is behind all
/// of them.
fn past_fours(spans: &[Span], at: usize) -> (usize, usize)
    ensures within { result.0 ≤ length spans.now }
    ensures place { length (flat (take result.0 (pieces spans.now))) + result.1 ≡ at }
{
    let mut i = 0;
    let mut left = at;
    while spans.len() - i >= 4 {
        let count = in_four(spans, i);
        if left < count {
            return (i, left);
        }
        left -= count;
        i += 4;
    }
    (i, left)
}

/// The number of cells in four spans, from span `i` on.
fn in_four(spans: &[Span], i: usize) -> usize
    requires { i + 4 ≤ length spans.now }
    ensures { length (flat (take (i + 4) (pieces spans.now))) ≡ length (flat (take i (pieces spans.now))) + result }
{
    spans[i].count() + spans[i + 1].count() + spans[i + 2].count() + spans[i + 3].count()
}

/// The first place at which a cell is one that is looked for.
pub(crate) fn position_of(spans: &[Span], sought: &Sought) -> Option<usize>
    requires { length (cells_in spans.now) ≤ FULL }
    ensures { result ≡ position (is_sought sought.now) (cells_in spans.now) }
{
    let mut start = 0;
    let mut i = 0;
    while i < spans.len() {
        let span = &spans[i];
        match span.position(sought) {
            Some(at) => return Some(start + at),
            None => {}
        }
        start += span.count();
        i += 1;
    }
    None
}

/// Cuts span `i` in two: it keeps its first `keep` cells, the others become the next span.
fn cut(spans: &mut Vec<Span>, i: usize, keep: usize)
    requires span { i < vec_len spans.old }
    requires some { 1 ≤ keep }
    requires less { keep < length (slice_index_or (pieces spans.old.items) i []) }
    requires room { vec_len spans.old < vec_capacity spans.old }
    ensures cut { pieces spans.new.items ≡ cut (pieces spans.old.items) i keep }
    ensures len { vec_len spans.new ≡ vec_len spans.old + 1 }
    ensures capacity { vec_capacity spans.old ≤ vec_capacity spans.new }
{
    let span = &mut spans[i];
    let upper = span.cut(keep);
    match spans.insert(i + 1, upper) {
        Ok(()) => {}
        Err(_) => unreachable!(),
    }
}

/// Sees to it that a span begins at a place, or that all end there, and answers which; no cell changes.
pub(crate) fn border(spans: &mut Vec<Span>, at: usize) -> usize
    requires filled { AreFilled (pieces spans.old.items) }
    requires within { at ≤ length (cells_in spans.old.items) }
    requires room { vec_len spans.old < vec_capacity spans.old }
    ensures cells { cells_in spans.new.items ≡ cells_in spans.old.items }
    ensures filled { AreFilled (pieces spans.new.items) }
    ensures border { length (flat (take result (pieces spans.new.items))) ≡ at }
    ensures within { result ≤ vec_len spans.new }
    ensures len { vec_len spans.new ≤ vec_len spans.old + 1 }
    ensures capacity { vec_capacity spans.old ≤ vec_capacity spans.new }
{
    let (i, inside) = find(spans.as_slice(), at);
    if inside == 0 {
        return i;
    }
    cut(spans, i, inside);
    i + 1
}

/// Takes the only cell of an insert into the span in front of span `i`, where it follows the last one there, and answers
/// whether it does.
fn join(spans: &mut Vec<Span>, i: usize, ins: &Ins) -> bool
    requires within { i ≤ vec_len spans.old }
    requires filled { AreFilled (pieces spans.old.items) }
    ensures joined { IsTrue result
        → cells_in spans.new.items
        ≡ put_in (length (flat (take i (pieces spans.old.items)))) (bare_cells ins.now) (cells_in spans.old.items) }
    ensures filled { AreFilled (pieces spans.new.items) }
    ensures kept { IsFalse result → spans.new.items ≡ spans.old.items }
    ensures capacity { vec_capacity spans.new ≡ vec_capacity spans.old }
{
    if i == 0 {
        return false;
    }
    if spans[i - 1].is_before(ins) {
        let span = &mut spans[i - 1];
        span.join(ins);
        true
    } else {
        false
    }
}

/// Puts the cells of an insert at a place. A cell that follows the one in front of it joins the span of that.
pub(crate) fn put(spans: &mut Vec<Span>, at: usize, ins: &Ins)
    requires filled { AreFilled (pieces spans.old.items) }
    requires within { at ≤ length (cells_in spans.old.items) }
    requires room { vec_len spans.old + 2 ≤ vec_capacity spans.old }
    ensures cells { cells_in spans.new.items ≡ put_in at (bare_cells ins.now) (cells_in spans.old.items) }
    ensures filled { AreFilled (pieces spans.new.items) }
{
    let i = border(spans, at);
    if join(spans, i, ins) {
        return;
    }
    match spans.insert(i, Span::bare(ins)) {
        Ok(()) => {}
        Err(_) => unreachable!(),
    }
}

/// Sees to it that the cell at a place is a span of its own, and answers which; no cell changes.
fn alone(spans: &mut Vec<Span>, at: usize) -> usize
    requires filled { AreFilled (pieces spans.old.items) }
    requires within { at < length (cells_in spans.old.items) }
    requires room { vec_len spans.old + 2 ≤ vec_capacity spans.old }
    ensures cells { cells_in spans.new.items ≡ cells_in spans.old.items }
    ensures filled { AreFilled (pieces spans.new.items) }
    ensures spot { IsSpot (pieces spans.new.items) result 0 at }
    ensures one { length (slice_index_or (pieces spans.new.items) result []) ≡ 1 }
{
    let i = border(spans, at);
    if spans[i].count() > 1 {
        cut(spans, i, 1);
    }
    i
}

/// Marks the cell at a place, and answers its flag. A deleter that is added may take the list of `spare`.
pub(crate) fn mark(spans: &mut Vec<Span>, at: usize, mark: Mark, spare: &mut Spare) -> u8
    requires filled { AreFilled (pieces spans.old.items) }
    requires within { at < length (cells_in spans.old.items) }
    requires room { vec_len spans.old + 2 ≤ vec_capacity spans.old }
    requires spare { HasRoomOn mark (slice_index_or (cells_in spans.old.items) at blank) spare.old }
    ensures cells { cells_in spans.new.items ≡ change_at at (marked mark) (cells_in spans.old.items) }
    ensures filled { AreFilled (pieces spans.new.items) }
    ensures flag { result ≡ flag_of (marked mark (slice_index_or (cells_in spans.old.items) at blank)) }
{
    let i = alone(spans, at);
    let span = &mut spans[i];
    span.cover(mark, spare);
    span.flag()
}

/// What there is of an insert that has several cells. The search ends at the last one.
pub(crate) fn found(spans: &[Span], name: &Name) -> Found
    ensures { IsFound result name.now (cells_in spans.now) }
{
    let mut any = false;
    for i in 0..spans.len() {
        match spans[i].found(name) {
            Found::Nothing => {}
            Found::Cells => any = true,
            Found::Last => return Found::Last,
        }
    }
    if any { Found::Cells } else { Found::Nothing }
}

/// Raises all cells of an insert, if it has several, and sets their flags in a column of the flags of all cells.
pub(crate) fn raise(spans: &mut Vec<Span>, flags: &mut [u8], name: &Name, generation: u16)
    requires { flags.old ≡ map flag_of (cells_in spans.old.items) }
    ensures pieces { pieces spans.new.items ≡ map (map (raised_run generation name.now)) (pieces spans.old.items) }
    ensures flags { flags.new ≡ map flag_of (cells_in spans.new.items) }
{
    let mut at = 0;
    for i in 0..spans.len() {
        let span = &mut spans[i];
        let behind = at + span.count();
        span.raise(name, generation, &mut flags[at..behind]);
        at = behind;
    }
}
