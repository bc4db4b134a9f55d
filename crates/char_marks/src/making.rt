//! Marks that a site makes itself.

ghost use Rattle.std.specs.Prelude.{◌≡◌, ℕ, max, ◌+◌, ◌<◌, ◌≤◌, Some, IfErr, IfOk, OnErr, length, slice_get};
ghost use Rattle.context_diff.specs.Replays.{shown};
ghost use Rattle.visible_view.specs.View.{shown_cells, shown_places};
ghost use Rattle.char_marks.specs.Marks.{IsFormed, IsInRange};
ghost use Rattle.char_marks.specs.Covered.{AreFit};
ghost use Rattle.char_marks.specs.Making.{greatest_rank, greatest_number, number_at, IsMade, IsMakeRefusal};
ghost use Rattle.char_marks.specs.Offers.{IsTaking};
ghost use Rattle.char_marks.specs.Verdicts.{IsMarkVerdict};
ghost use Rattle.char_marks.specs.Code.Spans.{IsSpan};
ghost use Rattle.char_marks.specs.declared.taking.MarkVerdict.TheVariants.{Kept as IsKept};

use crate::kept::Kept;
use crate::mark::Mark;
use crate::marks::{MarkBad, Marks};
use crate::value::Value;
use context_diff::UNDO_ENTRIES;
use cot_site::Site;
use op_name::{NUMBERS, Name};
use tombstone_text::Cells;
use visible_view::cell_of_visible;

/// The greatest rank of a mark.
pub const RANKS: u32 = 4_294_967_295;

// Cells side by side: the place of the first one, and how many they are.
#[derive(Clone, Copy, Debug)]
struct Span {
    place: u32,
    len: u32,
}

impl Marks {
    /// Makes a mark from the `v`-th shown cell, from 0, to the one `count - 1` further on, with the hidden cells between them, keeps it,
    /// and answers a copy. Its context is all that the site has; its rank and its number are one more than the greatest that are kept,
    /// the number among those of the site. Refused by SpanOut, RankFull, NumberFull, ContextFull or Memory; then nothing is changed.
    pub fn make(&mut self, site: &Site, v: u32, count: u32, value: Value) -> Result<Mark, MarkBad>
        requires some { 1 ≤ count }
        requires range { IsInRange value }
        ensures made { IfOk result (IsMade site.now.number site.now.history self.old.kept v count value) }
        ensures taken { IfOk result (λ m. IsTaking m self.old self.new) }
        ensures fit { AreFit site.now.history self.old.kept → AreFit site.now.history self.new.kept }
        ensures refused { IfErr result (IsMakeRefusal site.now.number site.now.history self.old.kept v count) }
        ensures err { OnErr result (self.new ≡ self.old) }
    {
        site.known();
        match self.planned(site, v, count, value) {
            Ok(mark) => self.keep_own(site, mark),
            Err(bad) => Err(bad),
        }
    }

    // The mark that is to be made.
    fn planned(&self, site: &Site, v: u32, count: u32, value: Value) -> Result<Mark, MarkBad>
        requires some { 1 ≤ count }
        requires range { IsInRange value }
        ensures made { IfOk result (IsMade site.now.number site.now.history self.now.kept v count value) }
        ensures refused { IfErr result (IsMakeRefusal site.now.number site.now.history self.now.kept v count) }
    {
        match span_of(site, v, count) {
            Ok(span) => planned_over(self.kept.as_slice(), site, span, value),
            Err(bad) => Err(bad),
        }
    }

    // Keeps a mark of the site's own.
    fn keep_own(&mut self, site: &Site, mark: Mark) -> Result<Mark, MarkBad>
        requires formed { IsFormed mark }
        requires kept { IsMarkVerdict site.now.history self.old.kept mark IsKept }
        ensures mark { IfOk result (λ m. m ≡ mark) }
        ensures taken { IfOk result (λ m. IsTaking m self.old self.new) }
        ensures fit { AreFit site.now.history self.old.kept → AreFit site.now.history self.new.kept }
        ensures memory { IfErr result (λ e. e ≡ MarkBad.Memory) }
        ensures err { OnErr result (self.new ≡ self.old) }
    {
        match self.keep(site, &mark) {
            Ok(()) => Ok(mark),
            Err(_) => Err(MarkBad::Memory),
        }
    }
}

// The cells from the v-th shown one to the one count - 1 further on.
fn span_of(site: &Site, v: u32, count: u32) -> Result<Span, MarkBad>
    requires { 1 ≤ count }
    ensures there { IfOk result (IsSpan site.now.history v count) }
    ensures out { IfErr result (λ e. (e ≡ MarkBad.SpanOut (length (shown site.now.history)))
        × (length (shown site.now.history) < v + count)) }
{
    let visible = site.visible_len();
    if u64::from(v) + u64::from(count) > u64::from(visible) {
        return Err(MarkBad::SpanOut { visible });
    }
    let cells = site.cells();
    cells.known();
    let first = shown_place(cells, v);
    let last = shown_place(cells, v + (count - 1));
    Ok(Span {
        place: first,
        len: last - first + 1,
    })
}

// The place of the v-th shown cell, of which there are more.
fn shown_place(cells: &Cells, v: u32) -> u32
    requires { v < length (shown_cells cells.now.cells) }
    ensures place { slice_get (shown_places cells.now.cells) v ≡ Some result }
    ensures within { result < length cells.now.cells }
{
    match cell_of_visible(cells, v) {
        Some(place) => place,
        None => unreachable!(),
    }
}

// The mark over a span that is to be made.
fn planned_over(kept: &[Kept], site: &Site, span: Span, value: Value) -> Result<Mark, MarkBad>
    requires range { IsInRange value }
    ensures made { (v count : ℕ) → IsSpan site.now.history v count span
        → IfOk result (IsMade site.now.number site.now.history kept.now v count value) }
    ensures refused { (v count : ℕ) → IsSpan site.now.history v count span
        → IfErr result (IsMakeRefusal site.now.number site.now.history kept.now v count) }
{
    site.known();
    let rank = greatest_rank(kept);
    if rank >= RANKS {
        return Err(MarkBad::RankFull);
    }
    let number = greatest_number(kept, site.number());
    if number >= NUMBERS {
        return Err(MarkBad::NumberFull);
    }
    let entries = site.vector().entries();
    if entries > UNDO_ENTRIES {
        return Err(MarkBad::ContextFull { entries });
    }
    match site.vector().kept() {
        Ok(context) => Ok(Mark {
            name: Name {
                site: site.number(),
                number: number + 1,
            },
            rank: rank + 1,
            place: span.place,
            len: span.len,
            value,
            context,
        }),
        Err(_) => Err(MarkBad::Memory),
    }
}

// The greatest rank that is kept.
fn greatest_rank(kept: &[Kept]) -> u32
    ensures { result ≡ greatest_rank kept.now }
{
    let mut best = 0;
    for one in kept {
        best = greater(best, rank_of(one));
    }
    best
}

// The greatest number of a site's marks that are kept.
fn greatest_number(kept: &[Kept], site: u16) -> u32
    ensures { result ≡ greatest_number site kept.now }
{
    let mut best = 0;
    for one in kept {
        best = greater(best, number_of(one, site));
    }
    best
}

// The greater one.
fn greater(a: u32, b: u32) -> u32
    ensures { result ≡ max a b }
{
    if a < b { b } else { a }
}

// The rank of a kept mark.
fn rank_of(kept: &Kept) -> u32
    ensures { result ≡ kept.now.mark.rank }
{
    kept.mark().rank
}

// The number of a kept mark of the site, 0 for another's.
fn number_of(kept: &Kept, site: u16) -> u32
    ensures { result ≡ number_at site kept.now.mark.name }
{
    number_at(&kept.mark().name, site)
}

// The number that the site gave, 0 for a name of another site.
fn number_at(name: &Name, site: u16) -> u32
    ensures { result ≡ number_at site name.now }
{
    if name.site == site { name.number } else { 0 }
}
