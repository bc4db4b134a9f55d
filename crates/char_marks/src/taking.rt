//! Marks that others made.

ghost use Rattle.std.specs.Prelude.{◌≡◌, ◌+◌, ◌<◌, ◌≤◌, List, Some, None, IfOk, OnErr, OnOk, length};
ghost use Rattle.context_diff.specs.Operations.{OpData};
ghost use Rattle.context_diff.specs.Histories.{LacksNothing, IsClosed, cells_in};
ghost use Rattle.char_marks.specs.Marks.{MarkData, KeptData, AreRising, IsFormed, mark_named, put_kept};
ghost use Rattle.char_marks.specs.Covered.{AreFit, IsFit};
ghost use Rattle.char_marks.specs.Offers.{IsTaking};
ghost use Rattle.char_marks.specs.Verdicts.{AfterVerdict, IsMarkVerdict, IsNew};
ghost use Rattle.char_marks.specs.declared.taking.MarkVerdict.TheVariants.{Kept as IsKept};

use crate::kept::{Kept, place_by_name};
use crate::mark::Mark;
use crate::marks::Marks;
use crate::seeking::ends_of;
use context_diff::{Book, closed};
use context_vector::Vector;
use cot_site::Site;
use op_name::{Member, Memory, Name};

/// What becomes of a mark that others made: the first case that holds.
#[derive(Clone, Copy, Debug, PartialEq, Eq, Drop)]
pub enum MarkVerdict {
    /// An equal mark is kept.
    Repeat,
    /// Another mark of this name is kept.
    Forged { name: Name },
    /// The site lacks members of the context; this is the first of them, in the order of members.
    Waits { missing: Member },
    /// The context isn't closed: of this site, the least such one, it has a last original that was made after something that it hasn't.
    NotClosed { site: u16 },
    /// The context has `cells` cells, and the mark goes past the last one.
    SpanOut { cells: u32 },
    /// It is kept from now on.
    Kept,
}

// The greatest number of marks that are kept.
const KEPT: usize = 4_294_967_295;

impl Marks {
    /// What `take` would answer. It takes no memory and changes nothing.
    pub fn check(&self, site: &Site, mark: &Mark) -> MarkVerdict
        ensures { IsMarkVerdict site.now.history self.now.kept mark.now result }
    {
        match self.mark(&mark.name) {
            Some(kept) => known_verdict(kept, mark),
            None => new_verdict(site, mark),
        }
    }

    /// Keeps a well-formed mark of another, or answers why not. Only Kept changes anything. Out of memory, nothing changes.
    pub fn take(&mut self, site: &Site, mark: &Mark) -> Result<MarkVerdict, Memory>
        requires { IsFormed mark.now }
        ensures verdict { IfOk result (IsMarkVerdict site.now.history self.old.kept mark.now) }
        ensures after { IfOk result (λ v. AfterVerdict v mark.now self.old self.new) }
        ensures fit { AreFit site.now.history self.old.kept → AreFit site.now.history self.new.kept }
        ensures err { OnErr result (self.new ≡ self.old) }
    {
        match self.check(site, mark) {
            MarkVerdict::Kept => match self.keep(site, mark) {
                Ok(()) => Ok(MarkVerdict::Kept),
                Err(memory) => Err(memory),
            },
            verdict => Ok(verdict),
        }
    }

    /// Keeps the mark, which its verdict allows.
    pub(crate) fn keep(&mut self, site: &Site, mark: &Mark) -> Result<(), Memory>
        requires formed { IsFormed mark.now }
        requires kept { IsMarkVerdict site.now.history self.old.kept mark.now IsKept }
        ensures taken { OnOk result (IsTaking mark.now self.old self.new) }
        ensures fit { AreFit site.now.history self.old.kept → AreFit site.now.history self.new.kept }
        ensures err { OnErr result (self.new ≡ self.old) }
    {
        let name = mark.name;
        let copy = mark.try_clone()?;
        add(&mut self.kept, &name, with_ends(site, copy))
    }
}

// The verdict on a mark, where one of its name is kept.
fn known_verdict(kept: &Mark, mark: &Mark) -> MarkVerdict
    ensures { (h : List OpData) (ks : List KeptData) → mark_named ks mark.now.name ≡ Some kept.now → IsMarkVerdict h ks mark.now result }
{
    if kept.is_same(mark) {
        MarkVerdict::Repeat
    } else {
        MarkVerdict::Forged { name: mark.name }
    }
}

// The verdict on a mark, where none of its name is kept.
fn new_verdict(site: &Site, mark: &Mark) -> MarkVerdict
    ensures { (ks : List KeptData) → IsNew ks mark.now → IsMarkVerdict site.now.history ks mark.now result }
{
    context_verdict(site.book(), mark.context(), mark.end())
}

// The same of a mark with this context and this end.
fn context_verdict(book: &Book, context: &Vector, end: u64) -> MarkVerdict
    ensures { (m : MarkData) (ks : List KeptData) → m.context ≡ context.now.set → m.place + m.len ≡ end → IsNew ks m
        → IsMarkVerdict book.now.ops ks m result }
{
    book.known();
    if let Some(missing) = book.have().first_missing(context) {
        return MarkVerdict::Waits { missing };
    }
    if let Some(site) = closed(book, context) {
        return MarkVerdict::NotClosed { site };
    }
    let cells = book.cells_in(context);
    let room = u64::from(cells);
    if room < end {
        MarkVerdict::SpanOut { cells }
    } else {
        MarkVerdict::Kept
    }
}

/// The mark with its end cells, where the site has its context.
pub(crate) fn with_ends(site: &Site, mark: Mark) -> Kept
    requires formed { IsFormed mark }
    requires ready { LacksNothing site.now.history mark.context }
    requires closed { IsClosed site.now.history mark.context }
    requires within { mark.place + mark.len ≤ cells_in site.now.history mark.context }
    ensures mark { result.mark ≡ mark }
    ensures fit { IsFit site.now.history result }
{
    site.known();
    site.cells().known();
    let ends = ends_of(site, &mark.context, mark.place, mark.len);
    Kept {
        mark,
        first: ends.first,
        last: ends.last,
    }
}

/// Adds a mark of this name at its place. Out of memory, nothing changes.
pub(crate) fn add(kept: &mut Vec<Kept>, name: &Name, one: Kept) -> Result<(), Memory>
    requires rising { AreRising kept.old.items }
    requires name { name.now ≡ one.mark.name }
    requires new { IsNew kept.old.items one.mark }
    ensures ok { OnOk result (kept.new.items ≡ put_kept one kept.old.items) }
    ensures rising { AreRising kept.new.items }
    ensures few { length kept.old.items < 4294967296 → length kept.new.items < 4294967296 }
    ensures fit { (h : List OpData) → AreFit h kept.old.items → IsFit h one → AreFit h kept.new.items }
    ensures err { OnErr result (kept.new.items ≡ kept.old.items) }
{
    if kept.len() >= KEPT {
        return Err(Memory);
    }
    let place = place_by_name(kept.as_slice(), name);
    kept.insert(place, one)?;
    Ok(())
}
