//! First members of a book whose inserts a context has, and how many cells it lacks.

ghost use Rattle.std.specs.Prelude.{◌≡◌, ◌-◌, ◌≤◌, ◌&&◌, not, Some, IfSome, IsTrue, length, slice_get};
ghost use Rattle.context_vector.specs.Contexts.{count_of, has, Within};
ghost use Rattle.context_diff.specs.Operations.{OpData, member_of, cells_put, is_insert};
ghost use Rattle.context_diff.specs.Histories.{cells_in};
ghost use Rattle.form_rows.specs.Lacking.{all_but_last, lacking};
ghost use Rattle.form_rows.specs.Firsts.{AreFirstMembers, HasFirst, IsLastContext};

use crate::had::has_original;
use context_diff::{Book, Op};
use context_vector::Vector;

/// How many of the first members of a book have all their inserts in the context of one of its operations, and the place of that
/// operation. A context that has the members of that one has these inserts too, however far the book has grown since.
#[derive(Clone, Copy, Drop)]
pub struct FirstMembers {
    place: u32,
    upto: u32,
}

impl FirstMembers {
    /// Those of the last operation, which has this context and lacks so many of the cells before it, if no more than `most`
    /// cells of others come after them. An operation that puts none counts as one.
    pub(crate) fn of_last(
        book: &Book,
        context: &Vector,
        lacked: u32,
        most: usize,
    ) -> Option<FirstMembers>
        requires lacked { lacked ≡ lacking (all_but_last book.now.ops) context.now.set }
        requires last { IsLastContext book.now.ops context.now.set }
        ensures are { IfSome result (AreFirstMembers book.now.ops) }
        ensures has { IfSome result (λ f. HasFirst book.now.ops context.now.set f.upto) }
    {
        match common(book, context, lacked, most) {
            Some(upto) => Some(FirstMembers {
                place: last_place(book),
                upto,
            }),
            None => None,
        }
    }

    /// How many they are.
    pub(crate) fn upto(&self) -> usize
        ensures { result ≡ self.now.upto }
    {
        self.upto as usize
    }

    /// Whether the context has the members of that by which they were found, and so all inserts among them.
    pub(crate) fn has_inserts(&self, book: &Book, context: &Vector) -> bool
        requires { AreFirstMembers book.now.ops self.now }
        ensures { IsTrue result → HasFirst book.now.ops context.now.set self.now.upto }
    {
        match book.op(self.place) {
            Some(op) => context.covers(op.context()),
            None => false,
        }
    }
}

// The place of the last operation of a book that has one.
fn last_place(book: &Book) -> u32
    ensures { result ≡ length book.now.ops - 1 }
{
    book.len().saturating_sub(1)
}

/// How many of the cells before it the last operation of the book, which has this context, lacks.
pub(crate) fn lacked_cells(book: &Book, context: &Vector) -> u32
    requires within { Within context.now.set book.now.have.set }
    requires last { IsLastContext book.now.ops context.now.set }
    ensures { result ≡ lacking (all_but_last book.now.ops) context.now.set }
{
    book.known();
    let had = cells_of_last(book, context);
    let last = cells_at(book, last_place(book));
    book.cells().saturating_sub(had).saturating_sub(last)
}

// How many cells the context of the book's last operation has.
fn cells_of_last(book: &Book, context: &Vector) -> u32
    requires within { Within context.now.set book.now.have.set }
    requires last { IsLastContext book.now.ops context.now.set }
    ensures { result ≡ cells_in book.now.ops context.now.set }
{
    match book.last_cells() {
        Some(cells) => cells,
        None => book.cells_in(context),
    }
}

// How many cells the i-th operation puts.
fn cells_at(book: &Book, i: u32) -> u32
    ensures { (o : OpData) → slice_get book.now.ops i ≡ Some o → result ≡ cells_put o }
{
    match book.op(i) {
        Some(op) => op.cells(),
        None => 0,
    }
}

// How many of the first operations of the book have all their inserts in the context, if no more than `most` cells of others than
// the inserts that it lacks come between them and the last one. An operation that puts none counts as one.
fn common(book: &Book, context: &Vector, lacked: u32, most: usize) -> Option<u32>
    requires { lacked ≡ lacking (all_but_last book.now.ops) context.now.set }
    ensures has { IfSome result (HasFirst book.now.ops context.now.set) }
    ensures within { IfSome result (λ k. k ≤ length book.now.ops) }
{
    book.known();
    let mut lacked = lacked;
    let mut left = most;
    let mut i = last_place(book);
    let mut site = 0;
    let mut count = context.count(site);
    while lacked > 0 && i > 0 {
        i -= 1;
        let cells = cells_at(book, i);
        if lacks_insert(book, i, context, &mut site, &mut count) {
            lacked -= cells;
        } else {
            left = left.checked_sub(cells.max(1) as usize)?;
        }
    }
    Some(i)
}

// Whether the i-th operation is an insert that the context lacks, of which the count of one site is at hand.
fn lacks_insert(book: &Book, i: u32, context: &Vector, site: &mut u16, count: &mut u32) -> bool
    requires { count.old ≡ count_of context.now.set site.old }
    ensures lacks { (o : OpData) → slice_get book.now.ops i ≡ Some o → result ≡ (is_insert o && not (has context.now.set (member_of o))) }
    ensures count { count.new ≡ count_of context.now.set site.new }
{
    match book.op(i) {
        Some(Op::Insert { name, .. }) => !has_original(context, name, site, count),
        Some(_) => false,
        None => false,
    }
}
