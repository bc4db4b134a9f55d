//! The rows that a site keeps.

ghost use Rattle.std.specs.Prelude.{◌≡◌, ◌+◌, ◌≤◌, ◌<◌, ◌++◌, ◌∷◌, ◌⊎◌, [], List, None, Contains, IfOk, OnOk, OnErr, IfSome, IsNone, IsTrue, length};
ghost use Rattle.indexmap.specs.IndexMap.{values};
ghost use Rattle.op_name.specs.declared.member.Member.{Member};
ghost use Rattle.op_name.specs.declared.member.Member.TheVariants.{Original};
ghost use Rattle.context_vector.specs.Contexts.{has, Within};
ghost use Rattle.context_diff.specs.Histories.{members_in};
ghost use Rattle.transform_rec.specs.Sets.{none, plus_all};
ghost use Rattle.transform_rec.specs.Family.{IsCausalFamily};
ghost use Rattle.transform_rec.specs.Derived.{IsOnlyFormAt};
ghost use Rattle.transform_rec.specs.Laws.{family_of};
ghost use Rattle.form_rows.specs.Names.{AreNamed};
ghost use Rattle.form_rows.specs.Lacking.{all_but_last, lacking};
ghost use Rattle.form_rows.specs.Firsts.{AreFirstMembers, IsLastContext};
ghost use Rattle.form_rows.specs.Kept.{AreRows, IsLast, IsFormWith, IsFirstRow, IsOwnRow, IsBeginning, empty_rows, forms_in, CoversAreInert, InsertsAreKept};
ghost use Rattle.form_rows.specs.declared.rows.TheConstants.{ENTRIES};

use crate::first_members::{FirstMembers, lacked_cells};
use crate::laws::derives;
use crate::named::Named;
use crate::row::{Row, are_at_most};
use context_diff::Book;
use context_vector::Vector;
use indexmap::IndexMap;
use op_name::{Member, Memory, Name};
use std::alloc::Global;
use std::marker::Model;
use ttf_form::Bases;

/// The greatest number of forms in all rows that are kept.
pub const ENTRIES: usize = 1_048_576;

// The number of forms in all rows from which on only rows are kept that cost much to make, and the last of the others.
const CHEAP_ENTRIES: usize = 8_192;

/// The row of what an author knew when it made its last insert or delete, with that.
#[derive(Drop)]
pub struct AuthorRow<F: Named> {
    last: Name,
    row: Row<F>,
}

/// Rows, at most one for each author, which have at most `ENTRIES` forms together, and the first members that were found last.
#[derive(Drop)]
pub struct Rows<F: Named> {
    kept: IndexMap<u16, AuthorRow<F>>,
    forms: usize,
    firsts: Option<FirstMembers>,
    // The author of the row that is kept though it is cheap to make and there are `CHEAP_ENTRIES` without it.
    spare: Option<u16>,
}

impl<F: Named> Model for Rows<F> {
    ghost use Rattle.std.specs.Prelude.{◌≡◌, ◌≤◌};
    ghost use Rattle.indexmap.specs.IndexMap.{values};
    ghost use Rattle.form_rows.specs.Kept.{RowsData, forms_in};

    ghost Value = { RowsData F };

    ghost view = { λ r. record { rows = values r.kept; firsts = r.firsts } };

    ghost use Rattle.form_rows.specs.declared.rows.TheConstants.{ENTRIES};

    ghost invariant = { λ r. (r.forms ≡ forms_in (values r.kept)) × (r.forms ≤ ENTRIES) };
}

impl<F: Named + Copy> Rows<F> {
    /// No rows. It takes no memory.
    pub fn new(alloc: Global) -> Rows<F>
        ensures { result ≡ empty_rows }
    {
        Rows {
            kept: IndexMap::new(alloc),
            forms: 0,
            firsts: None,
            spare: None,
        }
    }

    /// Drops all rows, and forgets the first members.
    pub fn clear(&mut self)
        ensures { self.new ≡ empty_rows }
    {
        self.kept.clear();
        self.forms = 0;
        self.firsts = None;
        self.spare = None;
    }

    // Takes the row of an author out.
    fn take(&mut self, site: u16) -> Option<AuthorRow<F>>
        ensures found { IfSome result (Contains self.old.rows) }
        ensures left { (k : AuthorRow F) → Contains self.new.rows k → Contains self.old.rows k }
        ensures firsts { self.new.firsts ≡ self.old.firsts }
    {
        match taken(&mut self.kept, site) {
            Some(own) => {
                self.forms -= own.row.len();
                self.spare = other_than(self.spare, site);
                Some(own)
            }
            None => None,
        }
    }

    // Whether a row is cheap to make anew, and too long to be kept beside the others but as the spare one.
    fn is_past(&self, row: &AuthorRow<F>) -> bool {
        !row.row.is_dear() && row.row.len() > CHEAP_ENTRIES.saturating_sub(self.forms)
    }

    // The author of the spare row, if there is one.
    fn spare_author(&self) -> Option<u16> {
        self.spare
    }

    // Drops the spare row.
    fn drop_spare(&mut self)
        ensures left { (k : AuthorRow F) → Contains self.new.rows k → Contains self.old.rows k }
        ensures firsts { self.new.firsts ≡ self.old.firsts }
    {
        match self.spare_author() {
            Some(site) => {
                let _ = self.take(site);
            }
            None => {}
        }
    }

    // Notes whose row is the spare one.
    fn note_spare(&mut self, site: u16)
        ensures { self.new ≡ self.old }
    {
        self.spare = Some(site);
    }

    // Drops the spare row if this one comes in its place.
    fn make_way(&mut self, row: &AuthorRow<F>)
        ensures left { (k : AuthorRow F) → Contains self.new.rows k → Contains self.old.rows k }
        ensures firsts { self.new.firsts ≡ self.old.firsts }
    {
        if self.is_past(row) {
            self.drop_spare();
            self.note_spare(row.last.site);
        }
    }

    // Keeps a row, if memory suffices. Of those that are made anew with few moves only the last is kept past `CHEAP_ENTRIES`, for an
    // author that goes on before others do: among many authors that make few operations each before they know those of the others,
    // rows would take the square of their number.
    fn put(&mut self, row: AuthorRow<F>)
        ensures rows { (k : AuthorRow F) → Contains self.new.rows k → Contains self.old.rows k ⊎ (row ≡ k) }
        ensures bound { forms_in self.new.rows ≤ ENTRIES }
        ensures firsts { self.new.firsts ≡ self.old.firsts }
    {
        self.make_way(&row);
        self.keep(row);
    }

    // Keeps a row, if memory suffices. Where the rows have too many forms then, all are dropped.
    fn keep(&mut self, row: AuthorRow<F>)
        ensures rows { (k : AuthorRow F) → Contains self.new.rows k → Contains self.old.rows k ⊎ (row ≡ k) }
        ensures bound { forms_in self.new.rows ≤ ENTRIES }
        ensures firsts { self.new.firsts ≡ self.old.firsts }
    {
        if may_come(row.row.len(), self.forms) {
            self.forms = forms_with(&mut self.kept, row, self.forms);
        } else {
            self.kept.clear();
            self.forms = 0;
        }
    }

    // The row to begin with: the author's own, where no form would have to be moved out of it; else that of the first members
    // that were found last, where that is so of it; else the one of these two kinds whose forms of that sort have fewer cells.
    fn source(
        &mut self,
        book: &Book,
        name: &Name,
        context: &Vector,
        executed: &[F],
        lacked: u32,
    ) -> Row<F>
        requires lacked { lacked ≡ lacking (all_but_last book.now.ops) context.now.set }
        requires last { IsLastContext book.now.ops context.now.set }
        requires firsts { IfSome self.old.firsts (AreFirstMembers book.now.ops) }
        ensures row { IsBeginning self.old.rows book.now.ops context.now.set (length executed.now) result }
        ensures left { (k : AuthorRow F) → Contains self.new.rows k → Contains self.old.rows k }
        ensures firsts { IfSome self.new.firsts (AreFirstMembers book.now.ops) }
    {
        match fitting(self.take(name.site), context) {
            Some(own) => self.nearer_row(own, book, context, executed, lacked),
            None => self.other_row(book, context, executed, lacked),
        }
    }

    // The author's row, or that of first members where the forms to be moved out of it have fewer cells.
    fn nearer_row(
        &mut self,
        own: Row<F>,
        book: &Book,
        context: &Vector,
        executed: &[F],
        lacked: u32,
    ) -> Row<F>
        requires lacked { lacked ≡ lacking (all_but_last book.now.ops) context.now.set }
        requires last { IsLastContext book.now.ops context.now.set }
        requires firsts { IfSome self.old.firsts (AreFirstMembers book.now.ops) }
        ensures row { (result ≡ own) ⊎ IsFirstRow book.now.ops context.now.set (length executed.now) result }
        ensures rows { self.new.rows ≡ self.old.rows }
        ensures firsts { IfSome self.new.firsts (AreFirstMembers book.now.ops) }
    {
        if own.has_at_most(executed, lacked) {
            return own;
        }
        match self.known_row(book, context, executed, lacked) {
            Some(row) => row,
            None => {
                let moved = own.cells_with(executed).saturating_sub(lacked) as usize;
                match self.first_row(book, context, lacked, moved, executed.len()) {
                    Some(row) => row,
                    None => own,
                }
            }
        }
    }

    // The row of the first members that were found last, where no form would have to be moved out of it, or of those whose
    // inserts the context has.
    fn other_row(&mut self, book: &Book, context: &Vector, executed: &[F], lacked: u32) -> Row<F>
        requires lacked { lacked ≡ lacking (all_but_last book.now.ops) context.now.set }
        requires last { IsLastContext book.now.ops context.now.set }
        requires firsts { IfSome self.old.firsts (AreFirstMembers book.now.ops) }
        ensures row { IsFirstRow book.now.ops context.now.set (length executed.now) result }
        ensures rows { self.new.rows ≡ self.old.rows }
        ensures firsts { IfSome self.new.firsts (AreFirstMembers book.now.ops) }
    {
        match self.known_row(book, context, executed, lacked) {
            Some(row) => row,
            None => match self.first_row(book, context, lacked, usize::MAX, executed.len()) {
                Some(row) => row,
                None => self.row_of_first(0, executed.len()),
            },
        }
    }

    // The row of the first members that were found last, if the context has their inserts, and no form since is of an insert
    // that it has: they add no more than the `lacked` cells of those that it lacks.
    fn known_row(
        &self,
        book: &Book,
        context: &Vector,
        executed: &[F],
        lacked: u32,
    ) -> Option<Row<F>>
        requires { IfSome self.now.firsts (AreFirstMembers book.now.ops) }
        ensures { IfSome result (IsFirstRow book.now.ops context.now.set (length executed.now)) }
    {
        let firsts = self.firsts?;
        let upto = firsts.upto();
        if are_at_most(executed, upto, lacked) && firsts.has_inserts(book, context) {
            Some(self.row_of_first(upto, executed.len()))
        } else {
            None
        }
    }

    // The row of the first members whose inserts the context has, if no more than `most` cells come after these of other operations
    // than inserts that it lacks, one that puts none counted as one. The first members are remembered.
    fn first_row(
        &mut self,
        book: &Book,
        context: &Vector,
        lacked: u32,
        most: usize,
        executed: usize,
    ) -> Option<Row<F>>
        requires lacked { lacked ≡ lacking (all_but_last book.now.ops) context.now.set }
        requires last { IsLastContext book.now.ops context.now.set }
        requires firsts { IfSome self.old.firsts (AreFirstMembers book.now.ops) }
        ensures row { IfSome result (IsFirstRow book.now.ops context.now.set executed) }
        ensures rows { self.new.rows ≡ self.old.rows }
        ensures firsts { IfSome self.new.firsts (AreFirstMembers book.now.ops) }
    {
        let firsts = FirstMembers::of_last(book, context, lacked, most)?;
        self.firsts = Some(firsts);
        Some(self.row_of_first(firsts.upto(), executed))
    }

    // The row of so many first members, or of all that were executed.
    fn row_of_first(&self, upto: usize, executed: usize) -> Row<F>
        ensures forms { result.forms ≡ [] }
        ensures low { result.upto ≤ upto }
        ensures bound { result.upto ≤ executed }
    {
        Row::of_first(*self.kept.allocator(), upto.min(executed))
    }
}

// Takes the row of an author out.
fn taken<F: Named + Copy>(kept: &mut IndexMap<u16, AuthorRow<F>>, site: u16) -> Option<AuthorRow<F>>
    ensures found { IfSome result (Contains (values kept.old)) }
    ensures left { (k : AuthorRow F) → Contains (values kept.new) k → Contains (values kept.old) k }
    ensures forms { IfSome result (λ k. forms_in (values kept.new) + length k.row.forms ≡ forms_in (values kept.old)) }
    ensures none { IsNone result → kept.new.entries ≡ kept.old.entries }
{
    match kept.get_index_of(&site) {
        Some(i) => match kept.swap_remove_index(i) {
            Some((_, own)) => Some(own),
            None => None,
        },
        None => None,
    }
}

// The site, unless it is this one.
fn other_than(it: Option<u16>, site: u16) -> Option<u16> {
    match it {
        Some(other) => { if other == site { None } else { it } }
        None => None,
    }
}

// Whether so many forms more may come to those of all rows.
fn may_come(more: usize, forms: usize) -> bool
    requires { forms ≤ ENTRIES }
    ensures { IsTrue result → forms + more ≤ ENTRIES }
{
    more <= ENTRIES - forms
}

// Keeps a row as that of its author, if memory suffices. Answers the number of forms in all rows then.
fn forms_with<F: Named + Copy>(
    kept: &mut IndexMap<u16, AuthorRow<F>>,
    row: AuthorRow<F>,
    forms: usize,
) -> usize
    requires forms { forms ≡ forms_in (values kept.old) }
    requires few { forms + length row.row.forms ≤ ENTRIES }
    ensures rows { (k : AuthorRow F) → Contains (values kept.new) k → Contains (values kept.old) k ⊎ (row ≡ k) }
    ensures forms { result ≡ forms_in (values kept.new) }
    ensures bound { result ≤ ENTRIES }
{
    let with = forms + row.row.len();
    match kept.insert(row.last.site, row) {
        Ok(Some(old)) => with - old.row.len(),
        Ok(None) => with,
        Err(_) => forms,
    }
}

// The author's row, if the context has its last operation.
fn fitting<F: Named + Copy>(own: Option<AuthorRow<F>>, context: &Vector) -> Option<Row<F>>
    ensures { IfSome result (IsOwnRow context.now.set own) }
{
    match own {
        Some(own) => {
            if context.contains(&Member::Original(own.last)) {
                Some(own.row)
            } else {
                None
            }
        }
        None => None,
    }
}

/// The form of the book's last member, the insert or delete of this name, at the members before it, which were executed
/// in these forms; and the first form of the row of its context with it, if that has one. The form is found by one pass
/// over the row of its context, which is made from the row of its author or from that of the first members of the book.
/// After out of memory the rows may have lost some.
pub fn executed_form<F: Named + Copy, B: Bases<F>>(
    book: &Book,
    bases: &B,
    executed: &[F],
    rows: &mut Rows<F>,
    name: &Name,
    context: &Vector,
) -> Result<(F, Option<F>), Memory>
    requires causal { IsCausalFamily (family_of ⟦<B as Bases<F>>⟧ bases.now) }
    requires names { AreNamed F.named F.IsInert (family_of ⟦<B as Bases<F>>⟧ bases.now) }
    requires members { B.members bases.now ≡ members_in book.now.ops }
    requires covers { CoversAreInert F.IsInert (B.base_form bases.now) book.now.ops }
    requires inserts { InsertsAreKept F.IsInert F.extent (B.base_form bases.now) book.now.ops }
    requires within { Within context.now.set book.now.have.set }
    requires context { (y : Member) → has context.now.set y ≡ B.base_context bases.now (Original name.now) y }
    requires last { IsLastContext book.now.ops context.now.set }
    requires firsts { IfSome rows.old.firsts (AreFirstMembers book.now.ops) }
    requires short { length executed.now < 4294967296 }
    requires ready { (before : List Member)
        × IsLast F.over F.IsInert (family_of ⟦<B as Bases<F>>⟧ bases.now) (Original name.now) before executed.now rows.old.rows }
    ensures form { IfOk result (λ made. (before : List Member)
        → IsLast F.over F.IsInert (family_of ⟦<B as Bases<F>>⟧ bases.now) (Original name.now) before executed.now rows.old.rows
        → IsOnlyFormAt F.over (family_of ⟦<B as Bases<F>>⟧ bases.now) (Original name.now) (plus_all none before) made.0) }
    ensures first { IfOk result (λ made. (before : List Member)
        → IsLast F.over F.IsInert (family_of ⟦<B as Bases<F>>⟧ bases.now) (Original name.now) before executed.now rows.old.rows
        → IfSome made.1 (IsFormWith F.over F.named (family_of ⟦<B as Bases<F>>⟧ bases.now) (Original name.now))) }
    ensures rows { OnOk result ((before : List Member)
        → IsLast F.over F.IsInert (family_of ⟦<B as Bases<F>>⟧ bases.now) (Original name.now) before executed.now rows.old.rows
        → AreRows F.over F.IsInert (family_of ⟦<B as Bases<F>>⟧ bases.now) (before ++ Original name.now ∷ []) rows.new.rows) }
    ensures bound { OnOk result (forms_in rows.new.rows ≤ ENTRIES) }
    ensures firsts { IfSome rows.new.firsts (AreFirstMembers book.now.ops) }
    ensures lost { OnErr result ((k : AuthorRow F) → Contains rows.new.rows k → Contains rows.old.rows k) }
{
    book.known();
    derives::<F, B>(bases);
    let lacked = lacked_cells(book, context);
    let mut row = rows.source(book, name, context, executed, lacked);
    let apart = Some(lacked);
    let form = row.execute_apart(bases, &Member::Original(*name), context, executed, apart)?;
    let first = row.first();
    rows.put(AuthorRow { last: *name, row });
    Ok((form, first))
}
