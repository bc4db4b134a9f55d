//! The row of one set of members.

ghost use Rattle.std.specs.Prelude.{◌≡◌, ◌+◌, ◌<◌, ◌≤◌, ◌++◌, ◌∷◌, ◌⊎◌, [], ℕ, Bool, false, List, Some};
ghost use Rattle.std.specs.Prelude.{IsTrue, OnOk, OnErr, IfOk, IfSome, length, drop, slice_get};
ghost use Rattle.op_name.specs.declared.member.Member.{Member};
ghost use Rattle.context_vector.specs.Contexts.{has};
ghost use Rattle.ttf_form.specs.declared.include.TheConstants.{CELLS};
ghost use Rattle.ttf_form.specs.Families.{IsIn, total_by};
ghost use Rattle.transform_rec.specs.Sets.{none, plus, plus_all};
ghost use Rattle.transform_rec.specs.Family.{IsCausalFamily};
ghost use Rattle.transform_rec.specs.Derived.{Derived};
ghost use Rattle.transform_rec.specs.Laws.{family_of};
ghost use Rattle.form_rows.specs.Names.{had_by, AreNamed};
ghost use Rattle.form_rows.specs.RowSets.{form_after, row_after, front_of, taken_out};
ghost use Rattle.form_rows.specs.RowSets.{PassFits, TakingFits, IsAdded, IsKept, IsRowAt, IsSource};
ghost use Rattle.form_rows.specs.Code.Blocks.{AreCounted};

use crate::blocks::Blocks;
use crate::had::is_had;
use crate::laws::derives;
use crate::named::Named;
use crate::passes::{front, pass};
use crate::placed::Placed;
use context_vector::Vector;
use op_name::{Member, Memory};
use std::alloc::Global;
use std::marker::Model;
use ttf_form::{Bases, CELLS, Include};

// How many inert forms are looked at, in order to count the cells of those that aren't.
const LOOKS: usize = 256;

// How many moves make a row dear.
const DEAR: usize = 4;

/// Forms of the inserts that a set of members lacks, among those that were executed up to a place: each after the set
/// and the members before it.
#[derive(Drop)]
pub struct Row<F: Named> {
    forms: Blocks<F>,
    upto: usize,
    // How many forms were moved out of it, as far as it was kept: that many moves it costs to make it anew.
    moved: usize,
}

impl<F: Named> Model for Row<F> {
    ghost use Rattle.form_rows.specs.RowSets.{RowData};

    ghost Value = { RowData F };

    ghost view = { λ r. record { forms = r.forms; upto = r.upto } };
}

impl<F: Named + Copy> Row<F> {
    /// The row of the first `upto` members, which has looked at none after them.
    pub fn of_first(alloc: Global, upto: usize) -> Row<F>
        ensures { result ≡ record { forms = []; upto = upto } }
    {
        Row {
            forms: Blocks::new(alloc),
            upto,
            moved: 0,
        }
    }

    /// Looks at the forms in which the members since were executed. After out of memory the row is as it was.
    pub fn catch_up(&mut self, executed: &[F]) -> Result<(), Memory>
        requires { self.old.upto ≤ length executed.now }
        ensures forms { OnOk result (IsAdded F.IsInert (drop self.old.upto executed.now) self.old.forms self.new.forms) }
        ensures upto { OnOk result (self.new.upto ≡ length executed.now) }
        ensures err { OnErr result (self.new ≡ self.old) }
    {
        add_kept(&mut self.forms, executed, self.upto)?;
        self.upto = executed.len();
        Ok(())
    }

    /// The number of its forms.
    pub fn len(&self) -> usize
        ensures { result ≡ length self.now.forms }
    {
        self.forms.len()
    }

    /// Whether it costs much to make it anew: more forms were moved out of it than it is worth to move again.
    pub(crate) fn is_dear(&self) -> bool {
        self.moved >= DEAR
    }

    /// How many cells its forms add once it looks at the forms in which the members since were executed, or `CELLS` if that is
    /// too great.
    pub(crate) fn cells_with(&self, executed: &[F]) -> u32
        ensures { (ks : List F) → IsKept F.IsInert (drop self.now.upto executed.now) ks
            → AreCounted F.extent result (self.now.forms ++ ks) }
    {
        self.forms
            .cells()
            .saturating_add(kept_cells(executed, self.upto))
    }

    /// Whether its forms add no more than `most` cells once it looks at the forms in which the members since were executed.
    /// False also where too many of these are inert.
    pub(crate) fn has_at_most(&self, executed: &[F], most: u32) -> bool
        ensures { IsTrue result → (ks : List F) → IsKept F.IsInert (drop self.now.upto executed.now) ks
            → total_by F.extent self.now.forms + total_by F.extent ks ≤ most }
    {
        let cells = self.forms.cells();
        is_at_most(cells, most) && are_at_most(executed, self.upto, most - cells)
    }

    /// The first of its forms.
    pub fn first(&self) -> Option<F>
        ensures { result ≡ slice_get self.now.forms 0 }
    {
        self.forms.first()
    }

    /// The form of m at all executed members, out of the row of a set whose inserts its context has. The row becomes that
    /// of the context with m over the executed members with m. After out of memory it is as it was, or has looked at the
    /// forms in which the members since were executed.
    pub fn execute<B: Bases<F>>(
        &mut self,
        bases: &B,
        m: &Member,
        context: &Vector,
        executed: &[F],
    ) -> Result<F, Memory>
        requires causal { IsCausalFamily (family_of ⟦<B as Bases<F>>⟧ bases.now) }
        requires names { AreNamed F.named F.IsInert (family_of ⟦<B as Bases<F>>⟧ bases.now) }
        requires context { (y : Member) → has context.now.set y ≡ B.base_context bases.now m.now y }
        requires short { length executed.now < 4294967296 }
        requires ready { (C : Member → Bool) × ((xs : List Member)
            × IsSource F.over F.IsInert (family_of ⟦<B as Bases<F>>⟧ bases.now) m.now C xs executed.now self.old) }
        ensures form { IfOk result (λ f. (C : Member → Bool) (xs : List Member)
            → IsSource F.over F.IsInert (family_of ⟦<B as Bases<F>>⟧ bases.now) m.now C xs executed.now self.old
            → Derived F.over (family_of ⟦<B as Bases<F>>⟧ bases.now) m.now (plus_all none xs) f) }
        ensures row { OnOk result ((C : Member → Bool) (xs : List Member)
            → IsSource F.over F.IsInert (family_of ⟦<B as Bases<F>>⟧ bases.now) m.now C xs executed.now self.old
            → IsRowAt F.over F.IsInert (family_of ⟦<B as Bases<F>>⟧ bases.now) (plus (B.base_context bases.now m.now) m.now)
            (xs ++ m.now ∷ []) self.new) }
        ensures err { OnErr result ((self.new ≡ self.old)
            ⊎ (IsAdded F.IsInert (drop self.old.upto executed.now) self.old.forms self.new.forms
            × (self.new.upto ≡ length executed.now))) }
    {
        self.execute_apart(bases, m, context, executed, None)
    }

    /// The same, where it may be known that the context has none of its members if its forms add no more than `apart` cells, once it
    /// has looked at those in which the members since were executed: nothing is looked for then.
    pub(crate) fn execute_apart<B: Bases<F>>(
        &mut self,
        bases: &B,
        m: &Member,
        context: &Vector,
        executed: &[F],
        apart: Option<u32>,
    ) -> Result<F, Memory>
        requires causal { IsCausalFamily (family_of ⟦<B as Bases<F>>⟧ bases.now) }
        requires names { AreNamed F.named F.IsInert (family_of ⟦<B as Bases<F>>⟧ bases.now) }
        requires context { (y : Member) → has context.now.set y ≡ B.base_context bases.now m.now y }
        requires apart { IfSome apart (λ most. (fs : List F) → IsAdded F.IsInert (drop self.old.upto executed.now) self.old.forms fs
            → total_by F.extent fs ≤ most → (f : F) → IsIn f fs → had_by F.named context.now.set f ≡ false) }
        requires short { length executed.now < 4294967296 }
        requires ready { (C : Member → Bool) × ((xs : List Member)
            × IsSource F.over F.IsInert (family_of ⟦<B as Bases<F>>⟧ bases.now) m.now C xs executed.now self.old) }
        ensures form { IfOk result (λ f. (C : Member → Bool) (xs : List Member)
            → IsSource F.over F.IsInert (family_of ⟦<B as Bases<F>>⟧ bases.now) m.now C xs executed.now self.old
            → Derived F.over (family_of ⟦<B as Bases<F>>⟧ bases.now) m.now (plus_all none xs) f) }
        ensures row { OnOk result ((C : Member → Bool) (xs : List Member)
            → IsSource F.over F.IsInert (family_of ⟦<B as Bases<F>>⟧ bases.now) m.now C xs executed.now self.old
            → IsRowAt F.over F.IsInert (family_of ⟦<B as Bases<F>>⟧ bases.now) (plus (B.base_context bases.now m.now) m.now)
            (xs ++ m.now ∷ []) self.new) }
        ensures err { OnErr result ((self.new ≡ self.old)
            ⊎ (IsAdded F.IsInert (drop self.old.upto executed.now) self.old.forms self.new.forms
            × (self.new.upto ≡ length executed.now))) }
    {
        bases.known();
        derives::<F, B>(bases);
        self.catch_up(executed)?;
        let apart = are_few(self.forms.cells(), apart);
        let before = self.forms.len();
        let form = brought_over(bases.base(m), &mut self.forms, context, apart)?;
        self.moved = self
            .moved
            .saturating_add(before.saturating_sub(self.forms.len()));
        self.upto += 1;
        Ok(form)
    }
}

// Whether the number of cells is known, and at most the other one.
fn is_at_most(cells: u32, most: u32) -> bool
    ensures known { IsTrue result → cells < CELLS }
    ensures most { IsTrue result → cells ≤ most }
{
    cells < CELLS && cells <= most
}

// Whether another one is given, and the number of cells is known, and at most that.
fn are_few(cells: u32, most: Option<u32>) -> bool
    ensures { IsTrue result → (n : ℕ) × ((most ≡ Some n) × ((cells < CELLS) × (cells ≤ n))) }
{
    match most {
        Some(most) => is_at_most(cells, most),
        None => false,
    }
}

// Takes the forms of members that the context has out of the row, and brings the form over the others, and these over it.
// After out of memory the row is as it was. If `apart` there is none of these members.
fn brought_over<F: Named + Copy>(
    form: F,
    row: &mut Blocks<F>,
    context: &Vector,
    apart: bool,
) -> Result<F, Memory>
    requires apart { IsTrue apart → (f : F) → IsIn f row.old → had_by F.named context.now.set f ≡ false }
    requires taking { TakingFits F.over F.back F.place F.extent (had_by F.named context.now.set) [] row.old }
    requires passing { PassFits F.over F.place F.extent form (taken_out F.over F.back (had_by F.named context.now.set) [] row.old) }
    ensures form { IfOk result (λ f. f ≡ form_after F.over form (taken_out F.over F.back (had_by F.named context.now.set) [] row.old)) }
    ensures row { OnOk result (row.new ≡ row_after F.over form (taken_out F.over F.back (had_by F.named context.now.set) [] row.old)) }
    ensures err { OnErr result (row.new ≡ row.old) }
{
    take_out(row, context, apart)?;
    Ok(row.pass(form))
}

// Appends the forms from a place on that aren't inert. After out of memory `out` is as it was.
fn add_kept<F: Named + Copy>(out: &mut Blocks<F>, forms: &[F], from: usize) -> Result<(), Memory>
    requires { from ≤ length forms.now }
    ensures ok { OnOk result (IsAdded F.IsInert (drop from forms.now) out.old out.new) }
    ensures err { OnErr result (out.new ≡ out.old) }
{
    let mut kept = out.no_forms();
    collect_kept(&mut kept, forms, from)?;
    out.append(kept.as_slice())
}

// Appends the forms from a place on that aren't inert. After out of memory `out` is as it was.
fn collect_kept<F: Include + Copy>(out: &mut Vec<F>, forms: &[F], from: usize) -> Result<(), Memory>
    requires { from ≤ length forms.now }
    ensures ok { OnOk result (IsAdded F.IsInert (drop from forms.now) out.old.items out.new.items) }
    ensures err { OnErr result (out.new.items ≡ out.old.items) }
{
    out.reserve(forms.len() - from)?;
    for i in from..forms.len() {
        let form = forms[i];
        if !form.inert() {
            out.push_reserved(form);
        }
    }
    Ok(())
}

// How many cells the forms from a place on that aren't inert add, or `CELLS` if that is too great.
fn kept_cells<F: Placed + Copy>(forms: &[F], from: usize) -> u32
    ensures { (ks : List F) → IsKept F.IsInert (drop from forms.now) ks → AreCounted F.extent result ks }
{
    let mut cells: u32 = 0;
    for i in from..forms.len() {
        let one = forms[i];
        if !one.inert() {
            cells = cells.saturating_add(one.cells());
        }
    }
    cells
}

// Whether the forms from a place on that aren't inert add no more than `most` cells. False also where more than `LOOKS` are inert.
pub(crate) fn are_at_most<F: Placed + Copy>(forms: &[F], from: usize, most: u32) -> bool
    ensures { IsTrue result → (ks : List F) → IsKept F.IsInert (drop from forms.now) ks → total_by F.extent ks ≤ most }
{
    let mut left = most;
    let mut looks = LOOKS;
    for i in from..forms.len() {
        let one = forms[i];
        if one.inert() {
            if looks == 0 {
                return false;
            }
            looks -= 1;
        } else {
            let cells = one.cells();
            if left < cells {
                return false;
            }
            left -= cells;
        }
    }
    true
}

// Moves the forms of members that the context has to the front of the row, one after the other, and takes them out. After
// out of memory the row is as it was. If `apart` there is none of these members.
fn take_out<F: Named + Copy>(
    row: &mut Blocks<F>,
    context: &Vector,
    apart: bool,
) -> Result<(), Memory>
    requires apart { IsTrue apart → (f : F) → IsIn f row.old → had_by F.named context.now.set f ≡ false }
    requires fits { TakingFits F.over F.back F.place F.extent (had_by F.named context.now.set) [] row.old }
    ensures ok { OnOk result (row.new ≡ taken_out F.over F.back (had_by F.named context.now.set) [] row.old) }
    ensures err { OnErr result (row.new ≡ row.old) }
{
    if has_none(row, context, apart) {
        return Ok(());
    }
    let all = row.flat()?;
    let left = left_of(*all.allocator(), all.as_slice(), context)?;
    *row = Blocks::of(left);
    Ok(())
}

// Whether the context has no member of the row, which is known if `apart`.
fn has_none<F: Named + Copy>(row: &Blocks<F>, context: &Vector, apart: bool) -> bool
    requires { IsTrue apart → (f : F) → IsIn f row.now → had_by F.named context.now.set f ≡ false }
    ensures { IsTrue result → (f : F) → IsIn f row.now → had_by F.named context.now.set f ≡ false }
{
    if apart { true } else { row.has_none(context) }
}

// What is left of a row without the forms of members that the context has.
fn left_of<F: Named + Copy>(alloc: Global, row: &[F], context: &Vector) -> Result<Vec<F>, Memory>
    requires { TakingFits F.over F.back F.place F.extent (had_by F.named context.now.set) [] row.now }
    ensures { IfOk result (λ v. v.items ≡ taken_out F.over F.back (had_by F.named context.now.set) [] row.now) }
{
    let mut left = Vec::new(alloc);
    for i in 0..row.len() {
        let form = row[i];
        if is_had(&form, context) {
            move_to_front(form, &mut left);
        } else {
            append(&mut left, form)?;
        }
    }
    Ok(left)
}

// Appends one form. After out of memory the list is as it was.
fn append<F: Copy + Drop>(out: &mut Vec<F>, form: F) -> Result<(), Memory>
    ensures ok { OnOk result (out.new.items ≡ out.old.items ++ form ∷ []) }
    ensures err { OnErr result (out.new.items ≡ out.old.items) }
{
    match out.push(form) {
        Ok(()) => Ok(()),
        Err(_) => Err(Memory),
    }
}

// Brings the form of a row's end to its front, and the row over it.
fn move_to_front<F: Named + Copy>(form: F, row: &mut Vec<F>)
    requires { PassFits F.over F.place F.extent (front_of F.back form row.old.items) row.old.items }
    ensures { row.new.items ≡ row_after F.over (front_of F.back form row.old.items) row.old.items }
{
    let first = front(form, row.as_slice());
    pass_through(first, row);
}

// Brings the form over the forms of a list, and these over it.
fn pass_through<F: Named + Copy>(form: F, row: &mut Vec<F>) -> F
    requires { PassFits F.over F.place F.extent form row.old.items }
    ensures form { result ≡ form_after F.over form row.old.items }
    ensures row { row.new.items ≡ row_after F.over form row.old.items }
{
    pass(form, row)
}
