//! Blocks: short runs of the forms of a row, which other forms pass in one step where they can.

ghost use Rattle.std.specs.Prelude.{◌≡◌, ◌+◌, ◌<◌, ◌≤◌, ◌++◌, false, List, Some, IfOk, IsTrue, OnOk, length, map, slice_get};
ghost use Rattle.op_name.specs.NameData.{NameData};
ghost use Rattle.ttf_form.specs.declared.include.TheConstants.{CELLS};
ghost use Rattle.ttf_form.specs.Families.{IsIn};
ghost use Rattle.form_rows.specs.Names.{had_by};
ghost use Rattle.form_rows.specs.RowSets.{form_after, row_after, PassFits};
ghost use Rattle.form_rows.specs.Code.Blocks.{first_site, AreWithin, AreCounted, AreFrom};

use crate::had::has_none;
use crate::named::Named;
use crate::passes::pass;
use crate::placed::Placed;
use context_vector::Vector;
use op_name::Memory;
use std::alloc::Global;
use std::marker::Model;
use ttf_form::CELLS;

/// The forms of a block, of which there is one at least, with bounds of their places, the number of cells that they add
/// (`CELLS` where that isn't known), and the site of all their inserts with the least number (0 where it isn't known).
#[derive(Drop)]
pub(crate) struct Block<F: Named> {
    forms: Vec<F>,
    low: u32,
    high: u32,
    cells: u32,
    site: u16,
    least: u32,
}

impl<F: Named> Model for Block<F> {
    ghost use Rattle.std.specs.Prelude.{List};
    ghost use Rattle.form_rows.specs.Code.Blocks.{IsBlock};

    ghost Value = { List F };

    ghost view = { λ b. b.forms.items };

    ghost invariant = { λ b. IsBlock F.place F.extent F.named b.low b.high b.cells b.site b.least b.forms.items };
}

impl<F: Named + Copy> Block<F> {
    /// A block of these forms.
    pub(crate) fn of(alloc: Global, forms: &[F]) -> Result<Block<F>, Memory>
        requires { 0 < length forms.now }
        ensures { IfOk result (λ b. b ≡ forms.now) }
    {
        let (low, high) = bounds(forms);
        let cells = cells_of(forms);
        let site = site_of(forms);
        let least = least_of(forms, site);
        let forms = copy_of(alloc, forms)?;
        Ok(Block {
            forms,
            low,
            high,
            cells,
            site,
            least,
        })
    }

    /// The first form.
    pub(crate) fn first(&self) -> F
        ensures { slice_get self.now 0 ≡ Some result }
    {
        self.forms[0]
    }

    /// Appends the forms to a list. After out of memory that is as it was.
    pub(crate) fn copy_to(&self, out: &mut Vec<F>) -> Result<(), Memory>
        ensures { OnOk result (out.new.items ≡ out.old.items ++ self.now) }
    {
        match out.extend_from_slice(self.forms.as_slice()) {
            Ok(()) => Ok(()),
            Err(_) => Err(Memory),
        }
    }

    /// Whether the context has no member of the block.
    pub(crate) fn has_none(&self, context: &Vector) -> bool
        ensures { IsTrue result → (f : F) → IsIn f self.now → had_by F.named context.now.set f ≡ false }
    {
        if context.count(self.site) < self.least {
            return true;
        }
        has_none(context, self.forms.as_slice())
    }

    /// Brings the form over the forms of the block, and these over it. Where its place is greater than all of theirs, these
    /// stay, and where it is smaller, the form stays.
    pub(crate) fn pass(&mut self, form: F) -> F
        requires { PassFits F.over F.place F.extent form self.old }
        ensures form { result ≡ form_after F.over form self.old }
        ensures row { self.new ≡ row_after F.over form self.old }
    {
        let place = form.at();
        if self.high < place && self.cells < CELLS {
            return after_all(form, self.forms.as_slice(), self.high, self.cells);
        }
        if place < self.low {
            in_front(form, &mut self.forms, self.low);
            self.low = self.low.saturating_add(form.cells());
            self.high = self.high.saturating_add(form.cells());
            return form;
        }
        let form = among(form, &mut self.forms);
        let (low, high) = bounds(self.forms.as_slice());
        self.low = low;
        self.high = high;
        form
    }
}

// The form after the inclusion of forms whose places are smaller than its own; it is included in none of them.
fn after_all<F: Placed + Copy>(form: F, forms: &[F], high: u32, cells: u32) -> F
    requires fits { PassFits F.over F.place F.extent form forms.now }
    requires place { F.place form ≤ CELLS }
    requires above { high < F.place form }
    requires high { (k : F) → IsIn k forms.now → F.place k ≤ high }
    requires cells { AreCounted F.extent cells forms.now }
    requires counted { cells < CELLS }
    ensures form { result ≡ form_after F.over form forms.now }
    ensures row { forms.now ≡ row_after F.over form forms.now }
{
    let mut form = form;
    form.shift(cells);
    form
}

// Includes the form in forms whose places are greater than its own; none of them is included in it.
fn before_all<F: Placed + Copy>(form: F, forms: &mut [F], low: u32)
    requires fits { PassFits F.over F.place F.extent form forms.old }
    requires below { F.place form < low }
    requires low { (k : F) → IsIn k forms.old → low ≤ F.place k }
    ensures form { form ≡ form_after F.over form forms.old }
    ensures row { forms.new ≡ row_after F.over form forms.old }
{
    shift_all(forms, form.cells());
}

// The same of a list.
fn in_front<F: Named + Copy>(form: F, forms: &mut Vec<F>, low: u32)
    requires fits { PassFits F.over F.place F.extent form forms.old.items }
    requires below { F.place form < low }
    requires low { (k : F) → IsIn k forms.old.items → low ≤ F.place k }
    ensures form { form ≡ form_after F.over form forms.old.items }
    ensures row { forms.new.items ≡ row_after F.over form forms.old.items }
{
    before_all(form, forms, low);
}

// Moves all forms on by so many cells.
fn shift_all<F: Placed>(forms: &mut [F], by: u32)
    requires { (k : F) → IsIn k forms.old → F.place k + by ≤ CELLS }
    ensures { forms.new ≡ map (λ k. F.shifted k by) forms.old }
{
    for x in forms.iter_mut() {
        x.shift(by);
    }
}

// Brings the form over the forms, and these over it, one after the other.
fn among<F: Named + Copy>(form: F, forms: &mut Vec<F>) -> F
    requires { PassFits F.over F.place F.extent form forms.old.items }
    ensures form { result ≡ form_after F.over form forms.old.items }
    ensures row { forms.new.items ≡ row_after F.over form forms.old.items }
{
    pass(form, forms)
}

// The least and the greatest place.
fn bounds<F: Placed>(forms: &[F]) -> (u32, u32)
    ensures { AreWithin F.place result.0 result.1 forms.now }
{
    let mut low = CELLS;
    let mut high: u32 = 0;
    for i in 0..forms.len() {
        let place = forms[i].at();
        low = low.min(place);
        high = high.max(place);
    }
    (low, high)
}

// The number of cells that the forms add, or `CELLS` if that is too great.
pub(crate) fn cells_of<F: Placed>(forms: &[F]) -> u32
    ensures { AreCounted F.extent result forms.now }
{
    let mut cells: u32 = 0;
    for i in 0..forms.len() {
        cells = cells.saturating_add(forms[i].cells());
    }
    cells
}

// The site of the first form's insert; 0 where there is none.
fn site_of<F: Named>(forms: &[F]) -> u16
    ensures { result ≡ first_site F.named forms.now }
{
    match forms.get(0) {
        Some(form) => match form.name() {
            Some(name) => name.site,
            None => 0,
        },
        None => 0,
    }
}

// The least number of the inserts, if all are of this site, or else 0.
fn least_of<F: Named>(forms: &[F], site: u16) -> u32
    ensures { AreFrom F.named site result forms.now }
{
    let mut least = u32::MAX;
    for i in 0..forms.len() {
        least = least_with(&forms[i], site, least);
    }
    least
}

// The lesser of a number and that of an insert of this site, and 0 for an insert of another one.
fn least_with<F: Named>(form: &F, site: u16, least: u32) -> u32
    ensures low { result ≤ least }
    ensures name { (n : NameData) → F.named form.now ≡ Some n → 0 < result → (n.site ≡ site) × (result ≤ n.number) }
{
    match form.name() {
        Some(name) => {
            if name.site == site {
                least.min(name.number)
            } else {
                0
            }
        }
        None => least,
    }
}

// A copy of the forms.
fn copy_of<F: Copy + Drop>(alloc: Global, forms: &[F]) -> Result<Vec<F>, Memory>
    ensures { IfOk result (λ v. v.items ≡ forms.now) }
{
    match Vec::from_slice(alloc, forms) {
        Ok(copy) => Ok(copy),
        Err(_) => Err(Memory),
    }
}
