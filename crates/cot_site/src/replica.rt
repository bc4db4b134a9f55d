//! The integrated operations of a site, with what they made of the text.

ghost use Rattle.std.specs.Prelude.{◌≡◌, ◌+◌, ◌<◌, ◌≤◌, ◌↔◌, ◌++◌, ◌∷◌, true, false, List, []};
ghost use Rattle.std.specs.Prelude.{IsTrue, IsNone, OnOk, OnErr, IfErr, IfOk, IfSome, drop, fold, length, option_map, slice_get, vec_len, vec_capacity};
ghost use Rattle.op_name.specs.declared.member.Member.{Member};
ghost use Rattle.op_name.specs.declared.member.Member.TheVariants.{Original};
ghost use Rattle.context_diff.specs.Bases.{base_has};
ghost use Rattle.context_vector.specs.Contexts.{has};
ghost use Rattle.context_diff.specs.Operations.{OpData, context_of, is_original};
ghost use Rattle.context_diff.specs.Histories.{context_of_all, is_known, IsNext, IsValid};
ghost use Rattle.context_diff.specs.Letters.{IsUnmade};
ghost use Rattle.context_diff.specs.Replays.{shown, text_of};
ghost use Rattle.context_diff.specs.Ops.{data_of};
ghost use Rattle.ttf_form.specs.Forms.{form_over, extent_of};
ghost use Rattle.tombstone_text.specs.Cells.{HasRoomFor};
ghost use Rattle.visible_view.specs.View.{shown_cells};
ghost use Rattle.form_cache.specs.Entries.{form_at, used};
ghost use Rattle.ttf_form.specs.Cells.{FitsCells, applied};
ghost use Rattle.ttf_form.specs.declared.form.Form.{Form};
ghost use Rattle.ttf_form.specs.declared.form.Form.TheVariants.{Ins as Insert};
ghost use Rattle.transform_rec.specs.Derived.{Derived, IsOnlyFormAt};
ghost use Rattle.transform_rec.specs.Executing.{executed};
ghost use Rattle.transform_rec.specs.Histories.{family_in, MayBeAddedTo};
ghost use Rattle.undo_group.specs.BaseForms.{base_form};
ghost use Rattle.form_rows.specs.Names.{insert_of};
ghost use Rattle.form_rows.specs.Kept.{IsFormWith, empty_rows};
ghost use Rattle.form_rows.specs.Stretches.{AreNoted, place_after};
ghost use Rattle.fixed_replay.specs.Replayed.{IsReplayed, AreCharacters};
ghost use Rattle.cot_site.specs.Commands.{place_of_shown, place_behind};
ghost use Rattle.cot_site.specs.Sites.{AreExecuted, AreCached, IsFormOf, KeepsForms};
ghost use Rattle.cot_site.specs.Code.Judging.{HasCells};
ghost use Rattle.cot_site.specs.Code.Notes.{AreFormsNoted};
ghost use Rattle.cot_site.specs.declared.notes.TheConstants.{CACHED_FORMS};
ghost use Rattle.cot_site.specs.Code.Replicas.{AreRowsOf, IsExecutedAsBefore, IsLastMember, IsStep, IsNextAfter, KnowsAll, KnowsBefore};
ghost use Rattle.cot_site.specs.Code.Replicas.{before_last, last_letters};

use crate::notes::{At, Notes};
use context_diff::{Book, Letters, LettersBad, Op, reserve_one};
use context_vector::Vector;
use fixed_replay::letters_of;
use form_cache::Key;
use form_rows::{Passages, Rows, executed_group, executed_original};
use op_name::{Member, Memory, Name};
use std::alloc::Global;
use std::marker::Model;
use tombstone_text::Cells;
use ttf_form::{Bases, Cover, Form, Ins};
use undo_group::TextBases;
use visible_view::{cell_of_visible, model_place, visible_len, write_text};

/// A valid history, the form in which each of its operations was executed, the cells that these forms gave, with the characters of
/// their inserts beside them, the passages and rows out of which the next forms are found, and forms that were found on the way. A
/// site hands its calls on what it has integrated to it: what ties these parts together is kept here, and a site adds its number
/// and what waits.
#[derive(Drop)]
pub struct Replica {
    book: Book,
    forms: Vec<Form>,
    passages: Passages,
    cells: Cells,
    rows: Rows<Form>,
    notes: Notes,
}

impl Model for Replica {
    ghost use Rattle.std.specs.Prelude.{◌≡◌};
    ghost use Rattle.fixed_replay.specs.Replayed.{AreCharacters};
    ghost use Rattle.form_rows.specs.Stretches.{AreNoted};
    ghost use Rattle.cot_site.specs.Sites.{AreCached};
    ghost use Rattle.cot_site.specs.Code.Notes.{entries_of, AreTold};
    ghost use Rattle.cot_site.specs.Code.Replicas.{ReplicaData, IsExecuted, AreRowsOf};

    ghost Value = { ReplicaData };

    ghost view = { λ r. record { history = r.book.ops; forms = r.forms.items; entries = entries_of r.book.ops r.notes } };

    ghost invariant = { λ r. IsExecuted r.book.ops r.forms.items r.cells.cells
        × AreCached r.book.ops (entries_of r.book.ops r.notes)
        × AreTold r.book.ops r.notes
        × AreRowsOf r.book.ops r.rows
        × AreNoted r.passages r.forms.items
        × AreCharacters r.book.ops r.cells.cells r.cells.text };
}

impl Replica {
    /// Nothing is integrated, and no form is noted.
    pub fn new(alloc: Global) -> Result<Replica, Memory>
        ensures { IfOk result (λ r. r ≡ record { history = []; forms = []; entries = [] }) }
    {
        let notes = Notes::new(alloc)?;
        Ok(Replica {
            book: Book::new(alloc),
            forms: Vec::new(alloc),
            passages: Passages::new(alloc),
            cells: Cells::new(alloc),
            rows: Rows::new(alloc),
            notes,
        })
    }

    /// Nothing but what the type keeps: the history is valid, each form is a form of its operation at the
    /// members before it, each entry of the cache is the form of its key, and there are at most `CACHED_FORMS`.
    pub fn known(&self)
        ensures valid { IsValid self.now.history }
        ensures forms { AreExecuted self.now.history self.now.forms }
        ensures entries { AreCached self.now.history self.now.entries }
        ensures bounded { length self.now.entries ≤ CACHED_FORMS }
    {
        self.book.known();
        self.notes.known();
    }

    /// The integrated operations.
    pub fn book(&self) -> &Book
        ensures { result.now.ops ≡ self.now.history }
    {
        &self.book
    }

    /// The members of the history.
    pub fn vector(&self) -> &Vector
        ensures { result.now.set ≡ context_of_all self.now.history }
    {
        self.book.known();
        self.book.have()
    }

    /// The form in which the i-th operation was executed; None exactly past the end.
    pub fn executed(&self, i: u32) -> Option<&Form>
        ensures form { option_map (λ f. f.now) result ≡ slice_get self.now.forms i }
        ensures none { IsNone result ↔ (length self.now.history ≤ i) }
    {
        self.forms.get(i as usize)
    }

    /// Notes how places move over the executed forms, as far as there is memory for it. Nothing else changes.
    pub fn note_moves(&mut self)
        ensures { self.new ≡ self.old }
    {
        let _ = self.passages.note(self.forms.as_slice());
    }

    /// Where what stood at a place once the first `from` operations were executed stands after all of them.
    pub fn moved(&self, place: u32, from: u32) -> u32
        ensures { result ≡ fold place_after place (drop from self.now.forms) }
    {
        self.passages
            .moved(place, self.forms.as_slice(), from as usize)
    }

    /// The form that was noted of the key's member at the key's context; None exactly where none was. It takes no memory.
    pub fn cached(&mut self, key: &Key) -> Option<Form>
        ensures form { result ≡ form_at self.old.entries key.now }
        ensures derived { IfSome result (IsFormOf self.old.history key.now) }
        ensures entries { self.new.entries ≡ used self.old.entries key.now }
        ensures history { self.new.history ≡ self.old.history }
        ensures executed { self.new.forms ≡ self.old.forms }
    {
        self.notes.get(&self.book, key)
    }

    /// The cells that the executed forms gave, shown or hidden, and beside each its character.
    pub fn cells(&self) -> &Cells
        ensures forms { result.now.cells ≡ executed applied [] self.now.forms }
        ensures replayed { IsReplayed self.now.history result.now.cells }
        ensures text { AreCharacters self.now.history result.now.cells result.now.text }
    {
        self.book.known();
        &self.cells
    }

    /// The number of shown characters.
    pub fn visible_len(&self) -> u32
        ensures { result ≡ length (shown self.now.history) }
    {
        self.book.known();
        visible_len(&self.cells)
    }

    /// The place of the v-th shown character, from 0; None exactly where there are no more than v.
    pub fn place_of_shown(&self, v: u32) -> Option<u32>
        ensures { result ≡ place_of_shown self.now.history v }
    {
        self.book.known();
        cell_of_visible(&self.cells, v)
    }

    /// The name of the insert by which the v-th shown character stands in the text, from 0; None exactly where there are no
    /// more than v.
    pub fn name_at(&self, v: u32) -> Option<Name>
        ensures name { result ≡ option_map (λ c. c.0) (slice_get (shown self.now.history) v) }
        ensures none { IsNone result ↔ (length (shown self.now.history) ≤ v) }
    {
        self.book.known();
        name_of_visible(&self.cells, v)
    }

    /// The place for a text after v shown characters; None exactly where there are fewer than v.
    pub fn place_behind(&self, v: u32) -> Option<u32>
        ensures { result ≡ place_behind self.now.history v }
    {
        self.book.known();
        model_place(&self.cells, v)
    }

    /// These characters as the text of an insert.
    pub fn letters(&self, text: &[char]) -> Result<Letters, LettersBad>
        ensures text { IfOk result (λ l. l ≡ text.now) }
        ensures cause { IfErr result (IsUnmade text.now) }
    {
        Letters::new(*self.forms.allocator(), text)
    }

    /// Appends the shown text in UTF-8; after out of memory `out` is as it was.
    pub fn text(&self, out: &mut Vec<u8>) -> Result<(), Memory>
        ensures ok { OnOk result (out.new.items ≡ out.old.items ++ text_of self.now.history) }
        ensures err { OnErr result (out.new.items ≡ out.old.items) }
    {
        self.book.known();
        write_text(&self.cells, out)
    }

    /// Appends the operation, which is next, and executes its form at the members that were integrated before
    /// it; the characters of an insert come to stand beside its cells. The context of an insert or delete has so many cells. After out
    /// of memory the history, the forms, the cells and their characters are as before, and the notes are the old ones or none.
    pub fn integrate(&mut self, op: Op, cells: u32) -> Result<(), Memory>
        requires next { IsNext self.old.history (data_of op) }
        requires cells { HasCells self.old.history (data_of op) cells }
        ensures history { OnOk result (self.new.history ≡ self.old.history ++ data_of op ∷ []) }
        ensures forms { OnOk result (KeepsForms self.old.forms self.new.forms) }
        ensures err { OnErr result (IsExecutedAsBefore self.old self.new) }
    {
        self.book.known();
        let op = with_shared_lists(&self.book, op);
        let alone = knows_all(&self.book, &op, cells);
        self.integrate_after(op, cells, alone)
    }

    /// The same of an operation whose context is all members: one that was made here. So contexts aren't compared, and
    /// what the operation has in common with the book's last one is kept once already.
    pub fn integrate_own(&mut self, op: Op) -> Result<(), Memory>
        requires next { IsNext self.old.history (data_of op) }
        requires own { context_of (data_of op) ≡ context_of_all self.old.history }
        ensures history { OnOk result (self.new.history ≡ self.old.history ++ data_of op ∷ []) }
        ensures forms { OnOk result (KeepsForms self.old.forms self.new.forms) }
        ensures err { OnErr result (IsExecutedAsBefore self.old self.new) }
    {
        self.book.known();
        let cells = self.book.cells();
        self.integrate_after(op, cells, true)
    }

    // The same, where it is told whether the operation knows all members before it, which says nothing of an undo.
    fn integrate_after(&mut self, op: Op, cells: u32, knows_all: bool) -> Result<(), Memory>
        requires next { IsNext self.old.history (data_of op) }
        requires cells { HasCells self.old.history (data_of op) cells }
        requires knows { IsTrue knows_all → KnowsAll (context_of_all self.old.history) (data_of op) }
        ensures history { OnOk result (self.new.history ≡ self.old.history ++ data_of op ∷ []) }
        ensures forms { OnOk result (KeepsForms self.old.forms self.new.forms) }
        ensures err { OnErr result (IsExecutedAsBefore self.old self.new) }
    {
        self.book.known();
        let member = op.member();
        reserve_one(&mut self.forms)?;
        self.book.reserve(&op)?;
        self.book.push_counted(op, cells);
        match execute(
            &self.book,
            &mut self.notes,
            &mut self.rows,
            &mut self.forms,
            &mut self.passages,
            &mut self.cells,
            &member,
            knows_all,
        ) {
            Ok(()) => {
                self.book.share();
                Ok(())
            }
            Err(want) => {
                take_back(&mut self.book, &mut self.notes, &mut self.rows);
                Err(want)
            }
        }
    }
}

// The name of the v-th shown cell, from 0, if there is one.
fn name_of_visible(cells: &Cells, v: u32) -> Option<Name>
    ensures { result ≡ option_map (λ c. c.name) (slice_get (shown_cells cells.now.cells) v) }
{
    match cell_of_visible(cells, v) {
        Some(place) => name_of(cells, place),
        None => None,
    }
}

// The name of the cell at a place, if there is one.
fn name_of(cells: &Cells, place: u32) -> Option<Name>
    ensures { result ≡ option_map (λ c. c.name) (slice_get cells.now.cells place) }
{
    match cells.cell(place) {
        Some(cell) => Some(cell.id().name),
        None => None,
    }
}

// The operation, of whose context what the book's last operation has too is kept once.
fn with_shared_lists(book: &Book, op: Op) -> Op
    ensures { data_of result ≡ data_of op }
{
    let mut op = op;
    op.share_with(book.have());
    op
}

// Whether the operation, which comes next, was made after just the members of the book, or is an undo: then its form needs no row.
// A context that has fewer cells than the book isn't compared.
fn knows_all(book: &Book, op: &Op, cells: u32) -> bool
    ensures { IsTrue result → KnowsAll book.now.have.set (data_of op.now) }
{
    is_undo(op) || (cells == book.cells() && are_same(op.context(), book.have()))
}

// Whether the operation is an undo or a redo.
fn is_undo(op: &Op) -> bool
    ensures { IsTrue result → is_original (data_of op.now) ≡ false }
{
    matches!(op, Op::Undo { .. })
}

// Takes the last operation out, and with it all rows and notes: their members may have it.
fn take_back(book: &mut Book, notes: &mut Notes, rows: &mut Rows<Form>)
    ensures ops { (h : List OpData) (o : OpData) → book.old.ops ≡ h ++ o ∷ [] → book.new.ops ≡ h }
    ensures notes { notes.new ≡ [] }
    ensures rows { rows.new ≡ empty_rows }
{
    rows.clear();
    notes.clear();
    book.pop();
}

// Executes the form of the last member of the book at the members before it, with the characters of the last operation, and appends
// it to the forms, which have a spare place. After out of memory the forms, the cells and their characters are as they were. Each note
// stays a form.
fn execute(
    book: &Book,
    notes: &mut Notes,
    rows: &mut Rows<Form>,
    forms: &mut Vec<Form>,
    passages: &mut Passages,
    cells: &mut Cells,
    member: &Member,
    knows_all: bool,
) -> Result<(), Memory>
    requires room { vec_len forms.old < vec_capacity forms.old }
    requires added { MayBeAddedTo book.now.ops (before_last book.now.ops) member.now }
    requires next { IsNextAfter book.now.ops member.now (has (before_last book.now.ops)) forms.old.items rows.old }
    requires knows { IsTrue knows_all → KnowsBefore book.now.ops member.now }
    requires noted { AreNoted passages.old forms.old.items }
    requires kept { AreFormsNoted book.now.ops notes.old }
    requires fits { (f : Form)
        → Derived form_over (family_in book.now.ops (base_form book.now.ops)) member.now (has (before_last book.now.ops)) f
        → FitsCells cells.old.cells f }
    requires letters { (f : Form)
        → Derived form_over (family_in book.now.ops (base_form book.now.ops)) member.now (has (before_last book.now.ops)) f
        → length (last_letters book.now.ops) ≡ extent_of f }
    ensures step { OnOk result
        (IsStep book.now.ops member.now (has (before_last book.now.ops)) forms.old.items forms.new.items cells.old cells.new) }
    ensures rows { OnOk result (AreRowsOf book.now.ops rows.new) }
    ensures forms { OnErr result (forms.new.items ≡ forms.old.items) }
    ensures cells { OnErr result (cells.new.cells ≡ cells.old.cells) }
    ensures text { OnErr result (cells.new.text ≡ cells.old.text) }
    ensures noted { AreNoted passages.new forms.new.items }
    ensures kept { AreFormsNoted book.now.ops notes.new }
{
    match form_with_room(
        book,
        notes,
        rows,
        cells,
        forms.as_slice(),
        passages,
        member,
        knows_all,
    ) {
        Ok(form) => {
            cells.apply(&form, last_letters(book));
            append(forms, &form);
            Ok(())
        }
        Err(want) => Err(want),
    }
}

// The characters that the last operation of the book puts: that of an insert, and none of any other.
fn last_letters(book: &Book) -> &[char]
    ensures { result.now ≡ last_letters book.now.ops }
{
    match book.op(book.len().saturating_sub(1)) {
        Some(op) => letters_of(op),
        None => &[],
    }
}

// Appends a copy of the form, for which there is a spare place.
fn append(forms: &mut Vec<Form>, form: &Form)
    requires { vec_len forms.old < vec_capacity forms.old }
    ensures { forms.new.items ≡ forms.old.items ++ form.now ∷ [] }
{
    match form {
        Form::Ins(ins) => forms.push_reserved(Form::Ins(*ins)),
        Form::Cover(cover) => forms.push_reserved(Form::Cover(Cover {
            place: cover.place,
            mark: cover.mark,
        })),
    }
}

// The form of the last member of the book at the members before it, with room among the cells to apply it. The cells and their
// characters stay as they are.
fn form_with_room(
    book: &Book,
    notes: &mut Notes,
    rows: &mut Rows<Form>,
    cells: &mut Cells,
    forms: &[Form],
    passages: &mut Passages,
    member: &Member,
    knows_all: bool,
) -> Result<Form, Memory>
    requires noted { AreNoted passages.old forms.now }
    requires added { MayBeAddedTo book.now.ops (before_last book.now.ops) member.now }
    requires next { IsNextAfter book.now.ops member.now (has (before_last book.now.ops)) forms.now rows.old }
    requires knows { IsTrue knows_all → KnowsBefore book.now.ops member.now }
    requires kept { AreFormsNoted book.now.ops notes.old }
    ensures form { IfOk result
        (Derived form_over (family_in book.now.ops (base_form book.now.ops)) member.now (has (before_last book.now.ops))) }
    ensures rows { OnOk result (AreRowsOf book.now.ops rows.new) }
    ensures room { IfOk result (HasRoomFor cells.new) }
    ensures cells { cells.new.cells ≡ cells.old.cells }
    ensures text { cells.new.text ≡ cells.old.text }
    ensures noted { AreNoted passages.new forms.now }
    ensures kept { AreFormsNoted book.now.ops notes.new }
{
    let form = form_at(book, notes, rows, forms, passages, member, knows_all)?;
    cells.reserve(&form)?;
    Ok(form)
}

// The form of the last member of the book at the members before it: that of an undo group follows the form in which the group before
// it, or its original, was executed.
fn form_at(
    book: &Book,
    notes: &mut Notes,
    rows: &mut Rows<Form>,
    forms: &[Form],
    passages: &mut Passages,
    member: &Member,
    knows_all: bool,
) -> Result<Form, Memory>
    requires noted { AreNoted passages.old forms.now }
    requires added { MayBeAddedTo book.now.ops (before_last book.now.ops) member.now }
    requires next { IsNextAfter book.now.ops member.now (has (before_last book.now.ops)) forms.now rows.old }
    requires knows { IsTrue knows_all → KnowsBefore book.now.ops member.now }
    requires kept { AreFormsNoted book.now.ops notes.old }
    ensures form { IfOk result
        (Derived form_over (family_in book.now.ops (base_form book.now.ops)) member.now (has (before_last book.now.ops))) }
    ensures rows { OnOk result (AreRowsOf book.now.ops rows.new) }
    ensures noted { AreNoted passages.new forms.now }
    ensures kept { AreFormsNoted book.now.ops notes.new }
{
    match member {
        Member::Original(name) => original_form(book, notes, rows, forms, name, knows_all),
        Member::Group(target, generation) => Ok(executed_group(
            book,
            target,
            *generation,
            forms,
            passages,
        )),
    }
}

// The form of an original, the last member of the book: its base form where no member before it is news to it, and else
// the form that the rows give.
fn original_form(
    book: &Book,
    notes: &mut Notes,
    rows: &mut Rows<Form>,
    forms: &[Form],
    name: &Name,
    knows_all: bool,
) -> Result<Form, Memory>
    requires known { is_known book.now.ops (Original name.now) ≡ true }
    requires next { IsNextAfter book.now.ops (Original name.now) (has (before_last book.now.ops)) forms.now rows.old }
    requires knows { IsTrue knows_all → KnowsBefore book.now.ops (Original name.now) }
    requires kept { AreFormsNoted book.now.ops notes.old }
    ensures form { IfOk result
        (Derived form_over (family_in book.now.ops (base_form book.now.ops)) (Original name.now) (has (before_last book.now.ops))) }
    ensures rows { OnOk result (AreRowsOf book.now.ops rows.new) }
    ensures kept { AreFormsNoted book.now.ops notes.new }
{
    if knows_all {
        return Ok(base_of(book, name));
    }
    match executed_original(book, name, forms, rows) {
        Ok(made) => {
            note_found(book, notes, name, made.0, made.1);
            Ok(made.0)
        }
        Err(want) => Err(want),
    }
}

// Whether two contexts have the same members.
fn are_same(a: &Vector, b: &Vector) -> bool
    ensures { IsTrue result → a.now.set ≡ b.now.set }
{
    a == b
}

// The base form of an original of the book.
fn base_of(book: &Book, name: &Name) -> Form
    requires { is_known book.now.ops (Original name.now) ≡ true }
    ensures { result ≡ base_form book.now.ops (Original name.now) }
{
    TextBases::new(book).base(&Member::Original(*name))
}

// Notes what was found of an original, the last member of the book: its form at the members before it, and the first form of its
// row, which is that of an insert at the original's context with the original, if all that the insert was made after is there.
fn note_found(book: &Book, notes: &mut Notes, name: &Name, form: Form, first: Option<Form>)
    requires last { IsLastMember book.now.ops (Original name.now) }
    requires form { IsOnlyFormAt form_over (family_in book.now.ops (base_form book.now.ops)) (Original name.now)
        (has (before_last book.now.ops)) form }
    requires first { IfSome first (IsFormWith form_over insert_of (family_in book.now.ops (base_form book.now.ops)) (Original name.now)) }
    requires kept { AreFormsNoted book.now.ops notes.old }
    ensures kept { AreFormsNoted book.now.ops notes.new }
{
    let last = last_place(book);
    notes.keep(name, At::Before(last), &form);
    if let Some(Form::Ins(ins)) = first {
        note_insert(book, notes, name, last, ins);
    }
}

// Notes the form of an insert at the context of an original with that, the last member of the book, if all that the insert was made
// after is there.
fn note_insert(book: &Book, notes: &mut Notes, name: &Name, last: u32, ins: Ins)
    requires last { IsLastMember book.now.ops (Original name.now) }
    requires place { last + 1 ≡ length book.now.ops }
    requires first { IsFormWith form_over insert_of (family_in book.now.ops (base_form book.now.ops)) (Original name.now) (Insert ins) }
    requires kept { AreFormsNoted book.now.ops notes.old }
    ensures kept { AreFormsNoted book.now.ops notes.new }
{
    book.known();
    if knew_base(book, name, &ins.name) {
        let named = ins.name;
        notes.keep(&named, At::With(last), &Form::Ins(ins));
    }
}

// The place of the last operation of the book, which has one.
fn last_place(book: &Book) -> u32
    requires { 1 ≤ length book.now.ops }
    ensures { result + 1 ≡ length book.now.ops }
{
    book.known();
    book.len() - 1
}

// Whether one original of the book was made after all that another one was made after.
fn knew_base(book: &Book, name: &Name, other: &Name) -> bool
    ensures { IsTrue result → (y : Member)
        → base_has book.now.ops (Original other.now) y ≡ true → base_has book.now.ops (Original name.now) y ≡ true }
{
    book.known();
    match (book.original(name), book.original(other)) {
        (Some(op), Some(earlier)) => op.context().covers(earlier.context()),
        _ => false,
    }
}
