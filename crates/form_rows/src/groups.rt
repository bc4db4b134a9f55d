//! The forms of undo groups after the members that were executed before them.

ghost use Rattle.std.specs.Prelude.{◌≡◌, ◌+◌, ◌<◌, ◌++◌, ◌∷◌, [], true, Some, List, drop, get_or, length, slice_get};
ghost use Rattle.op_name.specs.declared.member.Member.{Member};
ghost use Rattle.op_name.specs.declared.member.Member.TheVariants.{Group};
ghost use Rattle.context_diff.specs.Histories.{is_known, members_in};
ghost use Rattle.ttf_form.specs.declared.form.Form.{Form};
ghost use Rattle.ttf_form.specs.Forms.{form_over, place_of, extent_of};
ghost use Rattle.transform_rec.specs.Sets.{none, plus_all};
ghost use Rattle.transform_rec.specs.Derived.{Derived};
ghost use Rattle.transform_rec.specs.Executing.{AreFormsFrom};
ghost use Rattle.transform_rec.specs.Histories.{family_in};
ghost use Rattle.undo_group.specs.BaseForms.{original_form, base_form};
ghost use Rattle.undo_group.specs.Following.{mark_of, following};
ghost use Rattle.form_rows.specs.RowSets.{form_after, AfterFits, leader_of};
ghost use Rattle.form_rows.specs.Stretches.{AreNoted};

use crate::passages::Passages;
use context_diff::Book;
use op_name::{Member, Name};
use ttf_form::{Bases, Form, Mark};
use undo_group::{TextBases, followed};

/// The form of an undo group, the last member of the book, at the members before it, which were executed in these
/// forms: a mark on the cell of the group before it, or of its original, wherever the forms since have moved that. It
/// costs by what was executed since, one search for each stretch of it over which there is a passage; where stretches have
/// come to be whole since the last call, their passages are made before, if memory suffices.
pub fn executed_group(
    book: &Book,
    target: &Name,
    generation: u16,
    executed: &[Form],
    passages: &mut Passages,
) -> Form
    requires noted { AreNoted passages.old executed.now }
    requires last { (before : List Member)
        × ((members_in book.now.ops ≡ before ++ Group target.now generation ∷ [])
        × AreFormsFrom form_over (family_in book.now.ops (base_form book.now.ops)) none before executed.now) }
    ensures noted { AreNoted passages.new executed.now }
    ensures form { (before : List Member) → members_in book.now.ops ≡ before ++ Group target.now generation ∷ []
        → Derived form_over (family_in book.now.ops (base_form book.now.ops)) (Group target.now generation) (plus_all none before) result }
{
    book.known();
    let place = leader_place(book, target, generation);
    let mark = group_mark(book, target, generation);
    let _ = passages.note(executed);
    mark_after(mark, executed, place, passages)
}

// A mark on the cell of the form at a place, after the inclusion of the forms after that one.
fn mark_after(mark: Mark, executed: &[Form], place: usize, passages: &Passages) -> Form
    requires noted { AreNoted passages.now executed.now }
    requires place { place < length executed.now }
    requires fits { (f : Form)
        → AfterFits form_over place_of extent_of (following mark (get_or executed.now place f)) (drop (place + 1) executed.now) }
    ensures { (f : Form) → result ≡ form_after form_over (following mark (get_or executed.now place f)) (drop (place + 1) executed.now) }
{
    let form = followed(mark, &executed[place]);
    passages.after(form, executed, place + 1)
}

// The place of the member that a group of the book follows: the group before it, or its original.
fn leader_place(book: &Book, target: &Name, generation: u16) -> usize
    requires { is_known book.now.ops (Group target.now generation) ≡ true }
    ensures { slice_get (members_in book.now.ops) result ≡ Some (leader_of target.now generation) }
{
    book.known();
    match book.place_of(&leader(target, generation)) {
        Some(place) => place,
        None => unreachable!(),
    }
}

// The member that a group follows.
fn leader(target: &Name, generation: u16) -> Member
    ensures { result ≡ leader_of target.now generation }
{
    if generation <= 1 {
        Member::Original(*target)
    } else {
        Member::Group(*target, generation - 1)
    }
}

// The mark that a group of the book leaves.
fn group_mark(book: &Book, target: &Name, generation: u16) -> Mark
    requires { is_known book.now.ops (Group target.now generation) ≡ true }
    ensures { result ≡ mark_of (original_form book.now.ops target.now) target.now generation }
{
    book.known();
    let bases = TextBases::new(book);
    bases.known();
    match bases.base(&Member::Group(*target, generation)) {
        Form::Cover(cover) => cover.mark,
        Form::Ins(_) => unreachable!(),
    }
}
