//! The family of the editor over a book.

ghost use Rattle.std.specs.Prelude.{◌≡◌, true};
ghost use Rattle.op_name.specs.declared.member.Member.TheVariants.{Original};
ghost use Rattle.context_diff.specs.Operations.{inserting, member_of};
ghost use Rattle.context_vector.specs.Contexts.{empty};
ghost use Rattle.ttf_form.specs.declared.form.Form.TheVariants.{Ins as Insert};
ghost use Rattle.context_diff.specs.Histories.{is_known};
ghost use Rattle.context_diff.specs.Ops.{data_of};
ghost use Rattle.undo_group.specs.BaseForms.{form_of, original_form, group_form};

use context_diff::{Book, Letters, Op};
use op_name::{Member, Name};
use std::marker::Model;
use ttf_form::{Bases, Cover, Form, Ins, Mark};

/// The members of a book, each with its base form: what it does to the cells of its own base context.
///
/// The base form of an insert or a delete is what the operation says. An undo group marks its original at its
/// generation: all cells of an insert, by the first one, or the cell of a delete among its deleters. Contracts see the
/// operations of the book.
#[derive(Drop)]
pub struct TextBases<'a> {
    book: &'a Book,
}

impl<'a> Model for TextBases<'a> {
    ghost use Rattle.std.specs.Prelude.{List};
    ghost use Rattle.context_diff.specs.Operations.{OpData};

    ghost Value = { List OpData };

    ghost view = { λ s. s.book.now.ops };
}

impl<'a> TextBases<'a> {
    /// The family of this book. It takes no memory.
    pub fn new(book: &'a Book) -> TextBases<'a>
        ensures { result ≡ book.now.ops }
    {
        TextBases { book }
    }

    // What the insert or delete of this name does; the book has it.
    fn original_form(&self, name: &Name) -> Form
        requires { is_known self.now (Original name.now) ≡ true }
        ensures { result ≡ original_form self.now name.now }
    {
        self.book.known();
        match self.book.original(name) {
            Some(op) => form_of(op, name),
            None => unreachable!(),
        }
    }
}

impl Bases<Form> for TextBases<'_> {
    ghost use Rattle.context_diff.specs.Histories.{members_in};
    ghost use Rattle.context_diff.specs.Bases.{base_has};
    ghost use Rattle.undo_group.specs.BaseForms.{base_form};
    ghost use Rattle.undo_group.specs.Bounds.{IsShortHistory};
    ghost use Rattle.undo_group.specs.Laws.Texts.{base_forms_apart, base_forms_bounded, base_forms_total};

    ghost members = { λ s. members_in s };

    ghost base_form = { λ s. base_form s };

    ghost base_context = { λ s. base_has s };

    ghost IsKnown = { λ s. IsShortHistory s };

    ghost apart = { λ s. base_forms_apart s };

    ghost bounded = { λ s. base_forms_bounded s };

    ghost total = { λ s. base_forms_total s };

    /// What the operation of an original says; of a group a mark on the cell of its original.
    fn base(&self, m: &Member) -> Form {
        self.book.known();
        match m {
            Member::Original(name) => self.original_form(name),
            Member::Group(target, generation) => raised(
                self.original_form(target),
                *target,
                *generation,
            ),
        }
    }

    /// The book is a valid history, and its inserts put at most as many cells as there may be.
    fn known(&self) {
        self.book.known();
    }
}

// What an insert or a delete of this name does to the cells of its context.
fn form_of(op: &Op, name: &Name) -> Form
    requires { member_of (data_of op.now) ≡ Original name.now }
    ensures { result ≡ form_of (data_of op.now) }
{
    match op {
        Op::Insert {
            name,
            place,
            text,
            ..
        } => Form::Ins(put_form(*name, *place, text)),
        Op::Delete { name, place, .. } => Form::Cover(Cover {
            place: *place,
            mark: Mark::By {
                name: *name,
                generation: 0,
            },
        }),
        Op::Undo { .. } => unreachable!(),
    }
}

// The cells of a text, put at a place.
fn put_form(name: Name, place: u32, text: &Letters) -> Ins
    ensures { Insert result ≡ form_of (inserting name place text.now empty) }
{
    text.known();
    let site = name.site;
    Ins {
        place,
        site,
        len: text.len(),
        name,
    }
}

// The base form of the group of this original, whose base form is given, at a generation.
fn raised(form: Form, target: Name, generation: u16) -> Form
    ensures { result ≡ group_form form target generation }
{
    match form {
        Form::Ins(ins) => Form::Cover(Cover {
            place: ins.place,
            mark: Mark::Own { generation },
        }),
        Form::Cover(cover) => Form::Cover(Cover {
            place: cover.place,
            mark: Mark::By {
                name: target,
                generation,
            },
        }),
    }
}
