//! The forms of members at contexts, against forms that were worked out by hand, and the laws of such forms.

ghost use Rattle.std.specs.Prelude.{IsTrue, IfOk};
ghost use Rattle.context_diff.specs.Operations.{context_of};
ghost use Rattle.context_diff.specs.Ops.{data_of};
ghost use Rattle.transform_rec.specs.Histories.{MayBeAddedTo};

use crate::made::op_of;
use context_diff::{Book, Op, base_context, closed};
use op_name::{Member, Memory, Name};
use script_text::parse_member;
use std::alloc::Global;
use std::test::Fail;
use transform_rec::{
    addable_form_fits, causal_lists_have_forms, one_form, one_more_member, order_independence,
    restriction, swap, to_the_front, transform,
};
use ttf_form::{Bases, Cover, Form, Ins, Mark};
use undo_group::TextBases;

/// Whether the member may be added to the context of this operation.
fn may_be_added(alloc: Global, book: &Book, m: &Member, op: &Op) -> Result<bool, Memory>
    ensures { IfOk result (λ added. IsTrue added → MayBeAddedTo book.now.ops (context_of (data_of op.now)) m.now) }
{
    book.known();
    let to = op.context();
    if !book.have().contains(m) || !book.have().covers(to) {
        return Ok(false);
    }
    let base = base_context(alloc, book, m)?;
    if closed(book, to).is_some() || op.fault().is_some() {
        return Ok(false);
    }
    if !to.covers(&base) || to.contains(m) {
        return Ok(false);
    }
    Ok(true)
}

/// Whether this is the form of the member at the context of the operation, to which the member may be added.
pub(crate) fn is_form(
    alloc: Global,
    book: &Book,
    m: &Member,
    op: &Op,
    form: &Form,
) -> Result<bool, Memory> {
    if !may_be_added(alloc, book, m, op)? {
        return Ok(false);
    }
    match transform(alloc, book, &TextBases::new(book), m, op.context()) {
        Ok(found) => Ok(found == *form),
        Err(Memory) => Err(Memory),
    }
}

/// Each law of the forms of the editor over the book, as a caller has it.
#[tactic(auto, using(fixed_replay::proofs::TextFamilies::text_causal, fixed_replay::proofs::TextFamilies::text_own_names, fixed_replay::proofs::Editor::form_at_place))]
fn laws_hold(book: &Book) {
    let bases = TextBases::new(book);
    bases.known();
    one_form::<Form, TextBases>(&bases);
    causal_lists_have_forms::<Form, TextBases>(&bases);
    addable_form_fits::<Form, TextBases>(&bases);
    swap::<Form, TextBases>(&bases);
    to_the_front::<Form, TextBases>(&bases);
    order_independence::<Form, TextBases>(&bases);
    restriction::<Form, TextBases>(&bases);
    one_more_member::<Form, TextBases>(&bases);
}

/// A form of a member: the place of its insert, of one cell or of so many; or the place of its mark and the generation, of a delete or of the insert of
/// the cell itself.
#[derive(Clone, Copy)]
enum Shape {
    Ins(u32),
    Run(u32, u16),
    By(u32, u16),
    Own(u32, u16),
}

/// The operations of a book, one of its members, an operation that has the context, and the form of the member there,
/// worked out by hand.
struct Row {
    why: &'static str,
    ops: &'static str,
    member: &'static str,
    at: &'static str,
    form: Shape,
}

/// Site 0 writes three characters. Site 1 inserts before the second one and site 2 deletes it, neither of which knows
/// of the other; the delete is undone, and so is the second character itself, after which site 3 inserts at the end.
const HISTORY: &str =
    "0.1 0 a |; 0.2 1 b | 0.1; 0.3 2 c | 0.2; 1.1 1 x | 0.3; 2.1 1 | 0.3; 2.1/1 3 | 0.3 2.1; 0.2/1 3 | 0.3; 3.1 3 y | 0.3 0.2/1";

/// Site 0 writes `abc` by one insert. Site 1 inserts `xy` before the b and site 2 deletes the c, neither of which knows of the other;
/// the delete is undone, and so is the first text itself, after which site 3 inserts at the end.
const TEXTS: &str =
    "0.1 0 abc |; 1.1 1 xy | 0.1; 2.1 2 | 0.1; 2.1/1 3 | 0.1 2.1; 0.1/1 3 | 0.1; 3.1 3 z | 0.1 0.1/1";

const ROWS: [Row; 17] = [
    Row {
        why: "a delete goes on with its cell",
        ops: HISTORY,
        member: "2.1",
        at: "63.1 0 | 0.3 1.1",
        form: Shape::By(2, 0),
    },
    Row {
        why: "an undone delete goes on with its cell",
        ops: HISTORY,
        member: "2.1/1",
        at: "63.1 0 | 0.3 1.1 2.1",
        form: Shape::By(2, 1),
    },
    Row {
        why: "an undone insert goes on with its cell",
        ops: HISTORY,
        member: "0.2/1",
        at: "63.1 0 | 0.3 1.1 2.1 2.1/1",
        form: Shape::Own(2, 1),
    },
    Row {
        why: "an insert passes over a delete",
        ops: HISTORY,
        member: "1.1",
        at: "63.1 0 | 0.3 2.1",
        form: Shape::Ins(1),
    },
    Row {
        why: "an insert after an undo goes on",
        ops: HISTORY,
        member: "3.1",
        at: "63.1 0 | 0.3 1.1 0.2/1",
        form: Shape::Ins(4),
    },
    Row {
        why: "an insert passes over an undo",
        ops: HISTORY,
        member: "1.1",
        at: "63.1 0 | 0.3 3.1 0.2/1",
        form: Shape::Ins(1),
    },
    Row {
        why: "an insert goes after what stands in front of it",
        ops: "2.1 0 x |; 2.2 0 y | 2.1; 1.1 0 m |; 3.1 0 n |",
        member: "3.1",
        at: "63.1 0 | 1.1 2.2",
        form: Shape::Ins(3),
    },
    Row {
        why: "an insert after three others",
        ops: "0.1 0 a |; 0.2 1 b | 0.1; 0.3 2 c | 0.2; 1.1 0 p | 0.3; 2.1 3 q | 0.3; 3.1 2 r | 0.3",
        member: "2.1",
        at: "63.1 0 | 0.3 1.1 3.1",
        form: Shape::Ins(5),
    },
    Row {
        why: "the same in another order of the book",
        ops: "0.1 0 a |; 0.2 1 b | 0.1; 0.3 2 c | 0.2; 3.1 2 r | 0.3; 2.1 3 q | 0.3; 1.1 0 p | 0.3",
        member: "2.1",
        at: "63.1 0 | 0.3 1.1 3.1",
        form: Shape::Ins(5),
    },
    Row {
        why: "a delete within a text goes on with its cell",
        ops: TEXTS,
        member: "2.1",
        at: "63.1 0 | 0.1 1.1",
        form: Shape::By(4, 0),
    },
    Row {
        why: "an undone delete within a text goes on with its cell",
        ops: TEXTS,
        member: "2.1/1",
        at: "63.1 0 | 0.1 1.1 2.1",
        form: Shape::By(4, 1),
    },
    Row {
        why: "an undone text stays at its first cell",
        ops: TEXTS,
        member: "0.1/1",
        at: "63.1 0 | 0.1 1.1 2.1 2.1/1",
        form: Shape::Own(0, 1),
    },
    Row {
        why: "a text passes over a delete",
        ops: TEXTS,
        member: "1.1",
        at: "63.1 0 | 0.1 2.1",
        form: Shape::Run(1, 2),
    },
    Row {
        why: "an insert goes on by the length of a text",
        ops: TEXTS,
        member: "3.1",
        at: "63.1 0 | 0.1 1.1 0.1/1",
        form: Shape::Ins(5),
    },
    Row {
        why: "a text goes behind one of a smaller site",
        ops: "1.1 0 pqr |; 2.1 0 st |",
        member: "2.1",
        at: "63.1 0 | 1.1",
        form: Shape::Run(3, 2),
    },
    Row {
        why: "a text stays in front of one of a greater site",
        ops: "1.1 0 pqr |; 2.1 0 st |",
        member: "1.1",
        at: "63.1 0 | 2.1",
        form: Shape::Run(0, 3),
    },
    Row {
        why: "an undone text goes on with its first cell",
        ops: "1.1 0 pqr |; 0.1 0 ab |; 1.1/1 1 | 1.1",
        member: "1.1/1",
        at: "63.1 0 | 0.1 1.1",
        form: Shape::Own(2, 1),
    },
];

/// Appends the operation where it is next; answers whether it was.
fn append(alloc: Global, book: &mut Book, words: &str) -> Result<bool, Fail> {
    let op = op_of(alloc, words)?;
    if !book.is_next(&op) {
        return Ok(false);
    }
    book.reserve(&op)?;
    book.push(op);
    Ok(true)
}

fn append_all(alloc: Global, book: &mut Book, words: &str) -> Result<bool, Fail> {
    for one in words.split("; ") {
        if !append(alloc, book, one)? {
            return Ok(false);
        }
    }
    Ok(true)
}

fn name_of(member: &Member) -> Name {
    match member {
        Member::Original(name) => *name,
        Member::Group(name, _) => *name,
    }
}

/// The insert of so many cells, of 1 to 256.
fn ins_of(name: Name, place: u32, len: u16) -> Ins {
    let site = name.site;
    let len = len.clamp(1, 256);
    Ins {
        place,
        site,
        len,
        name,
    }
}

/// The form of this shape, of a member with this name.
fn form_of(name: Name, shape: Shape) -> Form {
    match shape {
        Shape::Ins(place) => Form::Ins(ins_of(name, place, 1)),
        Shape::Run(place, len) => Form::Ins(ins_of(name, place, len)),
        Shape::By(place, generation) => Form::Cover(Cover {
            place,
            mark: Mark::By { name, generation },
        }),
        Shape::Own(place, generation) => Form::Cover(Cover {
            place,
            mark: Mark::Own { generation },
        }),
    }
}

/// Whether the member that is spelled so has its form at the context of the operation.
fn has_form(alloc: Global, book: &Book, row: &Row, at: &Op) -> Result<bool, Fail> {
    let Some(member) = parse_member(row.member) else {
        return Err(Fail::new("the word spells no member"));
    };
    let form = form_of(name_of(&member), row.form);
    Ok(is_form(alloc, book, &member, at, &form)?)
}

/// The same of a book that takes in the operations of the row.
fn has_form_after(alloc: Global, book: &mut Book, row: &Row) -> Result<bool, Fail> {
    let at = op_of(alloc, row.at)?;
    if !append_all(alloc, book, row.ops)? {
        return Ok(false);
    }
    laws_hold(book);
    has_form(alloc, book, row, &at)
}

fn answers(alloc: Global, row: &Row) -> Result<bool, Fail> {
    let mut book = Book::new(alloc);
    has_form_after(alloc, &mut book, row)
}

#[test]
fn forms_are_those_worked_out_by_hand(rt: HostRuntime) -> Result<(), Fail> {
    for row in &ROWS {
        assert!(rt; answers(rt.alloc(), row)?, "{}", row.why);
    }
    Ok(())
}
