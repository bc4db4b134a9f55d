//! The forms of inserts and deletes after the members that were executed before them.

ghost use Rattle.std.specs.Prelude.{◌≡◌, ◌-◌, ◌≤◌, List, Contains, IfOk, IfSome, OnOk, OnErr, length, option_map, slice_get};
ghost use Rattle.op_name.specs.declared.member.Member.{Member};
ghost use Rattle.op_name.specs.declared.member.Member.TheVariants.{Original};
ghost use Rattle.context_diff.specs.Histories.{members_in};
ghost use Rattle.context_diff.specs.Ops.{data_of};
ghost use Rattle.ttf_form.specs.Forms.{form_over, IsInertForm};
ghost use Rattle.transform_rec.specs.Sets.{none, plus_all};
ghost use Rattle.transform_rec.specs.Derived.{IsOnlyFormAt};
ghost use Rattle.transform_rec.specs.Histories.{family_in};
ghost use Rattle.undo_group.specs.BaseForms.{base_form};
ghost use Rattle.form_rows.specs.Names.{insert_of};
ghost use Rattle.form_rows.specs.Firsts.{AreFirstMembers};
ghost use Rattle.form_rows.specs.Kept.{AreRows, IsExecutedBefore, IsFormWith, forms_in};
ghost use Rattle.form_rows.specs.declared.rows.AuthorRow.{AuthorRow};
ghost use Rattle.form_rows.specs.declared.rows.TheConstants.{ENTRIES};

use crate::rows::{Rows, executed_form};
use context_diff::{Book, Op};
use op_name::{Memory, Name};
use ttf_form::Form;
use undo_group::TextBases;

/// The form of an insert or a delete, the last member of the book, at the members before it, which were executed in these
/// forms; and the first form of the row of its context with it, if that has one. The rows become those of the whole book.
/// After out of memory they may have lost some.
pub fn executed_original(
    book: &Book,
    name: &Name,
    executed: &[Form],
    rows: &mut Rows<Form>,
) -> Result<(Form, Option<Form>), Memory>
    requires { (before : List Member) × IsExecutedBefore book.now.ops (Original name.now) before executed.now rows.old }
    ensures form { IfOk result (λ made. (before : List Member)
        → IsExecutedBefore book.now.ops (Original name.now) before executed.now rows.old
        → IsOnlyFormAt form_over (family_in book.now.ops (base_form book.now.ops)) (Original name.now) (plus_all none before) made.0) }
    ensures first { IfOk result (λ made. IfSome made.1 (IsFormWith form_over insert_of (family_in book.now.ops (base_form book.now.ops)) (Original name.now))) }
    ensures rows { OnOk result (AreRows form_over IsInertForm (family_in book.now.ops (base_form book.now.ops)) (members_in book.now.ops) rows.new.rows) }
    ensures bound { OnOk result (forms_in rows.new.rows ≤ ENTRIES) }
    ensures firsts { IfSome rows.new.firsts (AreFirstMembers book.now.ops) }
    ensures lost { OnErr result ((k : AuthorRow Form) → Contains rows.new.rows k → Contains rows.old.rows k) }
{
    book.known();
    let bases = TextBases::new(book);
    match last_op(book) {
        Some(op) => match executed_form(book, &bases, executed, rows, name, op.context()) {
            Ok(made) => Ok(made),
            Err(want) => Err(want),
        },
        None => unreachable!(),
    }
}

// The last operation of the book; None exactly where it has none.
fn last_op(book: &Book) -> Option<&Op>
    ensures { option_map (λ o. data_of o.now) result ≡ slice_get book.now.ops (length book.now.ops - 1) }
{
    book.op(book.len().saturating_sub(1))
}
