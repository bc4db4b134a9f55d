//! Listing, task by task.

ghost use Rattle.std.specs.Prelude.{◌≡◌, ◌≢◌, ◌∷◌, Some, None, OnOk};
ghost use Rattle.context_diff.specs.Bases.{base_context_of};
ghost use Rattle.trace_explain.specs.declared.listing.Listed.{Listed};
ghost use Rattle.trace_explain.specs.declared.work.Task.TheVariants.{List as Want, Join};
ghost use Rattle.trace_explain.specs.Listings.{Lists};
ghost use Rattle.trace_explain.specs.Code.Listed.{data_of};
ghost use Rattle.trace_explain.specs.Code.Tasks.{AreDerived, CanBeDone, IsPair, IsTurn};

use crate::contexts::{base_of, last_between, without_last};
use crate::line::TraceLine;
use crate::listing::{Listed, Listing};
use crate::row::{are_equal, context_in, member_in};
use crate::work::{Task, Work};
use context_diff::{Book, base_context, last_may_be_taken_out};
use context_vector::Vector;
use form_cache::Key;
use op_name::{Member, Memory};
use std::alloc::Global;
use ttf_form::Include;

/// Lists the member at the context, to which it may be added.
pub fn list(alloc: Global, book: &Book, listing: &mut Listing, key: Key) -> Result<(), Memory>
    requires pair { IsPair book.now.ops key }
    requires derived { AreDerived book.now.ops (data_of listing.old) }
    ensures { OnOk result ((a : Listed) × Lists book.now.ops (data_of listing.old) key (data_of listing.new) a) }
{
    let mut work = Work::new(alloc);
    work.add(Task::List(key))?;
    loop {
        match work.next() {
            Some(task) => turn(alloc, book, listing, &mut work, task)?,
            None => return Ok(()),
        }
    }
}

// Does a task, which was taken from the work.
fn turn(
    alloc: Global,
    book: &Book,
    listing: &mut Listing,
    work: &mut Work,
    task: Task,
) -> Result<(), Memory>
    requires tasks { CanBeDone book.now.ops (task ∷ work.old.tasks) work.old.done }
    requires derived { AreDerived book.now.ops (data_of listing.old) }
    ensures { OnOk result (IsTurn book.now.ops task work.old (data_of listing.old) work.new (data_of listing.new)) }
{
    match task {
        Task::List(key) => begin(alloc, book, listing, work, key),
        Task::Join { key, over } => join(book, listing, work, key, over),
    }
}

// Lists the pair, or finds out what is to be listed before.
fn begin(
    alloc: Global,
    book: &Book,
    listing: &mut Listing,
    work: &mut Work,
    key: Key,
) -> Result<(), Memory>
    requires tasks { CanBeDone book.now.ops (Want key ∷ work.old.tasks) work.old.done }
    requires derived { AreDerived book.now.ops (data_of listing.old) }
    ensures { OnOk result (IsTurn book.now.ops (Want key) work.old (data_of listing.old) work.new (data_of listing.new)) }
{
    match listing.find(&key) {
        Some(line) => serve(book, listing, work, &key, &line),
        None => list_new(alloc, book, listing, work, key),
    }
}

// Puts the line that serves a pair which is listed.
fn serve(
    book: &Book,
    listing: &Listing,
    work: &mut Work,
    key: &Key,
    line: &Listed,
) -> Result<(), Memory>
    requires tasks { CanBeDone book.now.ops (Want key.now ∷ work.old.tasks) work.old.done }
    requires derived { AreDerived book.now.ops (data_of listing.now) }
    requires there { (data_of listing.now).at key.now ≡ Some line.now }
    ensures { OnOk result (IsTurn book.now.ops (Want key.now) work.old (data_of listing.now) work.new (data_of listing.now)) }
{
    book.known();
    work.put(line.number, &line.form)?;
    Ok(())
}

// Lists a pair that isn't listed, or finds out what is to be listed before.
fn list_new(
    alloc: Global,
    book: &Book,
    listing: &mut Listing,
    work: &mut Work,
    key: Key,
) -> Result<(), Memory>
    requires tasks { CanBeDone book.now.ops (Want key ∷ work.old.tasks) work.old.done }
    requires derived { AreDerived book.now.ops (data_of listing.old) }
    requires new { (data_of listing.old).at key ≡ None }
    ensures { OnOk result (IsTurn book.now.ops (Want key) work.old (data_of listing.old) work.new (data_of listing.new)) }
{
    let own = base_context(alloc, book, &member_in(&key))?;
    if are_equal(context_in(&key), &own) {
        list_base(book, listing, work, key)
    } else {
        split(alloc, book, listing, work, key, &own)
    }
}

// Lists the base of a pair that isn't listed.
fn list_base(book: &Book, listing: &mut Listing, work: &mut Work, key: Key) -> Result<(), Memory>
    requires tasks { CanBeDone book.now.ops (Want key ∷ work.old.tasks) work.old.done }
    requires derived { AreDerived book.now.ops (data_of listing.old) }
    requires new { (data_of listing.old).at key ≡ None }
    requires here { key.context ≡ base_context_of book.now.ops key.member }
    ensures { OnOk result (IsTurn book.now.ops (Want key) work.old (data_of listing.old) work.new (data_of listing.new)) }
{
    book.known();
    let member = member_in(&key);
    let form = base_of(book, &member);
    let listed = listing.next(&form);
    listing.push(key, &TraceLine::Base { member, form }, &listed)?;
    work.put(listed.number, &listed.form)?;
    Ok(())
}

// Puts in the place of a pair that isn't listed what is to be listed before it, and its step.
fn split(
    alloc: Global,
    book: &Book,
    listing: &Listing,
    work: &mut Work,
    key: Key,
    own: &Vector,
) -> Result<(), Memory>
    requires tasks { CanBeDone book.now.ops (Want key ∷ work.old.tasks) work.old.done }
    requires derived { AreDerived book.now.ops (data_of listing.now) }
    requires new { (data_of listing.now).at key ≡ None }
    requires own { own.now.set ≡ base_context_of book.now.ops key.member }
    requires more { key.context ≢ base_context_of book.now.ops key.member }
    ensures { OnOk result (IsTurn book.now.ops (Want key) work.old (data_of listing.now) work.new (data_of listing.now)) }
{
    book.known();
    last_may_be_taken_out();
    let member = member_in(&key);
    context_in(&key).known();
    let over = last_between(alloc, book, &member, context_in(&key), own)?;
    let context = without_last(book, &member, context_in(&key), &over)?;
    let left = Key {
        member,
        context: context.try_clone()?,
    };
    let right = Key {
        member: over,
        context,
    };
    work.add(Task::Join { key, over })?;
    work.add(Task::List(right))?;
    work.add(Task::List(left))?;
    Ok(())
}

// Lists the step of the two lines that were listed last.
fn join(
    book: &Book,
    listing: &mut Listing,
    work: &mut Work,
    key: Key,
    over: Member,
) -> Result<(), Memory>
    requires tasks { CanBeDone book.now.ops (Join key over ∷ work.old.tasks) work.old.done }
    requires derived { AreDerived book.now.ops (data_of listing.old) }
    ensures { OnOk result (IsTurn book.now.ops (Join key over) work.old (data_of listing.old) work.new (data_of listing.new)) }
{
    book.known();
    let (left, right) = work.take_two();
    let form = left.form.include(&right.form);
    let listed = listing.next(&form);
    let line = TraceLine::Step {
        left: left.number,
        over: right.number,
        member: member_in(&key),
        form,
    };
    listing.push(key, &line, &listed)?;
    work.put(listed.number, &listed.form)?;
    Ok(())
}
