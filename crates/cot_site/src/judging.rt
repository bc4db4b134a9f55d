//! The verdict on an operation, over a book and the operations that wait.

ghost use Rattle.std.specs.Prelude.{◌≡◌, List, None, IfNone};
ghost use Rattle.std.specs.List.{list_any};
ghost use Rattle.op_name.specs.declared.member.Member.TheVariants.{Original};
ghost use Rattle.context_diff.specs.Operations.{OpData, member_of, context_of, IsWellFormed};
ghost use Rattle.context_diff.specs.Histories.{LacksNothing, cells_in};
ghost use Rattle.context_diff.specs.Ops.{data_of, op_eq};
ghost use Rattle.site_answers.specs.declared.verdict.Verdict.TheVariants.{Integrated};
ghost use Rattle.cot_site.specs.Code.Judging.{HasCells};
ghost use Rattle.cot_site.specs.Verdicts.{is_repeat, is_other, is_forged, lacked, first_uncovered, placed_verdict, ready_verdict, waiting_verdict, verdict_of};

use causal_gate::Pool;
use context_diff::{Book, Op, closed};
use context_vector::Vector;
use op_name::{Member, Name};
use site_answers::Verdict;
use undo_group::generation;

/// A verdict, and the number of cells of the operation's context, which is told of an insert or delete that is to be integrated:
/// whoever integrates it needs the number, and counts nothing again. Beside other verdicts it says nothing.
#[derive(Drop)]
pub(crate) struct Judgement {
    pub(crate) verdict: Verdict,
    pub(crate) cells: u32,
}

/// The verdict on a well-formed operation over a book and a pool: the first case that holds; with the cells of its context.
pub(crate) fn judgement_on(book: &Book, pool: &Pool, op: &Op) -> Judgement
    requires { IsWellFormed (data_of op.now) }
    ensures verdict { result.verdict ≡ verdict_of book.now.ops pool.now (data_of op.now) }
    ensures cells { result.verdict ≡ Integrated → HasCells book.now.ops (data_of op.now) result.cells }
{
    if is_repeat(book, op) {
        return uncounted(Verdict::Repeat);
    }
    if is_forged(book, pool, op) {
        return uncounted(Verdict::Forged {
            name: op.member().target(),
        });
    }
    book.known();
    match book.judged(op.context()) {
        Some(cells) => Judgement {
            verdict: ready_verdict(op, None, cells),
            cells,
        },
        None => unjudged(book, op),
    }
}

// The judgement by a verdict beside which nothing is counted.
fn uncounted(verdict: Verdict) -> Judgement
    ensures { result.verdict ≡ verdict }
{
    Judgement { verdict, cells: 0 }
}

// The verdict on an operation whose context is there, by the first open site of the context and the number of its cells; an undo
// asks for neither.
fn ready_verdict(op: &Op, first: Option<u16>, cells: u32) -> Verdict
    ensures { (h : List OpData) → first ≡ first_uncovered h (context_of (data_of op.now)) (context_of (data_of op.now)).counts
        → cells ≡ cells_in h (context_of (data_of op.now)) → result ≡ ready_verdict h (data_of op.now) }
{
    match op {
        Op::Insert { place, .. } => placed_verdict(first, *place <= cells, *place, cells),
        Op::Delete { place, .. } => placed_verdict(first, *place < cells, *place, cells),
        Op::Undo { .. } => Verdict::Integrated,
    }
}

// The judgement on an operation that is no repeat and not forged.
fn unjudged(book: &Book, op: &Op) -> Judgement
    requires { IsWellFormed (data_of op.now) }
    ensures verdict { result.verdict ≡ waiting_verdict (lacked book.now.ops (context_of (data_of op.now)))
        (ready_verdict book.now.ops (data_of op.now)) }
    ensures cells { result.verdict ≡ Integrated → HasCells book.now.ops (data_of op.now) result.cells }
{
    match lacked(book, op) {
        Some(missing) => uncounted(Verdict::Waits { missing }),
        None => ready(book, op),
    }
}

// The first member of the operation's context that the book lacks.
fn lacked(book: &Book, op: &Op) -> Option<Member>
    requires { IsWellFormed (data_of op.now) }
    ensures lacked { result ≡ lacked book.now.ops (context_of (data_of op.now)) }
    ensures nothing { IfNone result (LacksNothing book.now.ops (context_of (data_of op.now))) }
{
    book.known();
    book.have().first_missing(op.context())
}

// Whether the book has the same insert or delete, or has reached the generation of the undo.
fn is_repeat(book: &Book, op: &Op) -> bool
    ensures { result ≡ is_repeat book.now.ops (data_of op.now) }
{
    book.known();
    match op {
        Op::Insert { name, .. } | Op::Delete { name, .. } => has_same(book, name, op),
        Op::Undo {
            target,
            generation: own,
            ..
        } => *own <= generation(book.have(), target),
    }
}

// Whether the book has the operation, an original of this name.
fn has_same(book: &Book, name: &Name, op: &Op) -> bool
    requires { member_of (data_of op.now) ≡ Original name.now }
    ensures { result ≡ list_any (op_eq (data_of op.now)) book.now.ops }
{
    book.known();
    match book.original(name) {
        Some(known) => is_same(op, known),
        None => false,
    }
}

// Whether the two are the same operation, in all parts.
fn is_same(a: &Op, b: &Op) -> bool
    ensures { result ≡ op_eq (data_of a.now) (data_of b.now) }
{
    a == b
}

// Whether another original of the operation's name is in the book or waits.
fn is_forged(book: &Book, pool: &Pool, op: &Op) -> bool
    ensures { result ≡ is_forged book.now.ops pool.now (data_of op.now) }
{
    match op {
        Op::Insert { name, .. } | Op::Delete { name, .. } => {
            has_other(book, name, op) || other_waits(pool, name, op)
        }
        Op::Undo { .. } => false,
    }
}

// Whether the book has another original of this name, which the operation has.
fn has_other(book: &Book, name: &Name, op: &Op) -> bool
    requires { member_of (data_of op.now) ≡ Original name.now }
    ensures { result ≡ list_any (is_other (data_of op.now)) book.now.ops }
{
    book.known();
    match book.original(name) {
        Some(known) => !is_same(op, known),
        None => false,
    }
}

// Whether another original of this name, which the operation has, waits.
fn other_waits(pool: &Pool, name: &Name, op: &Op) -> bool
    requires { member_of (data_of op.now) ≡ Original name.now }
    ensures { result ≡ list_any (is_other (data_of op.now)) pool.now }
{
    pool.known();
    match pool.named(name) {
        Some(held) => !is_same(op, held),
        None => false,
    }
}

// The judgement on an operation whose context the book has.
fn ready(book: &Book, op: &Op) -> Judgement
    requires { LacksNothing book.now.ops (context_of (data_of op.now)) }
    ensures verdict { result.verdict ≡ ready_verdict book.now.ops (data_of op.now) }
    ensures cells { HasCells book.now.ops (data_of op.now) result.cells }
{
    match op {
        Op::Insert { context, .. } | Op::Delete { context, .. } => {
            let cells = cells_of(book, context);
            let first = open_site(book, context);
            Judgement {
                verdict: ready_verdict(op, first, cells),
                cells,
            }
        }
        Op::Undo { .. } => uncounted(Verdict::Integrated),
    }
}

// The verdict on an original, by the first open site of its context and whether its place is among the cells.
fn placed_verdict(first: Option<u16>, fits: bool, place: u32, cells: u32) -> Verdict
    ensures { result ≡ placed_verdict first fits place cells }
{
    match first {
        Some(site) => Verdict::NotClosed { site },
        None => {
            if fits {
                Verdict::Integrated
            } else {
                Verdict::PlaceOut { place, cells }
            }
        }
    }
}

// The number of cells of a context that the book has: the sum of the lengths of its inserts.
fn cells_of(book: &Book, v: &Vector) -> u32
    requires { LacksNothing book.now.ops v.now.set }
    ensures { result ≡ cells_in book.now.ops v.now.set }
{
    book.known();
    book.cells_in(v)
}

// The first site whose last original in the context was made after something that the context hasn't.
fn open_site(book: &Book, v: &Vector) -> Option<u16>
    requires { LacksNothing book.now.ops v.now.set }
    ensures { result ≡ first_uncovered book.now.ops v.now.set v.now.set.counts }
{
    book.known();
    v.known();
    closed(book, v)
}
