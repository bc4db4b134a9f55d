//! What is known of contexts by the operations that came last: where many operations of one site follow each other, or many sites
//! write at the same time, their contexts are those of others that were judged before, or those with one original more.

ghost use Rattle.std.specs.Prelude.{◌≡◌, ◌⊎◌, ◌+◌, ◌<◌, true, IsTrue, IfSome};
ghost use Rattle.op_name.specs.declared.member.Member.TheVariants.{Original};
ghost use Rattle.context_vector.specs.Contexts.{raised};
ghost use Rattle.context_diff.specs.Operations.{cells_put, is_original};
ghost use Rattle.context_diff.specs.Ops.{data_of};
ghost use Rattle.context_diff.specs.Code.Judged.{IsCellsBy};

use crate::op::Op;
use context_vector::Vector;
use op_name::Name;

/// An insert or delete of a book, by its place, and how many cells its context has.
#[derive(Clone, Copy, Drop)]
pub(crate) struct Lately {
    pub(crate) place: u32,
    pub(crate) cells: u32,
}

/// What is kept of the operation at this place, if it is an insert or delete, whose context has so many cells.
pub(crate) fn kept_of(op: &Op, place: u32, cells: u32) -> Option<Lately>
    ensures { IfSome result (λ l. (is_original (data_of op.now) ≡ true) × (l.place ≡ place) × (l.cells ≡ cells)) }
{
    match op {
        Op::Insert { .. } | Op::Delete { .. } => Some(Lately { place, cells }),
        Op::Undo { .. } => None,
    }
}

/// How many cells `v` has, where it is the context of the operation, an insert or delete, of so many cells, or that context
/// with the operation itself.
pub(crate) fn cells_by(op: &Op, v: &Vector, cells: u32) -> Option<u32>
    requires { cells + cells_put (data_of op.now) < 4294967296 }
    ensures { IfSome result (IsCellsBy (data_of op.now) v.now.set cells) }
{
    match op {
        Op::Insert {
            name,
            text,
            context,
            ..
        } => cells_beyond(v, name, context, cells, u32::from(text.len())),
        Op::Delete { name, context, .. } => cells_beyond(v, name, context, cells, 0),
        Op::Undo { .. } => None,
    }
}

// How many cells `v` has, where it is the context, or the context with the original of this name, which puts `more` cells.
fn cells_beyond(v: &Vector, name: &Name, context: &Vector, cells: u32, more: u32) -> Option<u32>
    requires { cells + more < 4294967296 }
    ensures { IfSome result (λ n. ((v.now.set ≡ context.now.set) × (n ≡ cells))
        ⊎ ((v.now.set ≡ raised context.now.set (Original name.now)) × (n ≡ cells + more))) }
{
    if v.count(name.site) == name.number {
        if v.follows(context, name) {
            return Some(cells + more);
        }
        return None;
    }
    if are_same(v, context) {
        Some(cells)
    } else {
        None
    }
}

// Whether two contexts have the same members.
fn are_same(a: &Vector, b: &Vector) -> bool
    ensures { IsTrue result → a.now.set ≡ b.now.set }
{
    a == b
}
