//! Which operation may come next after those of a book.

ghost use Rattle.std.specs.Prelude.{◌≡◌, ◌↔◌, true, IsTrue};
ghost use Rattle.context_vector.specs.Contexts.{Within};
ghost use Rattle.context_diff.specs.Operations.{context_of, is_original};
ghost use Rattle.context_diff.specs.Histories.{HasPlace, IsClosed, IsNext};
ghost use Rattle.context_diff.specs.Ops.{data_of};

use crate::book::Book;
use crate::coverage::closed;
use crate::op::Op;

impl Book {
    /// Whether the operation is next after those of the book, as `push` requires: it is well formed and new,
    /// the book has its context, an original's context is closed, and its place is one of that context.
    pub fn is_next(&self, op: &Op) -> bool
        ensures { IsTrue result ↔ IsNext self.now.ops (data_of op.now) }
    {
        self.known();
        if op.fault().is_some() || self.have().contains(&op.member()) {
            return false;
        }
        if !self.have().covers(op.context()) {
            return false;
        }
        self.closes(op) && self.has_place(op)
    }

    // Whether the context, whose members the book has, is closed where the operation is an original.
    fn closes(&self, op: &Op) -> bool
        requires { Within (context_of (data_of op.now)) self.now.have.set }
        ensures { IsTrue result ↔ (is_original (data_of op.now) ≡ true → IsClosed self.now.ops (context_of (data_of op.now))) }
    {
        match op {
            Op::Insert { context, .. } | Op::Delete { context, .. } => closed(
                self, context,
            ).is_none(),
            Op::Undo { .. } => true,
        }
    }

    // Whether the operation's place is one of its context, whose members the book has.
    fn has_place(&self, op: &Op) -> bool
        requires { Within (context_of (data_of op.now)) self.now.have.set }
        ensures { IsTrue result ↔ HasPlace self.now.ops (data_of op.now) }
    {
        let cells = self.cells_in(op.context());
        match op {
            Op::Insert { place, .. } => *place <= cells,
            Op::Delete { place, .. } => *place < cells,
            Op::Undo { .. } => true,
        }
    }
}
