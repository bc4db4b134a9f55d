//! Operations: inserts, deletes and undos, each with the context that it was made in.

ghost use Rattle.std.specs.Prelude.{◌≡◌, ◌↔◌, ◌≤◌, IsNone, IsTrue, IfOk, IfSome, length};
ghost use Rattle.op_name.specs.Members.{IsMember};
ghost use Rattle.context_vector.specs.Contexts.{IsContext, HasNoStray};
ghost use Rattle.context_diff.specs.Operations.{member_of, context_of, cells_put, is_insert, IsWellFormed, IsInRange, KeepsOwn, KeepsTarget};
ghost use Rattle.context_diff.specs.Ops.{data_of, IsFirstBroken};

use crate::letters::Letters;
use context_vector::Vector;
use op_name::{Member, Memory, Name, SITES};

/// The greatest place that an operation names: a place counts cells of the text.
pub const PLACES: u32 = 4_294_967_295;

/// The greatest number of undo entries in the context of an operation.
pub const UNDO_ENTRIES: u32 = 16_384;

/// An operation of a session: what one site did to the text, or an undo or a redo of that.
///
/// A place counts the cells, from 0, that the inserts of the context put (TTF 2006: deleted cells count,
/// since cells never go). Two operations are equal where all their parts are, and contexts as sets.
#[derive(Drop, PartialEq, Eq, Hash)]
pub enum Op {
    /// Puts the characters of a text, a cell for each, before the cell at `place`, or after the last one.
    Insert {
        name: Name,
        place: u32,
        text: Letters,
        context: Vector,
    },
    /// Hides the cell at `place`.
    Delete {
        name: Name,
        place: u32,
        context: Vector,
    },
    /// Undoes `target` (an odd generation) or redoes it (an even one). The author is a site, below `SITES`.
    Undo {
        author: u16,
        target: Name,
        generation: u16,
        context: Vector,
    },
}

/// The first rule that an operation breaks by itself, whatever the history.
#[derive(Clone, Copy, Debug, PartialEq, Eq, Drop)]
pub enum OpFault {
    /// A part is out of its range.
    Range,
    /// An original doesn't know all earlier originals of its site, or knows others of it.
    Own,
    /// An undo doesn't know its target, or not at the generation before its own.
    Target,
    /// The context has an undo entry of an original that it hasn't.
    Stray,
}

impl Op {
    /// The member that the operation is: all undos of one original at one generation are one member.
    pub fn member(&self) -> Member
        requires { IsMember (member_of (data_of self.now)) }
        ensures member { result ≡ member_of (data_of self.now) }
        ensures range { IsMember result }
    {
        self.as_member()
    }

    // The same of an undo at any generation, also at 0, at which no member is.
    pub(crate) fn as_member(&self) -> Member
        ensures { result ≡ member_of (data_of self.now) }
    {
        match self {
            Op::Insert { name, .. } | Op::Delete { name, .. } => Member::Original(*name),
            Op::Undo {
                target,
                generation,
                ..
            } => Member::Group(*target, *generation),
        }
    }

    /// The members that the operation was made after.
    pub fn context(&self) -> &Vector
        ensures { result.now.set ≡ context_of (data_of self.now) }
    {
        match self {
            Op::Insert { context, .. } | Op::Delete { context, .. } | Op::Undo { context, .. } =>
                context,
        }
    }

    /// Lets copies share the lists of the context; what they have in common with those like which `v` makes its copies is kept once. The
    /// operation stays the same. Out of memory, the lists stay the operation's own.
    pub fn share_with(&mut self, v: &Vector)
        ensures { data_of self.new ≡ data_of self.old }
    {
        match self {
            Op::Insert { context, .. } => context.share_with(v),
            Op::Delete { context, .. } => context.share_with(v),
            Op::Undo { context, .. } => context.share_with(v),
        }
    }

    /// Whether the operation is an insert.
    pub fn is_insert(&self) -> bool
        ensures { result ≡ is_insert (data_of self.now) }
    {
        matches!(self, Op::Insert { .. })
    }

    /// How many cells the operation puts: one for each character of an insert, and else none.
    pub fn cells(&self) -> u32
        ensures { result ≡ cells_put (data_of self.now) }
    {
        match self {
            Op::Insert { text, .. } => u32::from(text.len()),
            Op::Delete { .. } | Op::Undo { .. } => 0,
        }
    }

    /// The same operation once more.
    pub fn try_clone(&self) -> Result<Op, Memory>
        ensures { IfOk result (λ o. data_of o ≡ data_of self.now) }
    {
        let context = self.context().try_clone()?;
        Ok(match self {
            Op::Insert {
                name,
                place,
                text,
                ..
            } => Op::Insert {
                name: *name,
                place: *place,
                text: text.try_clone()?,
                context,
            },
            Op::Delete { name, place, .. } => Op::Delete {
                name: *name,
                place: *place,
                context,
            },
            Op::Undo {
                author,
                target,
                generation,
                ..
            } => Op::Undo {
                author: *author,
                target: *target,
                generation: *generation,
                context,
            },
        })
    }

    /// The first rule that the operation breaks; None exactly where it is well formed.
    pub fn fault(&self) -> Option<OpFault>
        ensures none { IsNone result ↔ IsWellFormed (data_of self.now) }
        ensures cause { IfSome result (IsFirstBroken (data_of self.now)) }
    {
        if !self.is_in_range() {
            Some(OpFault::Range)
        } else if !self.keeps_own() {
            Some(OpFault::Own)
        } else if !self.keeps_target() {
            Some(OpFault::Target)
        } else if !has_no_stray(self.context()) {
            Some(OpFault::Stray)
        } else {
            None
        }
    }

    // Whether each part is in its range.
    fn is_in_range(&self) -> bool
        ensures { IsTrue result ↔ IsInRange (data_of self.now) }
    {
        match self {
            Op::Insert {
                name,
                place,
                text,
                context,
            } => {
                let _place = *place;
                name.known();
                text.known();
                is_short(context)
            }
            Op::Delete {
                name,
                place,
                context,
            } => {
                let _place = *place;
                name.known();
                is_short(context)
            }
            Op::Undo {
                author,
                target,
                generation,
                context,
            } => {
                target.known();
                *author < SITES && 1 <= *generation && is_short(context)
            }
        }
    }

    // Whether an original knows all earlier originals of its site and no others of it.
    fn keeps_own(&self) -> bool
        ensures { IsTrue result ↔ KeepsOwn (data_of self.now) }
    {
        match self {
            Op::Insert { name, context, .. } | Op::Delete { name, context, .. } => {
                context.count(name.site) + 1 == name.number
            }
            Op::Undo { .. } => true,
        }
    }

    // Whether an undo knows its target, at the generation before its own.
    fn keeps_target(&self) -> bool
        ensures { IsTrue result ↔ KeepsTarget (data_of self.now) }
    {
        match self {
            Op::Insert { .. } | Op::Delete { .. } => true,
            Op::Undo {
                target,
                generation,
                context,
                ..
            } => {
                let known = context.contains(&Member::Original(*target));
                known && u32::from(context.entry(target)) + 1 == u32::from(*generation)
            }
        }
    }
}

// Whether the context has no more undo entries than an operation may carry.
fn is_short(context: &Vector) -> bool
    ensures short { IsTrue result ↔ (length context.now.set.entries ≤ UNDO_ENTRIES) }
    ensures form { IsContext context.now.set }
{
    context.known();
    context.entries() <= UNDO_ENTRIES
}

// Whether the context has the original of each of its undo entries.
fn has_no_stray(context: &Vector) -> bool
    ensures { IsTrue result ↔ HasNoStray context.now.set }
{
    context.known();
    let mut left = context.names_read();
    while let Some(undone) = left.next() {
        if !context.contains(&Member::Original(undone.0)) {
            return false;
        }
    }
    true
}
