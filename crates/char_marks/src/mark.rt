//! Marks.

ghost use Rattle.std.specs.Prelude.{◌≡◌, ◌+◌, ◌↔◌, IsTrue, IfOk, None};
ghost use Rattle.op_name.specs.declared.member.Member.TheVariants.{Original};
ghost use Rattle.context_vector.specs.Contexts.{HasNoStray, has};
ghost use Rattle.char_marks.specs.Marks.{IsFormed, IsInRange};
ghost use Rattle.char_marks.specs.Code.Strays.{first_stray};

use crate::value::{COLOURS, Value};
use context_diff::UNDO_ENTRIES;
use context_vector::Vector;
use op_name::{Member, Memory, Name};
use std::marker::Model;

/// A mark: the cells from `place` on, `len` of them, among the cells of the inserts in `context`, shown or hidden, get a value.
///
/// Sites number their marks by themselves, from 1 on. The rank is greater than that of each mark that the maker had, so that of two marks
/// the one that was made later counts. A cell that others put between the covered ones isn't covered.
#[derive(Drop)]
pub struct Mark {
    pub name: Name,
    pub rank: u32,
    pub place: u32,
    pub len: u32,
    pub value: Value,
    pub context: Vector,
}

impl Model for Mark {
    ghost use Rattle.char_marks.specs.Marks.{MarkData};

    ghost Value = { MarkData };

    ghost view = { λ m. record { name = m.name; rank = m.rank; place = m.place; len = m.len; value = m.value; context = m.context.set } };
}

impl Mark {
    /// Whether the mark keeps the rules that need no history: the rank and the length are at least 1, the colour is at most `COLOURS`, and
    /// the context has the original of each of its undo entries, of which there are at most `UNDO_ENTRIES`.
    pub fn well_formed(&self) -> bool
        ensures { IsTrue result ↔ IsFormed self.now }
    {
        self.rank >= 1
            && self.len >= 1
            && in_range(&self.value)
            && self.context.entries() <= UNDO_ENTRIES
            && has_no_stray(&self.context)
    }

    /// The same mark once more.
    pub fn try_clone(&self) -> Result<Mark, Memory>
        ensures { IfOk result (λ m. m ≡ self.now) }
    {
        let context = self.context.try_clone()?;
        Ok(Mark {
            name: self.name,
            rank: self.rank,
            place: self.place,
            len: self.len,
            value: self.value,
            context,
        })
    }

    /// The members that the mark was made after.
    pub(crate) fn context(&self) -> &Vector
        ensures { result.now.set ≡ self.now.context }
    {
        &self.context
    }

    /// Whether the context has the insert or delete of this name.
    pub(crate) fn knows(&self, name: &Name) -> bool
        ensures { result ≡ has self.now.context (Original name.now) }
    {
        self.context.contains(&Member::Original(*name))
    }

    /// The place behind the last cell that the mark covers.
    pub(crate) fn end(&self) -> u64
        ensures { result ≡ self.now.place + self.now.len }
    {
        u64::from(self.place) + u64::from(self.len)
    }

    /// Whether the two are one mark: all their parts are equal, the contexts as sets.
    pub fn is_same(&self, other: &Mark) -> bool
        ensures { IsTrue result ↔ (self.now ≡ other.now) }
    {
        if self.rank != other.rank {
            return false;
        }
        if self.place != other.place {
            return false;
        }
        if self.len != other.len {
            return false;
        }
        if self.name != other.name {
            return false;
        }
        if !is_same_value(&self.value, &other.value) {
            return false;
        }
        self.context == other.context
    }
}

// Whether two marks set the same.
fn is_same_value(a: &Value, b: &Value) -> bool
    ensures { IsTrue result ↔ (a.now ≡ b.now) }
{
    a == b
}

// Whether a colour is one.
fn in_range(value: &Value) -> bool
    ensures { IsTrue result ↔ IsInRange value.now }
{
    match value {
        Value::Bold(_) | Value::Italic(_) => true,
        Value::Colour(colour) => *colour <= COLOURS,
    }
}

// Whether the context has the original of each of its undo entries.
fn has_no_stray(context: &Vector) -> bool
    ensures { IsTrue result ↔ HasNoStray context.now.set }
{
    context.known();
    match first_stray(context) {
        Some(_) => false,
        None => true,
    }
}

// The first undone name whose original the context hasn't.
fn first_stray(context: &Vector) -> Option<Name>
    ensures { result ≡ first_stray context.now.set context.now.set.entries }
{
    let mut left = context.names_read();
    while let Some(undone) = left.next() {
        if !context.contains(&Member::Original(undone.0)) {
            return Some(undone.0);
        }
    }
    None
}
