//! The fields of an operation before its context.

use crate::texts::Characters;
use op_name::Name;

/// An operation without its context, its text lent as it lies in a frame.
#[derive(Drop)]
pub enum Head<'a> {
    Insert(Name, u32, Characters<'a>),
    Delete(Name, u32),
    Undo(u16, Name, u16),
}
