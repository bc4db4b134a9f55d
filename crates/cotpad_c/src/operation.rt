//! Operations as a host reads them.

ghost use Rattle.std.specs.Prelude.{◌≡◌};
ghost use Rattle.context_diff.specs.Ops.{data_of};
ghost use Rattle.cotpad_c.specs.Operations.{no_member, no_operation, member_told, site_told, turn_kind, first_of, operation_told};

use crate::kinds::{DELETE, INSERT, REDO, UNDO};
use context_diff::{Letters, Op};
use op_name::{Member, Name};

/// A member of contexts: an insert or a delete by its name, at generation 0, or the undos of it at one generation.
#[repr(C)]
#[derive(Clone, Copy)]
pub struct CotpadMember {
    pub site: u32,
    pub number: u32,
    pub generation: u32,
}

/// How many inserts and deletes of a site a set has: its first ones.
#[repr(C)]
#[derive(Clone, Copy)]
pub struct CotpadCount {
    pub site: u32,
    pub count: u32,
}

/// What an operation is, who made it, and of an insert the first character and how many it has.
#[repr(C)]
#[derive(Clone, Copy)]
pub struct CotpadOperation {
    pub kind: u32,
    pub author: u32,
    pub scalar: u32,
    pub characters: u32,
    pub member: CotpadMember,
}

pub(crate) fn no_member() -> CotpadMember
    ensures { result ≡ no_member }
{
    CotpadMember {
        site: 0,
        number: 0,
        generation: 0,
    }
}

/// No operation is told.
pub(crate) fn no_operation() -> CotpadOperation
    ensures { result ≡ no_operation }
{
    CotpadOperation {
        kind: 0,
        author: 0,
        scalar: 0,
        characters: 0,
        member: no_member(),
    }
}

/// An original has generation 0, which no undo has.
pub(crate) fn member_told(member: Member) -> CotpadMember
    ensures { result ≡ member_told member }
{
    match member {
        Member::Original(name) => named(&name, 0),
        Member::Group(name, generation) => named(&name, generation),
    }
}

fn named(name: &Name, generation: u16) -> CotpadMember
    ensures { result ≡ record { site = name.now.site; number = name.now.number; generation = generation } }
{
    CotpadMember {
        site: u32::from(name.site),
        number: name.number,
        generation: u32::from(generation),
    }
}

/// A site, and no name of it.
pub(crate) fn site_told(site: u16) -> CotpadMember
    ensures { result ≡ site_told site }
{
    CotpadMember {
        site: u32::from(site),
        number: 0,
        generation: 0,
    }
}

// Undos have the odd generations, redos the even ones.
fn turn_kind(generation: u16) -> u32
    ensures { result ≡ turn_kind generation }
{
    if generation % 2 == 0 { REDO } else { UNDO }
}

// The first character of an insert's text.
fn first_of(text: &Letters) -> u32
    ensures { result ≡ first_of text.now }
{
    match text.as_slice().split_first() {
        Some((first, _)) => u32::from(*first),
        None => 0,
    }
}

/// The operation as a host reads it.
pub(crate) fn operation_told(op: &Op) -> CotpadOperation
    ensures { result ≡ operation_told (data_of op.now) }
{
    match op {
        Op::Insert { name, text, .. } => CotpadOperation {
            kind: INSERT,
            author: u32::from(name.site),
            scalar: first_of(text),
            characters: u32::from(text.len()),
            member: named(name, 0),
        },
        Op::Delete { name, .. } => CotpadOperation {
            kind: DELETE,
            author: u32::from(name.site),
            scalar: 0,
            characters: 0,
            member: named(name, 0),
        },
        Op::Undo {
            author,
            target,
            generation,
            ..
        } => CotpadOperation {
            kind: turn_kind(*generation),
            author: u32::from(*author),
            scalar: 0,
            characters: 0,
            member: named(target, *generation),
        },
    }
}
