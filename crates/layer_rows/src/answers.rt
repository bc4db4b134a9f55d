//! Answers as text.

use context_diff::Op;
use context_vector::Vector;
use op_name::{Member, Memory, Name};
use ttf_form::{Form, Ins, Mark};

/// Appends a number.
pub(crate) fn put_number(out: &mut String, number: u64) -> Result<(), Memory> {
    write!(out, "{number}")?;
    Ok(())
}

/// Appends `yes` or `no`.
pub(crate) fn put_truth(out: &mut String, is_so: bool) -> Result<(), Memory> {
    out.push_str(if is_so { "yes" } else { "no" })?;
    Ok(())
}

/// Appends a number, or `none`.
pub(crate) fn put_found(out: &mut String, number: Option<u32>) -> Result<(), Memory> {
    match number {
        Some(number) => put_number(out, u64::from(number)),
        None => put_none(out),
    }
}

/// Appends `none`.
pub(crate) fn put_none(out: &mut String) -> Result<(), Memory> {
    out.push_str("none")?;
    Ok(())
}

/// Appends a blank and a number.
pub(crate) fn put_further(out: &mut String, number: u64) -> Result<(), Memory> {
    out.push(' ')?;
    put_number(out, number)
}

/// Appends a name as `SITE.NUMBER`.
pub(crate) fn put_name(out: &mut String, name: &Name) -> Result<(), Memory> {
    put_number(out, u64::from(name.site))?;
    out.push('.')?;
    put_number(out, u64::from(name.number))
}

/// Appends a name with a generation, as `SITE.NUMBER/GENERATION`.
pub(crate) fn put_turn(out: &mut String, name: &Name, generation: u16) -> Result<(), Memory> {
    put_name(out, name)?;
    out.push('/')?;
    put_number(out, u64::from(generation))
}

/// Appends a member.
pub(crate) fn put_member(out: &mut String, member: &Member) -> Result<(), Memory> {
    match member {
        Member::Original(name) => put_name(out, name),
        Member::Group(name, generation) => put_turn(out, name, *generation),
    }
}

/// Appends a member, or `none`.
pub(crate) fn put_any_member(out: &mut String, member: &Option<Member>) -> Result<(), Memory> {
    match member {
        Some(member) => put_member(out, member),
        None => put_none(out),
    }
}

/// Appends a comma where something stands there already.
fn put_comma(out: &mut String, from: usize) -> Result<(), Memory> {
    if out.len() > from {
        out.push(',')?;
    }
    Ok(())
}

fn put_counts(out: &mut String, from: usize, set: &Vector) -> Result<(), Memory> {
    let mut left = set.sites_read();
    while let Some((site, number)) = left.next() {
        put_comma(out, from)?;
        put_number(out, u64::from(site))?;
        out.push('.')?;
        put_number(out, u64::from(number))?;
    }
    Ok(())
}

fn put_entries(out: &mut String, from: usize, set: &Vector) -> Result<(), Memory> {
    let mut left = set.names_read();
    while let Some((name, generation)) = left.next() {
        put_comma(out, from)?;
        put_turn(out, &name, generation)?;
    }
    Ok(())
}

/// Appends a set: the last original of each site and the last group of each undone name, or `-`.
pub(crate) fn put_set(out: &mut String, set: &Vector) -> Result<(), Memory> {
    let from = out.len();
    put_counts(out, from, set)?;
    put_entries(out, from, set)?;
    if out.len() == from {
        out.push('-')?;
    }
    Ok(())
}

fn put_mark(out: &mut String, mark: &Mark) -> Result<(), Memory> {
    match mark {
        Mark::Own { generation } => {
            out.push_str(" own")?;
            put_further(out, u64::from(*generation))
        }
        Mark::By { name, generation } => {
            out.push_str(" by ")?;
            put_turn(out, name, *generation)
        }
    }
}

/// Appends a blank and the characters.
fn put_text(out: &mut String, text: &[char]) -> Result<(), Memory> {
    out.push(' ')?;
    for ch in text {
        out.push(*ch)?;
    }
    Ok(())
}

/// Appends an insert: `ins PLACE NAME` of one cell, `run PLACE LENGTH NAME` of more.
fn put_ins(out: &mut String, ins: &Ins) -> Result<(), Memory> {
    out.push_str(if ins.len == 1 { "ins" } else { "run" })?;
    put_further(out, u64::from(ins.place))?;
    if ins.len != 1 {
        put_further(out, u64::from(ins.len))?;
    }
    out.push(' ')?;
    put_name(out, &ins.name)
}

/// Appends a form.
pub(crate) fn put_form(out: &mut String, form: &Form) -> Result<(), Memory> {
    match form {
        Form::Ins(ins) => put_ins(out, ins),
        Form::Cover(cover) => {
            out.push_str("cover")?;
            put_further(out, u64::from(cover.place))?;
            put_mark(out, &cover.mark)
        }
    }
}

// All of an operation but its context.
fn put_parts(out: &mut String, op: &Op) -> Result<(), Memory> {
    match op {
        Op::Insert {
            name,
            place,
            text,
            ..
        } => {
            out.push_str("insert ")?;
            put_name(out, name)?;
            put_further(out, u64::from(*place))?;
            put_text(out, text.as_slice())
        }
        Op::Delete { name, place, .. } => {
            out.push_str("delete ")?;
            put_name(out, name)?;
            put_further(out, u64::from(*place))
        }
        Op::Undo {
            author,
            target,
            generation,
            ..
        } => {
            out.push_str("undo")?;
            put_further(out, u64::from(*author))?;
            out.push(' ')?;
            put_name(out, target)?;
            put_further(out, u64::from(*generation))
        }
    }
}

/// Appends an operation.
pub(crate) fn put_op(out: &mut String, op: &Op) -> Result<(), Memory> {
    put_parts(out, op)?;
    out.push(' ')?;
    put_set(out, op.context())
}

/// Appends an operation, or `none`.
pub(crate) fn put_any_op(out: &mut String, op: Option<&Op>) -> Result<(), Memory> {
    match op {
        Some(op) => put_op(out, op),
        None => put_none(out),
    }
}
