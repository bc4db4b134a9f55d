//! Operations, contexts and bytes of tests, spelled as words.
//!
//! `0.2 1 b | 0.1` is insert 0.2 of `b` at place 1, made after 0.1 and what comes before it at its site, as `0.2 1 bcd | 0.1` is that of
//! a longer text; `0.3 0 | 0.2` is a delete at place 0; and `0.2/1 3 | 0.3 1.1` is the first undo of 0.2, by site 3.

use context_diff::{Letters, Op};
use context_vector::Vector;
use op_name::{Member, Memory, Name};
use script_text::{parse_member, parse_number};
use std::alloc::Global;
use std::test::Fail;

/// What an operation does.
#[derive(Clone, Copy)]
enum Act {
    /// Name and place, of an insert.
    Insert(Name, u32),
    /// Name and place.
    Delete(Name, u32),
    /// Author, target and generation.
    Turn(u16, Name, u16),
}

/// What the words say: a member, a number, and after these the text of an insert.
fn act_of(text: &str) -> Option<Act> {
    let mut words = text.split(' ');
    let member = parse_member(words.next()?)?;
    let number = parse_number(words.next()?)?;
    match member {
        Member::Group(name, generation) => {
            let author = u16::try_from(number).ok()?;
            Some(Act::Turn(author, name, generation))
        }
        Member::Original(name) => match words.next() {
            Some(_) => Some(Act::Insert(name, number)),
            None => Some(Act::Delete(name, number)),
        },
    }
}

/// Adds the member and all below it.
pub(crate) fn raise(set: &mut Vector, member: &Member) -> Result<(), Memory> {
    match member {
        Member::Original(name) => set.raise(&Member::Original(*name)),
        Member::Group(name, generation) if *generation > 0 => {
            set.raise(&Member::Group(*name, *generation))
        }
        Member::Group(_, _) => Ok(()),
    }
}

fn raise_all(set: &mut Vector, members: &str) -> Result<(), Fail> {
    for word in members.split(' ') {
        if let Some(member) = parse_member(word) {
            raise(set, &member)?;
        }
    }
    Ok(())
}

/// The set of these members and all below them.
pub(crate) fn set_of(alloc: Global, members: &str) -> Result<Vector, Fail> {
    let mut set = Vector::new(alloc);
    raise_all(&mut set, members)?;
    Ok(set)
}

/// The text of an insert.
fn letters_of(alloc: Global, text: &str) -> Result<Letters, Fail> {
    let mut chars = Vec::new(alloc);
    for ch in text.chars() {
        chars.push(ch)?;
    }
    match Letters::new(alloc, &chars) {
        Ok(letters) => Ok(letters),
        Err(_) => Err(Fail::new("the word is no text of an insert")),
    }
}

/// The last word.
fn last_of(words: &str) -> &str {
    match words.rsplit_once(' ') {
        Some((_, last)) => last,
        None => words,
    }
}

fn insert_of(alloc: Global, name: Name, place: u32, text: &str, known: &str) -> Result<Op, Fail> {
    let text = letters_of(alloc, text)?;
    Ok(Op::Insert {
        name,
        place,
        text,
        context: set_of(alloc, known)?,
    })
}

fn delete_of(alloc: Global, name: Name, place: u32, known: &str) -> Result<Op, Fail> {
    Ok(Op::Delete {
        name,
        place,
        context: set_of(alloc, known)?,
    })
}

fn undo_of(
    alloc: Global,
    author: u16,
    target: Name,
    generation: u16,
    known: &str,
) -> Result<Op, Fail> {
    Ok(Op::Undo {
        author,
        target,
        generation,
        context: set_of(alloc, known)?,
    })
}

/// The operation that the words spell.
pub(crate) fn op_of(alloc: Global, words: &str) -> Result<Op, Fail> {
    let Some((does, known)) = words.split_once(" |") else {
        return Err(Fail::new("an operation has a context"));
    };
    let Some(act) = act_of(does) else {
        return Err(Fail::new("the words spell no operation"));
    };
    match act {
        Act::Insert(name, place) => insert_of(alloc, name, place, last_of(does), known),
        Act::Delete(name, place) => delete_of(alloc, name, place, known),
        Act::Turn(author, name, generation) => undo_of(alloc, author, name, generation, known),
    }
}

fn put_ops(alloc: Global, words: &str, ops: &mut Vec<Op>) -> Result<(), Fail> {
    for one in words.split("; ") {
        if one.len() > 0 {
            ops.push(op_of(alloc, one)?)?;
        }
    }
    Ok(())
}

/// The operations that the words spell, each after `; ` but the first.
pub(crate) fn ops_of(alloc: Global, words: &str) -> Result<Vec<Op>, Fail> {
    let mut ops = Vec::new(alloc);
    put_ops(alloc, words, &mut ops)?;
    Ok(ops)
}

/// The bytes that the hexadecimal digits spell.
pub(crate) fn bytes_of(alloc: Global, digits: &str) -> Result<Vec<u8>, Fail> {
    match hex::decode(alloc, digits) {
        Ok(bytes) => Ok(bytes),
        Err(_) => Err(Fail::new("no hexadecimal digits")),
    }
}
