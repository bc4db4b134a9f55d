//! Forms in a site's cache.

use crate::edits::take_in;
use crate::made::{op_of, ops_of, set_of};
use context_diff::Op;
use cot_site::Site;
use form_cache::Key;
use op_name::{Member, Memory, Name};
use std::alloc::Global;
use std::test::Fail;
use ttf_form::Form;

/// What a new site takes in, the operation whose form its cache is asked for at what it knows, and the place of the form of
/// an insert that is found then, if one is.
struct Row {
    what: &'static str,
    given: &'static str,
    asked: &'static str,
    place: Option<u32>,
}

/// Two inserts of site 2, one of site 1 and one of site 3, all in front of all cells; only site 2 knew of another.
const ALL: &str = "2.1 0 x |; 2.2 0 y | 2.1; 1.1 0 m |; 3.1 0 n |";

const ROWS: [Row; 5] = [
    Row {
        what: "the form in which the last one was executed",
        given: ALL,
        asked: "3.1 0 n | 1.1 2.2",
        place: Some(3),
    },
    Row {
        what: "the form in which the one before was executed",
        given: ALL,
        asked: "1.1 0 m | 2.2",
        place: Some(0),
    },
    Row {
        what: "a context that no site has",
        given: ALL,
        asked: "3.1 0 n | 0.1",
        place: None,
    },
    Row {
        what: "a form in which no operation was executed",
        given: "1.1 0 m |; 2.1 0 x |; 2.2 0 y | 2.1",
        asked: "1.1 0 m | 2.1",
        place: Some(0),
    },
    Row {
        what: "the form of a text behind another one",
        given: "1.1 0 pqr |; 2.1 0 st |",
        asked: "2.1 0 st | 1.1",
        place: Some(3),
    },
];

fn take_all(site: &mut Site, ops: &[Op]) -> Result<(), Fail> {
    for op in ops {
        take_in(site, op)?;
    }
    Ok(())
}

/// What is found in a cache.
#[derive(Clone, Copy)]
enum Found {
    Nothing,
    Insert { place: u32, name: Name },
    Cover,
}

fn kind_of(form: &Form) -> Found {
    match form {
        Form::Ins(ins) => Found::Insert {
            place: ins.place,
            name: ins.name,
        },
        Form::Cover(_) => Found::Cover,
    }
}

fn found_as(form: Option<Form>) -> Found {
    match form {
        Some(form) => kind_of(&form),
        None => Found::Nothing,
    }
}

/// Whether the operation is the insert of this name.
fn is_insert_of(op: &Op, wanted: Name) -> bool {
    match op {
        Op::Insert { name, .. } => *name == wanted,
        _ => false,
    }
}

/// Whether the form of the insert that is asked for is found at this place, or nothing where nothing is wanted.
fn is_right(found: Found, asked: &Op, wanted: Option<u32>) -> bool {
    match found {
        Found::Nothing => wanted.is_none(),
        Found::Insert { place, name } => wanted == Some(place) && is_insert_of(asked, name),
        Found::Cover => false,
    }
}

fn cached(site: &mut Site, ops: &[Op], key: &Key) -> Result<Found, Fail> {
    take_all(site, ops)?;
    Ok(found_as(site.cached(key)))
}

/// What a new site that has taken the operations in finds in its cache.
fn found_in_a_new_site(alloc: Global, ops: &[Op], key: &Key) -> Result<Found, Fail> {
    let mut site = Site::new(alloc, 0)?;
    cached(&mut site, ops, key)
}

/// The key of an insert or a delete at what it knows.
fn key_of(op: &Op) -> Result<Key, Memory> {
    let name = match op {
        Op::Insert { name, .. } => *name,
        Op::Delete { name, .. } => *name,
        Op::Undo { target, .. } => *target,
    };
    Ok(Key {
        member: Member::Original(name),
        context: op.context().try_clone()?,
    })
}

fn answers(alloc: Global, row: &Row) -> Result<bool, Fail> {
    let asked = op_of(alloc, row.asked)?;
    let ops = ops_of(alloc, row.given)?;
    let key = key_of(&asked)?;
    let found = found_in_a_new_site(alloc, ops.as_slice(), &key)?;
    Ok(is_right(found, &asked, row.place))
}

#[test]
fn forms_that_deliveries_computed_are_in_the_cache(rt: HostRuntime) -> Result<(), Fail> {
    for row in &ROWS {
        assert!(rt; answers(rt.alloc(), row)?, "{}", row.what);
    }
    Ok(())
}
