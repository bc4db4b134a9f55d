//! Report lines with numbers and members that no session of a row reaches.

use crate::made::op_of;
use op_name::{Member, Memory, Name};
use script_text::{Event, local_line, op_line, parse_member, step_line, verdict_line};
use site_answers::{Local, Verdict};
use std::alloc::Global;
use std::test::Fail;
use ttf_form::{Cover, Form, Mark};

/// Messages with their operations, of which a line tells neither the context nor an undo's author.
const MESSAGES: [(u32, &str); 3] = [
    (4_294_967_295, "1023.1000000 0 |"),
    (9, "1.1/65534 0 |"),
    (9, "1.1/65535 0 |"),
];

const MESSAGE_LINES: &str =
    "op 4294967295 delete 1023.1000000\nop 9 redo 1.1/65534\nop 9 undo 1.1/65535\n";

fn put_message(alloc: Global, message: u32, words: &str, out: &mut Vec<u8>) -> Result<(), Fail> {
    let op = op_of(alloc, words)?;
    op_line(message, &op, out)?;
    Ok(())
}

fn put_messages(alloc: Global, out: &mut Vec<u8>) -> Result<(), Fail> {
    for (message, words) in MESSAGES {
        put_message(alloc, message, words, out)?;
    }
    Ok(())
}

#[test]
fn lines_of_messages(rt: HostRuntime) -> Result<(), Fail> {
    let mut out = Vec::new(rt.alloc());
    put_messages(rt.alloc(), &mut out)?;
    assert!(rt; out.as_slice() == MESSAGE_LINES.as_bytes());
    Ok(())
}

fn put_repeat(word: &str, out: &mut Vec<u8>) -> Result<(), Memory> {
    match parse_member(word) {
        Some(member) => verdict_line(Event::Free, 1_023, member, Verdict::Repeat, out),
        None => Ok(()),
    }
}

fn put_number_full(out: &mut Vec<u8>) -> Result<(), Memory> {
    local_line(Local::NumberFull, out)
}

fn put_context_full(entries: u32, out: &mut Vec<u8>) -> Result<(), Memory> {
    local_line(Local::ContextFull { entries }, out)
}

#[test]
fn lines_at_the_limits(rt: HostRuntime) -> Result<(), Memory> {
    let mut out = Vec::new(rt.alloc());
    put_repeat("1023.1000000/65535", &mut out)?;
    put_number_full(&mut out)?;
    put_context_full(16_385, &mut out)?;
    let wanted = "free 1023 repeat 1023.1000000/65535\nno numberfull\nno contextfull 16385\n";
    assert!(rt; out.as_slice() == wanted.as_bytes());
    Ok(())
}

fn put_step(out: &mut Vec<u8>) -> Result<(), Memory> {
    let name = Name { site: 2, number: 1 };
    let mark = Mark::Own { generation: 2 };
    let cover = Form::Cover(Cover { place: 10, mark });
    step_line(12, 1, 11, Member::Group(name, 2), &[], &cover, out)
}

#[test]
fn a_line_of_a_long_explanation(rt: HostRuntime) -> Result<(), Memory> {
    let mut out = Vec::new(rt.alloc());
    put_step(&mut out)?;
    assert!(rt; out.as_slice() == b"12 step 1 11 2.1/2 cover 10\n".as_slice());
    Ok(())
}
