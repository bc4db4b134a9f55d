//! Scripts that are done whole, or line after line.

use op_name::Memory;
use script_text::{LineBad, parse_line};
use session_replay::{Session, StepBad, replay};
use std::alloc::Global;

const SCRIPT: &[u8] = b"sites 1\nins 0 0 abc\ndel 0 1\nundo 0 0.2\nundo 0 0.4\nshow 0";

const REPORT: &[u8] =
    b"op 0 insert 0.1\nop 1 insert 0.2\nop 2 insert 0.3\nop 3 delete 0.4\nop 4 undo 0.2/1\nop 5 undo 0.4/1\ntext 2 2\nac\n";

#[test]
fn a_script_is_done_whole(rt: HostRuntime) -> Result<(), Memory> {
    let mut out = Vec::new(rt.alloc());
    let refused = replay(rt.alloc(), SCRIPT, &mut out)?;
    assert!(rt; !refused && out.as_slice() == REPORT);
    Ok(())
}

/// As many sites as there may be, and the frame of version 2 of what the last one inserts, once more without its last byte.
const FULL: &[u8] = b"sites 1024\nins 1023 0 a\n\
    raw2 0 000000130103ff00000001000000000000006100000000\
    000000130103ff000000010000000000000061000000\nshow 0";

const FULL_REPORT: &[u8] =
    b"op 0 insert 1023.1\ngive 0 integrated 1023.1\nraw2 0 more 23\ntext 1 1\na\n";

#[test]
fn a_script_of_as_many_sites_as_there_may_be(rt: HostRuntime) -> Result<(), Memory> {
    let mut out = Vec::new(rt.alloc());
    let refused = replay(rt.alloc(), FULL, &mut out)?;
    assert!(rt; !refused && out.as_slice() == FULL_REPORT);
    Ok(())
}

/// Lines, and what a session that does them one after the other answers.
const LINES: [(&str, Result<(), StepBad>); 10] = [
    ("show 0", Err(StepBad::NoSites)),
    ("# nothing", Ok(())),
    ("sites 1", Ok(())),
    ("sites 1024", Err(StepBad::Twice)),
    ("ins 0 0 a", Ok(())),
    ("show 1", Err(StepBad::NoSite)),
    ("raw2 1023 00", Err(StepBad::NoSite)),
    ("raw2 0 00", Ok(())),
    ("give 0 1", Err(StepBad::NoMessage)),
    ("show 0", Ok(())),
];

/// Whether a session answers so on a line.
fn answers(
    alloc: Global,
    session: &mut Session,
    text: &str,
    answer: &Result<(), StepBad>,
    out: &mut Vec<u8>,
) -> Result<bool, LineBad> {
    let line = parse_line(alloc, text.as_bytes())?;
    session.known();
    Ok(session.step(&line, out) == *answer)
}

fn goes_on(alloc: Global, session: &mut Session, out: &mut Vec<u8>) -> Result<bool, LineBad> {
    for (text, answer) in &LINES {
        if !answers(alloc, session, text, answer, out)? {
            return Ok(false);
        }
    }
    Ok(true)
}

#[test]
fn a_session_goes_on_after_a_refused_line(rt: HostRuntime) -> Result<(), LineBad> {
    let mut out = Vec::new(rt.alloc());
    let mut session = Session::new(rt.alloc());
    let right = goes_on(rt.alloc(), &mut session, &mut out)?;
    assert!(rt;
        right && out.as_slice() == b"op 0 insert 0.1\nraw2 0 more 4\ntext 1 1\na\n".as_slice()
    );
    Ok(())
}

/// Whether the session has a site of this number, and it shows this text.
fn is_shown(alloc: Global, session: &Session, number: u16, text: &str) -> bool {
    let mut out = Vec::new(alloc);
    match session.site(number) {
        Some(site) => site.text(&mut out).is_ok() && out.as_slice() == text.as_bytes(),
        None => false,
    }
}

#[test]
fn each_site_of_a_session_is_lent(rt: HostRuntime) -> Result<(), LineBad> {
    let alloc = rt.alloc();
    let mut out = Vec::new(alloc);
    let mut session = Session::new(alloc);
    assert!(rt; session.site(0).is_none());
    assert!(rt; answers(alloc, &mut session, "sites 2", &Ok(()), &mut out)?);
    assert!(rt; answers(alloc, &mut session, "ins 1 0 b", &Ok(()), &mut out)?);
    assert!(rt; is_shown(alloc, &session, 0, "") && is_shown(alloc, &session, 1, "b"));
    assert!(rt; session.site(2).is_none());
    Ok(())
}
