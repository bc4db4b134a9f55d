//! Sessions that are drawn from a number.

use op_name::Memory;
use session_replay::{Draws, Generated, MAX_EVENTS, MAX_WINDOW, generate};
use std::alloc::Global;

/// Whether these are the first three numbers from a start.
fn are_drawn(start: u64, kind: u32, place: u32, letter: u32) -> bool {
    let draw = Draws::new(start).event();
    draw.kind == kind && draw.place == place && draw.letter == letter
}

#[test]
fn the_first_draws(rt: HostRuntime) {
    assert!(rt; are_drawn(0, 335_903_614, 436_792_849, 2_599_843_874));
    assert!(rt; are_drawn(u64::MAX, 3_149_104_977, 2_980_664_687, 2_415_005_355));
}

/// What a session is drawn from, and what comes of it: the inserts, deletes, undos and redos, and the text of
/// each site.
struct Drawn {
    why: &'static str,
    start: u64,
    events: u32,
    window: u32,
    syncs: bool,
    counts: [u32; 4],
    texts: &'static [&'static str],
}

const CASES: [Drawn; 2] = [
    Drawn {
        why: "a redo",
        start: 1,
        events: 40,
        window: 3,
        syncs: true,
        counts: [23, 11, 5, 1],
        texts: &["hczpkvgm", "hczpkvgm", "hczpkvgm"],
    },
    Drawn {
        why: "two sites apart",
        start: 7,
        events: 16,
        window: 1,
        syncs: false,
        counts: [14, 1, 1, 0],
        texts: &["kvjbjw", "bblkrm"],
    },
];

/// Whether the site of this number shows the text.
fn is_shown(alloc: Global, made: &Generated, number: u16, text: &str) -> Result<bool, Memory> {
    let mut out = Vec::new(alloc);
    match made.site(number) {
        Some(site) => site.text(&mut out)?,
        None => return Ok(false),
    }
    Ok(out.as_slice() == text.as_bytes())
}

fn are_shown(alloc: Global, made: &Generated, texts: &[&str]) -> Result<bool, Memory> {
    let mut number = 0u16;
    for text in texts {
        if !is_shown(alloc, made, number, text)? {
            return Ok(false);
        }
        number = number.wrapping_add(1);
    }
    Ok(made.site(number).is_none())
}

fn has_counts(made: &Generated, counts: &[u32; 4]) -> bool {
    made.inserts() == counts[0]
        && made.deletes() == counts[1]
        && made.undos() == counts[2]
        && made.redos() == counts[3]
}

/// Whether a session with so many sites comes out as the case says.
fn comes_out(alloc: Global, case: &Drawn, sites: u8) -> Result<bool, Memory> {
    if sites < 1 || 4 < sites || MAX_EVENTS < case.events {
        return Ok(false);
    }
    if case.window < 1 || MAX_WINDOW < case.window {
        return Ok(false);
    }
    let made = generate(
        alloc,
        case.start,
        case.events,
        case.window,
        sites,
        case.syncs,
    )?;
    Ok(has_counts(&made, &case.counts) && are_shown(alloc, &made, case.texts)?)
}

#[test]
fn sessions_are_drawn_from_a_number(rt: HostRuntime) -> Result<(), Memory> {
    for case in &CASES {
        let sites = case.texts.len() as u8;
        assert!(rt; comes_out(rt.alloc(), case, sites)?, "{}", case.why);
    }
    Ok(())
}

fn are_a_pair(alloc: Global) -> Result<bool, Memory> {
    let (first, second) = generate(alloc, 7, 16, 1, 2, false)?.into_pair();
    Ok(
        first.number() == 0
            && second.number() == 1
            && first.book().len() == 8
            && second.book().len() == 8,
    )
}

#[test]
fn two_sites_are_taken_as_a_pair(rt: HostRuntime) -> Result<(), Memory> {
    let right = are_a_pair(rt.alloc())?;
    assert!(rt; right);
    Ok(())
}
