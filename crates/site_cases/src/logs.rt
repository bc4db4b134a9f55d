//! Logs of both versions that are loaded whole, and listed.

use cot_site::Site;
use op_name::Memory;
use session_log::{LogBad, MAX_LOG, Placed, load, read_log, refused_log_line, write_log};
use std::alloc::Global;
use wire_codec::Version;

/// Letters, with what they stand for in a log of version 1 and of version 2.
const PIECES: [(char, &[u8], &[u8]); 20] = [
    ('H', b"COTLOG1\n", b"COTLOG2\n"),
    // Insert 0.1 of `a` at place 0, which knows nothing, and its front.
    (
        'A',
        b"\x00\x00\x00\x11\x01\x00\x00\x00\x00\x01\x00\x00\x00\x00\x00\x00\x00\x61\x00\x00\x00",
        b"\x00\x00\x00\x13\x01\x00\x00\x00\x00\x00\x01\x00\x00\x00\x00\x00\x00\x00\x61\x00\x00\x00\x00",
    ),
    (
        'a',
        b"\x00\x00\x00\x11\x01\x00\x00\x00\x00\x01\x00\x00\x00\x00\x00\x00\x00\x61\x00\x00",
        b"\x00\x00\x00\x13\x01\x00\x00\x00\x00\x00\x01\x00\x00\x00\x00\x00\x00\x00\x61\x00",
    ),
    // Insert 0.2 of `b` at place 1 after it, and its front.
    (
        'B',
        b"\x00\x00\x00\x16\x01\x00\x00\x00\x00\x02\x00\x00\x00\x01\x00\x00\x00\x62\x01\x00\x00\x00\x00\x01\
        \x00\x00",
        b"\x00\x00\x00\x19\x01\x00\x00\x00\x00\x00\x02\x00\x00\x00\x01\x00\x00\x00\x62\x00\x01\x00\x00\x00\
        \x00\x00\x01\x00\x00",
    ),
    (
        'b',
        b"\x00\x00\x00\x16\x01\x00\x00\x00\x00\x02\x00\x00\x00\x01\x00\x00\x00\x62\x01\x00",
        b"\x00\x00\x00\x19\x01\x00\x00\x00\x00\x00\x02\x00\x00\x00\x01\x00\x00\x00\x62\x00",
    ),
    // Insert 0.1 again, of `b`.
    (
        'F',
        b"\x00\x00\x00\x11\x01\x00\x00\x00\x00\x01\x00\x00\x00\x00\x00\x00\x00\x62\x00\x00\x00",
        b"\x00\x00\x00\x13\x01\x00\x00\x00\x00\x00\x01\x00\x00\x00\x00\x00\x00\x00\x62\x00\x00\x00\x00",
    ),
    // Insert 0.2 of `b` at place 5 after 0.1, which has one cell.
    (
        'O',
        b"\x00\x00\x00\x16\x01\x00\x00\x00\x00\x02\x00\x00\x00\x05\x00\x00\x00\x62\x01\x00\x00\x00\x00\x01\
        \x00\x00",
        b"\x00\x00\x00\x19\x01\x00\x00\x00\x00\x00\x02\x00\x00\x00\x05\x00\x00\x00\x62\x00\x01\x00\x00\x00\
        \x00\x00\x01\x00\x00",
    ),
    // Insert 1.2 of `c` at place 0 after 1.1.
    (
        'W',
        b"\x00\x00\x00\x16\x01\x01\x00\x00\x00\x02\x00\x00\x00\x00\x00\x00\x00\x63\x01\x01\x00\x00\x00\x01\
        \x00\x00",
        b"\x00\x00\x00\x19\x01\x00\x01\x00\x00\x00\x02\x00\x00\x00\x00\x00\x00\x00\x63\x00\x01\x00\x01\x00\
        \x00\x00\x01\x00\x00",
    ),
    // Insert 1.1 of `pq` at place 0, which knows nothing, and all of it but a byte.
    (
        'R',
        b"\x00\x00\x00\x17\x04\x01\x00\x00\x00\x01\x00\x00\x00\x00\x00\x02\x00\x00\x00\x70\x00\x00\x00\x71\
        \x00\x00\x00",
        b"\x00\x00\x00\x19\x04\x00\x01\x00\x00\x00\x01\x00\x00\x00\x00\x00\x02\x00\x00\x00\x70\x00\x00\x00\
        \x71\x00\x00\x00\x00",
    ),
    (
        'r',
        b"\x00\x00\x00\x17\x04\x01\x00\x00\x00\x01\x00\x00\x00\x00\x00\x02\x00\x00\x00\x70\x00\x00\x00\x71\
        \x00\x00",
        b"\x00\x00\x00\x19\x04\x00\x01\x00\x00\x00\x01\x00\x00\x00\x00\x00\x02\x00\x00\x00\x70\x00\x00\x00\
        \x71\x00\x00\x00",
    ),
    // Undos of 0.1 and of 0.2, one after the other, and insert 0.3 of `c` at place 0 after both: in version 2 they are one run.
    (
        'U',
        b"\x00\x00\x00\x11\x03\x00\x00\x00\x00\x00\x01\x00\x01\x01\x00\x00\x00\x00\x02\x00\x00",
        b"\x00\x00\x00\x15\x03\x00\x00\x00\x00\x00\x00\x00\x01\x00\x01\x00\x01\x00\x00\x00\x00\x00\x02\x00\
        \x00",
    ),
    (
        'V',
        b"\x00\x00\x00\x18\x03\x00\x00\x00\x00\x00\x02\x00\x01\x01\x00\x00\x00\x00\x02\x00\x01\x00\x00\x00\
        \x00\x01\x00\x01",
        b"\x00\x00\x00\x1f\x03\x00\x00\x00\x00\x00\x00\x00\x02\x00\x01\x00\x01\x00\x00\x00\x00\x00\x02\x00\
        \x01\x00\x00\x00\x00\x00\x01\x00\x01\x00\x01",
    ),
    (
        'C',
        b"\x00\x00\x00\x24\x01\x00\x00\x00\x00\x03\x00\x00\x00\x00\x00\x00\x00\x63\x01\x00\x00\x00\x00\x02\
        \x00\x02\x00\x00\x00\x00\x01\x00\x01\x00\x00\x00\x00\x02\x00\x01",
        b"\x00\x00\x00\x23\x01\x00\x00\x00\x00\x00\x03\x00\x00\x00\x00\x00\x00\x00\x63\x00\x01\x00\x00\x00\
        \x00\x00\x02\x00\x01\x00\x00\x00\x00\x00\x01\x00\x02\x00\x01",
    ),
    // The first three bytes of a frame, and a body of a kind that is none.
    ('c', b"\x00\x00\x00", b"\x00\x00\x00"),
    ('K', b"\x00\x00\x00\x01\x09", b"\x00\x00\x00\x01\x09"),
    // Other headers.
    ('x', b"COTLOG", b"COTLOG"),
    ('y', b"COTLOG1", b"COTLOG2"),
    ('v', b"COTVEC1\n", b"COTVEC2\n"),
    ('t', b"COTLOG1\t\n", b"COTLOG2\t\n"),
    ('z', b"COTLOG0\n", b"COTLOG3\n"),
];

fn piece_of(version: Version, letter: char) -> &'static [u8] {
    for (name, first, second) in PIECES {
        if name == letter {
            return match version {
                Version::One => first,
                Version::Two => second,
            };
        }
    }
    b""
}

/// Logs, and what comes of each: the log of version 2 that the site writes then, or the lines that say why there is none, of a
/// log of version 1 and of one of version 2.
const LOGS: [(&str, &str, &str, &str); 28] = [
    ("H", "H", "", ""),
    ("HAB", "HAB", "", ""),
    ("HBA", "HAB", "", ""),
    ("HB", "HB", "", ""),
    ("HBBAA", "HAB", "", ""),
    ("HWA", "HAW", "", ""),
    ("HR", "HR", "", ""),
    ("HWARR", "HARW", "", ""),
    ("HABUVC", "HABUVC", "", ""),
    ("HCVUBA", "HABUVC", "", ""),
    ("HAr", "", "refused log cut 29\n", "refused log cut 31\n"),
    (
        "HAF",
        "",
        "refused log op 29 forged 0.1\n",
        "refused log op 31 forged 0.1\n",
    ),
    (
        "HAO",
        "",
        "refused log op 29 placeout 0.2 5 1\n",
        "refused log op 31 placeout 0.2 5 1\n",
    ),
    (
        "HOA",
        "",
        "refused log op 34 placeout 0.2 5 1\n",
        "refused log op 37 placeout 0.2 5 1\n",
    ),
    ("Ha", "", "refused log cut 8\n", "refused log cut 8\n"),
    ("Hb", "", "refused log cut 8\n", "refused log cut 8\n"),
    ("HAa", "", "refused log cut 29\n", "refused log cut 31\n"),
    ("HAb", "", "refused log cut 29\n", "refused log cut 31\n"),
    (
        "HAK",
        "",
        "refused log bad 33 kind\n",
        "refused log bad 35 kind\n",
    ),
    (
        "HAKB",
        "",
        "refused log bad 33 kind\n",
        "refused log bad 35 kind\n",
    ),
    (
        "HAFK",
        "",
        "refused log bad 54 kind\n",
        "refused log bad 58 kind\n",
    ),
    ("HAFb", "", "refused log cut 50\n", "refused log cut 54\n"),
    ("", "", "refused log header\n", "refused log header\n"),
    ("x", "", "refused log header\n", "refused log header\n"),
    ("y", "", "refused log header\n", "refused log header\n"),
    ("v", "", "refused log header\n", "refused log header\n"),
    ("t", "", "refused log header\n", "refused log header\n"),
    ("zA", "", "refused log header\n", "refused log header\n"),
];

fn put_pieces(version: Version, letters: &str, bytes: &mut Vec<u8>) -> Result<(), Memory> {
    for letter in letters.chars() {
        bytes.extend_from_slice(piece_of(version, letter))?;
    }
    Ok(())
}

/// The bytes of the pieces, one after the other.
fn log_of(alloc: Global, version: Version, letters: &str) -> Result<Vec<u8>, Memory> {
    let mut bytes = Vec::new(alloc);
    put_pieces(version, letters, &mut bytes)?;
    Ok(bytes)
}

fn tell(answer: &Result<Site, LogBad>, out: &mut Vec<u8>) -> Result<(), Memory> {
    match answer {
        Ok(site) => write_log(site, out),
        Err(LogBad::Memory) => Err(Memory),
        Err(why) => refused_log_line(*why, out),
    }
}

/// The log of the site, or the line that says why there is none.
fn told(alloc: Global, answer: &Result<Site, LogBad>) -> Result<Vec<u8>, Memory> {
    let mut out = Vec::new(alloc);
    tell(answer, &mut out)?;
    Ok(out)
}

/// The same of the site that the bytes make.
fn told_of(alloc: Global, bytes: &[u8]) -> Result<Vec<u8>, Memory> {
    if bytes.len() > MAX_LOG {
        return Err(Memory);
    }
    let answer = load(alloc, 3, bytes);
    told(alloc, &answer)
}

/// Whether the log of this version gives the other log, of version 2, or else the line.
fn gives(
    alloc: Global,
    version: Version,
    letters: &str,
    written: &str,
    line: &str,
) -> Result<bool, Memory> {
    let bytes = log_of(alloc, version, letters)?;
    let mut wanted = log_of(alloc, Version::Two, written)?;
    wanted.extend_from_slice(line.as_bytes())?;
    let told = told_of(alloc, bytes.as_slice())?;
    Ok(told.as_slice() == wanted.as_slice())
}

#[test]
fn logs_are_loaded(rt: HostRuntime) -> Result<(), Memory> {
    for (letters, written, first, second) in &LOGS {
        assert!(rt;
            gives(rt.alloc(), Version::One, letters, written, first)?,
            "{letters}"
        );
        assert!(rt;
            gives(rt.alloc(), Version::Two, letters, written, second)?,
            "{letters}"
        );
    }
    Ok(())
}

/// The offset at which the reading of the log is refused by Cut; its operations are appended.
fn cut_at(bytes: &[u8], out: &mut Vec<Placed>) -> Option<u32> {
    if bytes.len() > MAX_LOG {
        return None;
    }
    match read_log(bytes, out) {
        Err(LogBad::Cut { offset }) => Some(offset),
        _ => None,
    }
}

/// Where a log is cut, if a reading of the good one lists two operations, the last one there, and one of the other nothing more.
fn cut_after_two(good: &[u8], cut: &[u8], last: u32, out: &mut Vec<Placed>) -> Option<u32> {
    let listed = cut_at(good, out).is_none();
    let at = cut_at(cut, out);
    let is_last = match out.as_slice().last() {
        Some(placed) => placed.offset == last,
        None => false,
    };
    if listed && out.len() == 2 && is_last {
        at
    } else {
        None
    }
}

/// Whether it is cut there, behind one operation, where the last of the good log's stands at the other offset.
fn lists_two(alloc: Global, version: Version, last: u32, wanted: u32) -> Result<bool, Memory> {
    let good = log_of(alloc, version, "HBA")?;
    let cut = log_of(alloc, version, "HAc")?;
    let mut out = Vec::new(alloc);
    let at = cut_after_two(good.as_slice(), cut.as_slice(), last, &mut out);
    Ok(at == Some(wanted))
}

#[test]
fn a_refused_reading_lists_nothing(rt: HostRuntime) -> Result<(), Memory> {
    assert!(rt; lists_two(rt.alloc(), Version::One, 34, 29)?);
    assert!(rt; lists_two(rt.alloc(), Version::Two, 37, 31)?);
    Ok(())
}
