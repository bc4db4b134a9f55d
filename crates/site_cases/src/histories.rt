//! The texts of small histories, by their definition: worked sessions, where sites worked at one time in a second order too,
//! and closed contexts that no site which shows its text would have had.

use crate::made::ops_of;
use context_diff::Op;
use fixed_replay::{plain_characters, plain_text};
use op_name::Memory;
use std::alloc::Global;
use std::test::Fail;

/// What a history shows, its operations in an order in which a site may have taken them in, and their text.
const HISTORIES: [(&str, &str, &str); 47] = [
    ("nothing", "", ""),
    (
        "characters of one, two and four bytes",
        "0.1 0 a |; 0.2 1 é | 0.1; 0.3 2 😀 | 0.2",
        "aé😀",
    ),
    (
        "a delete between two inserts",
        "0.1 0 a |; 0.2 1 b | 0.1; 0.3 2 c | 0.2; 0.4 1 | 0.3; 1.1 2 x | 0.3; 2.1 1 y | 0.3",
        "ayxc",
    ),
    (
        "the same, as the last site took it in",
        "0.1 0 a |; 0.2 1 b | 0.1; 0.3 2 c | 0.2; 2.1 1 y | 0.3; 0.4 1 | 0.3; 1.1 2 x | 0.3",
        "ayxc",
    ),
    ("two inserts at one place", "1.1 0 p |; 2.1 0 q |", "pq"),
    ("the same in the other order", "2.1 0 q |; 1.1 0 p |", "pq"),
    (
        "two characters of one site among others",
        "2.1 0 x |; 2.2 1 y | 2.1; 1.1 0 m |; 3.1 0 n |",
        "mxyn",
    ),
    (
        "the same in another order",
        "1.1 0 m |; 2.1 0 x |; 2.2 1 y | 2.1; 3.1 0 n |",
        "mxyn",
    ),
    (
        "a second character in front of the first",
        "2.1 0 x |; 2.2 0 y | 2.1; 1.1 0 m |; 3.1 0 n |",
        "myxn",
    ),
    (
        "the same in another order",
        "3.1 0 n |; 1.1 0 m |; 2.1 0 x |; 2.2 0 y | 2.1",
        "myxn",
    ),
    (
        "an undo that two sites made",
        "0.1 0 a |; 0.2 1 b | 0.1; 0.3 2 c | 0.2; 0.2/1 0 | 0.3",
        "ac",
    ),
    (
        "the same, redone",
        "0.1 0 a |; 0.2 1 b | 0.1; 0.3 2 c | 0.2; 0.2/1 0 | 0.3; 0.2/2 1 | 0.3 0.2/1",
        "abc",
    ),
    (
        "a redo that one of the two sites had made",
        "0.1 0 a |; 0.2 1 b | 0.1; 0.3 2 c | 0.2; 0.2/1 1 | 0.3; 0.2/2 0 | 0.3 0.2/1",
        "abc",
    ),
    (
        "two deletes of one character, one undone",
        "0.1 0 a |; 0.2 1 b | 0.1; 0.3 2 c | 0.2; 0.4 1 | 0.3; 1.1 1 | 0.3; 0.4/1 0 | 0.4 1.1",
        "ac",
    ),
    (
        "the same in the other order",
        "0.1 0 a |; 0.2 1 b | 0.1; 0.3 2 c | 0.2; 1.1 1 | 0.3; 0.4 1 | 0.3; 0.4/1 0 | 0.4 1.1",
        "ac",
    ),
    (
        "both undone",
        "0.1 0 a |; 0.2 1 b | 0.1; 0.3 2 c | 0.2; 0.4 1 | 0.3; 1.1 1 | 0.3; 0.4/1 0 | 0.4 1.1; 1.1/1 0 | 0.4 1.1 0.4/1",
        "abc",
    ),
    (
        "the insert undone, and its delete",
        "0.1 0 a |; 0.2 1 b | 0.1; 0.3 2 c | 0.2; 0.4 1 | 0.3; 0.2/1 0 | 0.4; 0.4/1 0 | 0.4 0.2/1",
        "ac",
    ),
    (
        "four sites at one place, of which two know one other",
        "0.1 0 ( |; 0.2 1 ) | 0.1; 2.1 1 q | 0.2; 4.1 2 s | 0.2 2.1; 1.1 1 p | 0.2; 3.1 1 r | 0.2 1.1",
        "(rpqs)",
    ),
    (
        "the same in another order",
        "0.1 0 ( |; 0.2 1 ) | 0.1; 1.1 1 p | 0.2; 3.1 1 r | 0.2 1.1; 2.1 1 q | 0.2; 4.1 2 s | 0.2 2.1",
        "(rpqs)",
    ),
    (
        "one knows the first of two, and goes in front",
        "2.1 0 x |; 2.2 0 y | 2.1; 3.1 0 n | 2.1; 1.1 1 m | 2.1; 1.2 0 k | 1.1 2.2",
        "kynxm",
    ),
    (
        "equal ranks after other operations",
        "0.1 0 a |; 1.1 0 b |; 2.1 1 c | 0.1; 3.1 1 d | 1.1; 0.2 0 e | 0.1; 1.2 1 f | 1.1",
        "eabfcd",
    ),
    (
        "one goes after what the other has not seen",
        "1.1 0 a |; 0.1 1 b | 1.1; 2.1 0 c |; 3.1 2 d | 1.1 2.1",
        "abcd",
    ),
    (
        "three deletes of one character, two undone",
        "0.1 0 a |; 0.2 1 b | 0.1; 0.3 2 c | 0.2; 1.1 1 | 0.3; 2.1 1 | 0.3; 3.1 1 | 0.3; 1.1/1 0 | 0.3 1.1; 2.1/1 0 | 0.3 1.1 2.1",
        "ac",
    ),
    (
        "all three undone",
        "0.1 0 a |; 0.2 1 b | 0.1; 0.3 2 c | 0.2; 1.1 1 | 0.3; 2.1 1 | 0.3; 3.1 1 | 0.3; 1.1/1 0 | 0.3 1.1; \
            2.1/1 0 | 0.3 1.1 2.1; 3.1/1 1 | 0.3 1.1 3.1",
        "abc",
    ),
    (
        "and one of them redone",
        "0.1 0 a |; 0.2 1 b | 0.1; 0.3 2 c | 0.2; 1.1 1 | 0.3; 2.1 1 | 0.3; 3.1 1 | 0.3; 1.1/1 0 | 0.3 1.1; \
            2.1/1 0 | 0.3 1.1 2.1; 3.1/1 1 | 0.3 1.1 3.1; 1.1/2 2 | 0.3 1.1 1.1/1",
        "ac",
    ),
    (
        "deletes that know one character each",
        "0.1 0 a |; 1.1 0 b |; 0.2 0 c | 0.1; 2.1 0 | 0.1; 3.1 1 | 0.1 1.1",
        "c",
    ),
    (
        "hidden cells count in places",
        "0.1 0 a |; 0.2 1 b | 0.1; 0.3 2 c | 0.2; 0.4 0 | 0.3; 0.2/1 1 | 0.3; 2.1 2 x | 0.4 0.2/1; 1.1 3 | 0.4 2.1 0.2/1",
        "x",
    ),
    (
        "a character is undone, deleted and redone",
        "0.1 0 a |; 0.2 1 b | 0.1; 0.3 2 c | 0.2; 0.2/1 1 | 0.2; 2.1 1 | 0.2 0.2/1; 0.2/2 1 | 0.3 0.2/1",
        "ac",
    ),
    (
        "one knows the first of two, and goes in front, in another order",
        "2.1 0 x |; 1.1 1 m | 2.1; 2.2 0 y | 2.1; 1.2 0 k | 1.1 2.2; 3.1 0 n | 2.1",
        "kynxm",
    ),
    (
        "equal ranks after other operations, in another order",
        "1.1 0 b |; 1.2 1 f | 1.1; 3.1 1 d | 1.1; 0.1 0 a |; 0.2 0 e | 0.1; 2.1 1 c | 0.1",
        "eabfcd",
    ),
    (
        "one goes after what the other doesn't know, in another order",
        "2.1 0 c |; 1.1 0 a |; 3.1 2 d | 1.1 2.1; 0.1 1 b | 1.1",
        "abcd",
    ),
    (
        "three deletes of one character, undone by those who know some, and one redone",
        "0.1 0 a |; 0.2 1 b | 0.1; 0.3 2 c | 0.2; 1.1 1 | 0.3; 2.1 1 | 0.3; 3.1 1 | 0.3; 1.1/1 0 | 0.3 1.1; \
            2.1/1 0 | 0.3 1.1 2.1; 3.1/1 0 | 0.3 1.1 3.1; 1.1/2 0 | 0.3 1.1 1.1/1",
        "ac",
    ),
    (
        "three deletes of one character, undone by those who know some, and one redone, in another order",
        "0.1 0 a |; 0.2 1 b | 0.1; 0.3 2 c | 0.2; 3.1 1 | 0.3; 1.1 1 | 0.3; 3.1/1 0 | 0.3 1.1 3.1; \
            1.1/1 0 | 0.3 1.1; 1.1/2 0 | 0.3 1.1 1.1/1; 2.1 1 | 0.3; 2.1/1 0 | 0.3 1.1 2.1",
        "ac",
    ),
    (
        "deletes that know one character each, in another order",
        "1.1 0 b |; 0.1 0 a |; 3.1 1 | 0.1 1.1; 2.1 0 | 0.1; 0.2 0 c | 0.1",
        "c",
    ),
    (
        "hidden cells count in places",
        "0.1 0 a |; 0.2 1 b | 0.1; 0.3 2 c | 0.2; 0.4 0 | 0.3; 0.2/1 0 | 0.3; 2.1 2 x | 0.4 0.2/1; 1.1 3 | 0.4 2.1 0.2/1",
        "x",
    ),
    (
        "hidden cells count in places, in another order",
        "0.1 0 a |; 0.2 1 b | 0.1; 0.3 2 c | 0.2; 0.2/1 0 | 0.3; 0.4 0 | 0.3; 2.1 2 x | 0.4 0.2/1; 1.1 3 | 0.4 2.1 0.2/1",
        "x",
    ),
    (
        "a character is undone, deleted and redone",
        "0.1 0 a |; 0.2 1 b | 0.1; 0.3 2 c | 0.2; 0.2/1 0 | 0.2; 2.1 1 | 0.2 0.2/1; 0.2/2 0 | 0.3 0.2/1",
        "ac",
    ),
    (
        "a character is undone, deleted and redone, in another order",
        "0.1 0 a |; 0.2 1 b | 0.1; 0.2/1 0 | 0.2; 2.1 1 | 0.2 0.2/1; 0.3 2 c | 0.2; 0.2/2 0 | 0.3 0.2/1",
        "ac",
    ),
    (
        "a text within another of which one character was deleted",
        "0.1 0 abc |; 0.2 1 | 0.1; 1.1 2 xy | 0.1",
        "axyc",
    ),
    (
        "the first text undone",
        "0.1 0 abc |; 0.2 1 | 0.1; 1.1 2 xy | 0.1; 0.1/1 0 | 0.2 1.1",
        "xy",
    ),
    (
        "the first text redone",
        "0.1 0 abc |; 1.1 2 xy | 0.1; 0.2 1 | 0.1; 0.1/1 0 | 0.2; 0.1/2 1 | 0.2 1.1 0.1/1",
        "axyc",
    ),
    (
        "a text of one of three sites at one place",
        "2.1 0 rs |; 1.1 0 pq |; 3.1 0 z |",
        "pqrsz",
    ),
    (
        "the same in another order",
        "3.1 0 z |; 1.1 0 pq |; 2.1 0 rs |",
        "pqrsz",
    ),
    (
        "texts of three sites within a text, of which one knows another",
        "0.1 0 ab |; 2.1 1 rs | 0.1; 1.1 2 pq | 0.1 2.1; 3.1 1 xyz | 0.1",
        "arpqsxyzb",
    ),
    (
        "the same in another order, with the text in the middle undone",
        "0.1 0 ab |; 3.1 1 xyz | 0.1; 2.1 1 rs | 0.1; 1.1 2 pq | 0.1 2.1; 2.1/1 3 | 0.1 2.1 3.1",
        "apqxyzb",
    ),
    (
        "deletes at both ends and in the middle of a text that others part",
        "0.1 0 abcde |; 1.1 1 x | 0.1; 1.2 5 y | 0.1 1.1; 2.1 0 | 0.1; 2.2 2 | 0.1 2.1; 2.3 4 | 0.1 2.2",
        "xbdy",
    ),
    (
        "and the one in the middle undone",
        "0.1 0 abcde |; 2.1 0 | 0.1; 2.2 2 | 0.1 2.1; 2.3 4 | 0.1 2.2; 2.2/1 3 | 0.1 2.3; 1.1 1 x | 0.1; 1.2 5 y | 0.1 1.1",
        "xbcdy",
    ),
];

fn has_plain_text(alloc: Global, ops: &[Op], text: &str) -> Result<bool, Memory> {
    let plain = plain_text(alloc, ops)?;
    Ok(plain.as_str() == text)
}

/// Whether the operations that are spelled so show this text.
fn show(alloc: Global, words: &str, text: &str) -> Result<bool, Fail> {
    let ops = ops_of(alloc, words)?;
    Ok(has_plain_text(alloc, ops.as_slice(), text)?)
}

#[test]
fn histories_show_their_texts(rt: HostRuntime) -> Result<(), Fail> {
    for (why, words, text) in &HISTORIES {
        assert!(rt; show(rt.alloc(), words, text)?, "{why}");
    }
    Ok(())
}

fn are_characters(alloc: Global, ops: &[Op], wanted: &[char]) -> Result<bool, Memory> {
    let characters = plain_characters(alloc, ops)?;
    Ok(characters.as_slice() == wanted)
}

#[test]
fn characters_are_those_of_the_text(rt: HostRuntime) -> Result<(), Fail> {
    let ops = ops_of(rt.alloc(), "0.1 0 a |; 0.2 1 éß | 0.1; 0.3 2 😀 | 0.2")?;
    let right = are_characters(rt.alloc(), ops.as_slice(), &['a', 'é', '😀', 'ß'])?;
    assert!(rt; right);
    Ok(())
}
