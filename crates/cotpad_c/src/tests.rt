//! What hosts are answered. The frames are examples of version 2 of the format, written by hand.

ghost use Rattle.std.specs.Prelude.{IfOk, IsSome};

use crate::anchors::CotpadAnchor;
use crate::changes::CotpadChange;
use crate::handle::CotpadSite;
use crate::operation::{CotpadCount, CotpadMember, CotpadOperation, no_member, no_operation};
use crate::verdict::{CotpadVerdict, incomplete};
use crate::{exports, kinds, status};
use std::alloc::Global;
use std::mem::size_of;
use std::test::Fail;

/// Insert 0.1 at place 0 of `a`, with an empty context.
const FIRST: &[u8] = &[
    0, 0, 0, 19, 1, 0, 0, 0, 0, 0, 1, 0, 0, 0, 0, 0, 0, 0, 97, 0, 0, 0, 0,
];

/// Insert 0.2 at place 1 of `b`, after 0.1.
const SECOND: &[u8] = &[
    0, 0, 0, 25, 1, 0, 0, 0, 0, 0, 2, 0, 0, 0, 1, 0, 0, 0, 98, 0, 1, 0, 0, 0, 0, 0, 1, 0, 0,
];

#[test]
fn structs_are_as_long_as_the_header_says(rt: HostRuntime) {
    assert_eq!(rt; size_of::<CotpadMember>(), 12);
    assert_eq!(rt; size_of::<CotpadCount>(), 8);
    assert_eq!(rt; size_of::<CotpadOperation>(), 28);
    assert_eq!(rt; size_of::<CotpadVerdict>(), 68);
    assert_eq!(rt; size_of::<CotpadChange>(), 12);
    assert_eq!(rt; size_of::<CotpadAnchor>(), 16);
    assert_eq!(rt; size_of::<CotpadSite>(), 8);
}

#[test]
fn a_handle_is_opened_and_closed(rt: HostRuntime) {
    let alloc = rt.alloc();
    let mut site = CotpadSite::empty(alloc);
    assert_eq!(rt; exports::cotpad_version(), 4);
    assert_eq!(rt;
        exports::cotpad_open(alloc, &mut site, 1_024),
        status::SITE_OUT
    );
    assert_eq!(rt;
        exports::cotpad_open(alloc, &mut site, 65_536),
        status::SITE_OUT
    );
    assert_eq!(rt; exports::cotpad_open(alloc, &mut site, 3), status::OK);
    assert_eq!(rt; exports::cotpad_insert(&mut site, 0, 104), status::OK);
    assert_eq!(rt; exports::cotpad_delete(&mut site, 7), status::PLACE_OUT);
    assert_eq!(rt; exports::cotpad_characters(&mut site), 1);
    exports::cotpad_close(alloc, &mut site);
    site.let_go();
}

/// A site that has done nothing.
fn opened(alloc: Global) -> Result<CotpadSite, Fail>
    ensures { IfOk result (λ s. IsSome s.site) }
{
    let mut site = CotpadSite::empty(alloc);
    if exports::cotpad_open(alloc, &mut site, 5) != status::OK {
        site.let_go();
        return Err(Fail::new("out of memory"));
    }
    Ok(site)
}

#[test]
fn an_insert_is_undone_and_redone(rt: HostRuntime) -> Result<(), Fail> {
    let alloc = rt.alloc();
    let mut told = no_operation();
    let mut site = opened(alloc)?;
    assert_eq!(rt; exports::cotpad_insert(&mut site, 0, 104), status::OK);
    assert_eq!(rt; exports::cotpad_undo(&mut site, 5, 1), status::OK);
    assert_eq!(rt; exports::cotpad_undo(&mut site, 5, 1), status::NOT_IN_FORCE);
    assert_eq!(rt; exports::cotpad_redo(&mut site, 5, 1), status::OK);
    assert_eq!(rt; exports::cotpad_redo(&mut site, 5, 0), status::NO_NAME);
    assert_eq!(rt; exports::cotpad_redo(&mut site, 65_541, 1), status::NO_NAME);
    assert_eq!(rt; exports::cotpad_operations(&mut site), 3);
    assert_eq!(rt;
        exports::cotpad_operation_at(&mut site, 1, &mut told),
        status::OK
    );
    assert_eq!(rt; told.kind, kinds::UNDO);
    assert_eq!(rt; told.author, 5);
    exports::cotpad_close(alloc, &mut site);
    site.let_go();
    Ok(())
}

#[test]
fn a_frame_that_comes_early_waits_and_is_released(rt: HostRuntime) -> Result<(), Fail> {
    let alloc = rt.alloc();
    let mut site = opened(alloc)?;
    let mut verdict = incomplete(0);
    assert_eq!(rt;
        exports::cotpad_receive(alloc, &mut site, SECOND, &mut verdict),
        status::OK
    );
    assert_eq!(rt; verdict.kind, kinds::WAITS);
    assert_eq!(rt; verdict.missing.number, 1);
    assert_eq!(rt; exports::cotpad_waiting(&mut site), 1);
    assert_eq!(rt;
        exports::cotpad_receive(alloc, &mut site, FIRST, &mut verdict),
        status::OK
    );
    assert_eq!(rt; verdict.kind, kinds::INTEGRATED);
    assert_eq!(rt; exports::cotpad_characters(&mut site), 2);
    assert_eq!(rt; exports::cotpad_waiting(&mut site), 0);
    assert_eq!(rt;
        exports::cotpad_release(&mut site, &mut verdict),
        status::NONE
    );
    exports::cotpad_close(alloc, &mut site);
    site.let_go();
    Ok(())
}

#[test]
fn what_a_delivery_frees_is_told(rt: HostRuntime) -> Result<(), Fail> {
    let alloc = rt.alloc();
    let mut site = opened(alloc)?;
    let mut verdict = incomplete(0);
    assert_eq!(rt;
        exports::cotpad_receive(alloc, &mut site, SECOND, &mut verdict),
        status::OK
    );
    assert_eq!(rt; exports::cotpad_released(&mut site), 0);
    assert_eq!(rt;
        exports::cotpad_receive(alloc, &mut site, FIRST, &mut verdict),
        status::OK
    );
    assert_eq!(rt; exports::cotpad_released(&mut site), 1);
    assert_eq!(rt;
        exports::cotpad_released_at(&mut site, 0, &mut verdict),
        status::OK
    );
    assert_eq!(rt; verdict.kind, kinds::INTEGRATED);
    assert_eq!(rt; verdict.operation.kind, 0);
    assert_eq!(rt; verdict.operation.member.number, 2);
    assert_eq!(rt;
        exports::cotpad_released_at(&mut site, 1, &mut verdict),
        status::NONE
    );
    exports::cotpad_close(alloc, &mut site);
    site.let_go();
    Ok(())
}

/// Insert 0.1 of `ab` at place 0, with an empty context.
const BOTH: &[u8] = &[
    0, 0, 0, 25, 4, 0, 0, 0, 0, 0, 1, 0, 0, 0, 0, 0, 2, 0, 0, 0, 97, 0, 0, 0, 98, 0, 0, 0, 0,
];

#[test]
fn an_insert_of_two_characters_is_told(rt: HostRuntime) -> Result<(), Fail> {
    let alloc = rt.alloc();
    let mut site = opened(alloc)?;
    let mut verdict = incomplete(0);
    let mut name = no_member();
    let mut offset = 9;
    assert_eq!(rt;
        exports::cotpad_receive(alloc, &mut site, BOTH, &mut verdict),
        status::OK
    );
    assert_eq!(rt; verdict.kind, kinds::INTEGRATED);
    assert_eq!(rt; verdict.used, 29);
    assert_eq!(rt; verdict.operation.kind, kinds::INSERT);
    assert_eq!(rt; verdict.operation.scalar, 97);
    assert_eq!(rt; verdict.operation.characters, 2);
    assert_eq!(rt; exports::cotpad_characters(&mut site), 2);
    assert_eq!(rt;
        exports::cotpad_name_at(&mut site, 1, &mut name, &mut offset),
        status::OK
    );
    assert_eq!(rt; name.site, 0);
    assert_eq!(rt; name.number, 1);
    assert_eq!(rt; offset, 1);
    exports::cotpad_close(alloc, &mut site);
    site.let_go();
    Ok(())
}

/// Insert 1.1 of `x` at place 9, after 0.1 and the undo of it: there is one cell.
const FAR: &[u8] = &[
    0, 0, 0, 35, 1, 0, 1, 0, 0, 0, 1, 0, 0, 0, 9, 0, 0, 0, 120, 0, 1, 0, 0, 0, 0, 0, 1, 0, 1, 0, 0,
    0, 0, 0, 1, 0, 1, 0, 1,
];

#[test]
fn an_undo_frees_what_waited_for_it(rt: HostRuntime) -> Result<(), Fail> {
    let alloc = rt.alloc();
    let mut site = opened(alloc)?;
    let mut verdict = incomplete(0);
    assert_eq!(rt;
        exports::cotpad_receive(alloc, &mut site, FIRST, &mut verdict),
        status::OK
    );
    assert_eq!(rt;
        exports::cotpad_receive(alloc, &mut site, FAR, &mut verdict),
        status::OK
    );
    assert_eq!(rt; verdict.kind, kinds::WAITS);
    assert_eq!(rt; exports::cotpad_undo(&mut site, 0, 1), status::OK);
    assert_eq!(rt; exports::cotpad_waiting(&mut site), 0);
    assert_eq!(rt;
        exports::cotpad_released_at(&mut site, 0, &mut verdict),
        status::OK
    );
    assert_eq!(rt; verdict.kind, kinds::PLACE_OUT);
    assert_eq!(rt; verdict.place, 9);
    assert_eq!(rt; verdict.cells, 1);
    assert_eq!(rt; exports::cotpad_settle(&mut site), status::OK);
    assert_eq!(rt; exports::cotpad_released(&mut site), 0);
    exports::cotpad_close(alloc, &mut site);
    site.let_go();
    Ok(())
}

#[test]
fn bytes_are_handed_out_where_there_is_room(rt: HostRuntime) -> Result<(), Fail> {
    let alloc = rt.alloc();
    let mut site = opened(alloc)?;
    let mut needed = 0;
    let mut room = [0u8; 23];
    assert_eq!(rt; exports::cotpad_insert(&mut site, 0, 97), status::OK);
    assert_eq!(rt;
        exports::cotpad_frame(alloc, &mut site, 0, &mut room, &mut needed),
        status::OK
    );
    assert_eq!(rt; needed, 23);
    assert_eq!(rt;
        exports::cotpad_frame(alloc, &mut site, 1, &mut room, &mut needed),
        status::NONE
    );
    assert_eq!(rt;
        exports::cotpad_text(alloc, &mut site, &mut room, &mut needed),
        status::OK
    );
    assert_eq!(rt; needed, 1);
    exports::cotpad_close(alloc, &mut site);
    site.let_go();
    Ok(())
}

#[test]
fn a_text_is_inserted_and_a_range_deleted(rt: HostRuntime) -> Result<(), Fail> {
    let alloc = rt.alloc();
    let mut made = 9;
    let mut site = opened(alloc)?;
    assert_eq!(rt;
        exports::cotpad_insert_text(alloc, &mut site, 0, b"t\xC3\xA9a", &mut made),
        status::OK
    );
    assert_eq!(rt; made, 1);
    assert_eq!(rt;
        exports::cotpad_insert_text(alloc, &mut site, 0, b"\xC3", &mut made),
        status::NO_CHARACTER
    );
    assert_eq!(rt; made, 0);
    assert_eq!(rt;
        exports::cotpad_delete_range(&mut site, 2, 2, &mut made),
        status::PLACE_OUT
    );
    assert_eq!(rt;
        exports::cotpad_delete_range(&mut site, 0, 2, &mut made),
        status::OK
    );
    assert_eq!(rt; made, 2);
    assert_eq!(rt; exports::cotpad_characters(&mut site), 1);
    exports::cotpad_close(alloc, &mut site);
    site.let_go();
    Ok(())
}

#[test]
fn a_long_text_is_cut_into_inserts_whose_texts_are_told(rt: HostRuntime) -> Result<(), Fail> {
    let alloc = rt.alloc();
    let mut made = 9;
    let mut needed = 9;
    let mut told = no_operation();
    let mut room = [0u8; 2];
    let mut text = [97u8; 258];
    text[256] = 0xC3;
    text[257] = 0xA9;
    let mut site = opened(alloc)?;
    assert_eq!(rt;
        exports::cotpad_insert_text(alloc, &mut site, 0, &text, &mut made),
        status::OK
    );
    assert_eq!(rt; made, 2);
    assert_eq!(rt; exports::cotpad_characters(&mut site), 257);
    assert_eq!(rt;
        exports::cotpad_operation_at(&mut site, 0, &mut told),
        status::OK
    );
    assert_eq!(rt; told.scalar, 97);
    assert_eq!(rt; told.characters, 256);
    assert_eq!(rt;
        exports::cotpad_operation_text(&mut site, 0, &mut room, &mut needed),
        status::TOO_SHORT
    );
    assert_eq!(rt; needed, 256);
    assert_eq!(rt;
        exports::cotpad_operation_text(&mut site, 1, &mut room, &mut needed),
        status::OK
    );
    assert_eq!(rt; needed, 2);
    assert_eq!(rt; room[0], 0xC3);
    assert_eq!(rt; room[1], 0xA9);
    assert_eq!(rt; exports::cotpad_undo(&mut site, 5, 1), status::OK);
    assert_eq!(rt; exports::cotpad_characters(&mut site), 1);
    assert_eq!(rt;
        exports::cotpad_operation_text(&mut site, 2, &mut room, &mut needed),
        status::OK
    );
    assert_eq!(rt; needed, 0);
    assert_eq!(rt;
        exports::cotpad_operation_text(&mut site, 3, &mut room, &mut needed),
        status::NONE
    );
    exports::cotpad_close(alloc, &mut site);
    site.let_go();
    Ok(())
}

#[test]
fn the_name_at_a_place_is_that_of_the_insert(rt: HostRuntime) -> Result<(), Fail> {
    let alloc = rt.alloc();
    let mut name = no_member();
    let mut offset = 9;
    let mut site = opened(alloc)?;
    assert_eq!(rt; exports::cotpad_insert(&mut site, 0, 98), status::OK);
    assert_eq!(rt; exports::cotpad_insert(&mut site, 0, 97), status::OK);
    assert_eq!(rt;
        exports::cotpad_name_at(&mut site, 1, &mut name, &mut offset),
        status::OK
    );
    assert_eq!(rt; name.site, 5);
    assert_eq!(rt; name.number, 1);
    assert_eq!(rt; offset, 0);
    assert_eq!(rt;
        exports::cotpad_name_at(&mut site, 2, &mut name, &mut offset),
        status::NONE
    );
    exports::cotpad_close(alloc, &mut site);
    site.let_go();
    Ok(())
}

#[test]
fn the_inserts_of_a_range_are_told(rt: HostRuntime) -> Result<(), Fail> {
    let alloc = rt.alloc();
    let mut made = 9;
    let mut needed = 9;
    let mut told = [no_member(), no_member()];
    let mut site = opened(alloc)?;
    // Insert 5.1 of abc, and 5.2 of x behind its c.
    assert_eq!(rt;
        exports::cotpad_insert_text(alloc, &mut site, 0, b"abc", &mut made),
        status::OK
    );
    assert_eq!(rt; exports::cotpad_insert(&mut site, 3, 120), status::OK);
    assert_eq!(rt;
        exports::cotpad_names(alloc, &mut site, 1, 3, &mut told, &mut needed),
        status::OK
    );
    assert_eq!(rt; needed, 2);
    assert_eq!(rt; told[0].number, 1);
    assert_eq!(rt; told[1].site, 5);
    assert_eq!(rt; told[1].number, 2);
    assert_eq!(rt;
        exports::cotpad_names(alloc, &mut site, 2, 3, &mut told, &mut needed),
        status::PLACE_OUT
    );
    exports::cotpad_close(alloc, &mut site);
    site.let_go();
    Ok(())
}

#[test]
fn a_text_of_the_past_is_handed_out(rt: HostRuntime) -> Result<(), Fail> {
    let alloc = rt.alloc();
    let mut needed = 9;
    let mut room = [0u8; 2];
    let mut why = no_member();
    let mut site = opened(alloc)?;
    // Inserts 5.1 of b, 5.2 of a before it, and an undo of 5.1.
    assert_eq!(rt; exports::cotpad_insert(&mut site, 0, 98), status::OK);
    assert_eq!(rt; exports::cotpad_insert(&mut site, 0, 97), status::OK);
    assert_eq!(rt; exports::cotpad_undo(&mut site, 5, 1), status::OK);
    assert_eq!(rt;
        exports::cotpad_text_before(alloc, &mut site, 2, &mut room, &mut needed),
        status::OK
    );
    assert_eq!(rt; needed, 2);
    assert_eq!(rt; room[0], 97);
    assert_eq!(rt;
        exports::cotpad_text_before(alloc, &mut site, 4, &mut room, &mut needed),
        status::NONE
    );
    let both = [CotpadCount { site: 5, count: 2 }];
    let undone = [CotpadMember {
        site: 5,
        number: 1,
        generation: 1,
    }];
    let answer = exports::cotpad_text_at(
        alloc,
        &mut site,
        &both,
        &undone,
        &mut room,
        &mut needed,
        &mut why,
    );
    assert_eq!(rt; answer, status::OK);
    assert_eq!(rt; needed, 1);
    assert_eq!(rt; room[0], 97);
    let none: [CotpadCount; 0] = [];
    let answer = exports::cotpad_text_at(
        alloc,
        &mut site,
        &none,
        &undone,
        &mut room,
        &mut needed,
        &mut why,
    );
    assert_eq!(rt; answer, status::STRAY);
    assert_eq!(rt; why.site, 5);
    assert_eq!(rt; why.number, 1);
    assert_eq!(rt; why.generation, 0);
    let out_of_range = [CotpadCount {
        site: 1_024,
        count: 1,
    }];
    let answer = exports::cotpad_text_at(
        alloc,
        &mut site,
        &out_of_range,
        &undone,
        &mut room,
        &mut needed,
        &mut why,
    );
    assert_eq!(rt; answer, status::NO_SET);
    exports::cotpad_close(alloc, &mut site);
    site.let_go();
    Ok(())
}

fn no_change() -> CotpadChange {
    CotpadChange {
        place: 9,
        removed: 9,
        inserted: 9,
    }
}

#[test]
fn what_changed_is_told_and_read(rt: HostRuntime) -> Result<(), Fail> {
    let alloc = rt.alloc();
    let mut made = 9;
    let mut needed = 9;
    let mut told = [no_change(), no_change()];
    let mut room = [0u8; 3];
    let mut site = opened(alloc)?;
    // Insert 5.1 of abc, a delete of its b, and insert 5.3 of xé at the end.
    assert_eq!(rt;
        exports::cotpad_insert_text(alloc, &mut site, 0, b"abc", &mut made),
        status::OK
    );
    assert_eq!(rt; exports::cotpad_delete(&mut site, 1), status::OK);
    assert_eq!(rt;
        exports::cotpad_insert_text(alloc, &mut site, 2, b"x\xC3\xA9", &mut made),
        status::OK
    );
    assert_eq!(rt;
        exports::cotpad_changes(alloc, &mut site, 1, &mut told[..1], &mut needed),
        status::TOO_SHORT
    );
    assert_eq!(rt; needed, 2);
    assert_eq!(rt;
        exports::cotpad_changes(alloc, &mut site, 1, &mut told, &mut needed),
        status::OK
    );
    assert_eq!(rt; told[0].place, 1);
    assert_eq!(rt; told[0].removed, 1);
    assert_eq!(rt; told[0].inserted, 0);
    assert_eq!(rt; told[1].place, 2);
    assert_eq!(rt; told[1].removed, 0);
    assert_eq!(rt; told[1].inserted, 2);
    assert_eq!(rt;
        exports::cotpad_text_range(alloc, &mut site, 2, 2, &mut room, &mut needed),
        status::OK
    );
    assert_eq!(rt; needed, 3);
    assert_eq!(rt; room[0], 120);
    assert_eq!(rt;
        exports::cotpad_text_range(alloc, &mut site, 3, 2, &mut room, &mut needed),
        status::PLACE_OUT
    );
    assert_eq!(rt;
        exports::cotpad_changes(alloc, &mut site, 4, &mut told, &mut needed),
        status::NONE
    );
    exports::cotpad_close(alloc, &mut site);
    site.let_go();
    Ok(())
}

#[test]
fn an_anchor_keeps_to_a_character(rt: HostRuntime) -> Result<(), Fail> {
    let alloc = rt.alloc();
    let mut place = 9;
    let mut anchor = CotpadAnchor {
        kind: 9,
        site: 9,
        number: 9,
        offset: 9,
    };
    let mut site = opened(alloc)?;
    assert_eq!(rt; exports::cotpad_insert(&mut site, 0, 97), status::OK);
    assert_eq!(rt;
        exports::cotpad_anchor_right(&mut site, 2, &mut anchor),
        status::PLACE_OUT
    );
    assert_eq!(rt;
        exports::cotpad_anchor_place(&mut site, &anchor, &mut place),
        status::NO_NAME
    );
    assert_eq!(rt;
        exports::cotpad_anchor_right(&mut site, 1, &mut anchor),
        status::OK
    );
    assert_eq!(rt; anchor.kind, kinds::END);
    assert_eq!(rt;
        exports::cotpad_anchor_left(&mut site, 1, &mut anchor),
        status::OK
    );
    assert_eq!(rt; anchor.kind, kinds::AFTER);
    assert_eq!(rt; anchor.site, 5);
    assert_eq!(rt; anchor.number, 1);
    assert_eq!(rt; anchor.offset, 0);
    assert_eq!(rt; exports::cotpad_insert(&mut site, 0, 98), status::OK);
    assert_eq!(rt; exports::cotpad_undo(&mut site, 5, 1), status::OK);
    assert_eq!(rt;
        exports::cotpad_anchor_place(&mut site, &anchor, &mut place),
        status::OK
    );
    assert_eq!(rt; place, 1);
    anchor.offset = 1;
    assert_eq!(rt;
        exports::cotpad_anchor_place(&mut site, &anchor, &mut place),
        status::NONE
    );
    exports::cotpad_close(alloc, &mut site);
    site.let_go();
    Ok(())
}

#[test]
fn the_places_of_many_anchors_are_told_together(rt: HostRuntime) -> Result<(), Fail> {
    let alloc = rt.alloc();
    let mut places = [7u32; 5];
    let mut site = opened(alloc)?;
    assert_eq!(rt; exports::cotpad_insert(&mut site, 0, 97), status::OK);
    assert_eq!(rt; exports::cotpad_insert(&mut site, 0, 98), status::OK);
    // Behind the a, at the front, no kind of an anchor, and behind a character that the site hasn't.
    let given = [
        anchor(kinds::AFTER, 1),
        anchor(kinds::START, 0),
        anchor(9, 1),
        anchor(kinds::AFTER, 3),
    ];
    assert_eq!(rt;
        exports::cotpad_anchor_places(alloc, &mut site, &given, &mut places[..3]),
        status::TOO_SHORT
    );
    assert_eq!(rt; places, [7, 7, 7, 7, 7]);
    assert_eq!(rt;
        exports::cotpad_anchor_places(alloc, &mut site, &given, &mut places),
        status::OK
    );
    assert_eq!(rt; places, [2, 0, kinds::NO_PLACE, kinds::NO_PLACE, 7]);
    exports::cotpad_close(alloc, &mut site);
    site.let_go();
    Ok(())
}

/// An anchor at the first character of an insert of site 5.
fn anchor(kind: u32, number: u32) -> CotpadAnchor {
    CotpadAnchor {
        kind,
        site: 5,
        number,
        offset: 0,
    }
}

/// A site whose text has a character of each length in UTF-8 but three, and two lines.
fn written(alloc: Global) -> Result<CotpadSite, Fail>
    ensures { IfOk result (λ s. IsSome s.site) }
{
    let mut made = 0;
    let mut site = opened(alloc)?;
    let text = b"a\xC3\xA9\n\xF0\x9F\x98\x80b";
    if exports::cotpad_insert_text(alloc, &mut site, 0, text, &mut made) != status::OK {
        exports::cotpad_close(alloc, &mut site);
        site.let_go();
        return Err(Fail::new("out of memory"));
    }
    Ok(site)
}

#[test]
fn places_are_told_by_bytes_and_by_units(rt: HostRuntime) -> Result<(), Fail> {
    let alloc = rt.alloc();
    let mut offset = 7u64;
    let mut place = 7;
    let mut site = written(alloc)?;
    assert_eq!(rt;
        exports::cotpad_offset(&mut site, kinds::BYTES, 4, &mut offset),
        status::OK
    );
    assert_eq!(rt; offset, 8);
    assert_eq!(rt;
        exports::cotpad_offset(&mut site, kinds::UNITS, 4, &mut offset),
        status::OK
    );
    assert_eq!(rt; offset, 5);
    assert_eq!(rt;
        exports::cotpad_offset(&mut site, kinds::UNITS, 6, &mut offset),
        status::PLACE_OUT
    );
    assert_eq!(rt;
        exports::cotpad_offset(&mut site, 3, 4, &mut offset),
        status::NO_NAME
    );
    assert_eq!(rt; offset, 5);
    assert_eq!(rt;
        exports::cotpad_place_at(&mut site, kinds::UNITS, 5, &mut place),
        status::OK
    );
    assert_eq!(rt; place, 4);
    assert_eq!(rt;
        exports::cotpad_place_at(&mut site, kinds::BYTES, 3, &mut place),
        status::OK
    );
    assert_eq!(rt; place, 2);
    // Between the two units of a character.
    assert_eq!(rt;
        exports::cotpad_place_at(&mut site, kinds::UNITS, 4, &mut place),
        status::NONE
    );
    assert_eq!(rt; place, 2);
    exports::cotpad_close(alloc, &mut site);
    site.let_go();
    Ok(())
}

#[test]
fn places_are_told_by_lines_and_columns(rt: HostRuntime) -> Result<(), Fail> {
    let alloc = rt.alloc();
    let mut line = 7;
    let mut column = 7;
    let mut place = 7;
    let mut site = written(alloc)?;
    assert_eq!(rt;
        exports::cotpad_line(&mut site, 4, &mut line, &mut column),
        status::OK
    );
    assert_eq!(rt; line, 1);
    assert_eq!(rt; column, 1);
    assert_eq!(rt;
        exports::cotpad_line(&mut site, 6, &mut line, &mut column),
        status::PLACE_OUT
    );
    assert_eq!(rt;
        exports::cotpad_line_place(&mut site, 0, 2, &mut place),
        status::OK
    );
    assert_eq!(rt; place, 2);
    assert_eq!(rt;
        exports::cotpad_line_place(&mut site, 0, 3, &mut place),
        status::NONE
    );
    assert_eq!(rt; place, 2);
    exports::cotpad_close(alloc, &mut site);
    site.let_go();
    Ok(())
}

#[test]
fn how_often_and_by_whom_a_name_was_turned(rt: HostRuntime) -> Result<(), Fail> {
    let alloc = rt.alloc();
    let mut made = 9;
    let mut number = 9;
    let mut site = opened(alloc)?;
    assert_eq!(rt; exports::cotpad_insert(&mut site, 0, 97), status::OK);
    assert_eq!(rt; exports::cotpad_insert(&mut site, 1, 98), status::OK);
    assert_eq!(rt;
        exports::cotpad_undoer(&mut site, 5, 1, &mut number),
        status::NONE
    );
    assert_eq!(rt;
        exports::cotpad_undo_range(&mut site, 0, 2, &mut made),
        status::OK
    );
    assert_eq!(rt; made, 2);
    assert_eq!(rt;
        exports::cotpad_redo_range(&mut site, 1, 1, &mut made),
        status::OK
    );
    assert_eq!(rt; made, 1);
    assert_eq!(rt;
        exports::cotpad_redo_range(&mut site, 4, 2, &mut made),
        status::NONE
    );
    assert_eq!(rt;
        exports::cotpad_generation(&mut site, 5, 2, &mut number),
        status::OK
    );
    assert_eq!(rt; number, 2);
    assert_eq!(rt;
        exports::cotpad_undoer(&mut site, 5, 1, &mut number),
        status::OK
    );
    assert_eq!(rt; number, 5);
    exports::cotpad_close(alloc, &mut site);
    site.let_go();
    Ok(())
}

#[test]
fn frames_are_handed_out_together(rt: HostRuntime) -> Result<(), Fail> {
    let alloc = rt.alloc();
    let mut needed = 9;
    let mut room = [0u8; 60];
    let mut site = opened(alloc)?;
    assert_eq!(rt; exports::cotpad_insert(&mut site, 0, 97), status::OK);
    assert_eq!(rt; exports::cotpad_insert(&mut site, 1, 98), status::OK);
    assert_eq!(rt;
        exports::cotpad_frames(alloc, &mut site, 0, &mut room, &mut needed),
        status::OK
    );
    assert_eq!(rt; needed, 52);
    assert_eq!(rt;
        exports::cotpad_frames(alloc, &mut site, 3, &mut room, &mut needed),
        status::NONE
    );
    let one = [CotpadCount { site: 5, count: 1 }];
    let none: [CotpadMember; 0] = [];
    assert_eq!(rt;
        exports::cotpad_frames_for(alloc, &mut site, &one, &none, &mut room, &mut needed),
        status::OK
    );
    assert_eq!(rt; needed, 29);
    exports::cotpad_close(alloc, &mut site);
    site.let_go();
    Ok(())
}

#[test]
fn a_log_is_saved_and_loaded(rt: HostRuntime) -> Result<(), Fail> {
    let alloc = rt.alloc();
    let mut needed = 0;
    let mut why = incomplete(0);
    let mut log = [0u8; 31];
    let mut site = opened(alloc)?;
    assert_eq!(rt; exports::cotpad_insert(&mut site, 0, 97), status::OK);
    assert_eq!(rt;
        exports::cotpad_save(alloc, &mut site, &mut log, &mut needed),
        status::OK
    );
    assert_eq!(rt; needed, 31);
    exports::cotpad_close(alloc, &mut site);
    let answer = exports::cotpad_load(alloc, &mut site, 3, &log, &mut why);
    if answer == status::OK {
        assert_eq!(rt; exports::cotpad_operations(&mut site), 1);
        exports::cotpad_close(alloc, &mut site);
    }
    site.let_go();
    assert_eq!(rt; answer, status::OK);
    Ok(())
}

#[test]
fn a_log_that_is_cut_is_refused(rt: HostRuntime) {
    let alloc = rt.alloc();
    let mut why = incomplete(0);
    let mut site = CotpadSite::empty(alloc);
    let answer = exports::cotpad_load(alloc, &mut site, 3, b"COTLOG2\n\0\0", &mut why);
    if answer == status::OK {
        exports::cotpad_close(alloc, &mut site);
    }
    site.let_go();
    assert_eq!(rt; answer, status::CUT);
    assert_eq!(rt; why.offset, 8);
}

#[test]
fn an_exchange_sends_what_is_lacked(rt: HostRuntime) {
    let alloc = rt.alloc();
    let mut needed = 0;
    let mut why = incomplete(0);
    let mut first = [0u8; 20];
    let mut second = [0u8; 18];
    let mut third = [0u8; 27];
    let mut joiner = CotpadSite::empty(alloc);
    let mut server = CotpadSite::empty(alloc);
    assert_eq!(rt; exports::cotpad_open(alloc, &mut joiner, 5), status::OK);
    assert_eq!(rt; exports::cotpad_open(alloc, &mut server, 6), status::OK);
    assert_eq!(rt; exports::cotpad_insert(&mut joiner, 0, 97), status::OK);
    assert_eq!(rt;
        exports::cotpad_exchange_offer(alloc, &mut joiner, &mut first, &mut needed),
        status::OK
    );
    let answer = exports::cotpad_exchange_answer(
        alloc,
        &mut server,
        &first,
        &mut second,
        &mut needed,
        &mut why,
    );
    assert_eq!(rt; answer, status::OK);
    let answer = exports::cotpad_exchange_close(
        alloc,
        &mut joiner,
        &second,
        &mut third,
        &mut needed,
        &mut why,
    );
    assert_eq!(rt; answer, status::OK);
    assert_eq!(rt;
        exports::cotpad_exchange_finish(alloc, &mut server, &third, &mut why),
        status::OK
    );
    assert_eq!(rt; exports::cotpad_characters(&mut server), 1);
    assert_eq!(rt;
        exports::cotpad_exchange_finish(alloc, &mut server, &[0, 0, 0, 0], &mut why),
        status::OK
    );
    exports::cotpad_close(alloc, &mut server);
    exports::cotpad_close(alloc, &mut joiner);
    server.let_go();
    joiner.let_go();
}
