//! What a site's user does and what others send it, each with the releases after it. The operations were worked out by hand.

use crate::made::op_of;
use cot_site::Site;
use op_name::Name;
use participant::{
    Edit, Run, Stopped, Taking, delete_range, do_edit, insert_runs, insert_text, redo_all, take_in,
    undo_all,
};
use site_answers::{Local, Release, Verdict};
use std::alloc::Global;
use std::test::Fail;

/// The number of operations that a whole run made.
fn whole(run: Run) -> Option<u32> {
    match run.end {
        Ok(()) => Some(run.made),
        Err(_) => None,
    }
}

/// The number of operations before a refusal, and its reason.
fn refused(run: Run) -> Option<(u32, Local)> {
    let made = run.made;
    match run.end {
        Err(Stopped::Refused { why }) => Some((made, why)),
        _ => None,
    }
}

fn shows(alloc: Global, site: &Site, wanted: &str) -> Result<bool, Fail> {
    let mut out = Vec::new(alloc);
    site.text(&mut out)?;
    Ok(out.as_slice() == wanted.as_bytes())
}

/// Takes an operation in, spelled as words.
fn taken(
    alloc: Global,
    site: &mut Site,
    words: &str,
    taking: Taking,
    released: &mut Vec<Release>,
) -> Result<Verdict, Fail> {
    let mut op = op_of(alloc, words)?;
    if op.fault().is_some() {
        return Err(Fail::new("the operation isn't well formed"));
    }
    match take_in(site, &mut op, taking, released) {
        Ok(verdict) => Ok(verdict),
        Err(_) => Err(Fail::new("out of memory")),
    }
}

#[test]
fn a_text_is_typed_and_a_range_is_deleted(rt: HostRuntime) -> Result<(), Fail> {
    let alloc = rt.alloc();
    let mut site = Site::new(alloc, 2)?;
    let mut released = Vec::new(alloc);
    let run = insert_text(&mut site, 1, "ab", &mut released);
    let (place, visible) = (1, 0);
    assert_eq!(rt; refused(run), Some((0, Local::PlaceOut { place, visible })));
    let run = insert_text(&mut site, 1, "", &mut released);
    assert_eq!(rt; whole(run), Some(0));
    let run = insert_text(&mut site, 0, "tea", &mut released);
    assert_eq!(rt; whole(run), Some(3));
    let run = delete_range(&mut site, 1, 3, &mut released);
    let (place, visible) = (3, 3);
    assert_eq!(rt; refused(run), Some((0, Local::PlaceOut { place, visible })));
    let run = delete_range(&mut site, 4, 0, &mut released);
    let (place, visible) = (4, 3);
    assert_eq!(rt; refused(run), Some((0, Local::PlaceOut { place, visible })));
    assert!(rt; shows(alloc, &site, "tea")?);
    let run = delete_range(&mut site, 0, 2, &mut released);
    assert_eq!(rt; whole(run), Some(2));
    assert!(rt; shows(alloc, &site, "a")?);
    assert_eq!(rt; released.len(), 0);
    Ok(())
}

#[test]
fn a_long_text_is_as_few_operations_as_it_can_be(rt: HostRuntime) -> Result<(), Fail> {
    let alloc = rt.alloc();
    let mut site = Site::new(alloc, 2)?;
    let mut released = Vec::new(alloc);
    let run = insert_runs(&mut site, 0, &['x'; 513], &mut released);
    assert_eq!(rt; whole(run), Some(3));
    assert_eq!(rt; site.visible_len(), 513);
    let run = insert_runs(&mut site, 514, &['y'; 2], &mut released);
    let (place, visible) = (514, 513);
    assert_eq!(rt; refused(run), Some((0, Local::PlaceOut { place, visible })));
    let run = undo_all(&mut site, &[Name { site: 2, number: 2 }], &mut released);
    assert_eq!(rt; whole(run), Some(1));
    assert_eq!(rt; site.visible_len(), 257);
    Ok(())
}

#[test]
fn names_are_undone_and_redone_but_those_that_are_so_already(rt: HostRuntime) -> Result<(), Fail> {
    let alloc = rt.alloc();
    let mut site = Site::new(alloc, 2)?;
    let mut released = Vec::new(alloc);
    let run = insert_text(&mut site, 0, "tea", &mut released);
    assert_eq!(rt; whole(run), Some(3));
    let (Some(t), Some(e), Some(a)) = (site.name_at(0), site.name_at(1), site.name_at(2)) else {
        return Err(Fail::new("three characters are shown"));
    };
    let run = undo_all(&mut site, &[e, e], &mut released);
    assert_eq!(rt; whole(run), Some(1));
    assert!(rt; shows(alloc, &site, "ta")?);
    let run = undo_all(&mut site, &[t, e, a], &mut released);
    assert_eq!(rt; whole(run), Some(2));
    assert!(rt; shows(alloc, &site, "")?);
    let run = redo_all(&mut site, &[a, e], &mut released);
    assert_eq!(rt; whole(run), Some(2));
    assert!(rt; shows(alloc, &site, "ea")?);
    let run = undo_all(
        &mut site,
        &[a, Name { site: 0, number: 1 }, e],
        &mut released,
    );
    let name = Name { site: 0, number: 1 };
    assert_eq!(rt; refused(run), Some((1, Local::Unknown { name })));
    assert!(rt; shows(alloc, &site, "a")?);
    Ok(())
}

#[test]
fn what_is_taken_in_goes_by_the_verdict(rt: HostRuntime) -> Result<(), Fail> {
    let alloc = rt.alloc();
    let mut site = Site::new(alloc, 2)?;
    let mut released = Vec::new(alloc);
    let list = &mut released;
    taken(alloc, &mut site, "0.2 1 b | 0.1", Taking::Had, list)?;
    assert_eq!(rt; site.pool().len(), 0);
    taken(alloc, &mut site, "0.2 1 b | 0.1", Taking::Unrefused, list)?;
    assert_eq!(rt; site.pool().len(), 1);
    taken(alloc, &mut site, "0.2 1 c | 0.1", Taking::Unrefused, list)?;
    assert_eq!(rt; site.pool().len(), 1);
    let verdict = taken(alloc, &mut site, "0.1 0 a |", Taking::Had, list)?;
    assert_eq!(rt; verdict, Verdict::Integrated);
    assert_eq!(rt; list.len(), 1);
    assert_eq!(rt; list[0].verdict, Verdict::Integrated);
    let verdict = taken(alloc, &mut site, "0.2 1 b | 0.1", Taking::All, list)?;
    assert_eq!(rt; verdict, Verdict::Repeat);
    assert_eq!(rt; list.len(), 1);
    assert!(rt; shows(alloc, &site, "ab")?);
    Ok(())
}

#[test]
fn an_edit_tells_what_it_frees(rt: HostRuntime) -> Result<(), Fail> {
    let alloc = rt.alloc();
    let mut site = Site::new(alloc, 2)?;
    let mut released = Vec::new(alloc);
    let list = &mut released;
    taken(alloc, &mut site, "0.1 0 a |", Taking::All, list)?;
    taken(alloc, &mut site, "1.1 9 x | 0.1 0.1/1", Taking::All, list)?;
    assert_eq!(rt; site.pool().len(), 1);
    let name = Name { site: 0, number: 1 };
    assert!(rt; do_edit(&mut site, &Edit::Undo { name }, list).is_ok());
    assert_eq!(rt; site.pool().len(), 0);
    assert_eq!(rt; list.len(), 1);
    let (place, cells) = (9, 1);
    assert_eq!(rt; list[0].verdict, Verdict::PlaceOut { place, cells });
    Ok(())
}
