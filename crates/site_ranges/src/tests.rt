//! Each call once, over a site whose user typed, deleted and undid.

use crate::{
    frames_for, frames_from, generation_of, is_in_force, last_undoer, names_in, redo_range,
    undo_range, write_range,
};
use context_diff::Op;
use cot_site::{Local, Site};
use op_name::Name;
use participant::Run;
use std::alloc::Global;
use std::test::Fail;

/// Whether the operation was made.
fn is_made(made: Result<Op, Local>) -> bool {
    made.ok().is_some()
}

/// `aéb` is typed, character by character, `xy` comes behind the `a`, and the `a` is deleted: `xyéb` is shown.
fn typed(alloc: Global) -> Result<Site, Fail> {
    let mut site = Site::new(alloc, 3)?;
    let done = is_made(site.insert(0, 'a'))
        && is_made(site.insert(1, 'é'))
        && is_made(site.insert(2, 'b'))
        && is_made(site.insert_run(1, &['x', 'y']))
        && is_made(site.delete(0));
    if done {
        Ok(site)
    } else {
        Err(Fail::new("an edit was refused"))
    }
}

/// The text of a range, if the range is there.
fn text_of(site: &Site, alloc: Global, place: u32, count: u32) -> Result<Option<Vec<u8>>, Fail> {
    let shown = site.visible_len();
    if place > shown || count > shown - place {
        return Ok(None);
    }
    let mut out = Vec::new(alloc);
    write_range(site, place, count, &mut out)?;
    Ok(Some(out))
}

/// Whether the range is there and has this text.
fn shows(site: &Site, alloc: Global, place: u32, count: u32, text: &str) -> Result<bool, Fail> {
    match text_of(site, alloc, place, count)? {
        Some(bytes) => Ok(bytes.as_slice() == text.as_bytes()),
        None => Ok(false),
    }
}

#[test]
fn a_range_has_its_characters(rt: HostRuntime) -> Result<(), Fail> {
    let alloc = rt.alloc();
    let site = typed(alloc)?;
    assert!(rt; shows(&site, alloc, 0, 4, "xyéb")?);
    assert!(rt; shows(&site, alloc, 1, 2, "yé")?);
    assert!(rt; shows(&site, alloc, 3, 1, "b")?);
    assert!(rt; shows(&site, alloc, 4, 0, "")?);
    Ok(())
}

/// The names of a range, if the range is there.
fn names_of(site: &Site, alloc: Global, place: u32, count: u32) -> Result<Option<Vec<Name>>, Fail> {
    let shown = site.visible_len();
    if place > shown || count > shown - place {
        return Ok(None);
    }
    let mut out = Vec::new(alloc);
    names_in(site, place, count, &mut out)?;
    Ok(Some(out))
}

#[test]
fn a_range_has_the_names_of_its_inserts(rt: HostRuntime) -> Result<(), Fail> {
    let alloc = rt.alloc();
    let site = typed(alloc)?;
    let wanted = [Name { site: 3, number: 4 }, Name { site: 3, number: 2 }];
    let names = names_of(&site, alloc, 0, 3)?;
    let named = match &names {
        Some(names) => names.as_slice() == wanted.as_slice(),
        None => false,
    };
    assert!(rt; named);
    Ok(())
}

/// Turns the operations from index 1 on, if there are so many.
fn turned(site: &mut Site, alloc: Global, redo: bool) -> Result<u32, Fail> {
    let mut released = Vec::new(alloc);
    if site.book().len() < 5 {
        return Err(Fail::new("operations are missing"));
    }
    let run = if redo {
        redo_range(site, 1, 4, &mut released)
    } else {
        undo_range(site, 1, 4, &mut released)
    };
    let Run { made, end } = run;
    if end.is_err() {
        return Err(Fail::new("a turn was refused"));
    }
    Ok(made)
}

/// Whether the name has this generation, and this site was the last to undo or redo it.
fn is_at(site: &Site, name: &Name, generation: u16, undoer: Option<u16>) -> bool {
    generation_of(site, name) == Some(generation)
        && is_in_force(site, name) == Some(generation % 2 == 0)
        && last_undoer(site, name) == undoer
}

/// Whether the site has no insert or delete of the name.
fn lacks(site: &Site, name: &Name) -> bool {
    generation_of(site, name).is_none()
        && is_in_force(site, name).is_none()
        && last_undoer(site, name).is_none()
}

#[test]
fn a_range_is_undone_and_redone(rt: HostRuntime) -> Result<(), Fail> {
    let alloc = rt.alloc();
    let mut site = typed(alloc)?;
    let (first, second) = (Name { site: 3, number: 1 }, Name { site: 3, number: 2 });
    let undone = turned(&mut site, alloc, false)?;
    assert!(rt; undone == 4 && shows(&site, alloc, 0, 1, "a")? && site.visible_len() == 1);
    assert!(rt; is_at(&site, &first, 0, None) && is_at(&site, &second, 1, Some(3)));
    let again = turned(&mut site, alloc, false)?;
    let redone = turned(&mut site, alloc, true)?;
    assert!(rt; again == 0 && redone == 4 && shows(&site, alloc, 0, 4, "xyéb")?);
    assert!(rt; is_at(&site, &second, 2, Some(3)) && lacks(&site, &Name { site: 3, number: 6 }));
    Ok(())
}

/// The frames of two sites' histories are told apart by what the one has.
#[test]
fn a_peer_is_sent_what_it_lacks(rt: HostRuntime) -> Result<(), Fail> {
    let alloc = rt.alloc();
    let site = typed(alloc)?;
    let mut peer = Site::new(alloc, 3)?;
    let done = is_made(peer.insert(0, 'a')) && is_made(peer.insert(1, 'é'));
    let mut rest = Vec::new(alloc);
    frames_from(&site, 2, &mut rest)?;
    let mut lacked = Vec::new(alloc);
    frames_for(&site, peer.vector(), &mut lacked)?;
    let mut none = Vec::new(alloc);
    frames_for(&peer, site.vector(), &mut none)?;
    let mut last = Vec::new(alloc);
    frames_from(&site, 4, &mut last)?;
    assert!(rt; done && rest.as_slice() == lacked.as_slice() && none.is_empty());
    assert!(rt; rest.len() > last.len() && !last.is_empty());
    Ok(())
}
