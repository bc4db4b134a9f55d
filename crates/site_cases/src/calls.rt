//! Calls that read a site.

use crate::edits::{Edit, does_all};
use cot_site::Site;
use op_name::Name;
use std::test::Fail;

/// Whether the site has what it has after one insert.
fn has_one_character(site: &Site) -> bool {
    site.known();
    site.number() == 0
        && site.visible_len() == 1
        && site.book().len() == 1
        && site.vector().count(0) == 1
        && site.pool().len() == 0
}

#[test]
fn what_a_site_has(rt: HostRuntime) -> Result<(), Fail> {
    let mut site = Site::new(rt.alloc(), 0)?;
    let done = does_all(&mut site, &[Edit::Insert(0, 'a')]);
    assert!(rt; done && has_one_character(&site));
    Ok(())
}

/// Whether the shown character at this place stands there by this insert.
fn is_named(site: &Site, place: u32, name: Name) -> bool {
    match site.name_at(place) {
        Some(found) => found == name,
        None => false,
    }
}

// `ab` was typed, then `x` in front of it, and the `a` deleted; then a text of two characters came behind the `x`: four are shown.
#[test]
fn a_shown_character_is_named_by_its_insert(rt: HostRuntime) -> Result<(), Fail> {
    let mut site = Site::new(rt.alloc(), 0)?;
    let done = does_all(
        &mut site,
        &[
            Edit::Insert(0, 'a'),
            Edit::Insert(1, 'b'),
            Edit::Insert(0, 'x'),
            Edit::Delete(1),
            Edit::Run(1, 2),
        ],
    );
    let named = is_named(&site, 0, Name { site: 0, number: 3 })
        && is_named(&site, 1, Name { site: 0, number: 5 })
        && is_named(&site, 2, Name { site: 0, number: 5 })
        && is_named(&site, 3, Name { site: 0, number: 2 })
        && site.name_at(4).is_none();
    assert!(rt; done && named);
    Ok(())
}
