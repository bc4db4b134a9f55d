//! The inserts by which a range of shown characters stands in the text.

ghost use Rattle.std.specs.Prelude.{◌≡◌, ◌+◌, ◌≤◌, ◌++◌, ◌∷◌, [], length, take, OnOk, OnErr};
ghost use Rattle.context_diff.specs.Replays.{shown};
ghost use Rattle.site_ranges.specs.Inserts.{is_again, once, names_at};

use cot_site::Site;
use op_name::{Memory, Name};

/// Appends the names of the inserts by which so many shown characters, from the one at `place`, from 0, on, stand in the text, in the
/// order of the text, neighbours of one name once. A name comes again where others' characters stand between. When out of memory, which
/// comes only where there are any, `out` is as it was.
///
/// It costs for each character what `Site::name_at` does.
pub fn names_in(site: &Site, place: u32, count: u32, out: &mut Vec<Name>) -> Result<(), Memory>
    requires { place + count ≤ length (shown site.now.history) }
    ensures ok { OnOk result (out.new.items ≡ out.old.items ++ names_at site.now.history place count) }
    ensures needed { OnErr result (1 ≤ count) }
    ensures err { OnErr result (out.new.items ≡ out.old.items) }
{
    let start = out.len();
    match push_names(site, place, count, out) {
        Ok(()) => Ok(()),
        Err(memory) => {
            out.truncate(start);
            Err(memory)
        }
    }
}

// Appends these names; when out of memory, the first of them.
fn push_names(site: &Site, place: u32, count: u32, out: &mut Vec<Name>) -> Result<(), Memory>
    requires { place + count ≤ length (shown site.now.history) }
    ensures ok { OnOk result (out.new.items ≡ out.old.items ++ names_at site.now.history place count) }
    ensures needed { OnErr result (1 ≤ count) }
    ensures err { OnErr result (take (length out.old.items) out.new.items ≡ out.old.items) }
{
    let _shown = site.visible_len();
    let mut last = None;
    for step in 0..count {
        match site.name_at(place + step) {
            Some(name) => {
                push_once(name, last, out)?;
                last = Some(name);
            }
            None => unreachable!(),
        }
    }
    Ok(())
}

// Appends the name, unless it is the last one.
fn push_once(name: Name, last: Option<Name>, out: &mut Vec<Name>) -> Result<(), Memory>
    ensures ok { OnOk result (out.new.items ≡ out.old.items ++ once last (name ∷ [])) }
    ensures err { OnErr result (out.new.items ≡ out.old.items) }
{
    if !is_again(last, &name) {
        out.push(name)?;
    }
    Ok(())
}

// Whether the name is the last one.
fn is_again(last: Option<Name>, name: &Name) -> bool
    ensures { result ≡ is_again last name.now }
{
    match last {
        Some(before) => before == *name,
        None => false,
    }
}
