//! Events of generated sessions.

ghost use Rattle.std.specs.Prelude.{◌≡◌, ◌<◌, ◌+◌, ◌%◌, ◌∷◌, [], length, slice_get};
ghost use Rattle.context_vector.specs.Contexts.{AreCounts};
ghost use Rattle.cot_site.specs.Sites.{state_of};
ghost use Rattle.participant.specs.Edits.{made_by};
ghost use Rattle.participant.specs.declared.edits.Edit.TheVariants.{Insert};
ghost use Rattle.session_replay.specs.Generating.{drawn_operation, drawn_target, drawn_turn, names_in};
ghost use Rattle.session_replay.specs.Sessions.{site_at};
ghost use Rattle.session_replay.specs.LineSteps.{commanded};
ghost use Rattle.session_replay.specs.Code.Doing.{AreDone};

use crate::draws::Draw;
use crate::sites::Sites;
use context_diff::Letters;
use context_vector::SiteCounts;
use cot_site::Site;
use op_name::{Memory, Name};
use participant::Edit;
use undo_group::in_force;

impl Sites {
    // Does at the site what was drawn for it.
    pub(crate) fn act(&mut self, at: usize, draw: Draw, out: &mut Vec<u8>) -> Result<(), Memory>
        requires { at < length self.old.sites }
        ensures done { AreDone result (commanded at (drawn_operation (site_at self.old at) draw) self.old) self.old self.new out.old.items
            out.new.items }
        ensures sites { length self.new.sites ≡ length self.old.sites }
    {
        let edit = drawn_edit(&self.sites[at], draw);
        self.command(at, &edit, out)?;
        Ok(())
    }
}

// What is drawn for the site.
fn drawn_edit(site: &Site, draw: Draw) -> Edit
    ensures { made_by result (state_of site.now) ≡ drawn_operation (state_of site.now) draw }
{
    site.known();
    let visible = site.visible_len();
    match draw.kind % 16 {
        10..=12 if visible > 0 => Edit::Delete {
            place: draw.place % visible,
        },
        13..=15 => match drawn_target(site, draw.place) {
            Some(name) => turned(site, name),
            None => drawn_insert(visible, draw),
        },
        _ => drawn_insert(visible, draw),
    }
}

// The insert of the drawn letter after some of the shown characters.
fn drawn_insert(visible: u32, draw: Draw) -> Edit
    ensures { result ≡ Insert (draw.place % (visible + 1)) ((97 + draw.letter % 26) ∷ []) }
{
    Edit::Insert {
        place: (u64::from(draw.place) % (u64::from(visible) + 1)) as u32,
        text: Letters::one((b'a' + (draw.letter % 26) as u8) as char),
    }
}

// The undo of an original in force, the redo of any other.
fn turned(site: &Site, name: Name) -> Edit
    ensures { made_by result (state_of site.now) ≡ drawn_turn (state_of site.now) name }
{
    site.known();
    if in_force(site.vector(), &name) {
        Edit::Undo { name }
    } else {
        Edit::Redo { name }
    }
}

// The original at the drawn place, counted round, in the order of names; None where there is no original.
fn drawn_target(site: &Site, place: u32) -> Option<Name>
    ensures { result ≡ drawn_target (state_of site.now) place }
{
    site.known();
    let have = site.vector();
    let originals = have.rank();
    if originals == 0 {
        return None;
    }
    named_at(have.sites_read(), place % originals)
}

// The name at this place among the first originals of the sites.
fn named_at(counts: SiteCounts<'_>, place: u32) -> Option<Name>
    requires { AreCounts 0 counts }
    ensures { result ≡ slice_get (names_in counts.entry) place }
{
    let mut sites = counts;
    let mut left = place;
    while let Some((site, number)) = sites.next() {
        if left < number {
            return Some(Name {
                site,
                number: left + 1,
            });
        }
        left -= number;
    }
    None
}
