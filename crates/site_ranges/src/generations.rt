//! Generations of originals, and who made the last undo or redo of one.

ghost use Rattle.std.specs.Prelude.{◌≡◌, ◌↔◌, true, false, IsNone, IfSome};
ghost use Rattle.op_name.specs.declared.member.Member.TheVariants.{Original, Group};
ghost use Rattle.context_diff.specs.Histories.{generation_in, in_force, is_known};
ghost use Rattle.site_ranges.specs.Undoers.{IsUndoer, IsLastUndoer};

use context_diff::{Book, Op};
use cot_site::Site;
use op_name::{Member, Name};
use undo_group::generation;

/// How often the insert or delete of this name was undone or redone: its generation, 0 if it never was. None exactly where the history
/// has no insert or delete of that name.
///
/// It costs a look into the site's counts and one into its undone names: no history is looked through.
pub fn generation_of(site: &Site, name: &Name) -> Option<u16>
    ensures none { IsNone result ↔ (is_known site.now.history (Original name.now) ≡ false) }
    ensures generation { IfSome result (λ g. g ≡ generation_in site.now.history name.now) }
{
    site.known();
    let have = site.vector();
    if have.contains(&Member::Original(*name)) {
        Some(generation(have, name))
    } else {
        None
    }
}

/// Whether the insert or delete of this name is in force: not undone, or redone. None exactly where the history has no insert or delete
/// of that name. It costs what `generation_of` does.
pub fn is_in_force(site: &Site, name: &Name) -> Option<bool>
    ensures none { IsNone result ↔ (is_known site.now.history (Original name.now) ≡ false) }
    ensures force { IfSome result (λ b. b ≡ in_force site.now.history name.now) }
{
    match generation_of(site, name) {
        Some(generation) => Some(generation % 2 == 0),
        None => None,
    }
}

/// The site that made the last undo or redo of the insert or delete of this name: that of its greatest generation. None exactly where
/// the history has none of it.
///
/// It costs what `generation_of` does, and a look into the index of the history's undo groups.
pub fn last_undoer(site: &Site, name: &Name) -> Option<u16>
    ensures none { IsNone result ↔ (generation_in site.now.history name.now ≡ 0) }
    ensures author { IfSome result (IsLastUndoer site.now.history name.now) }
{
    site.known();
    match generation(site.vector(), name) {
        0 => None,
        last => Some(author_of(site.book(), name, last)),
    }
}

// The site that made the undo or redo at this generation, which the book has.
fn author_of(book: &Book, target: &Name, generation: u16) -> u16
    requires { is_known book.now.ops (Group target.now generation) ≡ true }
    ensures { IsUndoer book.now.ops target.now generation result }
{
    book.known();
    match book.place_of(&Member::Group(*target, generation)) {
        Some(place) => match book.op(place as u32) {
            Some(Op::Undo { author, .. }) => *author,
            _ => unreachable!(),
        },
        None => unreachable!(),
    }
}
