//! What the user of a site does, each edit with the releases after it.

ghost use Rattle.std.specs.Prelude.{◌≡◌, ◌↔◌, IsOk, IfOk};
ghost use Rattle.std.specs.Char.{IsScalar};
ghost use Rattle.op_name.specs.NameData.{NameData, IsName};
ghost use Rattle.cot_site.specs.Commands.{local_insert, local_delete, local_undo, local_redo};
ghost use Rattle.cot_site.specs.Sites.{state_of};
ghost use Rattle.participant.specs.Reached.{from};
ghost use Rattle.cotpad_c.specs.declared.status.TheConstants.{NO_CHARACTER, NO_NAME};
ghost use Rattle.cotpad_c.specs.Hosting.{hosting, reached};
ghost use Rattle.cotpad_c.specs.Statuses.{Did};

use crate::hosted::Hosted;
use crate::status;
use context_diff::Letters;
use op_name::{Name, NameBad, SITES};
use participant::Edit;

/// Inserts a character after so many shown ones.
pub(crate) fn insert(hosted: &mut Hosted, place: u32, scalar: u32) -> u32
    ensures done { IsScalar scalar → Did result (local_insert (state_of hosted.old.site) place scalar) (from (state_of hosted.old.site))
        (reached hosted.new) }
    ensures no_character { (IsScalar scalar → ⊥) → (result ≡ NO_CHARACTER) × (hosted.new ≡ hosting hosted.old.site) }
{
    hosted.forget();
    match char::from_u32(scalar) {
        Some(ch) => hosted.edit(&Edit::Insert {
            place,
            text: Letters::one(ch),
        }),
        None => status::NO_CHARACTER,
    }
}

/// Deletes a shown character.
pub(crate) fn delete(hosted: &mut Hosted, place: u32) -> u32
    ensures { Did result (local_delete (state_of hosted.old.site) place) (from (state_of hosted.old.site)) (reached hosted.new) }
{
    hosted.forget();
    hosted.edit(&Edit::Delete { place })
}

/// Undoes an insert or delete.
pub(crate) fn undo(hosted: &mut Hosted, author: u32, number: u32) -> u32
    ensures done { IsName author number
        → Did result (local_undo (state_of hosted.old.site) (record { site = author; number = number })) (from (state_of hosted.old.site))
        (reached hosted.new) }
    ensures no_name { (IsName author number → ⊥) → (result ≡ NO_NAME) × (hosted.new ≡ hosting hosted.old.site) }
{
    hosted.forget();
    match name_of(author, number) {
        Ok(name) => hosted.edit(&Edit::Undo { name }),
        Err(_) => status::NO_NAME,
    }
}

/// Redoes an insert or delete.
pub(crate) fn redo(hosted: &mut Hosted, author: u32, number: u32) -> u32
    ensures done { IsName author number
        → Did result (local_redo (state_of hosted.old.site) (record { site = author; number = number })) (from (state_of hosted.old.site))
        (reached hosted.new) }
    ensures no_name { (IsName author number → ⊥) → (result ≡ NO_NAME) × (hosted.new ≡ hosting hosted.old.site) }
{
    hosted.forget();
    match name_of(author, number) {
        Ok(name) => hosted.edit(&Edit::Redo { name }),
        Err(_) => status::NO_NAME,
    }
}

/// The name, refused exactly where a part is out of range.
pub(crate) fn name_of(author: u32, number: u32) -> Result<Name, NameBad>
    ensures accepted { IsOk result ↔ IsName author number }
    ensures site { IfOk result (λ n. n.site ≡ author) }
    ensures number { IfOk result (λ n. n.number ≡ number) }
{
    if author >= u32::from(SITES) {
        return Err(NameBad);
    }
    Name::new(author as u16, number)
}
