//! How often an insert or a delete was undone and redone, and by whom last.

ghost use Rattle.std.specs.Prelude.{◌≡◌, ◌≢◌, true, false};
ghost use Rattle.op_name.specs.NameData.{NameData, IsName};
ghost use Rattle.op_name.specs.declared.member.Member.TheVariants.{Original};
ghost use Rattle.context_diff.specs.Histories.{generation_in, is_known};
ghost use Rattle.site_ranges.specs.Undoers.{IsLastUndoer};
ghost use Rattle.cotpad_c.specs.declared.status.TheConstants.{OK, UNKNOWN, NO_NAME, NONE};

use crate::edits::name_of;
use crate::status;
use cot_site::Site;
use op_name::Name;

/// Tells how often the insert or delete of this name was undone and redone.
pub(crate) fn generation(site: &Site, name_site: u32, number: u32, generation: &mut u32) -> u32
    ensures known { IsName name_site number
        → is_known site.now.history (Original (record { site = name_site; number = number })) ≡ true
        → (result ≡ OK) × (generation.new ≡ generation_in site.now.history (record { site = name_site; number = number })) }
    ensures unknown { IsName name_site number
        → is_known site.now.history (Original (record { site = name_site; number = number })) ≡ false
        → (result ≡ UNKNOWN) × (generation.new ≡ generation.old) }
    ensures no_name { (IsName name_site number → ⊥) → (result ≡ NO_NAME) × (generation.new ≡ generation.old) }
{
    match name_of(name_site, number) {
        Ok(name) => generation_of(site, &name, generation),
        Err(_) => status::NO_NAME,
    }
}

// The same of a name.
fn generation_of(site: &Site, name: &Name, generation: &mut u32) -> u32
    ensures known { is_known site.now.history (Original name.now) ≡ true
        → (result ≡ OK) × (generation.new ≡ generation_in site.now.history name.now) }
    ensures unknown { is_known site.now.history (Original name.now) ≡ false
        → (result ≡ UNKNOWN) × (generation.new ≡ generation.old) }
{
    match site_ranges::generation_of(site, name) {
        Some(times) => {
            *generation = u32::from(times);
            status::OK
        }
        None => status::UNKNOWN,
    }
}

/// Tells who undid or redid the insert or delete of this name last.
pub(crate) fn undoer(site: &Site, name_site: u32, number: u32, author: &mut u32) -> u32
    ensures turned { IsName name_site number
        → generation_in site.now.history (record { site = name_site; number = number }) ≢ 0
        → (result ≡ OK) × IsLastUndoer site.now.history (record { site = name_site; number = number }) author.new }
    ensures none { IsName name_site number
        → generation_in site.now.history (record { site = name_site; number = number }) ≡ 0
        → (result ≡ NONE) × (author.new ≡ author.old) }
    ensures no_name { (IsName name_site number → ⊥) → (result ≡ NO_NAME) × (author.new ≡ author.old) }
{
    match name_of(name_site, number) {
        Ok(name) => last_undoer(site, &name, author),
        Err(_) => status::NO_NAME,
    }
}

// The same of a name.
fn last_undoer(site: &Site, name: &Name, author: &mut u32) -> u32
    ensures turned { generation_in site.now.history name.now ≢ 0
        → (result ≡ OK) × IsLastUndoer site.now.history name.now author.new }
    ensures none { generation_in site.now.history name.now ≡ 0 → (result ≡ NONE) × (author.new ≡ author.old) }
{
    match site_ranges::last_undoer(site, name) {
        Some(last) => {
            *author = u32::from(last);
            status::OK
        }
        None => status::NONE,
    }
}
