//! Sets of members, spelled as in the line of `state`.

ghost use Rattle.std.specs.Prelude.{◌≡◌, ◌<◌, ◌≤◌, ℕ, List, [], true, is_some, Some, None, IfOk, IfSome, MatchOption};
ghost use Rattle.op_name.specs.NameData.{NameData};
ghost use Rattle.op_name.specs.declared.name.TheConstants.{SITES, NUMBERS};
ghost use Rattle.context_vector.specs.Contexts.{ContextData, empty};
ghost use Rattle.script_text.specs.Fields.{cut, tested};
ghost use Rattle.script_text.specs.Sets.{originals_of, site_count_of, undone_of, comes_from, comes_after, counts_of, entries_of, set_of, set_or_empty, IsSetText};

use crate::reading::field::{cut_at_slash, generation, name, number, site};
use crate::reading::items::Items;
use context_vector::Vector;
use op_name::{Memory, NUMBERS, Name};
use std::alloc::Global;

/// Whether the two lists spell a set of members: `S:COUNT` for each site of which the set has originals, sites rising, and `S.N/G` for
/// each undone name with its greatest generation, names rising; items are separated by commas, and an empty list is `-`. Takes no memory.
#[tactic(auto, using(crate::proofs::SetLaws::told_both, crate::proofs::SetLaws::told_none, crate::proofs::SetLaws::set_found, crate::proofs::SetLaws::set_to))]
pub fn spells_set(counts: &str, groups: &str) -> bool
    ensures read { result ≡ is_some (set_of counts.now groups.now) }
    ensures found { result ≡ true → IsSetText counts.now groups.now (set_or_empty counts.now groups.now) }
    ensures only { (c : ContextData) → IsSetText counts.now groups.now c → set_of counts.now groups.now ≡ Some c }
{
    are_counts(counts) && are_entries(groups)
}

/// The set that the two lists spell; the empty one where they spell none.
#[tactic(auto, using(crate::proofs::SetLaws::set_pushed, crate::proofs::SetLaws::nothing_pushed, crate::proofs::SetLaws::no_counts_pushed))]
pub fn read_set(alloc: Global, counts: &str, groups: &str) -> Result<Vector, Memory>
    ensures { IfOk result (λ v. v.set ≡ set_or_empty counts.now groups.now) }
{
    let mut set = Vector::new(alloc);
    if push_counts(counts, &mut set)? && push_entries(groups, &mut set)? {
        Ok(set)
    } else {
        Ok(Vector::new(alloc))
    }
}

// Whether the list is one of sites with their counts, sites rising.
fn are_counts(text: &str) -> bool
    ensures { result ≡ is_some (counts_of text.now) }
{
    let mut items = Items::of(text);
    let mut low = 0;
    while let Some(item) = items.next() {
        let Some((site, _)) = count_from(low, item) else {
            return false;
        };
        low = site + 1;
    }
    true
}

// Whether the list is one of undone names with their generations, names rising.
fn are_entries(text: &str) -> bool
    ensures { result ≡ is_some (entries_of text.now) }
{
    let mut items = Items::of(text);
    let mut last = None;
    while let Some(item) = items.next() {
        let Some((name, _)) = entry_after(&last, item) else {
            return false;
        };
        last = Some(name);
    }
    true
}

// Adds the sites with their counts to an empty set. Answers whether the list is one of them; if not, some may have been added.
fn push_counts(text: &str, set: &mut Vector) -> Result<bool, Memory>
    requires { set.old.set ≡ empty }
    ensures read { IfOk result (λ read. read ≡ is_some (counts_of text.now)) }
    ensures entries { IfOk result (λ read. set.new.set.entries ≡ []) }
    ensures pushed { IfOk result (λ read. (cs : List (ℕ × ℕ)) → counts_of text.now ≡ Some cs → set.new.set ≡ record empty { counts = cs }) }
{
    let mut items = Items::of(text);
    let mut low = 0;
    while let Some(item) = items.next() {
        let Some((site, number)) = count_from(low, item) else {
            return Ok(false);
        };
        set.push_count(site, number)?;
        low = site + 1;
    }
    Ok(true)
}

// Adds the undone names with their generations to a set without any. Answers whether the list is one of them; if not, some may have been
// added.
fn push_entries(text: &str, set: &mut Vector) -> Result<bool, Memory>
    requires { set.old.set.entries ≡ [] }
    ensures read { IfOk result (λ read. read ≡ is_some (entries_of text.now)) }
    ensures pushed { IfOk result (λ read. (es : List (NameData × ℕ)) → entries_of text.now ≡ Some es
        → set.new.set ≡ record set.old.set { entries = es }) }
{
    let mut items = Items::of(text);
    let mut last = None;
    while let Some(item) = items.next() {
        let Some((name, generation)) = entry_after(&last, item) else {
            return Ok(false);
        };
        set.push_entry(name, generation)?;
        last = Some(name);
    }
    Ok(true)
}

// The site with its count that the item spells, if the site is this one or a greater one.
fn count_from(low: u16, item: &str) -> Option<(u16, u32)>
    ensures read { result ≡ tested (comes_from low) site_count_of item.now }
    ensures site { IfSome result (λ p. p.0 < SITES) }
    ensures number { IfSome result (λ p. (1 ≤ p.1) × (p.1 ≤ NUMBERS)) }
{
    let (site, number) = site_count(item)?;
    if low <= site {
        Some((site, number))
    } else {
        None
    }
}

// The undone name with its generation that the item spells, if the name is after the last one.
fn entry_after(last: &Option<Name>, item: &str) -> Option<(Name, u16)>
    ensures read { result ≡ tested (comes_after last.now) undone_of item.now }
    ensures generation { IfSome result (λ e. 1 ≤ e.1) }
{
    let (name, generation) = undone(item)?;
    if is_after(last, &name) {
        Some((name, generation))
    } else {
        None
    }
}

// Whether the name is after the last one, if there is one.
fn is_after(last: &Option<Name>, name: &Name) -> bool
    ensures { (g : ℕ) → result ≡ comes_after last.now (name.now, g) }
{
    match last {
        Some(last) => last.is_before(name),
        None => true,
    }
}

// `S:COUNT`
#[tactic(auto, unfolding(crate::specs::Sets::site_count_of))]
fn site_count(item: &str) -> Option<(u16, u32)>
    ensures read { result ≡ site_count_of item.now }
    ensures site { IfSome result (λ p. p.0 < SITES) }
    ensures number { IfSome result (λ p. (1 ≤ p.1) × (p.1 ≤ NUMBERS)) }
{
    let (first, second) = cut_at_colon(item)?;
    let site = site(first)?;
    let number = originals(second)?;
    Some((site, number))
}

// How many originals of a site a set has, where it has some.
#[tactic(auto, unfolding(crate::specs::Sets::originals_of))]
fn originals(field: &str) -> Option<u32>
    ensures read { result ≡ originals_of field.now }
    ensures range { IfSome result (λ n. (1 ≤ n) × (n ≤ NUMBERS)) }
{
    let number = number(field)?;
    if 1 <= number && number <= NUMBERS {
        Some(number)
    } else {
        None
    }
}

// `S.N/G`
#[tactic(auto, unfolding(crate::specs::Sets::undone_of))]
fn undone(item: &str) -> Option<(Name, u16)>
    ensures read { result ≡ undone_of item.now }
    ensures generation { IfSome result (λ e. 1 ≤ e.1) }
{
    let (first, second) = cut_at_slash(item)?;
    let name = name(first)?;
    let generation = generation(second)?;
    Some((name, generation))
}

// What stands before the first colon and after it.
fn cut_at_colon(text: &str) -> Option<(&str, &str)>
    ensures { MatchOption result (cut 58 text.now ≡ None) (λ p. cut 58 text.now ≡ Some (p.0.now, p.1.now)) }
{
    text.split_once(':')
}
