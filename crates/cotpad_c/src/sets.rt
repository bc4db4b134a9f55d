//! Sets of members, as a host gives them: how many inserts and deletes of each site, and the undone names.

ghost use Rattle.std.specs.Prelude.{◌≡◌, ◌<◌, ◌≤◌, ◌↔◌, [], IsTrue, IfOk};
ghost use Rattle.op_name.specs.NameData.{IsName, name_lt};
ghost use Rattle.op_name.specs.declared.name.TheConstants.{SITES, NUMBERS};
ghost use Rattle.op_name.specs.declared.member.TheConstants.{GENERATIONS};
ghost use Rattle.context_vector.specs.Contexts.{AreCounts, AreEntries, IsContext};
ghost use Rattle.cotpad_c.specs.Pasts.{counts_told, name_told, undone_told, set_told};

use crate::operation::{CotpadCount, CotpadMember, no_member};
use context_vector::Vector;
use op_name::{GENERATIONS, Memory, NUMBERS, Name, SITES};
use std::alloc::Global;

/// Whether the lists spell a set: sites and names rise, and all numbers are in range.
pub(crate) fn spells_set(counts: &[CotpadCount], undone: &[CotpadMember]) -> bool
    ensures { IsTrue result ↔ IsContext (set_told counts.now undone.now) }
{
    are_counts(counts) && are_undone(undone)
}

/// The set that the lists spell.
pub(crate) fn read_set(
    alloc: Global,
    counts: &[CotpadCount],
    undone: &[CotpadMember],
) -> Result<Vector, Memory>
    requires { IsContext (set_told counts.now undone.now) }
    ensures { IfOk result (λ v. v.set ≡ set_told counts.now undone.now) }
{
    let counted = with_counts(alloc, counts)?;
    with_undone(counted, undone)
}

// Whether sites rise, each with a count in range.
fn are_counts(counts: &[CotpadCount]) -> bool
    ensures { IsTrue result ↔ AreCounts 0 (counts_told counts.now) }
{
    let mut low = 0;
    let mut left = counts;
    while let Some((count, others)) = left.split_first() {
        if count.site < low || !is_count(count) {
            return false;
        }
        low = count.site + 1;
        left = others;
    }
    true
}

// Whether it counts inserts and deletes of a site.
fn is_count(count: &CotpadCount) -> bool
    ensures { IsTrue result ↔ (count.now.site < SITES) × (1 ≤ count.now.count) × (count.now.count ≤ NUMBERS) }
{
    count.site < u32::from(SITES) && 1 <= count.count && count.count <= NUMBERS
}

// Whether names rise, each with a generation in range.
fn are_undone(undone: &[CotpadMember]) -> bool
    ensures { IsTrue result ↔ AreEntries (undone_told undone.now) }
{
    // It is before each name.
    let mut last = no_member();
    let mut left = undone;
    while let Some((member, others)) = left.split_first() {
        if !is_undone(member) || !is_before(&last, member) {
            return false;
        }
        last = *member;
        left = others;
    }
    true
}

// Whether it can be undone, and that as often.
fn is_undone(member: &CotpadMember) -> bool
    ensures { IsTrue result ↔ IsName member.now.site member.now.number × (1 ≤ member.now.generation)
        × (member.now.generation ≤ GENERATIONS) }
{
    member.site < u32::from(SITES)
        && 1 <= member.number
        && member.number <= NUMBERS
        && 1 <= member.generation
        && member.generation <= u32::from(GENERATIONS)
}

// Whether the one name is before the other.
fn is_before(last: &CotpadMember, next: &CotpadMember) -> bool
    ensures { result ≡ name_lt (name_told last.now) (name_told next.now) }
{
    last.site < next.site || last.site == next.site && last.number < next.number
}

// The set of these counts, in which nothing is undone.
fn with_counts(alloc: Global, counts: &[CotpadCount]) -> Result<Vector, Memory>
    requires { AreCounts 0 (counts_told counts.now) }
    ensures { IfOk result (λ v. v.set ≡ record { counts = counts_told counts.now; entries = [] }) }
{
    let mut set = Vector::new(alloc);
    let mut left = counts;
    while let Some((count, others)) = left.split_first() {
        set.push_count(count.site as u16, count.count)?;
        left = others;
    }
    Ok(set)
}

// The same counts with these undone names.
fn with_undone(counted: Vector, undone: &[CotpadMember]) -> Result<Vector, Memory>
    requires none { counted.set.entries ≡ [] }
    requires names { AreEntries (undone_told undone.now) }
    ensures { IfOk result (λ v. v.set ≡ record counted.set { entries = undone_told undone.now }) }
{
    let mut set = counted;
    let mut left = undone;
    while let Some((member, others)) = left.split_first() {
        let name = Name {
            site: member.site as u16,
            number: member.number,
        };
        set.push_entry(name, member.generation as u16)?;
        left = others;
    }
    Ok(set)
}
