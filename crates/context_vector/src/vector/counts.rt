//! Lists of counts that may be changed in place.

ghost use Rattle.std.specs.Prelude.{◌≡◌, ◌≤◌, ◌<◌, vec_len, vec_capacity, IfOk};
ghost use Rattle.op_name.specs.declared.name.TheConstants.{NUMBERS, SITES};
ghost use Rattle.context_vector.specs.Contexts.{count_in, put_count, AreCounts};
ghost use Rattle.context_vector.specs.Vectors.{lower_count};

use super::count::Count;
use super::rising::place_of_site;
use op_name::Memory;
use std::alloc::Global;

/// A list of the same counts with a spare place.
pub fn grown(alloc: Global, list: &[Count]) -> Result<Vec<Count>, Memory>
    ensures items { IfOk result (λ v. v.items ≡ list.now) }
    ensures spare { IfOk result (λ v. vec_len v < vec_capacity v) }
{
    let mut all = Vec::with_capacity(alloc, list.len() + 1)?;
    all.extend_from_slice(list)?;
    all.reserve(1)?;
    Ok(all)
}

/// Makes the number the count of the site, for which there is a place.
pub fn put_site(counts: &mut Vec<Count>, site: u16, number: u32)
    requires site { site < SITES }
    requires number { number ≤ NUMBERS }
    requires rising { AreCounts 0 counts.old.items }
    requires room { count_in counts.old.items site ≡ 0 → vec_len counts.old < vec_capacity counts.old }
    ensures { counts.new.items ≡ put_count site number counts.old.items }
{
    let count = Count::new(site, number);
    match place_of_site(counts.as_slice(), site) {
        Ok(at) => counts[at] = count,
        Err(at) => match counts.insert(at, count) {
            Ok(()) => {}
            Err(_) => unreachable!(),
        },
    }
}

/// Takes one from the count of the site, which is the number.
pub fn lower_site(counts: &mut Vec<Count>, site: u16, number: u32)
    requires site { site < SITES }
    requires most { number ≤ NUMBERS }
    requires rising { AreCounts 0 counts.old.items }
    requires least { 1 ≤ number }
    requires last { number ≡ count_in counts.old.items site }
    ensures { counts.new.items ≡ lower_count site number counts.old.items }
{
    match place_of_site(counts.as_slice(), site) {
        Ok(at) if number == 1 => {
            counts.remove(at);
        }
        Ok(at) => counts[at] = Count::new(site, number - 1),
        Err(_) => unreachable!(),
    }
}
