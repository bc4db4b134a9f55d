//! Differences of contexts in the order of a book.

ghost use Rattle.std.specs.Prelude.{◌≡◌, ◌++◌, ◌∷◌, [], ◌<◌, ◌≤◌, ◌||◌, true, false, Bool, ℕ, OnOk, OnErr};
ghost use Rattle.op_name.specs.declared.name.TheConstants.{SITES, NUMBERS};
ghost use Rattle.op_name.specs.declared.member.Member.{Member};
ghost use Rattle.op_name.specs.declared.member.Member.TheVariants.{Original, Group};
ghost use Rattle.context_vector.specs.Contexts.{Within};
ghost use Rattle.context_diff.specs.Histories.{is_known, members_in};
ghost use Rattle.context_diff.specs.Code.Places.{ArePlacesOf, is_between, is_group_between, is_missing, first_names};
ghost use Rattle.context_diff.specs.Differences.{difference_of};

use crate::book::Book;
use context_vector::Vector;
use op_name::{Member, Memory, Name};

/// Appends the members of `to` that `from` lacks, in the order of the book, which has the members of `to`.
/// It costs by the two contexts and by what it appends, and not by the book. Where `from` lacks none, it takes no memory.
pub fn difference(
    book: &Book,
    from: &Vector,
    to: &Vector,
    out: &mut Vec<Member>,
) -> Result<(), Memory>
    requires { Within to.now.set book.now.have.set }
    ensures appended { OnOk result (out.new.items ≡ out.old.items ++ difference_of book.now.ops from.now.set to.now.set) }
    ensures memory { OnErr result (¬ Within to.now.set from.now.set) }
    ensures kept { OnErr result (out.new.items ≡ out.old.items) }
{
    let mut places = Vec::new(*out.allocator());
    add_originals(book, from, to, &mut places)?;
    add_groups(book, from, to, &mut places)?;
    places.sort_unstable();
    out.reserve(places.len())?;
    for place in &places {
        if let Some(m) = book.member_at(*place) {
            out.push_reserved(m);
        }
    }
    Ok(())
}

// Adds the places of the originals of `to` that `from` lacks.
fn add_originals(
    book: &Book,
    from: &Vector,
    to: &Vector,
    places: &mut Vec<usize>,
) -> Result<(), Memory>
    requires covered { Within to.now.set book.now.have.set }
    requires empty { places.old.items ≡ [] }
    ensures places { OnOk result (ArePlacesOf (members_in book.now.ops)
        (is_missing from.now.set (first_names to.now.set 0)) places.new.items) }
    ensures memory { OnErr result (¬ Within to.now.set from.now.set) }
{
    book.known();
    to.known();
    let mut left = to.sites_read();
    while let Some((site, number)) = left.next() {
        add_numbers(book, site, from.count(site), number, places)?;
    }
    Ok(())
}

// Adds the places of the originals of one site with numbers above the first bound, up to the second.
fn add_numbers(
    book: &Book,
    site: u16,
    low: u32,
    high: u32,
    places: &mut Vec<usize>,
) -> Result<(), Memory>
    requires site { site < SITES }
    requires high { high ≤ NUMBERS }
    requires there { (k : ℕ) → low < k → k ≤ high → is_known book.now.ops (Original (record { site = site; number = k })) ≡ true }
    ensures places { OnOk result ((t : Member → Bool) → ((y : Member) → is_between site low high y ≡ true → t y ≡ false)
        → ArePlacesOf (members_in book.now.ops) t places.old.items
        → ArePlacesOf (members_in book.now.ops) (λ y. t y || is_between site low high y) places.new.items) }
    ensures memory { OnErr result (low < high) }
{
    book.known();
    for step in 0..high.saturating_sub(low) {
        let m = Member::Original(Name {
            site,
            number: low + step + 1,
        });
        if let Some(place) = book.place_of(&m) {
            add_place(places, place)?;
        }
    }
    Ok(())
}

// Adds the places of the groups of `to` that `from` lacks, beside those of the originals.
fn add_groups(
    book: &Book,
    from: &Vector,
    to: &Vector,
    places: &mut Vec<usize>,
) -> Result<(), Memory>
    requires covered { Within to.now.set book.now.have.set }
    requires originals { ArePlacesOf (members_in book.now.ops) (is_missing from.now.set (first_names to.now.set 0)) places.old.items }
    ensures places { OnOk result (ArePlacesOf (members_in book.now.ops) (is_missing from.now.set to.now.set) places.new.items) }
    ensures memory { OnErr result (¬ Within to.now.set from.now.set) }
{
    // Contexts mostly differ in their originals alone.
    if from.undoes_same(to) {
        return Ok(());
    }
    book.known();
    to.known();
    let mut left = to.names_read();
    while let Some(undone) = left.next() {
        add_generations(book, undone.0, from.entry(&undone.0), undone.1, places)?;
    }
    Ok(())
}

// Adds the places of the groups of one name with generations above the first bound, up to the second.
fn add_generations(
    book: &Book,
    name: Name,
    low: u16,
    high: u16,
    places: &mut Vec<usize>,
) -> Result<(), Memory>
    requires { (k : ℕ) → low < k → k ≤ high → is_known book.now.ops (Group name k) ≡ true }
    ensures places { OnOk result ((t : Member → Bool) → ((y : Member) → is_group_between name low high y ≡ true → t y ≡ false)
        → ArePlacesOf (members_in book.now.ops) t places.old.items
        → ArePlacesOf (members_in book.now.ops) (λ y. t y || is_group_between name low high y) places.new.items) }
    ensures memory { OnErr result (low < high) }
{
    book.known();
    for step in 0..high.saturating_sub(low) {
        let m = Member::Group(name, low + step + 1);
        if let Some(place) = book.place_of(&m) {
            add_place(places, place)?;
        }
    }
    Ok(())
}

// Adds one place.
fn add_place(places: &mut Vec<usize>, place: usize) -> Result<(), Memory>
    ensures { OnOk result (places.new.items ≡ places.old.items ++ place ∷ []) }
{
    match places.push(place) {
        Ok(()) => Ok(()),
        Err(_) => Err(Memory),
    }
}
