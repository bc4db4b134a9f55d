//! Whether a set is another one with one original more.

ghost use Rattle.std.specs.Prelude.{◌≡◌, ◌∷◌, ℕ, IsTrue};
ghost use Rattle.context_vector.specs.Code.Counting.{SitesFrom};
ghost use Rattle.context_vector.specs.Code.Readers.{left_of};
ghost use Rattle.op_name.specs.declared.member.Member.TheVariants.{Original};
ghost use Rattle.context_vector.specs.Contexts.{put_count, raised, AreCounts, IsNextMember};

use super::Vector;
use super::count::Count;
use super::counting::seek;
use super::reader::{Reader, are_same, same_first};
use op_name::Name;

impl Vector {
    /// Whether this set is `before` with the original of this name, the next of its site there. It goes over both lists once, and
    /// takes no memory. An answer of no says nothing.
    pub fn follows(&self, before: &Vector, name: &Name) -> bool
        ensures next { IsTrue result → IsNextMember before.now.set (Original name.now) }
        ensures raised { IsTrue result → self.now.set ≡ raised before.now.set (Original name.now) }
    {
        self.known();
        before.known();
        if before.count(name.site) + 1 != name.number {
            return false;
        }
        if !self.lists.has_same_names(&before.lists) {
            return false;
        }
        has_put(before.lists.counts(), self.lists.counts(), name)
    }
}

// Whether the counts are those before with this name's number for its site. An answer of no says nothing.
fn has_put(before: Reader<'_, Count>, after: Reader<'_, Count>, name: &Name) -> bool
    requires { AreCounts 0 (left_of before) }
    ensures { IsTrue result → left_of after.entry ≡ put_count name.now.site name.now.number (left_of before.entry) }
{
    name.known();
    let mut whole = before.again();
    let mut left = before;
    let mut right = after;
    let lower = seek(&mut left, name.site);
    if !same_first(&mut whole, &mut right, lower) {
        return false;
    }
    match right.next() {
        Some(count) if count == Count::new(name.site, name.number) => {}
        _ => return false,
    }
    pass_site(&mut left, name.site);
    are_same(left, right)
}

// Goes past the first pair, if it is of the site: what is left stands behind the site's pair, whatever that counts.
fn pass_site(counts: &mut Reader<'_, Count>, site: u16)
    requires { SitesFrom site (left_of counts.old) }
    ensures { (k : ℕ) → put_count site k (left_of counts.old) ≡ (site, k) ∷ left_of counts.new }
{
    if let Some(had) = counts.first() {
        if had.site() == site {
            counts.pass(1);
        }
    }
}
