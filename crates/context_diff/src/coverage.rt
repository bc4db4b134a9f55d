//! What contexts are within a book: closed or not, and the base contexts of members.

ghost use Rattle.std.specs.Prelude.{◌≡◌, ◌↔◌, true, IsNone, IsTrue, IfOk, IfSome};
ghost use Rattle.op_name.specs.declared.member.Member.{Member};
ghost use Rattle.op_name.specs.declared.member.Member.TheVariants.{Original, Group};
ghost use Rattle.context_vector.specs.Contexts.{Within, has};
ghost use Rattle.context_diff.specs.Histories.{is_known, IsClosed};
ghost use Rattle.context_diff.specs.Bases.{base_has, base_context_of, original_context};
ghost use Rattle.context_diff.specs.Books.{IsFirstOpenSite};
ghost use Rattle.context_diff.specs.Code.ClosedParts.{IsClosedPart};

use crate::book::Book;
use crate::closed_part::{closed_part, count_near};
use context_vector::Vector;
use op_name::{Member, Memory, Name};
use std::alloc::Global;

/// The first site of which `v` names a last original that was made after something that `v` hasn't; None
/// exactly where `v` is closed. The book has the members of `v`.
pub fn closed(book: &Book, v: &Vector) -> Option<u16>
    requires { Within v.now.set book.now.have.set }
    ensures none { IsNone result ↔ IsClosed book.now.ops v.now.set }
    ensures first { IfSome result (IsFirstOpenSite book.now.ops v.now.set) }
{
    v.known();
    book.known();
    let part = closed_part(book, v);
    let mut i = 0;
    let mut left = v.sites_read();
    while let Some((site, number)) = left.next() {
        if !is_covered(book, v, part, i, &Name { site, number }) {
            return Some(site);
        }
        i += 1;
    }
    None
}

// Whether `v` has all that the original of this name was made after, which is the last one in `v` of the site at the
// place `i`. Where a closed context within `v` counts as many of the site, it has.
fn is_covered(book: &Book, v: &Vector, part: Option<&Vector>, i: u32, name: &Name) -> bool
    requires known { is_known book.now.ops (Original name.now) ≡ true }
    requires part { IfSome part (λ c. IsClosedPart book.now.ops v.now.set c.now.set) }
    ensures { IsTrue result ↔ Within (original_context book.now.ops name.now) v.now.set }
{
    if let Some(closed) = part {
        if count_near(closed, i, name.site) == name.number {
            return true;
        }
    }
    covers_context(book, v, name)
}

// Whether `v` has all that the original of this name was made after.
fn covers_context(book: &Book, v: &Vector, name: &Name) -> bool
    requires { is_known book.now.ops (Original name.now) ≡ true }
    ensures { IsTrue result ↔ Within (original_context book.now.ops name.now) v.now.set }
{
    book.known();
    match book.original(name) {
        Some(op) => v.covers(op.context()),
        None => unreachable!(),
    }
}

/// The base context of a member of the book: of an original the members that it was made after; of a
/// group the base context of its original, that original, and its groups at lower generations.
pub fn base_context(alloc: Global, book: &Book, m: &Member) -> Result<Vector, Memory>
    requires { is_known book.now.ops m.now ≡ true }
    ensures members { IfOk result (λ v. (y : Member) → has v.set y ≡ base_has book.now.ops m.now y) }
    ensures value { IfOk result (λ v. v.set ≡ base_context_of book.now.ops m.now) }
{
    book.known();
    match m {
        Member::Original(name) => original_base(alloc, book, name),
        Member::Group(name, generation) => group_base(alloc, book, name, *generation),
    }
}

// The base context of a group: that of its original, with the original and the groups before.
fn group_base(alloc: Global, book: &Book, name: &Name, generation: u16) -> Result<Vector, Memory>
    requires { is_known book.now.ops (Group name.now generation) ≡ true }
    ensures members { IfOk result (λ v. (y : Member) → has v.set y ≡ base_has book.now.ops (Group name.now generation) y) }
    ensures value { IfOk result (λ v. v.set ≡ base_context_of book.now.ops (Group name.now generation)) }
{
    book.known();
    let mut base = original_base(alloc, book, name)?;
    base.raise(&Member::Original(*name))?;
    if generation > 1 {
        base.raise(&Member::Group(*name, generation - 1))?;
    }
    base.known();
    Ok(base)
}

// What the original of this name was made after; nothing where the book has none.
fn original_base(alloc: Global, book: &Book, name: &Name) -> Result<Vector, Memory>
    ensures { IfOk result (λ v. v.set ≡ original_context book.now.ops name.now) }
{
    book.known();
    match book.original(name) {
        Some(op) => op.context().try_clone(),
        None => Ok(Vector::new(alloc)),
    }
}
