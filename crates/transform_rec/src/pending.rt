//! Pairs of a member and a target, each with what is computed of it so far.

ghost use Rattle.std.specs.Prelude.{◌≡◌, ◌↔◌, ◌+◌, ◌-◌, ◌<◌, ◌&&◌, not, Some, None, [], reverse, if◌then◌else◌, IfOk, IfSome, IsNone, IsTrue, OnOk, length, slice_get};
ghost use Rattle.op_name.specs.declared.member.Member.{Member};
ghost use Rattle.op_name.specs.Members.{IsMember};
ghost use Rattle.context_vector.specs.Contexts.{has, raised, IsNextMember};
ghost use Rattle.context_vector.specs.Vectors.{IsLastMember};
ghost use Rattle.context_vector.specs.Equality.{context_eq};
ghost use Rattle.context_diff.specs.Histories.{members_in};
ghost use Rattle.context_diff.specs.Bases.{base_has};
ghost use Rattle.form_cache.specs.Keys.{KeyData};
ghost use Rattle.form_cache.specs.Entries.{form_at};
ghost use Rattle.transform_rec.specs.Sets.{SameSet, minus};
ghost use Rattle.transform_rec.specs.Histories.{AreBasesOf, family_over, members_alone, MayBeAddedTo};
ghost use Rattle.transform_rec.specs.Code.Pending.{IsWalk, IsWayBack, IsPending};
ghost use Rattle.transform_rec.specs.Entries.{AreForms};

use crate::laws::derives;
use context_diff::{Book, base_context};
use context_vector::Vector;
use form_cache::{Cache, Key};
use op_name::{Member, Memory};
use std::alloc::Global;
use ttf_form::{Bases, Include};

/// The form of a member on its way to a greater context: the member with the context that is reached, its
/// form there, and the members that are still to be added, the next one last. With these the context is the
/// target.
#[derive(Drop)]
pub struct Pending<F> {
    pub at: Key,
    pub form: F,
    pub rest: Vec<Member>,
}

/// The way of the key's member to the key's context: from the greatest part of the difference to the member's
/// base context, in the book's order, at which the cache has its form, or from its base form. For the last
/// member of the book the cache isn't looked into: a site wants no form of it before.
pub fn start<F: Include + Copy, B: Bases<F>>(
    alloc: Global,
    book: &Book,
    bases: &B,
    cache: &Cache<F>,
    at: Key,
) -> Result<Pending<F>, Memory>
    requires bases { AreBasesOf ⟦<B as Bases<F>>⟧ bases.now book.now.ops }
    requires added { MayBeAddedTo book.now.ops at.context at.member }
    requires known { AreForms F.over (family_over ⟦<B as Bases<F>>⟧ bases.now book.now.ops) cache.now.entries }
    ensures member { IfOk result (λ p. p.at.member ≡ at.member) }
    ensures way { IfOk result (λ p. IsPending F.over (family_over ⟦<B as Bases<F>>⟧ bases.now book.now.ops) (has at.context) p) }
{
    book.known();
    let mut at = at;
    let own = own_context(alloc, book, &at)?;
    let mut rest = Vec::new(alloc);
    match go_back(book, cache, &mut at, &own, &mut rest)? {
        Some(form) => Ok(Pending { at, form, rest }),
        None => {
            let form = base_of(book, bases, &at);
            Ok(Pending { at, form, rest })
        }
    }
}

// The base context of the key's member.
fn own_context(alloc: Global, book: &Book, at: &Key) -> Result<Vector, Memory>
    requires { MayBeAddedTo book.now.ops at.now.context at.now.member }
    ensures { IfOk result (λ v. (y : Member) → has v.set y ≡ base_has book.now.ops at.now.member y) }
{
    base_context(alloc, book, &at.member)
}

// The base form of the key's member.
fn base_of<F: Include, B: Bases<F>>(book: &Book, bases: &B, at: &Key) -> F
    requires bases { AreBasesOf ⟦<B as Bases<F>>⟧ bases.now book.now.ops }
    requires added { MayBeAddedTo book.now.ops at.now.context at.now.member }
    ensures { result ≡ B.base_form bases.now at.now.member }
{
    bases.base(&at.member)
}

// Takes the members that the base context lacks out of the key's context, the last one in the book first, until
// the cache has the form of the key, or none is left.
fn go_back<F: Copy>(
    book: &Book,
    cache: &Cache<F>,
    at: &mut Key,
    own: &Vector,
    rest: &mut Vec<Member>,
) -> Result<Option<F>, Memory>
    requires added { MayBeAddedTo book.now.ops at.old.context at.old.member }
    requires own { (y : Member) → has own.now.set y ≡ base_has book.now.ops at.old.member y }
    requires empty { rest.old.items ≡ [] }
    ensures member { at.new.member ≡ at.old.member }
    ensures found { IfOk result (λ o. IfSome o (λ f. form_at cache.now.entries at.new ≡ Some f)) }
    ensures base { IfOk result (λ o. IsNone o → SameSet (has at.new.context) (base_has book.now.ops at.old.member)) }
    ensures way { OnOk result (IsWayBack (members_alone book.now.ops) at.old.member (has at.old.context) (has at.new.context) (reverse rest.new.items)) }
{
    book.known();
    if is_at(at, own) {
        return Ok(None);
    }
    let looks = !is_last(book, &at.member);
    let mut i = book.len();
    while i > 0 {
        i -= 1;
        if take_out(book, own, at, rest, i)? {
            if let Some(form) = seen(cache, looks, at) {
                return Ok(Some(form));
            }
            if is_at(at, own) {
                return Ok(None);
            }
        }
    }
    Ok(None)
}

// Takes the member at this place of the book out of the key's context, if the context has it and the base context lacks
// it. Answers whether it did. All that stands after this place was looked at before.
fn take_out(
    book: &Book,
    own: &Vector,
    at: &mut Key,
    rest: &mut Vec<Member>,
    i: u32,
) -> Result<bool, Memory>
    requires place { i < length book.now.ops }
    requires own { (y : Member) → has own.now.set y ≡ base_has book.now.ops at.old.member y }
    requires walk { (from : KeyData) × IsWalk book.now.ops from at.old rest.old.items (i + 1) }
    ensures member { at.new.member ≡ at.old.member }
    ensures walk { OnOk result ((from : KeyData) → IsWalk book.now.ops from at.old rest.old.items (i + 1)
        → IsWalk book.now.ops from at.new rest.new.items i) }
{
    book.known();
    let x = member_at(book, i);
    if is_between(own, at, &x) {
        drop_member(at, &x)?;
        rest.reserve(1)?;
        rest.push_reserved(x);
        return Ok(true);
    }
    Ok(false)
}

// The cache's form of the key, if it is to be looked for.
fn seen<F: Copy>(cache: &Cache<F>, looks: bool, at: &Key) -> Option<F>
    ensures { result ≡ (if looks then form_at cache.now.entries at.now else None) }
{
    if looks { cache.peek(at) } else { None }
}

// Whether the member is the last one of the book.
fn is_last(book: &Book, m: &Member) -> bool
    ensures { IsTrue result ↔ (slice_get (members_in book.now.ops) (length book.now.ops - 1) ≡ Some m.now) }
{
    book.known();
    match book.len().checked_sub(1) {
        Some(i) => member_at(book, i) == *m,
        None => false,
    }
}

// The member at this place of the book.
fn member_at(book: &Book, i: u32) -> Member
    requires { i < length book.now.ops }
    ensures place { slice_get (members_in book.now.ops) i ≡ Some result }
    ensures range { IsMember result }
{
    book.known();
    match book.member(i) {
        Some(x) => x,
        None => unreachable!(),
    }
}

// Whether the key's context is this one.
fn is_at(at: &Key, own: &Vector) -> bool
    ensures { result ≡ context_eq at.now.context own.now.set }
{
    at.context == *own
}

// Whether the key's context has the member, and the other one lacks it.
fn is_between(own: &Vector, at: &Key, x: &Member) -> bool
    ensures { result ≡ (has at.now.context x.now && not (has own.now.set x.now)) }
{
    !own.contains(x) && at.context.contains(x)
}

// Takes the member, the last one of its site or its name, out of the key's context.
fn drop_member(at: &mut Key, x: &Member) -> Result<(), Memory>
    requires member { IsMember x.now }
    requires last { IsLastMember at.old.context x.now }
    ensures member { at.new.member ≡ at.old.member }
    ensures context { OnOk result (SameSet (has at.new.context) (minus (has at.old.context) x.now)) }
{
    at.context.reserve(x)?;
    at.context.drop_last(x);
    Ok(())
}

/// Adds the member, the next one of its site or its name, to the key's context.
pub fn add_member(at: &mut Key, x: &Member) -> Result<(), Memory>
    requires member { IsMember x.now }
    requires next { IsNextMember at.old.context x.now }
    ensures { OnOk result (at.new ≡ record { member = at.old.member; context = raised at.old.context x.now }) }
{
    at.context.reserve(x)?;
    at.context.add_reserved(x);
    Ok(())
}

/// The key's member.
pub fn member_in(at: &Key) -> Member
    ensures { result ≡ at.now.member }
{
    at.member
}

/// The key of another member at the same context.
pub fn key_beside(at: &Key, x: &Member) -> Result<Key, Memory>
    ensures { IfOk result (λ k. k ≡ record { member = x.now; context = at.now.context }) }
{
    let context = at.context.try_clone()?;
    Ok(Key {
        member: *x,
        context,
    })
}
