//! The form of a member at a greater context, by a stack of pairs that wait for one another and a cache of forms.

ghost use Rattle.std.specs.Prelude.{◌≡◌, ℕ, Bool, IfOk, IfSome, IsNone, IsTrue, OnOk};
ghost use Rattle.op_name.specs.declared.member.Member.{Member};
ghost use Rattle.context_vector.specs.Contexts.{has};
ghost use Rattle.context_diff.specs.Histories.{members_in};
ghost use Rattle.context_diff.specs.Bases.{base_has};
ghost use Rattle.transform_rec.specs.Derived.{Derived, IsOnlyFormAt};
ghost use Rattle.transform_rec.specs.Histories.{AreBasesOf, family_over, MayBeAddedTo};
ghost use Rattle.transform_rec.specs.Code.Pending.{IsWaiting, IsPending, IsStep, IsBegun};
ghost use Rattle.transform_rec.specs.Entries.{AreForms};

use crate::laws::derives;
use crate::pending::{Pending, add_member, key_beside, member_in, start};
use context_diff::Book;
use context_vector::Vector;
use form_cache::{Cache, Key};
use op_name::{Member, Memory};
use std::alloc::Global;
use ttf_form::{Bases, Include};

/// What `transform` answers, with the forms of a cache at hand: the one form of the member m of the book at the
/// context `to`. The conditions are those of `transform`, and that each entry of the cache is the form of its
/// key over this book. After either answer each entry still is, and the capacity is as before.
///
/// It keeps a stack of pairs of a member and a target, each waiting for the one above it, whose target is a proper
/// part of its own. Before a pair is pushed the cache is asked for its form, and then looked into for that
/// of its member at the greatest part of the target, in the book's order, unless the member is the last one of the
/// book. A pair's finished form is kept, and so is, where the form of x is included in that of m, the form of x
/// after the inclusion of m's, for one use: the next operation that was made after m asks for it.
pub fn transform_with<F: Include + Copy, B: Bases<F>>(
    alloc: Global,
    book: &Book,
    bases: &B,
    cache: &mut Cache<F>,
    m: &Member,
    to: &Vector,
) -> Result<F, Memory>
    requires bases { AreBasesOf ⟦<B as Bases<F>>⟧ bases.now book.now.ops }
    requires added { MayBeAddedTo book.now.ops to.now.set m.now }
    requires known { AreForms F.over (family_over ⟦<B as Bases<F>>⟧ bases.now book.now.ops) cache.old.entries }
    ensures form { IfOk result (IsOnlyFormAt F.over (family_over ⟦<B as Bases<F>>⟧ bases.now book.now.ops) m.now (has to.now.set)) }
    ensures known { AreForms F.over (family_over ⟦<B as Bases<F>>⟧ bases.now book.now.ops) cache.new.entries }
    ensures capacity { cache.new.capacity ≡ cache.old.capacity }
{
    book.known();
    bases.known();
    derives::<F, B>(bases);
    let key = Key {
        member: *m,
        context: to.try_clone()?,
    };
    if let Some(form) = cache.peek(&key) {
        return Ok(form);
    }
    let mut current = start(alloc, book, bases, cache, key)?;
    let mut stack: Vec<Pending<F>> = Vec::new(alloc);
    loop {
        match current.rest.pop() {
            Some(x) => match advance(alloc, book, bases, cache, &mut current, &x)? {
                Some(inner) => {
                    stack.reserve(1)?;
                    stack.push_reserved(current);
                    current = inner;
                }
                None => {}
            },
            None => {
                let (at, form) = finished(current);
                match stack.pop() {
                    Some(outer) => current = handed(book, bases, cache, outer, at, form)?,
                    None => {
                        cache.keep(at, form);
                        return Ok(form);
                    }
                }
            }
        }
    }
}

// What a pair has come to: its member with the context that is reached, and the form there.
fn finished<F: Copy>(pair: Pending<F>) -> (Key, F)
    ensures key { result.0 ≡ pair.at }
    ensures form { result.1 ≡ pair.form }
{
    let Pending {
        at,
        form,
        rest: _rest,
    } = pair;
    (at, form)
}

// Adds x, the next member of the pair's rest, which was taken from it: at once where the cache has its form at the
// pair's context or x is inert; else it answers the pair of x and that context, for which this one is to wait.
fn advance<F: Include + Copy, B: Bases<F>>(
    alloc: Global,
    book: &Book,
    bases: &B,
    cache: &mut Cache<F>,
    pair: &mut Pending<F>,
    x: &Member,
) -> Result<Option<Pending<F>>, Memory>
    requires bases { AreBasesOf ⟦<B as Bases<F>>⟧ bases.now book.now.ops }
    requires known { AreForms F.over (family_over ⟦<B as Bases<F>>⟧ bases.now book.now.ops) cache.old.entries }
    requires waits { (T : Member → Bool) × IsWaiting F.over (family_over ⟦<B as Bases<F>>⟧ bases.now book.now.ops) T x.now pair.old }
    ensures added { IfOk result (λ o. IsNone o
        → IsStep F.over (family_over ⟦<B as Bases<F>>⟧ bases.now book.now.ops) x.now pair.old pair.new) }
    ensures same { IfOk result (λ o. IfSome o (λ _. pair.new ≡ pair.old)) }
    ensures begun { IfOk result (λ o. IfSome o (IsBegun F.over (family_over ⟦<B as Bases<F>>⟧ bases.now book.now.ops) x.now pair.new)) }
    ensures known { AreForms F.over (family_over ⟦<B as Bases<F>>⟧ bases.now book.now.ops) cache.new.entries }
    ensures capacity { cache.new.capacity ≡ cache.old.capacity }
{
    book.known();
    bases.known();
    derives::<F, B>(bases);
    let key = key_beside(&pair.at, x)?;
    if let Some(other) = form_kept(book, bases, cache, &key) {
        take_in(book, bases, cache, pair, key, other)?;
        return Ok(None);
    }
    if is_inert(book, bases, pair, x) {
        pass(book, bases, pair, x)?;
        return Ok(None);
    }
    let inner = start(alloc, book, bases, cache, key)?;
    // the form that it begins with, if it is a kept one, is used
    let _ = form_kept(book, bases, cache, &inner.at);
    Ok(Some(inner))
}

// The form that the cache has of the key. It is used with that: one that is kept for one use is the next to be dropped.
fn form_kept<F: Include + Copy, B: Bases<F>>(
    book: &Book,
    bases: &B,
    cache: &mut Cache<F>,
    key: &Key,
) -> Option<F>
    requires { AreForms F.over (family_over ⟦<B as Bases<F>>⟧ bases.now book.now.ops) cache.old.entries }
    ensures form { IfSome result (IsOnlyFormAt F.over (family_over ⟦<B as Bases<F>>⟧ bases.now book.now.ops) key.now.member (has key.now.context)) }
    ensures known { AreForms F.over (family_over ⟦<B as Bases<F>>⟧ bases.now book.now.ops) cache.new.entries }
    ensures capacity { cache.new.capacity ≡ cache.old.capacity }
{
    cache.ask(key)
}

// Whether x, which the pair waits for, is inert.
fn is_inert<F: Include + Copy, B: Bases<F>>(
    book: &Book,
    bases: &B,
    pair: &Pending<F>,
    x: &Member,
) -> bool
    requires bases { AreBasesOf ⟦<B as Bases<F>>⟧ bases.now book.now.ops }
    requires waits { (T : Member → Bool) × IsWaiting F.over (family_over ⟦<B as Bases<F>>⟧ bases.now book.now.ops) T x.now pair.now }
    ensures { IsTrue result → F.IsInert (B.base_form bases.now x.now) }
{
    bases.base(x).inert()
}

// Adds an inert member to the pair's context: its form changes no form.
fn pass<F: Include + Copy, B: Bases<F>>(
    book: &Book,
    bases: &B,
    pair: &mut Pending<F>,
    x: &Member,
) -> Result<(), Memory>
    requires bases { AreBasesOf ⟦<B as Bases<F>>⟧ bases.now book.now.ops }
    requires waits { (T : Member → Bool) × IsWaiting F.over (family_over ⟦<B as Bases<F>>⟧ bases.now book.now.ops) T x.now pair.old }
    requires inert { F.IsInert (B.base_form bases.now x.now) }
    ensures { OnOk result (IsStep F.over (family_over ⟦<B as Bases<F>>⟧ bases.now book.now.ops) x.now pair.old pair.new) }
{
    book.known();
    bases.known();
    derives::<F, B>(bases);
    add_member(&mut pair.at, x)?;
    Ok(())
}

// The pair that waited for the finished form of a key, once it was handed the form, which is kept.
fn handed<F: Include + Copy, B: Bases<F>>(
    book: &Book,
    bases: &B,
    cache: &mut Cache<F>,
    outer: Pending<F>,
    at: Key,
    form: F,
) -> Result<Pending<F>, Memory>
    requires bases { AreBasesOf ⟦<B as Bases<F>>⟧ bases.now book.now.ops }
    requires known { AreForms F.over (family_over ⟦<B as Bases<F>>⟧ bases.now book.now.ops) cache.old.entries }
    requires waits { (T : Member → Bool) × IsWaiting F.over (family_over ⟦<B as Bases<F>>⟧ bases.now book.now.ops) T at.member outer }
    requires form { IsOnlyFormAt F.over (family_over ⟦<B as Bases<F>>⟧ bases.now book.now.ops) at.member (has outer.at.context) form }
    ensures added { IfOk result (IsStep F.over (family_over ⟦<B as Bases<F>>⟧ bases.now book.now.ops) at.member outer) }
    ensures known { AreForms F.over (family_over ⟦<B as Bases<F>>⟧ bases.now book.now.ops) cache.new.entries }
    ensures capacity { cache.new.capacity ≡ cache.old.capacity }
{
    let mut outer = outer;
    let x = member_in(&at);
    let key = key_beside(&outer.at, &x)?;
    let copy = key_beside(&outer.at, &x)?;
    cache.keep(copy, form);
    take_in(book, bases, cache, &mut outer, key, form)?;
    Ok(outer)
}

// Includes the form of the key, a member at the pair's context, in the pair's form, and adds the member. It keeps what the
// other form of the two becomes.
fn take_in<F: Include + Copy, B: Bases<F>>(
    book: &Book,
    bases: &B,
    cache: &mut Cache<F>,
    pair: &mut Pending<F>,
    key: Key,
    other: F,
) -> Result<(), Memory>
    requires bases { AreBasesOf ⟦<B as Bases<F>>⟧ bases.now book.now.ops }
    requires known { AreForms F.over (family_over ⟦<B as Bases<F>>⟧ bases.now book.now.ops) cache.old.entries }
    requires waits { (T : Member → Bool) × IsWaiting F.over (family_over ⟦<B as Bases<F>>⟧ bases.now book.now.ops) T key.member pair.old }
    requires here { key.context ≡ pair.old.at.context }
    requires form { Derived F.over (family_over ⟦<B as Bases<F>>⟧ bases.now book.now.ops) key.member (has key.context) other }
    ensures added { OnOk result (IsStep F.over (family_over ⟦<B as Bases<F>>⟧ bases.now book.now.ops) key.member pair.old pair.new) }
    ensures known { AreForms F.over (family_over ⟦<B as Bases<F>>⟧ bases.now book.now.ops) cache.new.entries }
    ensures capacity { cache.new.capacity ≡ cache.old.capacity }
{
    book.known();
    bases.known();
    derives::<F, B>(bases);
    let x = member_in(&key);
    let taken = pair.form.include(&other);
    keep_turned(book, bases, cache, pair, key, other)?;
    add_member(&mut pair.at, &x)?;
    pair.form = taken;
    Ok(())
}

// Keeps the form of the key after the inclusion of the pair's, for one use, unless it is inert: an inert member is added
// without its form wherever that isn't there.
fn keep_turned<F: Include + Copy, B: Bases<F>>(
    book: &Book,
    bases: &B,
    cache: &mut Cache<F>,
    pair: &Pending<F>,
    key: Key,
    other: F,
) -> Result<(), Memory>
    requires bases { AreBasesOf ⟦<B as Bases<F>>⟧ bases.now book.now.ops }
    requires known { AreForms F.over (family_over ⟦<B as Bases<F>>⟧ bases.now book.now.ops) cache.old.entries }
    requires waits { (T : Member → Bool) × IsWaiting F.over (family_over ⟦<B as Bases<F>>⟧ bases.now book.now.ops) T key.member pair.now }
    requires here { key.context ≡ pair.now.at.context }
    requires form { Derived F.over (family_over ⟦<B as Bases<F>>⟧ bases.now book.now.ops) key.member (has key.context) other }
    ensures known { AreForms F.over (family_over ⟦<B as Bases<F>>⟧ bases.now book.now.ops) cache.new.entries }
    ensures capacity { cache.new.capacity ≡ cache.old.capacity }
{
    book.known();
    bases.known();
    derives::<F, B>(bases);
    if other.inert() {
        return Ok(());
    }
    let m = member_in(&pair.at);
    let turned = other.include(&pair.form);
    let mut key = key;
    add_member(&mut key, &m)?;
    cache.keep_once(key, turned);
    Ok(())
}
