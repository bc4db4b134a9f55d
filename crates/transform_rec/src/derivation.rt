//! The form of a member at a greater context.

ghost use Rattle.std.specs.Prelude.{◌≡◌, ℕ, IfOk};
ghost use Rattle.op_name.specs.declared.member.Member.{Member};
ghost use Rattle.context_vector.specs.Contexts.{has};
ghost use Rattle.context_diff.specs.Histories.{members_in};
ghost use Rattle.context_diff.specs.Bases.{base_has};
ghost use Rattle.transform_rec.specs.Derived.{IsOnlyFormAt};
ghost use Rattle.transform_rec.specs.Histories.{AreBasesOf, family_over, MayBeAddedTo};

use crate::laws::derives;
use context_diff::{Book, base_context, difference};
use context_vector::Vector;
use op_name::{Member, Memory};
use std::alloc::Global;
use ttf_form::{Bases, Include};

/// The form of the member m of the book at the context `to`: its base form, after the inclusion of each
/// member of `to` that its base context lacks, in the book's order, each of them in its own form at the
/// context that is reached (COT 2009); an inert member changes no form and is added without its own. There is
/// exactly one form that inclusion between equal contexts derives.
///
/// The bases list the members of the book, with their base contexts. The context `to` is closed and within
/// the book, has the original of each of its undo groups, holds m's base context and lacks m. Memory may run
/// out.
pub fn transform<F: Include, B: Bases<F>>(
    alloc: Global,
    book: &Book,
    bases: &B,
    m: &Member,
    to: &Vector,
) -> Result<F, Memory>
    requires bases { AreBasesOf ⟦<B as Bases<F>>⟧ bases.now book.now.ops }
    requires added { MayBeAddedTo book.now.ops to.now.set m.now }
    ensures { IfOk result (IsOnlyFormAt F.over (family_over ⟦<B as Bases<F>>⟧ bases.now book.now.ops) m.now (has to.now.set)) }
{
    book.known();
    bases.known();
    derives::<F, B>(bases);
    let mut context = base_context(alloc, book, m)?;
    let mut form = bases.base(m);
    let mut rest = Vec::new(alloc);
    difference(book, &context, to, &mut rest)?;
    for x in &rest {
        if !bases.base(x).inert() {
            let other = transform(alloc, book, bases, x, &context)?;
            form = form.include(&other);
        }
        context.reserve(x)?;
        context.add_reserved(x);
    }
    Ok(form)
}
