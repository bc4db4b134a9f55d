//! The originals of a site's history, each at its executed place.

ghost use Rattle.std.specs.Prelude.{◌≡◌, ◌+◌, ◌++◌, ◌∷◌, ◌<◌, [], IfOk, length, option_to_list, take};
ghost use Rattle.context_diff.specs.Ops.{data_of};
ghost use Rattle.ttf_form.specs.Forms.{place_of};
ghost use Rattle.flat_history.specs.Flat.{placed_in};

use checkpoint_codec::Placed;
use context_diff::Op;
use cot_site::Site;
use op_name::Memory;
use std::alloc::Global;
use ttf_form::Form;

fn place_of(form: &Form) -> u32
    ensures { result ≡ place_of form.now }
{
    match form {
        Form::Ins(ins) => ins.place,
        Form::Cover(cover) => cover.place,
    }
}

// The operation that was executed in this form, without its context; none for an undo.
fn placed(op: &Op, form: &Form) -> Result<Option<Placed>, Memory>
    ensures { IfOk result (λ e. option_to_list e ≡ placed_in (data_of op.now ∷ []) (form.now ∷ [])) }
{
    Ok(match op {
        Op::Insert { name, text, .. } => Some(Placed::insert(
            *name,
            place_of(form),
            text.try_clone()?,
        )),
        Op::Delete { name, .. } => Some(Placed::delete(*name, place_of(form))),
        Op::Undo { .. } => None,
    })
}

// The i-th operation without its context; none for an undo.
fn placed_at(site: &Site, i: u32) -> Result<Option<Placed>, Memory>
    requires { i < length site.now.history }
    ensures { IfOk result (λ e. placed_in (take (i + 1) site.now.history) (take (i + 1) site.now.forms)
        ≡ placed_in (take i site.now.history) (take i site.now.forms) ++ option_to_list e) }
{
    match (site.book().op(i), site.executed(i)) {
        (Some(op), Some(form)) => placed(op, form),
        _ => unreachable!(),
    }
}

/// The originals of the history in order, each at the place of the form in which it was executed.
pub(crate) fn originals(alloc: Global, site: &Site) -> Result<Vec<Placed>, Memory>
    ensures { IfOk result (λ v. v.items ≡ placed_in site.now.history site.now.forms) }
{
    let mut list = Vec::new(alloc);
    for i in 0..site.book().len() {
        if let Some(next) = placed_at(site, i)? {
            list.push(next)?;
        }
    }
    site.known();
    Ok(list)
}
