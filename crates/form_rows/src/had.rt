//! Whether a context has members of a row.

ghost use Rattle.std.specs.Prelude.{◌≡◌, false, IsTrue};
ghost use Rattle.op_name.specs.declared.member.Member.TheVariants.{Original};
ghost use Rattle.context_vector.specs.Contexts.{count_of, has};
ghost use Rattle.ttf_form.specs.Families.{IsIn};
ghost use Rattle.form_rows.specs.Names.{had_by};

use crate::named::Named;
use context_vector::Vector;
use op_name::{Member, Name};

// Whether the context has no member of the row.
pub(crate) fn has_none<F: Named>(context: &Vector, row: &[F]) -> bool
    ensures { IsTrue result → (f : F) → IsIn f row.now → had_by F.named context.now.set f ≡ false }
{
    let mut site = 0;
    let mut count = context.count(site);
    for i in 0..row.len() {
        if is_counted(&row[i], context, &mut site, &mut count) {
            return false;
        }
    }
    true
}

// Whether the form is one of a member of the context, of which the count of one site is at hand.
fn is_counted<F: Named>(form: &F, context: &Vector, site: &mut u16, count: &mut u32) -> bool
    requires { count.old ≡ count_of context.now.set site.old }
    ensures had { result ≡ had_by F.named context.now.set form.now }
    ensures count { count.new ≡ count_of context.now.set site.new }
{
    match form.name() {
        Some(name) => has_original(context, &name, site, count),
        None => false,
    }
}

// Whether the context, of which the count of one site is at hand, has the original of this name.
pub(crate) fn has_original(context: &Vector, name: &Name, site: &mut u16, count: &mut u32) -> bool
    requires { count.old ≡ count_of context.now.set site.old }
    ensures has { result ≡ has context.now.set (Original name.now) }
    ensures count { count.new ≡ count_of context.now.set site.new }
{
    name.known();
    if name.site != *site {
        *site = name.site;
        *count = context.count(name.site);
    }
    name.number <= *count
}

// Whether the form is one of a member of the context.
pub(crate) fn is_had<F: Named>(form: &F, context: &Vector) -> bool
    ensures { result ≡ had_by F.named context.now.set form.now }
{
    match form.name() {
        Some(name) => context.contains(&Member::Original(name)),
        None => false,
    }
}
