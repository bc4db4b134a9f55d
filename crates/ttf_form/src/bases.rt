//! Families of members with their base forms and base contexts.

ghost use Rattle.std.specs.Prelude.{◌≡◌, ◌≢◌, ℕ, ◌≤◌, Bool, false, List};
ghost use Rattle.op_name.specs.declared.member.Member.{Member};
ghost use Rattle.ttf_form.specs.Families.{IsIn, sum_where, total_by};
ghost use Rattle.ttf_form.specs.declared.include.TheConstants.{CELLS};

use crate::include::Include;
use op_name::Member;

/// A finite list of members, and for each of them its base form and its base context, the set of members
/// that the base form's state is made of.
///
/// The laws: the base forms of two members of which neither is in the other's base context are apart; each
/// base form is bounded by the sum of the extents of the base forms of its base context; all extents add up
/// to at most `CELLS`.
pub trait Bases<F: Include> {
    ghost members: { Self → List Member };

    ghost base_form: { Self → Member → F };

    ghost base_context: { Self → Member → Member → Bool };

    ghost IsKnown: { Self → Type 0 };

    /// The base form of a member of the list.
    fn base(&self, m: &Member) -> F
        requires { IsIn m.now (members self.now) }
        ensures { result ≡ base_form self.now m.now };

    /// Nothing but what the type keeps: the laws hold of this value.
    fn known(&self)
        ensures { IsKnown self.now };

    ghost apart: { (s : Self) (m x : Member) → IsKnown s → IsIn m (members s) → IsIn x (members s) → m ≢ x → base_context s m x ≡ false
        → base_context s x m ≡ false → F.Apart (base_form s m) (base_form s x) };

    ghost bounded: { (s : Self) (m : Member) → IsKnown s → IsIn m (members s)
        → F.IsBounded (base_form s m) (sum_where (base_context s m) (λ x. F.extent (base_form s x)) (members s)) };

    ghost total: { (s : Self) → IsKnown s → total_by (λ x. F.extent (base_form s x)) (members s) ≤ CELLS };
}
