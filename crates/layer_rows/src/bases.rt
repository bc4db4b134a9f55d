//! Base forms through the bound `Bases`.

ghost use Rattle.std.specs.Prelude.{◌≡◌, false, ◌∷◌, []};
ghost use Rattle.std.proofs.Common.{◌∙◌, sym, inl, inr, arith};
ghost use Rattle.op_name.specs.declared.member.Member.{Member};
ghost use Rattle.op_name.specs.declared.member.Member.TheVariants.{Original};
ghost use Rattle.ttf_form.specs.Families.{IsIn};

use op_name::{Member, Name};
use ttf_form::{Bases, Form, Include, Ins};

/// A family of one insert, in front of no cells.
#[derive(Drop)]
struct One {
    ins: Ins,
    ghost front: { ins.place ≡ 0 },
}

impl Bases<Form> for One {
    ghost use Rattle.ttf_form.specs.declared.form.Form.TheVariants.{Ins as Insert};

    ghost members = { λ s. Original s.ins.name ∷ [] };

    ghost base_form = { λ s m. Insert s.ins };

    ghost base_context = { λ s m x. false };

    ghost IsKnown = { λ s. s.ins.place ≡ 0 };

    fn base(&self, _m: &Member) -> Form {
        Form::Ins(self.ins)
    }

    fn known(&self) {}

    ghost apart = { λ s m x k i j ne c d. elim i [ inl p ↦ elim j [ inl q ↦ absurd (ne (p ∙ sym q)) | inr q ↦ absurd q ] | inr q ↦ absurd q ] };

    ghost bounded = { λ s m k i. Prim.omega arith };

    ghost total = { λ s k. Prim.omega (arith, s.ins.most) };
}

/// A base form through the bound.
pub(crate) fn base_of<F: Include, B: Bases<F>>(bases: &B, m: &Member) -> F
    requires { IsIn m.now (B.members bases.now) }
    ensures { result ≡ B.base_form bases.now m.now }
{
    bases.known();
    bases.base(m)
}

/// The base form in the family of one insert of the name.
pub(crate) fn base_of_one(name: Name) -> Form {
    let site = name.site;
    let one = One {
        ins: Ins {
            place: 0,
            site,
            len: 1,
            name,
        },
    };
    base_of(&one, &Member::Original(name))
}
