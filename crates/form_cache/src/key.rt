//! What a form is kept under.

ghost use Rattle.std.specs.Prelude.{◌++◌};
ghost use Rattle.std.proofs.Common.{ap};
ghost use Rattle.context_vector.specs.Equality.{context_input};
ghost use Rattle.form_cache.specs.Keys.{key_eq, key_eq_decides, key_per, key_equiv};

use context_vector::Vector;
use op_name::Member;
use std::hash::{Hash, Hasher};
use std::marker::Model;

/// A member and the context at which its form is meant.
#[derive(Debug, Drop)]
pub struct Key {
    pub member: Member,
    pub context: Vector,
}

impl Model for Key {
    ghost use Rattle.form_cache.specs.Keys.{KeyData};

    ghost Value = { KeyData };

    ghost view = { λ k. record { member = k.member; context = k.context.set } };
}

impl PartialEq for Key {
    ghost eq = { key_eq };

    ghost laws = { key_per };

    fn eq(&self, other: &Key) -> bool {
        self.member == other.member && self.context == other.context
    }
}

impl Eq for Key {
    ghost laws = { key_equiv };
}

impl Hash for Key {
    ghost hash_input = { λ k. ⟦<Member as Hash>⟧.hash_input k.member ++ context_input k.context };

    ghost respects_eq = { λ k l e. ap (λ x. ⟦<Member as Hash>⟧.hash_input x.member ++ context_input x.context) ((key_eq_decides k l).0 e) };

    fn hash<H: Hasher>(&self, state: &mut H) {
        self.member.hash(state);
        self.context.hash(state);
    }
}
