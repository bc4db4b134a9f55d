//! Members of contexts: originals and undo groups.

ghost use Rattle.std.specs.Prelude.{◌≡◌};
ghost use Rattle.op_name.specs.NameData.{IsName};
ghost use Rattle.op_name.specs.Members.{target_of, IsMember, member_lt, code_of};
ghost use Rattle.op_name.specs.Hashes.{member_input, member_alike};

use crate::name::Name;
use std::hash::{Hash, Hasher};

/// The greatest generation of undos and redos of one original.
pub const GENERATIONS: u16 = 65_535;

/// What a context may hold: an original (an insert or a delete) by its name, or the group of all undos
/// (odd generation) or redos (even generation) of an original at one generation, whoever issued them.
///
/// A generation is 1 to `GENERATIONS`. Originals come before groups; each kind is ordered by name, groups of one
/// name by generation.
#[derive(Clone, Copy, Debug, PartialEq, Eq, PartialOrd, Ord)]
pub enum Member {
    Original(Name),
    Group(Name, u16),
}

impl Member {
    /// The original that the member is, or that its undos and redos are of.
    pub fn target(&self) -> Name
        requires { IsMember self.now }
        ensures target { result ≡ target_of self.now }
        ensures range { IsName result.site result.number }
    {
        let target = match self {
            Member::Original(name) => *name,
            Member::Group(name, _) => *name,
        };
        target.known();
        target
    }

    /// Whether the member is before the other: originals before groups, each kind by name, groups of one name
    /// by generation.
    pub fn is_before(&self, other: &Member) -> bool
        ensures { result ≡ member_lt self.now other.now }
    {
        self < other
    }
}

impl Hash for Member {
    ghost hash_input = { member_input };

    ghost respects_eq = { member_alike _ (λ n m e. e) (λ n m h e. e) (λ n m g e. e) (λ n m g h e. e) };

    // One number in the place of the parts, so that the hasher is fed once.
    fn hash<H: Hasher>(&self, state: &mut H) {
        code_of(self).hash(state)
    }
}

// The member in one number: generation (0 for an original), site and number side by side.
fn code_of(m: &Member) -> u64
    ensures { result ≡ code_of m.now }
{
    let (generation, name) = match m {
        Member::Original(name) => (0, name),
        Member::Group(name, generation) => (*generation, name),
    };
    name.known();
    (u64::from(generation) * 65_536 + u64::from(name.site)) * 4_294_967_296 + u64::from(name.number)
}
