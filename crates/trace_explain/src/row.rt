//! What a line of a trace is about.

ghost use Rattle.std.specs.Prelude.{◌≡◌, ◌↔◌, IsTrue};

use context_vector::Vector;
use form_cache::Key;
use op_name::Member;
use ttf_form::Form;

/// A member at a context, with its form there.
#[derive(Drop)]
pub struct Row {
    pub at: Key,
    pub form: Form,
}

/// The key's member.
pub fn member_in(key: &Key) -> Member
    ensures { result ≡ key.now.member }
{
    key.member
}

/// The key's context.
pub fn context_in(key: &Key) -> &Vector
    ensures { result.now.set ≡ key.now.context }
{
    &key.context
}

/// Whether the two contexts have the same members.
pub fn are_equal(a: &Vector, b: &Vector) -> bool
    ensures { IsTrue result ↔ (a.now.set ≡ b.now.set) }
{
    a == b
}

/// Whether the two members are the same.
pub fn are_same(a: &Member, b: &Member) -> bool
    ensures { IsTrue result ↔ (a.now ≡ b.now) }
{
    a == b
}
