//! Equality of forms.

ghost use Rattle.std.specs.Prelude.{◌≡◌, ◌↔◌, IsTrue};

use ttf_form::{Cover, Form, Ins};

/// Whether the two forms are the same.
pub fn is_same(a: &Form, b: &Form) -> bool
    ensures { IsTrue result ↔ (a.now ≡ b.now) }
{
    match a {
        Form::Ins(ins) => match b {
            Form::Ins(other) => is_same_insert(ins, other),
            Form::Cover(_) => false,
        },
        Form::Cover(cover) => match b {
            Form::Cover(other) => is_same_cover(cover, other),
            Form::Ins(_) => false,
        },
    }
}

// Whether the two inserts are the same.
fn is_same_insert(a: &Ins, b: &Ins) -> bool
    ensures { IsTrue result ↔ (a.now ≡ b.now) }
{
    a.place == b.place && a.site == b.site && a.len == b.len && a.name == b.name
}

// Whether the two covers are the same.
fn is_same_cover(a: &Cover, b: &Cover) -> bool
    ensures { IsTrue result ↔ (a.now ≡ b.now) }
{
    a.place == b.place && a.mark == b.mark
}
