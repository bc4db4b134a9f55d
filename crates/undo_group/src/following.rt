//! Groups follow the member before them.

ghost use Rattle.std.specs.Prelude.{◌≡◌};
ghost use Rattle.ttf_form.specs.Forms.{ApartForms, form_over};
ghost use Rattle.ttf_form.specs.declared.cover.Mark.{Mark};
ghost use Rattle.ttf_form.specs.declared.form.Form.{Form};
ghost use Rattle.undo_group.specs.Following.{following, FirstGroupsFollow, FurtherGroupsFollow};

use ttf_form::{Cover, Form, Mark};

/// A mark at the place of a form: on the first cell that an insert adds, or on the cell that the form marks. It follows
/// the form: what is apart from the form may be included in both, and the mark is on the same cell still.
pub fn followed(mark: Mark, form: &Form) -> Form
    ensures form { result ≡ following mark form.now }
    ensures law { (m : Mark) (f k : Form) → ApartForms f k → form_over (following m f) (form_over k f) ≡ following m (form_over f k) }
{
    match form {
        Form::Ins(ins) => Form::Cover(Cover {
            place: ins.place,
            mark,
        }),
        Form::Cover(cover) => Form::Cover(Cover {
            place: cover.place,
            mark,
        }),
    }
}

/// The law of groups, over every history: the first group of an original follows it, and each further group follows
/// the one before. It does nothing.
pub fn groups_follow()
    ensures first { FirstGroupsFollow }
    ensures further { FurtherGroupsFollow }
{}
