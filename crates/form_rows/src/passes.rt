//! Bringing a form over a row, and back.

ghost use Rattle.std.specs.Prelude.{◌≡◌, drop};
ghost use Rattle.form_rows.specs.RowSets.{form_after, row_after, front_of, PassFits, AfterFits};

use crate::named::Named;
use ttf_form::{Exclude, Include};

/// Brings the form over each form of the row in turn, and each of these over the form as it comes to it. It takes no
/// memory.
pub fn pass<F: Named + Copy>(form: F, row: &mut [F]) -> F
    requires { PassFits F.over F.place F.extent form row.old }
    ensures form { result ≡ form_after F.over form row.old }
    ensures row { row.new ≡ row_after F.over form row.old }
{
    let mut f = form;
    for x in row.iter_mut() {
        x.cross(&mut f);
    }
    f
}

/// What a form that comes after the row was before it.
pub fn front<F: Exclude + Copy>(form: F, row: &[F]) -> F
    ensures { result ≡ front_of F.back form row.now }
{
    let mut f = form;
    let mut i = row.len();
    while i > 0 {
        i -= 1;
        f = f.exclude(&row[i]);
    }
    f
}

/// The form after the inclusion of the forms of a list from a place on, as they were executed one after the other. It
/// changes none of them.
pub fn after<F: Include + Copy>(form: F, row: &[F], from: usize) -> F
    requires { AfterFits F.over F.place F.extent form (drop from row.now) }
    ensures { result ≡ form_after F.over form (drop from row.now) }
{
    let mut f = form;
    for i in from..row.len() {
        f = f.include(&row[i]);
    }
    f
}
