//! Inserts.

ghost use Rattle.std.specs.Prelude.{◌≡◌, ◌≤◌};
ghost use Rattle.op_name.specs.declared.limits.TheConstants.{LETTERS};

use op_name::Name;

/// New cells side by side at a place: they are put in front of the cell that stands there, or after the last one.
///
/// The place counts all cells, shown or hidden, from 0. There are 1 to `LETTERS` new cells. The site is that of the name; it decides
/// between inserts at one place: the one of the smaller site stands in front.
#[derive(Clone, Copy, Debug, PartialEq, Eq, Hash)]
pub struct Ins {
    pub place: u32,
    pub site: u16,
    pub len: u16,
    pub name: Name,
    ghost own: { site ≡ name.site },
    ghost some: { 1 ≤ len },
    ghost most: { len ≤ LETTERS },
}
