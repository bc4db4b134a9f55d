//! Verdicts on delivered operations.

use op_name::{Member, Name};

/// What became of a delivered operation: the first of these cases that holds.
#[derive(Clone, Copy, Debug, PartialEq, Eq, Drop)]
pub enum Verdict {
    /// The site has integrated the same insert or delete already, or a generation of the undone original
    /// that is at least that of the undo.
    Repeat,
    /// The site knows an insert or delete of this name with other content, integrated or waiting.
    Forged { name: Name },
    /// The context has a member that the site hasn't integrated; `missing` is the first one, in the order of
    /// members. The operation waits for it.
    Waits { missing: Member },
    /// The context isn't closed: the last original of this site that it names was made after something that
    /// the context hasn't. It is the least such site.
    NotClosed { site: u16 },
    /// The place, which counts the cells of the context, is after them (insert) or at none of them (delete);
    /// `cells` is their number.
    PlaceOut { place: u32, cells: u32 },
    /// The operation is now the last one of the site's history.
    Integrated,
}
