//! Lines of scripts, and why bytes are none.

ghost use Rattle.std.specs.Prelude.{◌≡◌};
ghost use Rattle.script_text.specs.Lines.{line_site};

use crate::reading::chars::Chars;
use crate::reading::octets::Octets;
use op_name::Name;

/// What a line of a script says. A site is 0 to 1,023; a place counts shown characters, a message is the number
/// of a message, both 0 to 4,294,967,295.
#[derive(Debug, Drop)]
pub enum Line {
    /// Nothing: the line is empty or starts with `#`.
    Blank,
    /// `sites N`: makes sites 0 to `count - 1`; the count is 1 to 1,024.
    Sites { count: u16 },
    /// `ins S V TEXT`: inserts each character at the site, at visible places `place`, `place + 1` and so on.
    Ins { site: u16, place: u32, text: Chars },
    /// `run S V TEXT`: inserts the text at the site, cut from the front into pieces of 256 characters and a shorter last one: one
    /// operation each, at visible places `place`, `place + 256` and so on.
    Run { site: u16, place: u32, text: Chars },
    /// `nl S V`: inserts a line feed.
    Nl { site: u16, place: u32 },
    /// `del S V`: deletes the shown cell.
    Del { site: u16, place: u32 },
    /// `undo S NAME`
    Undo { site: u16, name: Name },
    /// `redo S NAME`
    Redo { site: u16, name: Name },
    /// `give S M`: delivers the message to the site.
    Give { site: u16, message: u32 },
    /// `all S`: delivers every message to the site, by number.
    All { site: u16 },
    /// `sync`: does `all` for each site, rising.
    Sync,
    /// `raw S HEX`: decodes frame after frame of version 1 from the bytes, of which there is one at least, and delivers each.
    Raw { site: u16, bytes: Octets },
    /// `raw2 S HEX`: the same of version 2.
    Raw2 { site: u16, bytes: Octets },
    /// `show S`: shows the text.
    Show { site: u16 },
    /// `state S`: shows the members and the number waiting.
    State { site: u16 },
}

impl Line {
    /// The number of the site that the line speaks of; None exactly for a line that speaks of no one site.
    pub fn site(&self) -> Option<u16>
        ensures { result ≡ line_site self.now }
    {
        match self {
            Line::Blank | Line::Sites { .. } | Line::Sync => None,
            Line::Ins { site, .. }
            | Line::Run { site, .. }
            | Line::Nl { site, .. }
            | Line::Del { site, .. }
            | Line::Undo { site, .. }
            | Line::Redo { site, .. }
            | Line::Give { site, .. }
            | Line::All { site }
            | Line::Raw { site, .. }
            | Line::Raw2 { site, .. }
            | Line::Show { site }
            | Line::State { site } => Some(*site),
        }
    }
}

/// Why bytes aren't a line; the first cause that holds, in this order.
#[derive(Clone, Copy, Debug, PartialEq, Eq)]
pub enum LineBad {
    /// The line holds the byte after the first `MAX_SCRIPT` of an input, or would begin with it.
    Limit,
    /// More than `LONGEST` bytes.
    Long,
    /// Not UTF-8 (RFC 3629).
    Utf8,
    /// No row of the table of lines is spelled so.
    Form,
    /// Out of memory; the bytes are a line that has a text or bytes.
    Memory,
}
