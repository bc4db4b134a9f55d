//! The text of a range of shown characters.

ghost use Rattle.std.specs.Prelude.{◌≡◌, ◌+◌, ◌≤◌, ◌++◌, length, OnOk, OnErr};
ghost use Rattle.context_diff.specs.Replays.{shown};
ghost use Rattle.site_ranges.specs.Ranges.{text_at};

use crate::chunks::write_shown;
use cot_site::Site;
use op_name::Memory;

/// Appends in UTF-8 so many of the shown characters, from the one at `place`, from 0, on. When out of memory, which comes only where
/// there are any, `out` is as it was.
///
/// It costs by the chunks of the range, and by the sums above them: the first character's chunk is found by the kept numbers of shown
/// cells, and what stands before that chunk or behind the range isn't looked at.
pub fn write_range(site: &Site, place: u32, count: u32, out: &mut Vec<u8>) -> Result<(), Memory>
    requires { place + count ≤ length (shown site.now.history) }
    ensures ok { OnOk result (out.new.items ≡ out.old.items ++ text_at site.now.history place count) }
    ensures needed { OnErr result (1 ≤ count) }
    ensures err { OnErr result (out.new.items ≡ out.old.items) }
{
    write_shown(site.cells(), place, count, out)
}
