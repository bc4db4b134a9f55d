//! How changes are told of a list, from left to right.

ghost use Rattle.std.specs.Prelude.{◌≡◌, ◌<◌, OnOk, OnErr};
ghost use Rattle.ttf_form.specs.declared.include.TheConstants.{CELLS};
ghost use Rattle.change_list.specs.Told.{grown, nothing_at, told_at, HasRoom};

use crate::change::Change;
use op_name::Memory;

/// Tells of one element that came in (`shown`) or was taken away (not `shown`), where so many are shown before it: the last change has
/// one more where it ends there, else a new change has it. When out of memory, the changes are as they were.
pub fn tell(changes: &mut Vec<Change>, place: u32, shown: bool) -> Result<(), Memory>
    requires { HasRoom place changes.old.items }
    ensures told { OnOk result (changes.new.items ≡ told_at place shown changes.old.items) }
    ensures err { OnErr result (changes.new.items ≡ changes.old.items) }
{
    let len = changes.len();
    if len > 0 {
        let last = changes[len - 1];
        if last.place + last.inserted == place {
            changes[len - 1] = grown(last, shown);
            return Ok(());
        }
    }
    changes.push(one_at(place, shown))?;
    Ok(())
}

/// The change with one element more.
fn grown(mut change: Change, shown: bool) -> Change
    requires inserted { change.inserted < CELLS }
    requires removed { change.removed < CELLS }
    ensures { result ≡ grown shown change }
{
    if shown {
        change.inserted += 1;
    } else {
        change.removed += 1;
    }
    change
}

/// A change of one element.
fn one_at(place: u32, shown: bool) -> Change
    ensures { result ≡ grown shown (nothing_at place) }
{
    let nothing = Change {
        place,
        removed: 0,
        inserted: 0,
    };
    grown(nothing, shown)
}
