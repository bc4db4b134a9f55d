//! The releases that follow an operation.

ghost use Rattle.std.specs.Prelude.{◌≡◌, OnOk, OnErr};
ghost use Rattle.cot_site.specs.Releases.{IsLater};
ghost use Rattle.cot_site.specs.Sites.{state_of};
ghost use Rattle.cot_site.specs.States.{IsSettled};
ghost use Rattle.participant.specs.Reached.{at, all_settled, IsHalfSettled};

use cot_site::{Release, Site};
use op_name::Memory;

/// Releases until none is ready, as `Site::settle` does. Each release is appended; after out of memory, the first ones are done.
pub(crate) fn release_all(site: &mut Site, released: &mut Vec<Release>) -> Result<(), Memory>
    ensures done { OnOk result (at site.new released.new.items ≡ all_settled (at site.old released.old.items)) }
    ensures half { OnErr result (IsHalfSettled (at site.old released.old.items) (at site.new released.new.items)) }
    ensures settled { OnOk result (IsSettled (state_of site.new)) }
    ensures later { IsLater (state_of site.old) (state_of site.new) }
{
    site.known();
    match site.settle(released) {
        Ok(()) => Ok(()),
        Err(Memory) => Err(Memory),
    }
}
