//! Messages, by where their operations stand.

ghost use Rattle.std.specs.Prelude.{◌≡◌, map};
ghost use Rattle.context_diff.specs.Ops.{data_of};
ghost use Rattle.cot_site.specs.Sites.{state_of};
ghost use Rattle.session_replay.specs.Code.Messages.{IsHeld, operation_of};

use context_diff::Op;
use cot_site::Site;

/// Where the operation of a message stands: in the history of the site of this number, which made it, at this place, from 0. The
/// message has no copy of its own.
#[derive(Clone, Copy, Drop)]
pub(crate) struct Message {
    pub(crate) site: u16,
    pub(crate) place: u32,
}

impl Message {
    /// The operation, in the history of its site.
    pub(crate) fn op<'a>(self, sites: &'a [Site]) -> &'a Op
        requires { IsHeld (map state_of sites.now) self }
        ensures { data_of result.now ≡ operation_of (map state_of sites.now) self }
    {
        match sites[self.site as usize].book().op(self.place) {
            Some(op) => op,
            None => unreachable!(),
        }
    }
}
