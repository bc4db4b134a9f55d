//! The command `upgrade`.

ghost use Rattle.std.specs.Prelude.{◌≡◌};
ghost use Rattle.log_replies.specs.Replies.{IsUpgraded, log_reply};

use crate::replying::Replies;
use crate::written::put_log;
use cot_site::Site;
use op_name::Memory;
use std::alloc::Global;

/// Loads a log of either version as site 0, and writes the log of the site, which is of version 2: the same history, and the same that
/// waits. Where that is too long to be read again, nothing of it is written.
#[derive(Drop)]
pub struct Upgrading;

impl Replies for Upgrading {
    ghost replies = { λ _. IsUpgraded };

    ghost number = { λ _. 0 };

    ghost replies_to = { λ _ s reply. reply ≡ log_reply s };

    ghost in_range = { λ _. Unit {0} };

    fn site(&self) -> u16 {
        0
    }

    fn reply(&self, _alloc: Global, site: &mut Site, out: &mut Vec<u8>) -> Result<bool, Memory> {
        put_log(site, out)
    }

    ghost by_log = { λ _ bytes reply it. it };
}
