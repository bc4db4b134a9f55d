//! The command `show`.

ghost use Rattle.std.specs.Prelude.{◌≡◌, ◌++◌, OnOk};
ghost use Rattle.cot_site.specs.Sites.{state_of};
ghost use Rattle.log_replies.specs.Replies.{IsShown, shown_reply};

use crate::replying::Replies;
use cot_site::Site;
use op_name::Memory;
use script_text::shown_lines;
use std::alloc::Global;

/// Loads a log as site 0, and writes the lines of its text.
#[derive(Drop)]
pub struct Show;

impl Replies for Show {
    ghost replies = { λ _. IsShown };

    ghost number = { λ _. 0 };

    ghost replies_to = { λ _ s reply. reply ≡ shown_reply s };

    ghost in_range = { λ _. Unit {0} };

    fn site(&self) -> u16 {
        0
    }

    fn reply(&self, alloc: Global, site: &mut Site, out: &mut Vec<u8>) -> Result<bool, Memory> {
        show_text(alloc, site, out)?;
        Ok(false)
    }

    ghost by_log = { λ _ bytes reply it. it };
}

/// Appends the lines of the text that the site shows.
pub fn show_text(alloc: Global, site: &Site, out: &mut Vec<u8>) -> Result<(), Memory>
    ensures { OnOk result (out.new.items ≡ out.old.items ++ (shown_reply (state_of site.now)).written) }
{
    let mut text = Vec::new(alloc);
    site.text(&mut text)?;
    shown_lines(site.visible_len(), &text, out)
}
