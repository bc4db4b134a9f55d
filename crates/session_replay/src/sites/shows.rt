//! What a site shows.

ghost use Rattle.std.specs.Prelude.{◌≡◌, ◌++◌, ◌<◌, OnOk, OnErr, length};
ghost use Rattle.session_replay.specs.LineSteps.{show_text, have_text};

use crate::sites::Sites;
use op_name::Memory;
use script_text::{shown_lines, state_line};

impl Sites {
    // Appends the lines of the text that the site shows.
    pub(super) fn show(&self, at: usize, out: &mut Vec<u8>) -> Result<(), Memory>
        requires { at < length self.now.sites }
        ensures ok { OnOk result (out.new.items ≡ out.old.items ++ show_text at self.now) }
        ensures err { OnErr result (out.new.items ≡ out.old.items) }
    {
        let alloc = *self.messages.allocator();
        let site = &self.sites[at];
        let mut text = Vec::new(alloc);
        site.text(&mut text)?;
        shown_lines(site.visible_len(), text.as_slice(), out)
    }

    // Appends the line of the members that the site of this number has, and of how many operations wait.
    pub(super) fn show_state(&self, site: u16, out: &mut Vec<u8>) -> Result<(), Memory>
        requires { site < length self.now.sites }
        ensures ok { OnOk result (out.new.items ≡ out.old.items ++ have_text site self.now) }
        ensures err { OnErr result (out.new.items ≡ out.old.items) }
    {
        let alloc = *self.messages.allocator();
        let at = &self.sites[site as usize];
        state_line(site, at.vector(), at.pool().len(), out)
    }
}
