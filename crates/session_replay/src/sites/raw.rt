//! Deliveries of frames.

ghost use Rattle.std.specs.Prelude.{◌≡◌, ◌<◌, ◌≤◌, IfOk, IfSome, OnErr, length};
ghost use Rattle.wire_codec.specs.Judging.{judge};
ghost use Rattle.session_replay.specs.LineSteps.{framed, raw_steps, raw_word};
ghost use Rattle.session_replay.specs.Code.Doing.{AreDone, frame_bytes};

use crate::sites::Sites;
use op_name::Memory;
use script_text::{raw_bad_line, raw_more_line};
use wire_codec::{Decoded, Version, decode_in};

impl Sites {
    // Delivers frame after frame of the bytes, of this version, to the site of this number. The first bytes that begin with no
    // frame are reported, and end it.
    pub(super) fn give_frames(
        &mut self,
        version: Version,
        site: u16,
        bytes: &[u8],
        out: &mut Vec<u8>,
    ) -> Result<(), Memory>
        requires { site < length self.old.sites }
        ensures done { AreDone result (raw_steps version site bytes.now self.old) self.old self.new out.old.items out.new.items }
        ensures needed { OnErr result (0 < length bytes.now) }
    {
        let mut rest = bytes;
        while !rest.is_empty() {
            match self.deliver_frame(version, site, rest, out) {
                Ok(Some(used)) => {
                    let parts = rest.split_at(used as usize);
                    rest = parts.1;
                }
                Ok(None) => return Ok(()),
                Err(memory) => return Err(memory),
            }
        }
        Ok(())
    }

    // Delivers the frame that the bytes, of which there is one at least, begin with, and answers how many bytes it
    // has. Bytes that begin with no frame of this version are reported.
    fn deliver_frame(
        &mut self,
        version: Version,
        site: u16,
        bytes: &[u8],
        out: &mut Vec<u8>,
    ) -> Result<Option<u32>, Memory>
        requires site { site < length self.old.sites }
        requires some { 0 < length bytes.now }
        ensures done { AreDone result (framed version 1 site bytes.now self.old) self.old self.new out.old.items out.new.items }
        ensures used { IfOk result (λ used. used ≡ frame_bytes (judge version bytes.now)) }
        ensures within { IfOk result (λ frame. IfSome frame (λ used. used ≤ length bytes.now)) }
        ensures sites { length self.new.sites ≡ length self.old.sites }
    {
        let alloc = *self.messages.allocator();
        let word = raw_word(version);
        match decode_in(version, alloc, bytes) {
            Ok(Decoded::Got { op, used }) => {
                let mut op = op;
                self.deliver(site as usize, false, &mut op, out)?;
                Ok(Some(used))
            }
            Ok(Decoded::More { at_least }) => {
                raw_more_line(word, site, at_least, out)?;
                Ok(None)
            }
            Ok(Decoded::Bad { cause, offset }) => {
                raw_bad_line(word, site, cause.word(), offset, out)?;
                Ok(None)
            }
            Err(memory) => Err(memory),
        }
    }
}

// The word of the line whose bytes are frames of this version.
fn raw_word(version: Version) -> &'static str
    ensures { result.now ≡ raw_word version }
{
    match version {
        Version::One => "raw",
        Version::Two => "raw2",
    }
}
