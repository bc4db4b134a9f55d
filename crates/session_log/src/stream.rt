//! A log that comes in pieces, as far as it came.

ghost use Rattle.std.specs.Prelude.{◌≡◌, ℕ, ◌<◌, ◌≤◌, [], IfOk, OnOk, IsOk, min, take};
ghost use Rattle.wire_codec.specs.declared.version.Version.TheVariants.{Two};
ghost use Rattle.session_log.specs.Logs.{header};
ghost use Rattle.session_log.specs.Code.Steps.{no_frame};

use crate::headers::HEADER_LEN;
use op_name::Memory;
use std::alloc::Global;
use wire_codec::{FrameStream, Version};

/// The version that the header tells, as far as it came, and what comes after it, in frames of that version.
#[derive(Drop)]
pub(crate) struct LogStream {
    pub(crate) version: Version,
    pub(crate) stream: FrameStream,
    alloc: Global,
}

impl LogStream {
    /// That of a log of which nothing came: it is taken to be of version 2, until its header tells another one.
    pub(crate) fn new(alloc: Global) -> Result<LogStream, Memory>
        ensures { IfOk result (λ f. (f.version ≡ Two) × (f.stream ≡ no_frame Two)) }
    {
        Ok(LogStream {
            version: Version::Two,
            stream: FrameStream::of(alloc, Version::Two)?,
            alloc,
        })
    }

    /// Takes the version that the header tells now, where so many bytes of the log were fed before. It takes no memory.
    pub(crate) fn turn(&mut self, fed: u32, told: Version) -> Result<(), Memory>
        requires { take (min fed HEADER_LEN) (header self.old.version) ≡ take (min fed HEADER_LEN) (header told) }
        ensures told { OnOk result (self.new.version ≡ told) }
        ensures fresh { fed < HEADER_LEN → OnOk result (self.new.stream ≡ no_frame told) }
        ensures stays { HEADER_LEN ≤ fed → OnOk result (self.new.stream ≡ self.old.stream) }
        ensures made { IsOk result }
    {
        if (fed as usize) < HEADER_LEN {
            self.stream = FrameStream::of(self.alloc, told)?;
            self.version = told;
        }
        Ok(())
    }
}
