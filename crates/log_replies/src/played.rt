//! The command `playback`.

ghost use Rattle.std.specs.Prelude.{◌≡◌, true, false};
ghost use Rattle.past_view.specs.Playing.{played};
ghost use Rattle.log_replies.specs.Outside.{told};
ghost use Rattle.log_replies.specs.Answers.{IsStreamed};
ghost use Rattle.log_replies.specs.PlayedTexts.{IsPlayedBack};
ghost use Rattle.log_replies.specs.Code.Playing.{IsWrittenOut};

use crate::loaded::load_input;
use crate::status::Status;
use cot_site::Site;
use outside_io::{Failed, ReadBad, Sink, Source, write_whole};
use past_view::{PlayBad, playback};
use std::alloc::Global;

/// Reads the input to its end, at most `MAX_INPUT` bytes, loads it as the log of site 0, and writes the text after each operation of
/// its history. What is written isn't held in memory as a whole, so out of memory may leave a front of it.
pub fn answer_played<S: Source, K: Sink>(alloc: Global, source: &mut S, sink: &mut K) -> Status
    ensures answer { IsStreamed IsPlayedBack
        (told (S.left source.old) (S.faults source.old) (K.held sink.old) (K.faults sink.old))
        (told (S.left source.new) (S.faults source.new) (K.held sink.new) (K.faults sink.new))
        result }
    // Where the source fails, no write was tried.
    ensures untouched { result ≡ Status.ReadFault → sink.new ≡ sink.old }
{
    let mut line = Vec::new(alloc);
    match load_input(alloc, 0, source, &mut line) {
        Ok(Some(site)) => play(alloc, site, sink),
        Ok(None) => refuse(&line, sink),
        Err(ReadBad::Fault) => Status::ReadFault,
        Err(ReadBad::Memory) => Status::Memory,
    }
}

// Writes the text after each operation of the site's history. The site is given up.
fn play<K: Sink>(alloc: Global, site: Site, sink: &mut K) -> Status
    ensures written { IsWrittenOut false (played site.history)
        (K.held sink.old) (K.held sink.new) (K.faults sink.old) (K.faults sink.new) result }
{
    match playback(alloc, &site, sink) {
        Ok(()) => Status::Done,
        Err(PlayBad::Fault) => Status::WriteFault,
        Err(PlayBad::Memory) => Status::Memory,
    }
}

// Writes the line that refuses the log.
fn refuse<K: Sink>(line: &[u8], sink: &mut K) -> Status
    ensures written { IsWrittenOut true line.now (K.held sink.old) (K.held sink.new) (K.faults sink.old) (K.faults sink.new) result }
{
    match write_whole(sink, line) {
        Ok(()) => Status::Refused,
        Err(Failed) => Status::WriteFault,
    }
}
