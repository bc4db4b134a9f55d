//! The whole program, over any source, sink and wire.

ghost use Rattle.std.specs.Prelude.{◌≡◌, ◌⊎◌, ℕ, List, Option};
ghost use Rattle.outside_io.specs.Ends.{IsUnlinked};
ghost use Rattle.context_diff.specs.Operations.{OpData};
ghost use Rattle.context_diff.specs.Histories.{IsValid, Same};
ghost use Rattle.context_diff.specs.Replays.{text_of};
ghost use Rattle.log_replies.specs.Outside.{told};
ghost use Rattle.log_replies.specs.Laws.{OneReply, OneExplanation, OnePast};
ghost use Rattle.cotpad_run.specs.Limits.{AreTheLimits};
ghost use Rattle.cotpad_run.specs.Words.{SpellNone, AreWrongWords};
ghost use Rattle.cotpad_run.specs.Table.{world, Reads, Streams, Links, IsRun};
ghost use Rattle.cotpad_run.specs.Wired.{wired};

use crate::command::{Command, command_of};
use crate::generator::answer_generated;
use crate::help::answer_help;
use crate::laws::{limits_have_numbers, same_operations};
use crate::looped::answer_looped;
use crate::meeting::{Joining, Serving, answer_met};
use crate::replay::answer_replay;
use crate::version::answer_version;
use log_listings::{Digesting, Listing};
use log_replies::{
    Editing, Explaining, Finding, Locating, Show, ShowingPast, Status, Upgrading, answer,
    answer_played, one_explanation, one_past, one_reply,
};
use outside_io::{Failed, Sink, Source, Wire, write_whole};
use std::alloc::Global;

/// Does what the words say, which are those after the program's name. `replay` reads a script, and writes the report of each
/// line before it reads on. `show` reads a log, and writes its text. `edit SITE ins V TEXT`, `edit SITE run V TEXT`, `edit SITE nl V`,
/// `edit SITE del V`, `edit SITE undo NAME` and `edit SITE redo NAME` read a log, edit it as this site, and write the log of the result.
/// `upgrade` reads a log of version 1 or 2, and writes it in version 2. Neither writes a log that is too long to be read again.
/// `history` reads a log, and writes a line for each of its operations; `digest` reads one, and writes hashes of them and of its text.
/// `gen START EVENTS WINDOW` reads nothing, generates a session of four sites, and writes what it did and what site 0 shows.
/// `explain MEMBER` reads a log, and writes the steps that derive the form in which the operation of this member was executed.
/// `where V` reads a log, and writes the line and the column of the place after so many shown characters; `find L C` reads one,
/// and writes the place that has this line and column.
/// `at COUNTS GROUPS` reads a log, and writes its text at the set of members that the two lists spell.
/// `playback` reads a log, and writes its text after each operation, one after the other.
/// `serve PORT` and `join PORT` read a log, exchange with a peer that comes to this port, or that waits there, and write the
/// log with what the peer had. `loop START` reads nothing, generates a session of two sites, which exchange twice over the
/// pair of the wire, and writes what went. `help` and `--help` read nothing, and list the commands;
/// `version` and `--version` read nothing, and tell the version.
/// Any other words write `cotpad: words`, and nothing is read.
pub fn run<S: Source, K: Sink, W: Wire>(
    alloc: Global,
    words: &[String],
    source: &mut S,
    sink: &mut K,
    wire: &mut W,
) -> Status
    // No end of the wire is linked, before and after.
    requires unlinked { IsUnlinked (W.ends wire.old) }
    ensures parted { IsUnlinked (W.ends wire.new) }

    // The command is done as its row of the table says. On Done and Refused what is written is the reply to the bytes that
    // the source had left.
    ensures run { IsRun words.now
        (world (told (S.left source.old) (S.faults source.old) (K.held sink.old) (K.faults sink.old))
        (wired (W.ends wire.old) (W.peer wire.old) (W.asked wire.old) (W.asks wire.old) (W.faults wire.old)))
        (world (told (S.left source.new) (S.faults source.new) (K.held sink.new) (K.faults sink.new))
        (wired (W.ends wire.new) (W.peer wire.new) (W.asked wire.new) (W.asks wire.new) (W.faults wire.new)))
        result }

    // Histories of the same operations, in whatever order they came, show the same text.
    ensures same { (h k : List OpData) → IsValid h → IsValid k → Same h k → text_of h ≡ text_of k }
    // The bytes of a log decide what `show`, `edit`, `upgrade`, `history`, `digest`, `where`, `find` and `playback` reply, and what
    // `explain` and `at` do.
    ensures one_reply { OneReply }
    ensures one_explanation { OneExplanation }
    ensures one_past { OnePast }
    // Each limit, of which definitions and clauses cite the name, is its number.
    ensures limits { AreTheLimits }

    // Where the words spell no command that reads the source, or that calls the wire, these are as they were, in all.
    ensures unread { SpellNone Reads words.now → source.new ≡ source.old }
    ensures unasked { SpellNone Links words.now → wire.new ≡ wire.old }
    // After a fault of reading or of the wire, or out of memory, no write was tried, but by a command that may write before these come.
    ensures untouched { SpellNone Streams words.now → (result ≡ Status.ReadFault) ⊎ ((result ≡ Status.Memory) ⊎ (result ≡ Status.LinkFault))
        → sink.new ≡ sink.old }
{
    limits_have_numbers();
    same_operations();
    one_reply();
    one_explanation();
    one_past();
    match command_of(words) {
        Some(Command::Replay) => answer_replay(alloc, source, sink),
        Some(Command::Show) => answer(alloc, &Show, source, sink),
        Some(Command::Edit { site, edit }) => answer(alloc, &Editing { site, edit }, source, sink),
        Some(Command::Upgrade) => answer(alloc, &Upgrading, source, sink),
        Some(Command::History) => answer(alloc, &Listing, source, sink),
        Some(Command::Digest) => answer(alloc, &Digesting, source, sink),
        Some(Command::Explain { member }) => answer(alloc, &Explaining { member }, source, sink),
        Some(Command::Where { place }) => answer(alloc, &Locating { place }, source, sink),
        Some(Command::Find { line, column }) => answer(
            alloc,
            &Finding { line, column },
            source,
            sink,
        ),
        Some(Command::At { counts, groups }) => answer(
            alloc,
            &ShowingPast { counts, groups },
            source,
            sink,
        ),
        Some(Command::Playback) => answer_played(alloc, source, sink),
        Some(
            Command::Gen {
                start,
                events,
                window,
            },
        ) => answer_generated(alloc, start, events, window, sink),
        Some(Command::Serve { port }) => answer_met(alloc, &Serving { port }, source, sink, wire),
        Some(Command::Join { port }) => answer_met(alloc, &Joining { port }, source, sink, wire),
        Some(Command::Loop { start }) => answer_looped(alloc, start, sink, wire),
        Some(Command::Help) => answer_help(sink),
        Some(Command::DashedHelp) => answer_help(sink),
        Some(Command::Version) => answer_version(sink),
        Some(Command::DashedVersion) => answer_version(sink),
        None => refuse_words(sink),
    }
}

// Writes the line of words that spell no command.
fn refuse_words<K: Sink>(sink: &mut K) -> Status
    ensures answer { (left : Option (List ℕ)) → (faults : ℕ) → AreWrongWords
        (told left faults (K.held sink.old) (K.faults sink.old))
        (told left faults (K.held sink.new) (K.faults sink.new))
        result }
    ensures words { (result ≡ Status.Words) ⊎ (result ≡ Status.WriteFault) }
{
    match write_whole(sink, b"cotpad: words\n") {
        Ok(()) => Status::Words,
        Err(Failed) => Status::WriteFault,
    }
}
