//! The command `help`.

ghost use Rattle.std.specs.Prelude.{◌≡◌, ◌⊎◌, ℕ, List, Option};
ghost use Rattle.log_replies.specs.Outside.{told};
ghost use Rattle.cotpad_run.specs.Help.{help_text};
ghost use Rattle.cotpad_run.specs.Made.{IsSaid};

use crate::saying::say;
use log_replies::Status;
use outside_io::Sink;

const HELP: &str =
    "cotpad replay                      reads a script, and writes the report of its session\n\
cotpad show                        reads a log, and writes its text\n\
cotpad edit SITE ins V TEXT        reads a log, inserts a text after V shown characters, and writes the new log\n\
cotpad edit SITE run V TEXT        the same with as few inserts as do, each of at most 256 characters\n\
cotpad edit SITE nl V              the same with a line feed\n\
cotpad edit SITE del V             reads a log, deletes the shown character V, from 0, and writes the new log\n\
cotpad edit SITE undo NAME         reads a log, undoes an insert or delete, whoever made it, and writes the new log\n\
cotpad edit SITE redo NAME         the same with a redo, whoever undid it\n\
cotpad upgrade                     reads a log of version 1 or 2, and writes it in version 2\n\
cotpad history                     reads a log, and writes a line for each operation: its name, what it did, if it is in force\n\
cotpad digest                      reads a log, and writes hashes of its operations and its text, to compare copies by\n\
cotpad explain MEMBER              reads a log, and writes how the form of an operation is derived\n\
cotpad where V                     reads a log, and writes the line and column after V shown characters\n\
cotpad find L C                    reads a log, and writes after how many shown characters line L column C is\n\
cotpad at COUNTS GROUPS            reads a log, and writes its text at a set of operations\n\
cotpad playback                    reads a log, and writes its text after each operation\n\
cotpad serve PORT                  reads a log, exchanges with who comes to the port, and writes the new log\n\
cotpad join PORT                   reads a log, exchanges with who waits at the port, and writes the new log\n\
cotpad loop START                  lets two sites exchange over a connection, and writes what went\n\
cotpad gen START EVENTS WINDOW     generates a session of four sites, and writes what it did\n\
cotpad help                        writes these lines\n\
cotpad version                     writes which version of the program this is\n";

/// Writes a line for each command. It reads nothing, and takes no memory.
pub(crate) fn answer_help<K: Sink>(sink: &mut K) -> Status
    ensures answer { (left : Option (List ℕ)) → (faults : ℕ) → IsSaid help_text
        (told left faults (K.held sink.old) (K.faults sink.old))
        (told left faults (K.held sink.new) (K.faults sink.new))
        result }
    ensures ends { (result ≡ Status.Done) ⊎ (result ≡ Status.WriteFault) }
{
    say(HELP, sink)
}
