//! The command `version`.

ghost use Rattle.std.specs.Prelude.{◌≡◌, ◌⊎◌, ℕ, List, Option};
ghost use Rattle.log_replies.specs.Outside.{told};
ghost use Rattle.cotpad_run.specs.Help.{version_text};
ghost use Rattle.cotpad_run.specs.Made.{IsSaid};

use crate::saying::say;
use log_replies::Status;
use outside_io::Sink;

const VERSION: &str = "cotpad 4, proved with rattle-kit-13f\n";

/// Writes the version of the program. It reads nothing, and takes no memory.
pub(crate) fn answer_version<K: Sink>(sink: &mut K) -> Status
    ensures answer { (left : Option (List ℕ)) → (faults : ℕ) → IsSaid version_text
        (told left faults (K.held sink.old) (K.faults sink.old))
        (told left faults (K.held sink.new) (K.faults sink.new))
        result }
    ensures ends { (result ≡ Status.Done) ⊎ (result ≡ Status.WriteFault) }
{
    say(VERSION, sink)
}
