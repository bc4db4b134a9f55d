//! Commands that read nothing, and write a text.

ghost use Rattle.std.specs.Prelude.{◌≡◌, ◌⊎◌, ℕ, List, Option};
ghost use Rattle.log_replies.specs.Outside.{told};
ghost use Rattle.cotpad_run.specs.Made.{IsSaid};

use log_replies::Status;
use outside_io::{Failed, Sink, write_whole};

/// Writes the text. It reads nothing, and takes no memory.
pub(crate) fn say<K: Sink>(text: &str, sink: &mut K) -> Status
    ensures answer { (left : Option (List ℕ)) → (faults : ℕ) → IsSaid text.now
        (told left faults (K.held sink.old) (K.faults sink.old))
        (told left faults (K.held sink.new) (K.faults sink.new))
        result }
    ensures ends { (result ≡ Status.Done) ⊎ (result ≡ Status.WriteFault) }
{
    match write_whole(sink, text.as_bytes()) {
        Ok(()) => Status::Done,
        Err(Failed) => Status::WriteFault,
    }
}
