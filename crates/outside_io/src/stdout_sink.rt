//! The process's output.

ghost use Rattle.std.specs.Prelude.{◌≡◌};

use crate::failed::Failed;
use crate::sink::Sink;
use std::io::Write;

/// The process's standard output, `rt.stdout()`, as a sink. An error of writing, and a write that takes
/// nothing of a piece, is counted and answered as a fault.
///
/// What it writes to is a parameter, so that it is proved for each writer: it tells the bytes that its
/// writer tells. Standard output tells none.
#[derive(Drop)]
pub struct StdoutSink<W: Write + Drop> {
    stdout: W,
    faults: u64,
}

impl<W: Write + Drop> StdoutSink<W> {
    /// No fault was met so far.
    pub fn new(stdout: W) -> StdoutSink<W>
        ensures held { ⟦<StdoutSink<W> as Sink>⟧.held result ≡ W.contents stdout }
        ensures faults { ⟦<StdoutSink<W> as Sink>⟧.faults result ≡ 0 }
    {
        StdoutSink { stdout, faults: 0 }
    }
}

impl<W: Write + Drop> Sink for StdoutSink<W> {
    ghost held = { λ s. W.contents s.stdout };

    ghost faults = { λ s. s.faults };

    fn write(&mut self, piece: &[u8]) -> Result<usize, Failed> {
        match self.stdout.write(piece) {
            Ok(taken) if taken > 0 || piece.is_empty() => Ok(taken),
            _ => {
                self.faults = self.faults.saturating_add(1);
                Err(Failed)
            }
        }
    }
}
