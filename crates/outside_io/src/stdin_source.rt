//! The process's input.

ghost use Rattle.std.specs.Prelude.{◌≡◌};

use crate::failed::Failed;
use crate::source::Source;
use std::io::Read;

/// The process's standard input, `rt.stdin()`, as a source. An error of reading is counted and answered as
/// a fault.
///
/// What it reads from is a parameter, so that it is proved for each reader: it tells the bytes that its
/// reader tells. Standard input tells none.
#[derive(Drop)]
pub struct StdinSource<R: Read + Drop> {
    stdin: R,
    faults: u64,
}

impl<R: Read + Drop> StdinSource<R> {
    /// No fault was met so far.
    pub fn new(stdin: R) -> StdinSource<R>
        ensures left { ⟦<StdinSource<R> as Source>⟧.left result ≡ R.remaining stdin }
        ensures faults { ⟦<StdinSource<R> as Source>⟧.faults result ≡ 0 }
    {
        StdinSource { stdin, faults: 0 }
    }
}

impl<R: Read + Drop> Source for StdinSource<R> {
    ghost left = { λ s. R.remaining s.stdin };

    ghost faults = { λ s. s.faults };

    fn read(&mut self, buf: &mut [u8]) -> Result<usize, Failed> {
        match self.stdin.read(buf) {
            Ok(given) => Ok(given),
            Err(_) => {
                self.faults = self.faults.saturating_add(1);
                Err(Failed)
            }
        }
    }
}
