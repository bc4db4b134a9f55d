//! Operations of a log.

use context_diff::Op;

/// An operation of a log, with the offset of its frame, which counts bytes from the first byte of the log.
#[derive(Drop)]
pub struct Placed {
    pub offset: u32,
    pub op: Op,
}
