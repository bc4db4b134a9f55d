//! The one answer of a device that didn't do what was asked.

/// A read, a write or a link failed. The count of faults of the device that answers it rose in that call,
/// or stands at its last value; in a call that went well it stays.
#[derive(Clone, Copy, Debug, PartialEq, Eq)]
pub struct Failed;
