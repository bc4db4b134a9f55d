//! One change of a list.

/// At a place so many elements are taken away, and then so many come in: those of the new list from that place on.
#[derive(Clone, Copy, Debug, PartialEq, Eq)]
pub struct Change {
    pub place: u32,
    pub removed: u32,
    pub inserted: u32,
}
