//! What bytes are judged to be, where a context is read.

use crate::cause::Cause;
use context_vector::Vector;

/// What bytes begin with, where a context is read.
#[derive(Drop)]
pub enum DecodedContext {
    /// This context, which has `used` bytes.
    Got { vector: Vector, used: u32 },
    /// Nothing that can be told yet: the bytes end in the field that begins at this offset.
    More { field: u32 },
    /// No context. The offset counts from the first byte.
    Bad { cause: Cause, offset: u32 },
}
