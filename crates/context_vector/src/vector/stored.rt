//! Lists that stay as they are, of which long ones have pieces in common with others.

ghost use Rattle.std.specs.Prelude.{◌≡◌, ◌<◌, IfOk, vec_len, vec_capacity};
ghost use Rattle.context_vector.specs.Code.Readers.{left_of};

use super::element::Element;
use super::piece::{LONGEST, Piece, pieces_like};
use super::reader::Reader;
use op_name::Memory;
use std::alloc::Global;
use std::marker::Model;

/// A list that never changes: a short one as it is, a long one in pieces.
#[derive(Debug, Drop)]
pub struct Stored<T: Element> {
    first: Vec<T>,
    rest: Vec<Piece<T>>,
}

impl<T: Element> Model for Stored<T> {
    ghost use Rattle.std.specs.Prelude.{List, ◌++◌};
    ghost use Rattle.context_vector.specs.Code.Pieces.{joined};

    ghost Value = { List T };

    ghost view = { λ s. s.first.items ++ joined s.rest.items };
}

impl<T: Element> Stored<T> {
    /// The list, with the pieces of `like` that it has too.
    pub fn of(alloc: Global, list: &[T], like: Option<&Stored<T>>) -> Result<Stored<T>, Memory>
        ensures { IfOk result (λ s. s ≡ list.now) }
    {
        if list.len() <= LONGEST {
            return Ok(Stored {
                first: Vec::from_slice(alloc, list)?,
                rest: Vec::new(alloc),
            });
        }
        let pieces = match like {
            Some(like) => like.rest.as_slice(),
            None => &[],
        };
        Ok(Stored {
            first: Vec::new(alloc),
            rest: pieces_like(alloc, list, pieces)?,
        })
    }

    /// A reader of the list.
    pub fn reader(&self) -> Reader<'_, T>
        ensures { left_of result ≡ self.now }
    {
        Reader::new(self.first.as_slice(), self.rest.as_slice())
    }

    /// A copy of the list, with a spare place.
    pub fn to_vec(&self, alloc: Global) -> Result<Vec<T>, Memory>
        ensures items { IfOk result (λ v. v.items ≡ self.now) }
        ensures spare { IfOk result (λ v. vec_len v < vec_capacity v) }
    {
        let mut all = self.reader().to_vec(alloc)?;
        all.reserve(1)?;
        Ok(all)
    }
}
