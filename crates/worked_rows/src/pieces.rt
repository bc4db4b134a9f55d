//! Bytes that have names in the table.

use std::alloc::{AllocError, Global};

#[derive(Drop)]
struct Piece {
    name: String,
    bytes: Vec<u8>,
}

/// The named pieces, in the order in which the table tells them.
#[derive(Drop)]
pub(crate) struct Pieces {
    all: Vec<Piece>,
}

impl Pieces {
    pub(crate) fn new(alloc: Global) -> Pieces {
        Pieces {
            all: Vec::new(alloc),
        }
    }

    /// Names bytes; the newest meaning of a name counts.
    pub(crate) fn name(&mut self, name: String, bytes: Vec<u8>) -> Result<(), AllocError> {
        self.all.push(Piece { name, bytes })?;
        Ok(())
    }

    fn named(&self, name: &str) -> Option<&[u8]> {
        let mut found = None;
        for piece in self.all.iter() {
            if piece.name.as_str() == name {
                found = Some(piece.bytes.as_slice());
            }
        }
        found
    }

    /// Appends the bytes of all these words, with a blank between any two. Answers whether each is a piece.
    pub(crate) fn put_all(
        &self,
        alloc: Global,
        words: &str,
        to: &mut Vec<u8>,
    ) -> Result<bool, AllocError> {
        if words.is_empty() {
            return Ok(true);
        }
        for word in words.split(' ') {
            if !self.put(alloc, word, to)? {
                return Ok(false);
            }
        }
        Ok(true)
    }

    // `COUNT*PIECE`, or a piece once.
    fn put(&self, alloc: Global, word: &str, to: &mut Vec<u8>) -> Result<bool, AllocError> {
        let Some((count, word)) = word.split_once('*') else {
            return self.put_once(alloc, word, to);
        };
        let Ok(count) = count.parse::<u32>() else {
            return Ok(false);
        };
        self.put_often(alloc, count, word, to)
    }

    fn put_often(
        &self,
        alloc: Global,
        count: u32,
        word: &str,
        to: &mut Vec<u8>,
    ) -> Result<bool, AllocError> {
        let mut bytes = Vec::new(alloc);
        let is_piece = self.put_once(alloc, word, &mut bytes)?;
        for _ in 0..count {
            to.extend_from_slice(&bytes)?;
        }
        Ok(is_piece)
    }

    // The bytes that a word names, or else those that its hexadecimal digits spell.
    fn put_once(&self, alloc: Global, word: &str, to: &mut Vec<u8>) -> Result<bool, AllocError> {
        match self.named(word) {
            Some(bytes) => {
                to.extend_from_slice(bytes)?;
                Ok(true)
            }
            None => put_digits(alloc, word, to),
        }
    }
}

/// Appends the bytes that hexadecimal digits spell. Answers whether there are some, and no other characters.
pub(crate) fn put_digits(alloc: Global, word: &str, to: &mut Vec<u8>) -> Result<bool, AllocError> {
    match hex::decode(alloc, word) {
        Ok(bytes) => {
            to.extend_from_slice(&bytes)?;
            Ok(!word.is_empty())
        }
        Err(_) => Ok(false),
    }
}
