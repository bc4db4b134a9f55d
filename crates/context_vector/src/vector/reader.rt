//! Lists read from the front, as many elements as stand in one piece at a time.

ghost use Rattle.std.specs.Prelude.{◌≡◌, ◌≤◌, ◌++◌, List, [], true, false, drop, length, slice_get, IfOk, IfSome, IsTrue};
ghost use lib.Pointwise.{pointwise};
ghost use Rattle.context_vector.specs.Code.Pieces.{joined};
ghost use Rattle.context_vector.specs.Code.Readers.{left_of};

use super::element::Element;
use super::piece::Piece;
use super::rising::are_equal;
use op_name::Memory;
use std::alloc::Global;
use std::marker::Model;

/// What is left of a list that is read from the front.
#[derive(Drop)]
pub struct Reader<'a, T: Element> {
    /// What is left of the part that is being read.
    front: &'a [T],
    /// The pieces after it.
    pieces: &'a [Piece<T>],
}

impl<'a, T: Element> Model for Reader<'a, T> {
    ghost use Rattle.context_vector.specs.Code.Readers.{ReaderData};

    ghost Value = { ReaderData T };

    ghost view = { λ r. record { front = r.front.now; pieces = r.pieces.now } };
}

impl<'a, T: Element> Reader<'a, T> {
    /// A reader of a list and the pieces after it.
    pub fn new(front: &'a [T], pieces: &'a [Piece<T>]) -> Reader<'a, T>
        ensures { left_of result ≡ front.now ++ joined pieces.now }
    {
        Reader { front, pieces }
    }

    /// A reader of a list in one.
    pub fn of(list: &'a [T]) -> Reader<'a, T>
        ensures { left_of result ≡ list.now }
    {
        Reader {
            front: list,
            pieces: &[],
        }
    }

    /// The same once more.
    pub fn again(&self) -> Reader<'a, T>
        ensures { result ≡ self.now }
    {
        Reader {
            front: self.front,
            pieces: self.pieces,
        }
    }

    /// The first elements of what is left, as many as stand in one piece; none only where nothing is left.
    pub fn front(&mut self) -> &'a [T]
        ensures same { left_of self.new ≡ left_of self.old }
        ensures front { result.now ≡ self.new.front }
        ensures end { length self.new.front ≡ 0 → left_of self.new ≡ [] }
    {
        while self.front.is_empty() {
            match self.pieces.split_first() {
                Some((piece, others)) => {
                    self.front = piece.as_slice();
                    self.pieces = others;
                }
                None => return self.front,
            }
        }
        self.front
    }

    /// The first element of what is left.
    pub fn first(&mut self) -> Option<T>
        ensures same { left_of self.new ≡ left_of self.old }
        ensures first { result ≡ slice_get (left_of self.old) 0 }
        ensures front { IfSome result (λ _. 1 ≤ length self.new.front) }
    {
        Some(*self.front().first()?)
    }

    /// Takes the first element of what is left.
    pub fn next(&mut self) -> Option<T>
        ensures first { result ≡ slice_get (left_of self.old) 0 }
        ensures rest { left_of self.new ≡ drop 1 (left_of self.old) }
    {
        let first = self.first()?;
        self.pass(1);
        Some(first)
    }

    /// Goes past so many elements of the part that is being read.
    pub fn pass(&mut self, n: usize)
        requires { n ≤ length self.old.front }
        ensures { left_of self.new ≡ drop n (left_of self.old) }
    {
        self.front = self.front.split_at(n).1;
    }

    /// The i-th element of what is left.
    pub fn at(self, i: usize) -> Option<T>
        ensures { result ≡ slice_get (left_of self.entry) i }
    {
        let mut left = self;
        let mut past = i;
        loop {
            let part = left.front();
            if part.is_empty() {
                return None;
            }
            if past < part.len() {
                return Some(part[past]);
            }
            past -= part.len();
            left.pass(part.len());
        }
    }

    /// A copy of what is left.
    pub fn to_vec(self, alloc: Global) -> Result<Vec<T>, Memory>
        ensures { IfOk result (λ v. v.items ≡ left_of self.entry) }
    {
        let mut all = Vec::new(alloc);
        let mut left = self;
        loop {
            let part = left.front();
            if part.is_empty() {
                return Ok(all);
            }
            all.extend_from_slice(part)?;
            left.pass(part.len());
        }
    }
}

/// Whether both have the same elements left.
pub fn are_same<T: Element>(mine: Reader<'_, T>, theirs: Reader<'_, T>) -> bool
    ensures { result ≡ pointwise T.eq (left_of mine.entry) (left_of theirs.entry) }
{
    let mut left = mine;
    let mut right = theirs;
    loop {
        let one = left.front();
        let other = right.front();
        if one.is_empty() {
            return other.is_empty();
        }
        if other.is_empty() {
            return false;
        }
        let n = one.len().min(other.len());
        if are_equal(one.split_at(n).0, other.split_at(n).0) {
            left.pass(n);
            right.pass(n);
        } else {
            return false;
        }
    }
}

/// Goes past so many elements of both, where they are the same. After an answer of no some may have been passed.
pub fn same_first<T: Element>(
    mine: &mut Reader<'_, T>,
    theirs: &mut Reader<'_, T>,
    n: usize,
) -> bool
    ensures { IsTrue result
        → (xs : List T) × (length xs ≡ n) × (left_of mine.old ≡ xs ++ left_of mine.new) × (left_of theirs.old ≡ xs ++ left_of theirs.new) }
{
    let mut more = n;
    while more > 0 {
        let one = mine.front();
        let other = theirs.front();
        let k = one.len().min(other.len()).min(more);
        if k == 0 || !are_equal(one.split_at(k).0, other.split_at(k).0) {
            return false;
        }
        mine.pass(k);
        theirs.pass(k);
        more -= k;
    }
    true
}
