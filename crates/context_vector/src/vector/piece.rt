//! Pieces: short lists that several lists may have.

ghost use Rattle.std.specs.Prelude.{◌≡◌, ◌≤◌, ◌++◌, IfOk, OnOk, length};
ghost use Rattle.context_vector.specs.Code.Pieces.{joined};

use super::element::Element;
use super::rising::are_equal;
use op_name::Memory;
use std::alloc::Global;
use std::marker::Model;
use std::rc::Rc;

/// A longer list is cut into pieces of `CUT` elements.
pub const LONGEST: usize = 96;

/// The number of elements in each piece of a list that is cut, but for the last: there is room to grow.
const CUT: usize = 64;

/// Elements that never change.
#[derive(Debug, Drop)]
pub struct Piece<T: Element> {
    list: Rc<Vec<T>>,
}

impl<T: Element> Model for Piece<T> {
    ghost use Rattle.std.specs.Prelude.{List};

    ghost Value = { List T };

    ghost view = { λ p. p.list.value.items };
}

impl<T: Element> Piece<T> {
    /// A piece with these elements.
    pub fn new(alloc: Global, list: &[T]) -> Result<Piece<T>, Memory>
        ensures { IfOk result (λ p. p ≡ list.now) }
    {
        let copy = Vec::from_slice(alloc, list)?;
        match Rc::new(alloc, copy) {
            Ok(list) => Ok(Piece { list }),
            Err(_) => Err(Memory),
        }
    }

    /// The elements.
    pub fn as_slice(&self) -> &[T]
        ensures { result.now ≡ self.now }
    {
        self.list.as_ref().as_slice()
    }

    /// The same piece once more; no element is copied.
    pub fn try_clone(&self) -> Result<Piece<T>, Memory>
        ensures { IfOk result (λ p. p ≡ self.now) }
    {
        Ok(Piece {
            list: self.list.clone()?,
        })
    }
}

/// The list in pieces, each taken from `like` where it stands there too.
pub fn pieces_like<T: Element>(
    alloc: Global,
    list: &[T],
    like: &[Piece<T>],
) -> Result<Vec<Piece<T>>, Memory>
    ensures { IfOk result (λ v. joined v.items ≡ list.now) }
{
    let mut all = Vec::with_capacity(alloc, like.len().saturating_add(2))?;
    let mut rest = list;
    let mut left = like;
    while let Some((piece, others)) = left.split_first() {
        let (part, more) = rest.split_at(part_len(rest, others));
        put_like(&mut all, part, piece)?;
        rest = more;
        left = others;
    }
    append_cut(&mut all, rest)?;
    Ok(all)
}

// How many elements of the list stand before the first one of these pieces.
fn part_len<T: Element>(list: &[T], next: &[Piece<T>]) -> usize
    ensures { result ≤ length list.now }
{
    match next.first() {
        Some(piece) => match piece.as_slice().first() {
            Some(first) => below(list, first.key()),
            None => 0,
        },
        None => list.len(),
    }
}

// How many elements have a lesser key, where the keys rise.
fn below<T: Element>(list: &[T], key: u64) -> usize
    ensures { result ≤ length list.now }
{
    let mut low = 0;
    let mut high = list.len();
    while low < high {
        let middle = low + (high - low) / 2;
        if list[middle].key() < key {
            low = middle + 1;
        } else {
            high = middle;
        }
    }
    low
}

// Appends the elements: as this piece, where they are the same. After out of memory some of them may be there.
fn put_like<T: Element>(to: &mut Vec<Piece<T>>, part: &[T], like: &Piece<T>) -> Result<(), Memory>
    ensures { OnOk result (joined to.new.items ≡ joined to.old.items ++ part.now) }
{
    if are_equal(part, like.as_slice()) {
        to.reserve(1)?;
        to.push_reserved(like.try_clone()?);
        return Ok(());
    }
    append_cut(to, part)
}

// Appends the elements as pieces, which are several where there are many elements. After out of memory some of them may be there.
fn append_cut<T: Element>(to: &mut Vec<Piece<T>>, list: &[T]) -> Result<(), Memory>
    ensures { OnOk result (joined to.new.items ≡ joined to.old.items ++ list.now) }
{
    let most = if list.len() > LONGEST { CUT } else { LONGEST };
    let mut rest = list;
    while !rest.is_empty() {
        let (piece, others) = rest.split_at(most.min(rest.len()));
        append_list(to, piece)?;
        rest = others;
    }
    Ok(())
}

// Appends the elements as one piece.
fn append_list<T: Element>(to: &mut Vec<Piece<T>>, list: &[T]) -> Result<(), Memory>
    ensures { OnOk result (joined to.new.items ≡ joined to.old.items ++ list.now) }
{
    to.reserve(1)?;
    to.push_reserved(Piece::new(*to.allocator(), list)?);
    Ok(())
}
