//! The cells of a chunk, read one after the other.

ghost use Rattle.std.specs.Prelude.{◌≡◌, drop, slice_get};
ghost use Rattle.tombstone_text.specs.Code.Spans.{AreFilled, cells_in, pieces};

use crate::cell::Cell;
use crate::span::Span;
use std::marker::Model;

/// The cells of a chunk that are left to be read, in their order.
#[derive(Drop)]
pub struct ChunkCells<'a> {
    /// The span that is being read, and those after it.
    spans: &'a [Span],
    /// How many cells of the first span were read.
    at: usize,
}

impl<'a> Model for ChunkCells<'a> {
    ghost use Rattle.std.specs.Prelude.{List, drop};
    ghost use Rattle.ttf_form.specs.Cells.{CellData};
    ghost use Rattle.tombstone_text.specs.Code.Spans.{AreLeft, cells_in};

    ghost Value = { List CellData };

    ghost view = { λ c. drop c.at (cells_in c.spans.now) };

    ghost invariant = { λ c. AreLeft c.spans.now c.at };
}

impl<'a> ChunkCells<'a> {
    /// All cells of these spans.
    pub(crate) fn new(spans: &'a [Span]) -> ChunkCells<'a>
        requires { AreFilled (pieces spans.now) }
        ensures { result ≡ cells_in spans.now }
    {
        ChunkCells { spans, at: 0 }
    }

    /// Takes the first cell that is left; None exactly where none is left. It takes no memory, and looks at no other cell.
    pub fn next(&mut self) -> Option<Cell<'a>>
        ensures first { result ≡ slice_get self.old 0 }
        ensures rest { self.new ≡ drop 1 self.old }
    {
        match self.spans.split_first() {
            Some((span, others)) => {
                let count = span.count();
                let cell = span.cell(self.at);
                if self.at + 1 < count {
                    self.at += 1;
                } else {
                    self.spans = others;
                    self.at = 0;
                }
                Some(cell)
            }
            None => None,
        }
    }
}
