//! The registers that calls read and change.

use crate::long::Text;
use causal_gate::Pool;
use context_diff::{Book, Op};
use context_vector::Vector;
use form_cache::Cache;
use std::alloc::Global;
use trace_explain::TraceLine;

/// The sets `A` to `D`.
#[derive(Drop)]
pub(crate) struct Sets {
    pub(crate) a: Vector,
    pub(crate) b: Vector,
    pub(crate) c: Vector,
    pub(crate) d: Vector,
}

/// All registers. They are made once, and emptied for each row.
#[derive(Drop)]
pub(crate) struct Registers {
    pub(crate) sets: Sets,
    /// The operation that the line spells.
    pub(crate) op: Option<Op>,
    pub(crate) book: Book,
    pub(crate) pool: Pool,
    pub(crate) text: Text,
    pub(crate) cache: Option<Cache<char>>,
    pub(crate) flags: Vec<u8>,
    pub(crate) lines: Vec<TraceLine>,
}

impl Sets {
    fn new(alloc: Global) -> Sets {
        Sets {
            a: Vector::new(alloc),
            b: Vector::new(alloc),
            c: Vector::new(alloc),
            d: Vector::new(alloc),
        }
    }

    /// The set of a letter.
    pub(crate) fn get(&self, letter: &str) -> Option<&Vector> {
        match letter {
            "A" => Some(&self.a),
            "B" => Some(&self.b),
            "C" => Some(&self.c),
            "D" => Some(&self.d),
            _ => None,
        }
    }

    /// The set of a letter, to be changed.
    pub(crate) fn get_mut(&mut self, letter: &str) -> Option<&mut Vector> {
        match letter {
            "A" => Some(&mut self.a),
            "B" => Some(&mut self.b),
            "C" => Some(&mut self.c),
            "D" => Some(&mut self.d),
            _ => None,
        }
    }
}

impl Registers {
    pub(crate) fn new(alloc: Global) -> Registers {
        Registers {
            sets: Sets::new(alloc),
            op: None,
            book: Book::new(alloc),
            pool: Pool::new(alloc),
            text: Text::new(alloc),
            cache: None,
            flags: Vec::new(alloc),
            lines: Vec::new(alloc),
        }
    }

    /// Empties all registers.
    pub(crate) fn empty(&mut self, alloc: Global) {
        self.sets = Sets::new(alloc);
        self.op = None;
        self.book = Book::new(alloc);
        self.pool = Pool::new(alloc);
        self.text = Text::new(alloc);
        self.cache = None;
        self.flags.clear();
        self.lines.clear();
    }
}
