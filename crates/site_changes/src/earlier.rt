//! The members of the first operations, and which cells these showed.

ghost use Rattle.std.specs.Prelude.{◌≡◌, take};
ghost use Rattle.std.specs.List.{list_any};
ghost use Rattle.context_vector.specs.Contexts.{entry_of, has};
ghost use Rattle.context_diff.specs.Histories.{context_of_all};
ghost use Rattle.site_changes.specs.Code.Marks.{is_in_force_at, was_shown};

use context_diff::Book;
use op_name::{Member, Name};
use std::marker::Model;
use tombstone_text::Cell;

/// The members of the first operations of a book, so many of them. Nothing is copied: the book knows where the operation of each member
/// stands, and a member is one of the first where its operation stands in front of the others.
#[derive(Drop)]
pub(crate) struct Earlier<'a> {
    book: &'a Book,
    from: u32,
}

impl<'a> Model for Earlier<'a> {
    ghost use Rattle.std.specs.Prelude.{take};
    ghost use Rattle.context_vector.specs.Contexts.{ContextData};
    ghost use Rattle.context_diff.specs.Histories.{context_of_all};

    ghost Value = { ContextData };

    ghost view = { λ e. context_of_all (take e.from e.book.now.ops) };
}

impl<'a> Earlier<'a> {
    /// Those of the first `from` operations of the book.
    pub(crate) fn new(book: &'a Book, from: u32) -> Earlier<'a>
        ensures { result ≡ context_of_all (take from book.now.ops) }
    {
        Earlier { book, from }
    }

    // Whether the member is one of them.
    fn has(&self, m: &Member) -> bool
        ensures { result ≡ has self.now m.now }
    {
        self.book.known();
        match self.book.place_of(m) {
            Some(place) => place < self.from as usize,
            None => false,
        }
    }

    // The greatest generation at which they have an undo group of the name, 0 where they have none. They have all groups up to that one
    // and none above it, so it is sought between 0 and the greatest of all operations, by halves. Where nothing was undone, nothing is
    // sought.
    fn generation(&self, name: &Name) -> u16
        ensures { result ≡ entry_of self.now name.now }
    {
        self.book.known();
        let have = self.book.have();
        if have.entries() == 0 {
            return 0;
        }
        let mut low = 0;
        let mut high = have.entry(name);
        while low < high {
            let middle = high - (high - low) / 2;
            if self.has(&Member::Group(*name, middle)) {
                low = middle;
            } else {
                high = middle - 1;
            }
        }
        low
    }

    // Whether the original is one of them, and in force by the undos that they have.
    fn has_in_force(&self, name: &Name) -> bool
        ensures { result ≡ is_in_force_at self.now name.now }
    {
        self.has(&Member::Original(*name)) && self.generation(name) % 2 == 0
    }

    // Whether one of the deletes is one of them, and in force.
    fn has_any_in_force(&self, deleters: &[(Name, u16)]) -> bool
        ensures { result ≡ list_any (λ e. is_in_force_at self.now e.0) deleters.now }
    {
        deleters.iter().any(|e| self.has_in_force(&e.0))
    }

    /// Whether they showed the cell: its insert is in force by them, and none of its deletes is.
    pub(crate) fn showed(&self, cell: &Cell<'_>) -> bool
        ensures { result ≡ was_shown self.now cell.now }
    {
        self.has_in_force(&cell.id().name) && !self.has_any_in_force(cell.deleters())
    }
}
