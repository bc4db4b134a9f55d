//! The characters of cells, by the inserts of a book.

ghost use Rattle.std.specs.Prelude.{◌≡◌, slice_index};
ghost use Rattle.context_diff.specs.Replays.{character_in};
ghost use Rattle.log_listings.specs.Code.Hits.{cell_of};

use context_diff::Book;
use fixed_replay::letters_of;
use tombstone_text::CellId;

/// The character of a cell of the book's history.
pub(crate) fn character_of(book: &Book, id: &CellId) -> char
    ensures { result ≡ character_in book.now.ops (cell_of id.now) }
{
    book.known();
    match book.original(&id.name) {
        Some(op) => letter_at(letters_of(op), id.offset),
        None => '\0',
    }
}

// The character at an offset of a text, 0 past its end.
fn letter_at(letters: &[char], offset: u16) -> char
    ensures { result ≡ slice_index letters.now offset }
{
    match letters.get(usize::from(offset)) {
        Some(letter) => *letter,
        None => '\0',
    }
}
