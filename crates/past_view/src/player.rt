//! Forms that are played: applied to cells, and to the text of these.

ghost use Rattle.std.specs.Prelude.{◌≡◌, ◌+◌, ◌<◌, ◌≤◌, ◌++◌, ℕ, List, Some, IsTrue, length, take, drop, encode_utf8, encode_utf8_all, slice_get, OnOk, option_map};
ghost use Rattle.ttf_form.specs.Cells.{CellData, FitsCells, applied, cell_shown, cells_of, put_in, bare_cells, marked_in, text_put};
ghost use Rattle.ttf_form.specs.Forms.{extent_of};
ghost use Rattle.visible_view.specs.View.{shown_text};
ghost use Rattle.ttf_form.specs.declared.form.Form.TheVariants.{Ins as Insert};
ghost use Rattle.past_view.specs.Code.Playing.{AreApart, MarksOne, shown_beside, text_with, text_without};

use crate::counted::{Counted, nth};
use crate::past::push_char;
use op_name::Memory;
use tombstone_text::Cells;
use ttf_form::{Cover, Form, Ins, Mark};
use visible_view::{visible_before, write_text};

/// Applies a form, with the characters that it brings, to cells whose text this is, and changes the text by what the form changes, at its
/// place. The text is made anew only where an insert is undone or redone and some insert had several cells (`apart` is false).
pub(crate) fn play(
    cells: &mut Cells,
    text: &mut Vec<u8>,
    form: &Form,
    letters: &[char],
    apart: bool,
) -> Result<(), Memory>
    requires fits { FitsCells cells.old.cells form.now }
    requires letters { length letters.now ≡ extent_of form.now }
    requires apart { IsTrue apart → AreApart (cells_of cells.old.cells) }
    requires text { text.old.items ≡ shown_text cells.old.cells cells.old.text }
    ensures cells { OnOk result (cells.new.cells ≡ applied cells.old.cells form.now) }
    ensures beside { OnOk result (cells.new.text ≡ text_put form.now letters.now cells.old.text) }
    ensures text { OnOk result (text.new.items ≡ shown_text cells.new.cells cells.new.text) }
{
    match form {
        Form::Ins(ins) => play_ins(cells, text, ins, letters),
        Form::Cover(cover) => {
            if marks_one(cover, apart) {
                play_cover(cells, text, cover)
            } else {
                play_anew(cells, text, form, letters)
            }
        }
    }
}

// Whether a cover is known to mark the cell at its place alone: if it stands for a delete, or no two cells are of one insert.
fn marks_one(cover: &Cover, apart: bool) -> bool
    ensures { IsTrue result → (cs : List CellData) → (IsTrue apart → AreApart (cells_of cs)) → cover.now.place < length cs
        → MarksOne cover.now cs }
{
    match cover.mark {
        Mark::By { .. } => true,
        Mark::Own { .. } => apart,
    }
}

// Applies the form, and makes the text anew.
fn play_anew(
    cells: &mut Cells,
    text: &mut Vec<u8>,
    form: &Form,
    letters: &[char],
) -> Result<(), Memory>
    requires fits { FitsCells cells.old.cells form.now }
    requires letters { length letters.now ≡ extent_of form.now }
    ensures cells { OnOk result (cells.new.cells ≡ applied cells.old.cells form.now) }
    ensures beside { OnOk result (cells.new.text ≡ text_put form.now letters.now cells.old.text) }
    ensures text { OnOk result (text.new.items ≡ shown_text cells.new.cells cells.new.text) }
{
    cells.reserve(form)?;
    cells.apply(form, letters);
    text.clear();
    write_text(cells, text)
}

// Puts the new cells of an insert, and their characters into the text.
fn play_ins(
    cells: &mut Cells,
    text: &mut Vec<u8>,
    ins: &Ins,
    letters: &[char],
) -> Result<(), Memory>
    requires fits { FitsCells cells.old.cells (Insert ins.now) }
    requires letters { length letters.now ≡ ins.now.len }
    requires text { text.old.items ≡ shown_text cells.old.cells cells.old.text }
    ensures cells { OnOk result (cells.new.cells ≡ put_in ins.now.place (bare_cells ins.now) cells.old.cells) }
    ensures beside { OnOk result (cells.new.text ≡ put_in ins.now.place letters.now cells.old.text) }
    ensures text { OnOk result (text.new.items ≡ shown_text cells.new.cells cells.new.text) }
{
    cells.known();
    let form = Form::Ins(*ins);
    cells.reserve(&form)?;
    let at = byte_at(text, visible_before(cells, ins.place), cells.shown_len());
    cells.apply(&form, letters);
    put_chars(text, at, letters)
}

// Marks the cell at the place of a cover, and no other, and where that shows or hides it, the text shows or hides its character.
fn play_cover(cells: &mut Cells, text: &mut Vec<u8>, cover: &Cover) -> Result<(), Memory>
    requires place { cover.now.place < length cells.old.cells }
    requires alone { MarksOne cover.now cells.old.cells }
    requires text { text.old.items ≡ shown_text cells.old.cells cells.old.text }
    ensures cells { OnOk result (cells.new.cells ≡ marked_in cover.now.place cover.now.mark cells.old.cells) }
    ensures beside { OnOk result (cells.new.text ≡ cells.old.text) }
    ensures text { OnOk result (text.new.items ≡ shown_text cells.new.cells cells.new.text) }
{
    cells.known();
    let form = Form::Cover(*cover);
    let chars = cells.shown_len();
    let was = is_shown(cells, cover.place);
    cells.reserve(&form)?;
    cells.apply(&form, &[]);
    match (was, is_shown(cells, cover.place)) {
        (true, false) => {
            hide(cells, text, cover.place, chars);
            Ok(())
        }
        (false, true) => show(cells, text, cover.place, chars),
        _ => Ok(()),
    }
}

// Whether the cell at the place is shown.
fn is_shown(cells: &Cells, place: u32) -> bool
    requires { place < length cells.now.cells }
    ensures { option_map cell_shown (slice_get cells.now.cells place) ≡ Some result }
{
    match cells.cell(place) {
        Some(cell) => cell.shown(),
        None => unreachable!(),
    }
}

// The character beside the cell at the place.
fn char_at(cells: &Cells, place: u32) -> char
    requires { place < length cells.now.cells }
    ensures { slice_get cells.now.text place ≡ Some result }
{
    cells.known();
    let mut at = 0;
    for i in 0..cells.chunk_count() {
        let letters = cells.chunk_text(i);
        let len = letters.len() as u32;
        if place - at < len {
            return letters[(place - at) as usize];
        }
        at += len;
    }
    unreachable!()
}

// Puts the character of the cell at the place into a text that has so many others, those of the shown cells before and behind it.
fn show(cells: &Cells, text: &mut Vec<u8>, place: u32, chars: u32) -> Result<(), Memory>
    requires place { place < length cells.now.cells }
    requires chars { shown_beside cells.now.cells place ≡ chars }
    requires text { text.old.items ≡ text_without cells.now.cells cells.now.text place }
    ensures { OnOk result (text.new.items ≡ text_with cells.now.cells cells.now.text place) }
{
    cells.known();
    let at = byte_at(text, visible_before(cells, place), chars);
    put_char(text, at, char_at(cells, place))
}

// Takes it out of a text that has it, and so many characters.
fn hide(cells: &Cells, text: &mut Vec<u8>, place: u32, chars: u32)
    requires place { place < length cells.now.cells }
    requires chars { shown_beside cells.now.cells place + 1 ≡ chars }
    requires text { text.old.items ≡ text_with cells.now.cells cells.now.text place }
    ensures { text.new.items ≡ text_without cells.now.cells cells.now.text place }
{
    cells.known();
    let at = byte_at(text, visible_before(cells, place), chars);
    remove(text, at, char_at(cells, place).len_utf8());
}

// Where the first `v` of the `chars` characters of a text end: counted only where some character has more bytes than one.
fn byte_at(text: &[u8], v: u32, chars: u32) -> usize
    ensures { (front rest : List ℕ) → text.now ≡ encode_utf8_all front ++ encode_utf8_all rest
        → length front ≡ v → length front + length rest ≡ chars
        → result ≡ length (encode_utf8_all front) }
{
    if v == chars {
        return text.len();
    }
    if text.len() == chars as usize {
        return v as usize;
    }
    match nth(Counted::Characters, text, v) {
        Some(at) => at,
        None => text.len(),
    }
}

// Puts the bytes of a character at a place of the text.
fn put_char(text: &mut Vec<u8>, at: usize, ch: char) -> Result<(), Memory>
    requires { at ≤ length text.old.items }
    ensures { OnOk result (text.new.items ≡ take at text.old.items ++ (encode_utf8 ch ++ drop at text.old.items)) }
{
    put_chars(text, at, &[ch])
}

// Puts the bytes of characters at a place of the text: behind it, and then the bytes behind the place change places with them. So these
// move once, as a block.
fn put_chars(text: &mut Vec<u8>, at: usize, letters: &[char]) -> Result<(), Memory>
    requires { at ≤ length text.old.items }
    ensures { OnOk result (text.new.items ≡ take at text.old.items ++ (encode_utf8_all letters.now ++ drop at text.old.items)) }
{
    let behind = text.len() - at;
    for letter in letters {
        push_char(*letter, text)?;
    }
    turn(text, at, behind);
    Ok(())
}

// Brings so many bytes from a place on to the end.
fn turn(text: &mut [u8], at: usize, count: usize)
    requires { at + count ≤ length text.old }
    ensures { text.new ≡ take at text.old ++ (drop count (drop at text.old) ++ take count (drop at text.old)) }
{
    text[at..].rotate_left(count);
}

// Removes so many bytes at a place of the text. The bytes behind them move as a block, once for each.
fn remove(text: &mut Vec<u8>, at: usize, len: usize)
    requires { at + len ≤ length text.old.items }
    ensures { text.new.items ≡ take at text.old.items ++ drop (at + len) text.old.items }
{
    for _k in 0..len {
        let _ = text.remove(at);
    }
}
