//! A text beside the plain list of its characters.

ghost use Rattle.std.specs.Prelude.{◌≡◌, ◌<◌, ◌≤◌, IsTrue, length};
ghost use Rattle.ttf_form.specs.Names.{NewNames};
ghost use Rattle.ttf_form.specs.Forms.{added_by, extent_of};
ghost use Rattle.ttf_form.specs.Cells.{FitsCells, cells_of};
ghost use Rattle.ttf_form.specs.declared.form.Form.TheVariants.{Ins as Insert};

use crate::words::ins_of;
use lane_rank::ones;
use op_name::{Memory, Name};
use std::alloc::Global;
use tombstone_text::{Cell, Cells};
use ttf_form::{Cover, Form, Ins, Mark};

/// Cells, and beside them a plain list of them. The list knows only what `put`, `hide` and `undo` did.
#[derive(Drop)]
pub(crate) struct Text {
    pub(crate) cells: Cells,
    pub(crate) plain: Vec<Plain>,
    /// How many inserts there were.
    made: u32,
}

/// A cell of the plain list.
#[derive(Clone, Copy)]
pub(crate) struct Plain {
    ch: char,
    /// The number of its insert.
    of: u32,
    /// The generation of its insert.
    generation: u16,
    is_hidden: bool,
}

impl Plain {
    /// Whether the cell is shown: its insert is in force, and no delete hid it.
    pub(crate) fn is_shown(&self) -> bool {
        self.generation % 2 == 0 && !self.is_hidden
    }
}

impl Text {
    pub(crate) fn new(alloc: Global) -> Text {
        Text {
            cells: Cells::new(alloc),
            plain: Vec::new(alloc),
            made: 0,
        }
    }
}

/// The delete by which `hide` hides a cell.
const HIDING: Name = Name { site: 1, number: 9 };

/// Applies a form with the characters of its cells where it fits; answers whether it does. Out of memory no cell changes.
pub(crate) fn execute(cells: &mut Cells, form: &Form, chars: &[char]) -> Result<bool, Memory> {
    if !may_take(cells, form) || chars.len() != extent_of(form) {
        return Ok(false);
    }
    cells.reserve(form)?;
    cells.apply(form, chars);
    Ok(true)
}

/// Whether the form fits the cells: its place is there, and no cell of its name, if it is an insert.
fn may_take(cells: &Cells, form: &Form) -> bool
    ensures { IsTrue result → FitsCells cells.now.cells form.now }
{
    match form {
        Form::Ins(ins) => ins.place <= cells.len() && lacks_all(cells, ins),
        Form::Cover(cover) => cover.place < cells.len(),
    }
}

/// Whether no cell has the name of the insert.
fn lacks_all(cells: &Cells, ins: &Ins) -> bool
    ensures { IsTrue result → NewNames (cells_of cells.now.cells) (added_by (Insert ins.now)) }
{
    cells.lacks(&ins.name)
}

/// How many cells the form adds.
fn extent_of(form: &Form) -> usize
    ensures { result ≡ extent_of form.now }
{
    match form {
        Form::Ins(ins) => ins.extent() as usize,
        Form::Cover(_) => 0,
    }
}

/// The character of the cell at a place; None past the end. It looks at the texts of the chunks, one after the other.
pub(crate) fn character_at(cells: &Cells, place: u32) -> Option<char> {
    let mut left = place as usize;
    for i in 0..cells.chunk_count() {
        let chars = cells.chunk_text(i);
        if left < chars.len() {
            return Some(chars[left]);
        }
        left -= chars.len();
    }
    None
}

/// The form of an insert of so many cells with the next number of site 0; None where no number is left.
pub(crate) fn next_insert(text: &Text, place: u32, len: usize) -> Option<Form> {
    let Ok(name) = Name::new(0, text.made.saturating_add(1)) else {
        return None;
    };
    match ins_of(place, u16::try_from(len).unwrap_or(0), name) {
        Some(ins) => Some(Form::Ins(ins)),
        None => None,
    }
}

/// Puts a cell in for each character; answers whether they fit.
pub(crate) fn put(text: &mut Text, place: u32, chars: &[char]) -> Result<bool, Memory> {
    let Some(form) = next_insert(text, place, chars.len()) else {
        return Ok(false);
    };
    text.plain.reserve(chars.len())?;
    if !execute(&mut text.cells, &form, chars)? {
        return Ok(false);
    }
    text.made = text.made.saturating_add(1);
    put_plain(&mut text.plain, place as usize, text.made, chars)
}

/// Puts the characters of the insert of this number into the plain list.
fn put_plain(
    plain: &mut Vec<Plain>,
    place: usize,
    of: u32,
    chars: &[char],
) -> Result<bool, Memory> {
    for ch in chars.iter().rev() {
        if place > plain.len() {
            return Ok(false);
        }
        let one = Plain {
            ch: *ch,
            of,
            generation: 0,
            is_hidden: false,
        };
        plain.insert(place, one)?;
    }
    Ok(true)
}

/// Raises the generation of the insert of the cell at a place; answers whether there is one.
pub(crate) fn undo(text: &mut Text, place: u32, generation: u16) -> Result<bool, Memory> {
    let mark = Mark::Own { generation };
    if !execute(&mut text.cells, &Form::Cover(Cover { place, mark }), &[])? {
        return Ok(false);
    }
    match text.plain.get(place as usize) {
        Some(one) => {
            let of = one.of;
            undo_plain(&mut text.plain, of, generation);
            Ok(true)
        }
        None => Ok(false),
    }
}

/// Raises the generation of each cell of the insert of this number.
fn undo_plain(plain: &mut [Plain], of: u32, generation: u16) {
    for one in plain.iter_mut() {
        if one.of == of {
            one.generation = one.generation.max(generation);
        }
    }
}

/// Hides a cell; answers whether there is one.
fn hide(text: &mut Text, place: u32) -> Result<bool, Memory> {
    let mark = Mark::By {
        name: HIDING,
        generation: 0,
    };
    if !execute(&mut text.cells, &Form::Cover(Cover { place, mark }), &[])? {
        return Ok(false);
    }
    match text.plain.get_mut(place as usize) {
        Some(one) => {
            one.is_hidden = true;
            Ok(true)
        }
        None => Ok(false),
    }
}

/// The letter of a number, `a` to `z` by turns.
fn letter(number: u32) -> char {
    (b'a' + (number % 26) as u8) as char
}

/// Puts cells in, at the second try where the first one was out of memory.
fn put_at_last(text: &mut Text, place: u32, chars: &[char]) -> Result<bool, Memory> {
    match put(text, place, chars) {
        Ok(fits) => Ok(fits),
        Err(Memory) => put(text, place, chars),
    }
}

/// Hides a cell, at the second try where the first one was out of memory.
fn hide_at_last(text: &mut Text, place: u32) -> Result<bool, Memory> {
    match hide(text, place) {
        Ok(fits) => Ok(fits),
        Err(Memory) => hide(text, place),
    }
}

/// Raises a generation, at the second try where the first one was out of memory.
fn undo_at_last(text: &mut Text, place: u32, generation: u16) -> Result<bool, Memory> {
    match undo(text, place, generation) {
        Ok(fits) => Ok(fits),
        Err(Memory) => undo(text, place, generation),
    }
}

/// Puts a letter at each of these places.
pub(crate) fn put_at_each(text: &mut Text, from: u32, to: u32) -> Result<bool, Memory> {
    for number in from..to {
        if !put_at_last(text, number, &[letter(number)])? {
            return Ok(false);
        }
    }
    Ok(true)
}

/// Hides the cells at these places.
pub(crate) fn hide_each(text: &mut Text, from: u32, to: u32) -> Result<bool, Memory> {
    for place in from..to {
        if !hide_at_last(text, place)? {
            return Ok(false);
        }
    }
    Ok(true)
}

/// Where the inserts of a text go.
#[derive(Clone, Copy)]
pub(crate) enum Spot {
    Front,
    Middle,
    End,
    /// At the end of the text up to its 511th cell; then by turns at places 511 and 512, which are before and after the
    /// last cell of a full chunk.
    Seam,
    Anywhere,
}

/// The place of the insert of a number in a text of so many cells.
fn place_in(spot: Spot, number: u32, len: u32) -> u32 {
    match spot {
        Spot::Front => 0,
        Spot::Middle => len / 2,
        Spot::End => len,
        Spot::Seam => { if len < 511 { len } else { 512 - number % 2 } }
        Spot::Anywhere => {
            if len == 0 {
                0
            } else {
                number.wrapping_mul(2_654_435_761) % len
            }
        }
    }
}

/// Puts so many letters in at a spot; each third insert is followed by the hiding of a cell in the first half.
pub(crate) fn put_and_hide(text: &mut Text, spot: Spot, count: u32) -> Result<bool, Memory> {
    for number in 0..count {
        let len = text.cells.len();
        if !put_at_last(text, place_in(spot, number, len), &[letter(number)])? {
            return Ok(false);
        }
        if number % 3 == 0 && !hide_at_last(text, number / 2)? {
            return Ok(false);
        }
    }
    Ok(true)
}

/// Puts so many inserts of up to `most` letters in at a spot. After each third one a cell is hidden, and after each fifth one the insert
/// of the middle cell is undone, or redone where it was undone before.
pub(crate) fn put_runs(
    alloc: Global,
    text: &mut Text,
    spot: Spot,
    count: u32,
    most: u32,
) -> Result<bool, Memory>
    requires { 1 ≤ most }
{
    let mut chars = Vec::new(alloc);
    chars.reserve(most as usize)?;
    for number in 0..count {
        spell(&mut chars, number, 1 + number.wrapping_mul(number) % most)?;
        if !put_run(text, spot, number, &chars)? {
            return Ok(false);
        }
    }
    Ok(true)
}

/// So many letters, from that of the number on.
fn spell(chars: &mut Vec<char>, number: u32, count: u32) -> Result<(), Memory> {
    chars.clear();
    for i in 0..count {
        chars.push(letter(number.wrapping_add(i)))?;
    }
    Ok(())
}

/// The insert of a number, and what follows it.
fn put_run(text: &mut Text, spot: Spot, number: u32, chars: &[char]) -> Result<bool, Memory> {
    let len = text.cells.len();
    if !put_at_last(text, place_in(spot, number, len), chars)? {
        return Ok(false);
    }
    if number % 3 == 0 && !hide_at_last(text, number.wrapping_mul(7) % len.max(1))? {
        return Ok(false);
    }
    if number % 5 == 0 {
        return undo_at_last(text, len / 2, 1 + (number / 15 % 2) as u16);
    }
    Ok(true)
}

fn is_seen(cell: &Cell<'_>, ch: char, wanted: &Plain) -> bool {
    ch == wanted.ch && cell.shown() == wanted.is_shown()
}

/// Whether the cell found at a place, and its character, are those of the plain list.
fn cell_agrees(text: &Text, place: u32) -> bool {
    match (
        text.cells.cell(place),
        character_at(&text.cells, place),
        text.plain.get(place as usize),
    ) {
        (Some(cell), Some(ch), Some(wanted)) => is_seen(&cell, ch, wanted),
        _ => false,
    }
}

/// Whether the cells, found one by one, are those of the plain list.
pub(crate) fn cells_agree(text: &Text) -> bool {
    for place in 0..text.cells.len() {
        if !cell_agrees(text, place) {
            return false;
        }
    }
    text.cells.len() as usize == text.plain.len()
}

/// Whether the chunks have the cells of the plain list, one after the other, and as many characters beside them.
pub(crate) fn chunks_agree(text: &Text) -> bool {
    let mut place = 0;
    for i in 0..text.cells.chunk_count() {
        if text.cells.chunk_start(i) as usize != place {
            return false;
        }
        if !are_seen(&text.cells, i, &text.plain, place) {
            return false;
        }
        place = place.saturating_add(text.cells.chunk_text(i).len());
    }
    place == text.plain.len()
}

/// Whether the cells of a chunk and their characters are those of the plain list from this place on.
fn are_seen(cells: &Cells, i: u32, plain: &[Plain], from: usize) -> bool
    requires { i < length cells.now.chunks }
{
    let mut place = from;
    let mut beside = 0;
    for ch in cells.chunk_text(i) {
        match (cells.chunk_cell(i, beside), plain.get(place)) {
            (Some(cell), Some(wanted)) if is_seen(&cell, *ch, wanted) => {}
            _ => return false,
        }
        place = place.saturating_add(1);
        beside = beside.saturating_add(1);
    }
    cells.chunk_cell(i, beside).is_none()
}

/// Whether each chunk has as many flags of shown cells as it tells.
pub(crate) fn flags_agree(cells: &Cells) -> bool {
    for i in 0..cells.chunk_count() {
        if ones(cells.chunk_flags(i)) != cells.chunk_shown(i) {
            return false;
        }
    }
    true
}

/// Whether each chunk but the last has at least 256 cells.
pub(crate) fn are_half_full(cells: &Cells) -> bool {
    let count = cells.chunk_count();
    for i in 0..count {
        if i + 1 < count && cells.chunk_flags(i).len() < 256 {
            return false;
        }
    }
    true
}
