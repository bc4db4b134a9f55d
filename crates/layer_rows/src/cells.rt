//! Calls of cells, and of the text that they show.

use crate::answers::{put_found, put_further, put_name, put_none, put_number, put_truth, put_turn};
use crate::long::{
    Spot, Text, are_half_full, cells_agree, character_at, chunks_agree, execute, flags_agree,
    hide_each, next_insert, put, put_and_hide, put_at_each, put_runs, undo,
};
use crate::words::Words;
use op_name::{LETTERS, Memory};
use std::alloc::Global;
use tombstone_text::{Cell, CellId, Cells};
use ttf_form::Form;
use visible_view::{cell_of_visible, model_place, visible_len, write_text};

pub(crate) fn call_cells(
    alloc: Global,
    words: &mut Words<'_>,
    text: &mut Text,
    out: &mut String,
) -> Result<bool, Memory> {
    match words.word() {
        "put" => put_one(alloc, words, text, out),
        "cover" => cover(words, &mut text.cells, out),
        "undo" => undo_one(words, text, out),
        "hide" => hide_some(words, text),
        "fill" => fill(words, text),
        "mixed" => mixed(words, text),
        "runs" => runs(alloc, words, text),
        "reserve" => reserve(words, text),
        call => call_reading(call, words, text, out),
    }
}

fn put_fits(out: &mut String, fits: bool) -> Result<bool, Memory> {
    if !fits {
        out.push_str("doesn't fit")?;
    }
    Ok(true)
}

// `put PLACE TEXT`: the insert of the next number of site 0.
fn put_one(
    alloc: Global,
    words: &mut Words<'_>,
    text: &mut Text,
    out: &mut String,
) -> Result<bool, Memory> {
    let Some(place) = words.number() else {
        return Ok(false);
    };
    let chars = words.text(alloc)?;
    let fits = put(text, place, &chars)?;
    put_fits(out, fits)
}

// `undo PLACE GENERATION`: the insert of the cell there gets the generation, if that is greater than its own.
fn undo_one(words: &mut Words<'_>, text: &mut Text, out: &mut String) -> Result<bool, Memory> {
    match (words.number(), words.short()) {
        (Some(place), Some(generation)) => {
            let fits = undo(text, place, generation)?;
            put_fits(out, fits)
        }
        _ => Ok(false),
    }
}

// `cover PLACE MARK`
fn cover(words: &mut Words<'_>, cells: &mut Cells, out: &mut String) -> Result<bool, Memory> {
    let Some(cover) = words.cover() else {
        return Ok(false);
    };
    let fits = execute(cells, &Form::Cover(cover), &[])?;
    put_fits(out, fits)
}

// `hide FROM TO`: the cells from the one place to before the other are hidden.
fn hide_some(words: &mut Words<'_>, text: &mut Text) -> Result<bool, Memory> {
    match (words.number(), words.number()) {
        (Some(from), Some(to)) => hide_each(text, from, to),
        _ => Ok(false),
    }
}

// `fill FROM TO`: letters are put at each of these places.
fn fill(words: &mut Words<'_>, text: &mut Text) -> Result<bool, Memory> {
    match (words.number(), words.number()) {
        (Some(from), Some(to)) => put_at_each(text, from, to),
        _ => Ok(false),
    }
}

fn spot_of(word: &str) -> Option<Spot> {
    match word {
        "front" => Some(Spot::Front),
        "middle" => Some(Spot::Middle),
        "end" => Some(Spot::End),
        "seam" => Some(Spot::Seam),
        "anywhere" => Some(Spot::Anywhere),
        _ => None,
    }
}

// `mixed SPOT COUNT`: letters are put at a spot, and after each third one a cell is hidden.
fn mixed(words: &mut Words<'_>, text: &mut Text) -> Result<bool, Memory> {
    match (spot_of(words.word()), words.number()) {
        (Some(spot), Some(count)) => put_and_hide(text, spot, count),
        _ => Ok(false),
    }
}

// `runs SPOT COUNT MOST`: so many inserts of up to so many letters at a spot; some cells are hidden, and some inserts undone.
fn runs(alloc: Global, words: &mut Words<'_>, text: &mut Text) -> Result<bool, Memory> {
    match (spot_of(words.word()), words.number(), words.number()) {
        (Some(spot), Some(count), Some(most)) if 1 <= most && most <= u32::from(LETTERS) => {
            put_runs(alloc, text, spot, count, most)
        }
        _ => Ok(false),
    }
}

// `reserve PLACE LENGTH`: room is made for an insert of so many cells there.
fn reserve(words: &mut Words<'_>, text: &mut Text) -> Result<bool, Memory> {
    match (words.number(), words.short()) {
        (Some(place), Some(len)) => reserve_for(text, place, len),
        _ => Ok(false),
    }
}

fn reserve_for(text: &mut Text, place: u32, len: u16) -> Result<bool, Memory> {
    match next_insert(text, place, len as usize) {
        Some(form) => {
            text.cells.reserve(&form)?;
            Ok(true)
        }
        None => Ok(false),
    }
}

fn call_reading(
    call: &str,
    words: &mut Words<'_>,
    text: &Text,
    out: &mut String,
) -> Result<bool, Memory> {
    match call {
        "cell" => cell_at(words, &text.cells, out),
        "placeof" => place_of(words, &text.cells, out),
        "seen" => seen(&text.cells, out),
        "sizes" => sizes(&text.cells, out),
        "agree" => agree(text, out),
        "halffull" => {
            put_truth(out, are_half_full(&text.cells))?;
            Ok(true)
        }
        "chunks" => has_chunks(words, &text.cells, out),
        _ => Ok(false),
    }
}

// `chunks COUNT`: whether there are at least so many.
fn has_chunks(words: &mut Words<'_>, cells: &Cells, out: &mut String) -> Result<bool, Memory> {
    let Some(count) = words.number() else {
        return Ok(false);
    };
    put_truth(out, count <= cells.chunk_count())?;
    Ok(true)
}

// `cell PLACE`: its character, its name, its generation, and the deletes that hit it.
fn cell_at(words: &mut Words<'_>, cells: &Cells, out: &mut String) -> Result<bool, Memory> {
    let Some(place) = words.number() else {
        return Ok(false);
    };
    match (cells.cell(place), character_at(cells, place)) {
        (Some(cell), Some(ch)) => put_cell(out, &cell, ch)?,
        (None, None) => put_none(out)?,
        _ => out.push_str("a cell without a character")?,
    }
    Ok(true)
}

fn put_cell(out: &mut String, cell: &Cell<'_>, ch: char) -> Result<(), Memory> {
    out.push(ch)?;
    out.push(' ')?;
    put_id(out, &cell.id())?;
    put_further(out, u64::from(cell.generation()))?;
    for pair in cell.deleters() {
        out.push(' ')?;
        put_turn(out, &pair.0, pair.1)?;
    }
    Ok(())
}

// A cell as `NAME+OFFSET`, the first one of an insert as `NAME`.
fn put_id(out: &mut String, id: &CellId) -> Result<(), Memory> {
    put_name(out, &id.name)?;
    if id.offset == 0 {
        return Ok(());
    }
    out.push('+')?;
    put_number(out, u64::from(id.offset))
}

// `placeof CELL`: the place of the cell.
fn place_of(words: &mut Words<'_>, cells: &Cells, out: &mut String) -> Result<bool, Memory> {
    let Some((name, offset)) = words.cell() else {
        return Ok(false);
    };
    put_found(out, cells.place_of(&CellId { name, offset }))?;
    Ok(true)
}

fn put_seen(out: &mut String, cell: &Cell<'_>, ch: char) -> Result<(), Memory> {
    if cell.shown() {
        out.push(ch)?;
        return Ok(());
    }
    out.push('(')?;
    out.push(ch)?;
    out.push(')')?;
    Ok(())
}

// `seen`: the characters of the cells, each hidden one in brackets.
fn seen(cells: &Cells, out: &mut String) -> Result<bool, Memory> {
    for place in 0..cells.len() {
        if let (Some(cell), Some(ch)) = (cells.cell(place), character_at(cells, place)) {
            put_seen(out, &cell, ch)?;
        }
    }
    Ok(true)
}

// `sizes`: how many cells, shown cells and chunks there are.
fn sizes(cells: &Cells, out: &mut String) -> Result<bool, Memory> {
    cells.known();
    put_number(out, u64::from(cells.len()))?;
    put_further(out, u64::from(cells.shown_len()))?;
    put_further(out, u64::from(cells.chunk_count()))?;
    Ok(true)
}

// `agree`: whether the cells, the chunks and the flags are those of the plain list.
fn agree(text: &Text, out: &mut String) -> Result<bool, Memory> {
    put_truth(out, cells_agree(text))?;
    out.push(' ')?;
    put_truth(out, chunks_agree(text))?;
    out.push(' ')?;
    put_truth(out, flags_agree(&text.cells))?;
    Ok(true)
}

pub(crate) fn call_view(
    alloc: Global,
    words: &mut Words<'_>,
    text: &Text,
    out: &mut String,
) -> Result<bool, Memory> {
    match words.word() {
        "len" => {
            put_number(out, u64::from(visible_len(&text.cells)))?;
            Ok(true)
        }
        "cell" => visible_cell(words, &text.cells, out),
        "place" => visible_place(words, &text.cells, out),
        "text" => shown_text(alloc, &text.cells, out),
        "agree" => {
            put_truth(out, view_agrees(text))?;
            Ok(true)
        }
        _ => Ok(false),
    }
}

// `cell POSITION`: the place of the shown cell after so many.
fn visible_cell(words: &mut Words<'_>, cells: &Cells, out: &mut String) -> Result<bool, Memory> {
    let Some(v) = words.number() else {
        return Ok(false);
    };
    put_found(out, cell_of_visible(cells, v))?;
    Ok(true)
}

// `place POSITION`: the place of an insert after so many shown cells.
fn visible_place(words: &mut Words<'_>, cells: &Cells, out: &mut String) -> Result<bool, Memory> {
    let Some(v) = words.number() else {
        return Ok(false);
    };
    put_found(out, model_place(cells, v))?;
    Ok(true)
}

// `text`: a `>`, to which the shown text is appended.
fn shown_text(alloc: Global, cells: &Cells, out: &mut String) -> Result<bool, Memory> {
    let mut bytes = Vec::new(alloc);
    bytes.push(b'>')?;
    write_text(cells, &mut bytes)?;
    put_bytes(alloc, &bytes, out)
}

fn put_bytes(alloc: Global, bytes: &[u8], out: &mut String) -> Result<bool, Memory> {
    let text = String::from_utf8_lossy(alloc, bytes)?;
    out.push_str(&text)?;
    Ok(true)
}

// `agree`: whether each shown character of the plain list is found at its place, and no more of them.
fn view_agrees(text: &Text) -> bool {
    let mut before: u32 = 0;
    let mut place: u32 = 0;
    for one in &text.plain {
        if one.is_shown() {
            if cell_of_visible(&text.cells, before) != Some(place) {
                return false;
            }
            before = before.saturating_add(1);
        }
        place = place.saturating_add(1);
    }
    cell_of_visible(&text.cells, before).is_none() && visible_len(&text.cells) == before
}
