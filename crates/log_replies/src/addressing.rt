//! The commands `where` and `find`.

ghost use Rattle.std.specs.Prelude.{◌≡◌, ◌<◌, ◌^◌, ◌++◌, IfOk, OnOk, length};
ghost use Rattle.cot_site.specs.Sites.{state_of};
ghost use Rattle.log_replies.specs.Addressing.{IsLocated, IsFound, located_reply, found_reply, address_text, place_text, no_place_text, no_line_text};
ghost use Rattle.log_replies.specs.Answers.{IsAppended};

use crate::replying::Replies;
use cot_site::Site;
use op_name::Memory;
use past_view::{line_of_place, place_of_line};
use site_answers::put;
use std::alloc::Global;

/// Loads a log as site 0, and writes the line and the column of the place after so many shown characters.
#[derive(Drop)]
pub struct Locating {
    pub place: u32,
}

impl Replies for Locating {
    ghost replies = { λ l. IsLocated l.place };

    ghost number = { λ _. 0 };

    ghost replies_to = { λ l s reply. reply ≡ located_reply l.place s };

    ghost in_range = { λ _. Unit {0} };

    fn site(&self) -> u16 {
        0
    }

    fn reply(&self, alloc: Global, site: &mut Site, out: &mut Vec<u8>) -> Result<bool, Memory> {
        locate(alloc, site, self.place, out)
    }

    ghost by_log = { λ _ bytes reply it. it };
}

/// Loads a log as site 0, and writes the place of the shown text that has this line and column.
#[derive(Drop)]
pub struct Finding {
    pub line: u32,
    pub column: u32,
}

impl Replies for Finding {
    ghost replies = { λ f. IsFound f.line f.column };

    ghost number = { λ _. 0 };

    ghost replies_to = { λ f s reply. reply ≡ found_reply f.line f.column s };

    ghost in_range = { λ _. Unit {0} };

    fn site(&self) -> u16 {
        0
    }

    fn reply(&self, alloc: Global, site: &mut Site, out: &mut Vec<u8>) -> Result<bool, Memory> {
        find(alloc, site, self.line, self.column, out)
    }

    ghost by_log = { λ _ bytes reply it. it };
}

// Appends the line and the column of a place, or the line that the text has no such place. Answers whether it hasn't.
fn locate(alloc: Global, site: &Site, place: u32, out: &mut Vec<u8>) -> Result<bool, Memory>
    ensures { IfOk result (λ refused.
        IsAppended (λ s reply. reply ≡ located_reply place s) refused (state_of site.now) out.old.items out.new.items) }
{
    let mut text = Vec::new(alloc);
    site.text(&mut text)?;
    let text = text.as_slice();
    fits_numbers(text)?;
    match line_of_place(text, place) {
        Some((line, column)) => {
            put_address(line, column, out)?;
            Ok(false)
        }
        None => {
            refuse_place(place, site.visible_len(), out)?;
            Ok(true)
        }
    }
}

// Appends the place of a line and a column, or the line that no place has them. Answers whether none has.
fn find(
    alloc: Global,
    site: &Site,
    line: u32,
    column: u32,
    out: &mut Vec<u8>,
) -> Result<bool, Memory>
    ensures { IfOk result (λ refused.
        IsAppended (λ s reply. reply ≡ found_reply line column s) refused (state_of site.now) out.old.items out.new.items) }
{
    let mut text = Vec::new(alloc);
    site.text(&mut text)?;
    let text = text.as_slice();
    fits_numbers(text)?;
    match place_of_line(text, line, column) {
        Some(place) => {
            put_place(place, out)?;
            Ok(false)
        }
        None => {
            refuse_line(line, column, out)?;
            Ok(true)
        }
    }
}

/// Passes a text whose bytes are numbered in 32 bits, as each one that a log gives, which has no more bytes than `MAX_INPUT`. A longer
/// one counts as out of memory.
pub(crate) fn fits_numbers(text: &[u8]) -> Result<(), Memory>
    ensures { OnOk result (length text.now < 2 ^ 32) }
{
    if text.len() as u64 > u64::from(u32::MAX) {
        Err(Memory)
    } else {
        Ok(())
    }
}

// Appends a line and a column.
fn put_address(line: u32, column: u32, out: &mut Vec<u8>) -> Result<(), Memory>
    ensures { OnOk result (out.new.items ≡ out.old.items ++ address_text line column) }
{
    put::number(out, b"line ", u64::from(line))?;
    put::number(out, b" column ", u64::from(column))?;
    put::text(out, b"\n")
}

// Appends a place.
fn put_place(place: u32, out: &mut Vec<u8>) -> Result<(), Memory>
    ensures { OnOk result (out.new.items ≡ out.old.items ++ place_text place) }
{
    put::number(out, b"place ", u64::from(place))?;
    put::text(out, b"\n")
}

// Appends the line that a text of so many characters has no such place.
fn refuse_place(place: u32, visible: u32, out: &mut Vec<u8>) -> Result<(), Memory>
    ensures { OnOk result (out.new.items ≡ out.old.items ++ no_place_text place visible) }
{
    put::number(out, b"refused place ", u64::from(place))?;
    put::number(out, b" ", u64::from(visible))?;
    put::text(out, b"\n")?;
    Ok(())
}

// Appends the line that no place has this line and column.
fn refuse_line(line: u32, column: u32, out: &mut Vec<u8>) -> Result<(), Memory>
    ensures { OnOk result (out.new.items ≡ out.old.items ++ no_line_text line column) }
{
    put::number(out, b"refused line ", u64::from(line))?;
    put::number(out, b" ", u64::from(column))?;
    put::text(out, b"\n")?;
    Ok(())
}
