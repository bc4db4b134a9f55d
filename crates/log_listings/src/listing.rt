//! The command `history`.

ghost use Rattle.std.specs.Prelude.{◌≡◌, ◌++◌, [], Contains, OnOk, option_map};
ghost use Rattle.std.specs.Map.{lookup};
ghost use Rattle.std.specs.Option.{option_map_or};
ghost use Rattle.op_name.specs.NameData.{name_eq};
ghost use Rattle.context_diff.specs.Ops.{data_of};
ghost use Rattle.cot_site.specs.Sites.{state_of};
ghost use Rattle.log_listings.specs.Listings.{IsListed, listing_reply, is_on, force_text, author_text, cell_text, deed_text, kind_word, content_text, line_text, lines_text, target_text};
ghost use Rattle.log_listings.specs.Originals.{original_in};
ghost use Rattle.log_listings.specs.Code.Hits.{cell_of, AreHits};

use crate::characters::character_of;
use crate::hits::cells_hit;
use crate::quoting::put_quoted;
use context_diff::{Book, Op};
use cot_site::Site;
use indexmap::IndexMap;
use log_replies::Replies;
use op_name::{Memory, Name};
use script_text::put_made;
use site_answers::{put, put_name};
use std::alloc::Global;
use tombstone_text::CellId;
use undo_group::{generation, in_force};

/// Loads a log as site 0, and writes a line for each operation of its history.
#[derive(Drop)]
pub struct Listing;

impl Replies for Listing {
    ghost replies = { λ _. IsListed };

    ghost number = { λ _. 0 };

    ghost replies_to = { λ _ s reply. reply ≡ listing_reply s };

    ghost in_range = { λ _. Unit {0} };

    fn site(&self) -> u16 {
        0
    }

    fn reply(&self, alloc: Global, site: &mut Site, out: &mut Vec<u8>) -> Result<bool, Memory> {
        put_history(alloc, site, out)?;
        Ok(false)
    }

    ghost by_log = { λ _ bytes reply it. it };
}

// Appends a line for each operation of the site's history.
fn put_history(alloc: Global, site: &Site, out: &mut Vec<u8>) -> Result<(), Memory>
    ensures { OnOk result (out.new.items ≡ out.old.items ++ (listing_reply (state_of site.now)).written) }
{
    let hits = cells_hit(alloc, site)?;
    put_lines(site.book(), &hits, out)
}

// Appends a line for each operation of the book, of which these are the cells that its deletes hit.
fn put_lines(book: &Book, hits: &IndexMap<Name, CellId>, out: &mut Vec<u8>) -> Result<(), Memory>
    requires { AreHits book.now.ops hits.now.entries }
    ensures { OnOk result (out.new.items ≡ out.old.items ++ lines_text book.now.ops 0 book.now.ops) }
{
    for i in 0..book.len() {
        match book.op(i) {
            Some(op) => put_line(book, hits, i, op, out)?,
            None => unreachable!(),
        }
    }
    Ok(())
}

// Appends the line of an operation of the book, which stands at this index.
#[tactic(auto, unfolding(crate::specs::Listings::line_text))]
fn put_line(
    book: &Book,
    hits: &IndexMap<Name, CellId>,
    index: u32,
    op: &Op,
    out: &mut Vec<u8>,
) -> Result<(), Memory>
    requires hits { AreHits book.now.ops hits.now.entries }
    requires there { Contains book.now.ops (data_of op.now) }
    ensures { OnOk result (out.new.items ≡ out.old.items ++ line_text book.now.ops index (data_of op.now)) }
{
    put::number(out, b"", u64::from(index))?;
    put::text(out, b" ")?;
    put_made(op, out)?;
    put_author(op, out)?;
    put::text(out, force_text(is_on(book, op)).as_bytes())?;
    put_content(book, hits, op, out)?;
    put::text(out, b"\n")
}

// Appends who made an undo or a redo.
fn put_author(op: &Op, out: &mut Vec<u8>) -> Result<(), Memory>
    ensures { OnOk result (out.new.items ≡ out.old.items ++ author_text (data_of op.now)) }
{
    match op {
        Op::Insert { .. } | Op::Delete { .. } => Ok(()),
        Op::Undo { author, .. } => put::number(out, b" by ", u64::from(*author)),
    }
}

// Whether an operation of the book is in force.
fn is_on(book: &Book, op: &Op) -> bool
    ensures { result ≡ is_on book.now.ops (data_of op.now) }
{
    book.known();
    match op {
        Op::Insert { name, .. } | Op::Delete { name, .. } => in_force(book.have(), name),
        Op::Undo {
            target,
            generation: at,
            ..
        } => generation(book.have(), target) == *at,
    }
}

// The word for it.
fn force_text(on: bool) -> &'static str
    ensures { result.now ≡ force_text on }
{
    if on { " on " } else { " off " }
}

// Appends what an operation of the book does, or what it undoes or redoes.
fn put_content(
    book: &Book,
    hits: &IndexMap<Name, CellId>,
    op: &Op,
    out: &mut Vec<u8>,
) -> Result<(), Memory>
    requires hits { AreHits book.now.ops hits.now.entries }
    requires there { Contains book.now.ops (data_of op.now) }
    ensures { OnOk result (out.new.items ≡ out.old.items ++ content_text book.now.ops (data_of op.now)) }
{
    match op {
        Op::Insert { .. } | Op::Delete { .. } => put_deed(book, hits, op, out),
        Op::Undo { target, .. } => put_target(book, hits, target, out),
    }
}

// Appends what the original of this name is and does, if the book has it.
fn put_target(
    book: &Book,
    hits: &IndexMap<Name, CellId>,
    name: &Name,
    out: &mut Vec<u8>,
) -> Result<(), Memory>
    requires { AreHits book.now.ops hits.now.entries }
    ensures { OnOk result (out.new.items
        ≡ out.old.items ++ option_map_or (target_text book.now.ops) (original_in book.now.ops name.now) []) }
{
    book.known();
    match book.original(name) {
        Some(op) => {
            put::text(out, kind_word(op).as_bytes())?;
            put_deed(book, hits, op, out)
        }
        None => Ok(()),
    }
}

// The word of an insert or a delete.
fn kind_word(op: &Op) -> &'static str
    ensures { result.now ≡ kind_word (data_of op.now) }
{
    match op {
        Op::Insert { .. } => "insert ",
        Op::Delete { .. } => "delete ",
        Op::Undo { .. } => "",
    }
}

// Appends what an insert or delete of the book does.
fn put_deed(
    book: &Book,
    hits: &IndexMap<Name, CellId>,
    op: &Op,
    out: &mut Vec<u8>,
) -> Result<(), Memory>
    requires hits { AreHits book.now.ops hits.now.entries }
    requires there { Contains book.now.ops (data_of op.now) }
    ensures { OnOk result (out.new.items ≡ out.old.items ++ deed_text book.now.ops (data_of op.now)) }
{
    match op {
        Op::Insert { text, .. } => put_quoted(text.as_slice(), out),
        Op::Delete { name, .. } => put_hit(book, hits, name, out),
        Op::Undo { .. } => Ok(()),
    }
}

// Appends the cell that is told of the delete of this name.
fn put_hit(
    book: &Book,
    hits: &IndexMap<Name, CellId>,
    name: &Name,
    out: &mut Vec<u8>,
) -> Result<(), Memory>
    ensures { OnOk result (out.new.items
        ≡ out.old.items ++ option_map_or (cell_text book.now.ops) (option_map cell_of (lookup (name_eq name.now) hits.now.entries)) []) }
{
    match hits.get(name) {
        Some(id) => put_cell(book, id, out),
        None => Ok(()),
    }
}

// Appends a cell with its character.
fn put_cell(book: &Book, id: &CellId, out: &mut Vec<u8>) -> Result<(), Memory>
    ensures { OnOk result (out.new.items ≡ out.old.items ++ cell_text book.now.ops (cell_of id.now)) }
{
    put_name(id.name, out)?;
    put::number(out, b"+", u64::from(id.offset))?;
    put::text(out, b" ")?;
    put_quoted(&[character_of(book, id)], out)
}
