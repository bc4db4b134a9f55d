//! The hashes of a history and of its text.

ghost use Rattle.std.specs.Prelude.{◌≡◌, ◌<◌, ◌≤◌, List, IfOk, OnOk};
ghost use Rattle.std.specs.List.{flat_map};
ghost use Rattle.op_name.specs.declared.member.Member.TheVariants.{Original};
ghost use Rattle.sha2.specs.Sha256.{sha256};
ghost use Rattle.context_diff.specs.Operations.{OpData};
ghost use Rattle.context_diff.specs.Replays.{text_of};
ghost use Rattle.log_listings.specs.Digests.{originals_of, groups_of, group_bytes, content_of, history_bytes};
ghost use Rattle.log_listings.specs.Code.Hashing.{Feeds};

use context_diff::Book;
use cot_site::Site;
use op_name::{Memory, NUMBERS, Name, SITES};
use sha2::{Digest, Sha256};
use std::alloc::Global;
use wire_codec::encode2;

/// The SHA-256 of the book's history: of the contents of its members, in the order of members. It holds one content at a time.
pub(crate) fn hash_of_history(alloc: Global, book: &Book) -> Result<[u8; 32], Memory>
    ensures { IfOk result (λ hash. hash ≡ sha256 (history_bytes book.now.ops)) }
{
    book.known();
    let mut hasher = Sha256::new();
    feed_originals(alloc, book, &mut hasher)?;
    feed_groups(book, &mut hasher);
    Ok(hasher.finalize())
}

/// The SHA-256 of the text that the site shows, in UTF-8.
pub(crate) fn hash_of_text(alloc: Global, site: &Site) -> Result<[u8; 32], Memory>
    ensures { IfOk result (λ hash. hash ≡ sha256 (text_of site.now.history)) }
{
    let mut text = Vec::new(alloc);
    site.text(&mut text)?;
    Ok(Sha256::digest(text.as_slice()))
}

// Feeds the originals of the book, by site and number.
fn feed_originals(alloc: Global, book: &Book, hasher: &mut Sha256) -> Result<(), Memory>
    ensures { OnOk result
        (Feeds hasher.old hasher.new (flat_map (content_of book.now.ops) (flat_map originals_of book.now.have.set.counts))) }
{
    book.have().known();
    let mut content = Vec::new(alloc);
    let mut left = book.have().sites_read();
    while let Some((site, count)) = left.next() {
        feed_site(book, site, count, &mut content, hasher)?;
    }
    Ok(())
}

// Feeds the first originals of a site, so many.
fn feed_site(
    book: &Book,
    site: u16,
    count: u32,
    content: &mut Vec<u8>,
    hasher: &mut Sha256,
) -> Result<(), Memory>
    requires site { site < SITES }
    requires count { count ≤ NUMBERS }
    ensures { OnOk result (Feeds hasher.old hasher.new (flat_map (content_of book.now.ops) (originals_of (site, count)))) }
{
    for k in 0..count {
        let number = k + 1;
        feed_original(book, &Name { site, number }, content, hasher)?;
    }
    Ok(())
}

// Feeds the original of a name; nothing where the book hasn't it.
fn feed_original(
    book: &Book,
    name: &Name,
    content: &mut Vec<u8>,
    hasher: &mut Sha256,
) -> Result<(), Memory>
    ensures { OnOk result (Feeds hasher.old hasher.new (content_of book.now.ops (Original name.now))) }
{
    book.known();
    match book.original(name) {
        Some(op) => {
            content.clear();
            encode2(op, content)?;
            hasher.update(content.as_slice());
            Ok(())
        }
        None => Ok(()),
    }
}

// Feeds the groups of the book, by name and generation.
fn feed_groups(book: &Book, hasher: &mut Sha256)
    ensures { Feeds hasher.old hasher.new (flat_map (content_of book.now.ops) (flat_map groups_of book.now.have.set.entries)) }
{
    let mut left = book.have().names_read();
    while let Some(undone) = left.next() {
        feed_name(&undone.0, undone.1, hasher);
    }
}

// Feeds the groups of a name up to a generation.
fn feed_name(name: &Name, generation: u16, hasher: &mut Sha256)
    ensures { (h : List OpData) → Feeds hasher.old hasher.new (flat_map (content_of h) (groups_of (name.now, generation))) }
{
    for k in 0..generation {
        feed_group(name, k + 1, hasher);
    }
}

// Feeds a group.
fn feed_group(name: &Name, generation: u16, hasher: &mut Sha256)
    ensures { Feeds hasher.old hasher.new (group_bytes name.now generation) }
{
    hasher.update(&8u32.to_be_bytes());
    hasher.update(&name.site.to_be_bytes());
    hasher.update(&name.number.to_be_bytes());
    hasher.update(&generation.to_be_bytes());
}
