//! Frames of the history, for whoever keeps an outbox or serves peers.

ghost use Rattle.std.specs.Prelude.{◌≡◌, ◌≢◌, ◌++◌, ◌<◌, ◌≤◌, ℕ, [], true, Contains, OnOk, OnErr, drop, length, take};
ghost use Rattle.context_diff.specs.Operations.{OpData, member_of};
ghost use Rattle.context_diff.specs.Histories.{is_known};
ghost use Rattle.wire_codec.specs.declared.version.Version.TheVariants.{Two};
ghost use Rattle.wire_codec.specs.Spelling.{frame};
ghost use Rattle.site_ranges.specs.Frames.{frames_of, lacked_by};

use context_diff::{Book, difference};
use context_vector::Vector;
use cot_site::Site;
use op_name::{Member, Memory};
use wire_codec::encode2;

/// Appends the frames, of version 2, of the operations of the history from the one at index `from` on, in its order: none, where there
/// are no more. When out of memory, `out` is as it was.
///
/// It costs by what is written.
pub fn frames_from(site: &Site, from: u32, out: &mut Vec<u8>) -> Result<(), Memory>
    ensures ok { OnOk result (out.new.items ≡ out.old.items ++ frames_of (drop from site.now.history)) }
    ensures needed { OnErr result (from < length site.now.history) }
    ensures err { OnErr result (out.new.items ≡ out.old.items) }
{
    let start = out.len();
    match put_from(site.book(), from, out) {
        Ok(()) => Ok(()),
        Err(memory) => {
            out.truncate(start);
            Err(memory)
        }
    }
}

/// Appends the frames, of version 2, of the operations of the history whose members `have` lacks, in its order: what a peer that has
/// these members is to be sent. When out of memory, which comes only where it lacks any, `out` is as it was.
///
/// It costs by the two sets of members and by what is written, and not by the history.
pub fn frames_for(site: &Site, have: &Vector, out: &mut Vec<u8>) -> Result<(), Memory>
    ensures ok { OnOk result (out.new.items ≡ out.old.items ++ frames_of (lacked_by have.now.set site.now.history)) }
    ensures needed { OnErr result (lacked_by have.now.set site.now.history ≢ []) }
    ensures err { OnErr result (out.new.items ≡ out.old.items) }
{
    let start = out.len();
    match put_lacked(site.book(), have, out) {
        Ok(()) => Ok(()),
        Err(memory) => {
            out.truncate(start);
            Err(memory)
        }
    }
}

// Appends the frames of the operations from an index on; when out of memory, those of the first of them.
fn put_from(book: &Book, from: u32, out: &mut Vec<u8>) -> Result<(), Memory>
    ensures ok { OnOk result (out.new.items ≡ out.old.items ++ frames_of (drop from book.now.ops)) }
    ensures needed { OnErr result (from < length book.now.ops) }
    ensures err { OnErr result (take (length out.old.items) out.new.items ≡ out.old.items) }
{
    book.known();
    for i in from..book.len() {
        match book.op(i) {
            Some(op) => encode2(op, out)?,
            None => unreachable!(),
        }
    }
    Ok(())
}

// Appends the frames of the operations whose members the set lacks; when out of memory, those of the first of them.
fn put_lacked(book: &Book, have: &Vector, out: &mut Vec<u8>) -> Result<(), Memory>
    ensures ok { OnOk result (out.new.items ≡ out.old.items ++ frames_of (lacked_by have.now.set book.now.ops)) }
    ensures needed { OnErr result (lacked_by have.now.set book.now.ops ≢ []) }
    ensures err { OnErr result (take (length out.old.items) out.new.items ≡ out.old.items) }
{
    book.known();
    let mut members = Vec::new(*out.allocator());
    difference(book, have, book.have(), &mut members)?;
    for member in &members {
        put_member(book, member, out)?;
    }
    Ok(())
}

// Appends the frame of the operation that is the member.
fn put_member(book: &Book, member: &Member, out: &mut Vec<u8>) -> Result<(), Memory>
    requires { is_known book.now.ops member.now ≡ true }
    ensures ok { OnOk result ((o : OpData) → Contains book.now.ops o → member_of o ≡ member.now
        → out.new.items ≡ out.old.items ++ frame Two o) }
    ensures err { OnErr result (out.new.items ≡ out.old.items) }
{
    book.known();
    match book.place_of(member) {
        Some(place) => match book.op(place as u32) {
            Some(op) => encode2(op, out),
            None => unreachable!(),
        },
        None => unreachable!(),
    }
}
