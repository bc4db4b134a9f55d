//! The trace of a member.

ghost use Rattle.std.specs.Prelude.{◌≡◌, ◌↔◌, ◌++◌, List, true, false, IfOk, OnErr, IsTrue};
ghost use Rattle.context_diff.specs.Histories.{is_known};
ghost use Rattle.trace_explain.specs.declared.line.TraceLine.{TraceLine};
ghost use Rattle.trace_explain.specs.Traces.{IsTrace};
ghost use Rattle.trace_explain.specs.Listings.{IsTraceOf};

use crate::contexts::context_before;
use crate::line::TraceLine;
use crate::listing::Listing;
use crate::tasks::list;
use context_diff::{Book, last_may_be_taken_out};
use form_cache::Key;
use op_name::{Member, Memory};
use std::alloc::Global;

/// Appends the trace of a member of the book: the lines that derive the form in which it is executed at all members that
/// the book holds before it. False exactly where the book lacks the member; then nothing is appended, and nothing is when
/// memory runs out, which it can only where the book has the member.
///
/// To list a member at a context: if that pair is listed, its line serves. At the member's base context it gets a line of
/// its base form. Else, with x the last member of the context, in the book's order, that the base context lacks, the member
/// is listed at the context without x, then x is listed there, and then comes the step of the two.
pub fn trace(
    alloc: Global,
    book: &Book,
    m: &Member,
    out: &mut Vec<TraceLine>,
) -> Result<bool, Memory>
    ensures found { IfOk result (λ b. IsTrue b ↔ (is_known book.now.ops m.now ≡ true)) }
    ensures lines { IfOk result (λ b. b ≡ true → (lines : List TraceLine)
        × IsTraceOf book.now.ops m.now lines
        × IsTrace book.now.ops m.now lines
        × (out.new.items ≡ out.old.items ++ lines)) }
    ensures lacking { IfOk result (λ b. b ≡ false → out.new.items ≡ out.old.items) }
    ensures needed { OnErr result (is_known book.now.ops m.now ≡ true) }
    ensures kept { OnErr result (out.new.items ≡ out.old.items) }
{
    book.known();
    if !book.have().contains(m) {
        return Ok(false);
    }
    let listing = listed(alloc, book, m)?;
    out.extend_from_slice(listing.lines())?;
    Ok(true)
}

// The listing of a member of the book at all members that the book holds before it.
fn listed(alloc: Global, book: &Book, m: &Member) -> Result<Listing, Memory>
    requires { is_known book.now.ops m.now ≡ true }
    ensures listed { IfOk result (λ l. IsTraceOf book.now.ops m.now l.lines.items) }
    ensures trace { IfOk result (λ l. IsTrace book.now.ops m.now l.lines.items) }
{
    book.known();
    last_may_be_taken_out();
    let mut context = context_before(alloc, book, m)?;
    context.share();
    let mut listing = Listing::new(alloc);
    list(
        alloc,
        book,
        &mut listing,
        Key {
            member: *m,
            context,
        },
    )?;
    Ok(listing)
}
