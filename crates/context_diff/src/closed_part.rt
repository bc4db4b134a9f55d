//! A closed context that a book has within another one: what is closed by it needs no second look.

ghost use Rattle.std.specs.Prelude.{◌≡◌, true, Contains, IfSome};
ghost use Rattle.context_vector.specs.Contexts.{count_of};
ghost use Rattle.context_diff.specs.Operations.{is_original};
ghost use Rattle.context_diff.specs.Ops.{data_of};
ghost use Rattle.context_diff.specs.Code.ClosedParts.{author_of, IsClosedPart};

use crate::book::Book;
use crate::op::Op;
use context_vector::Vector;
use op_name::Name;

/// A closed context of the book within `v`, where one is found at once: what the author of the last operation knew when it
/// made the first original that `v` lacks, or its last one. Where many sites write at the same time, all of them knew this.
pub(crate) fn closed_part<'a>(book: &'a Book, v: &Vector) -> Option<&'a Vector>
    ensures { IfSome result (λ c. IsClosedPart book.now.ops v.now.set c.now.set) }
{
    book.known();
    let op = first_beyond(book, v)?;
    let part = op.context();
    if v.covers(part) { Some(part) } else { None }
}

// The first original that `v` lacks of the author of the last operation, or that author's last one.
fn first_beyond<'a>(book: &'a Book, v: &Vector) -> Option<&'a Op>
    ensures there { IfSome result (λ o. Contains book.now.ops (data_of o.now)) }
    ensures original { IfSome result (λ o. is_original (data_of o.now) ≡ true) }
{
    let last = book.len().checked_sub(1)?;
    let site = author(book.op(last)?);
    let number = book.have().count(site).min(v.count(site) + 1);
    let Ok(name) = Name::new(site, number) else {
        return None;
    };
    book.original(&name)
}

// The site that made the operation.
fn author(op: &Op) -> u16
    ensures { result ≡ author_of (data_of op.now) }
{
    match op {
        Op::Insert { name, .. } | Op::Delete { name, .. } => name.site,
        Op::Undo { author, .. } => *author,
    }
}

/// How many originals of the site the context has. The site mostly stands at the place `i` among the context's sites; where
/// it doesn't, it is searched.
#[tactic(auto, using(crate::proofs::ClosedParts::count_here))]
pub(crate) fn count_near(part: &Vector, i: u32, site: u16) -> u32
    ensures { result ≡ count_of part.now.set site }
{
    part.known();
    if let Some(here) = part.site_at(i) {
        if here.0 == site {
            return here.1;
        }
    }
    part.count(site)
}
