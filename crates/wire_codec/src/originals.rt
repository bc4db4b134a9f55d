//! Whether undone names are originals of their context.

ghost use Rattle.std.specs.Prelude.{◌≡◌, ◌+◌, ◌*◌, ◌<◌, ◌^◌, length};
ghost use Rattle.std.specs.List.{list_all};
ghost use Rattle.op_name.specs.declared.member.Member.TheVariants.{Original};
ghost use Rattle.context_vector.specs.Contexts.{count_in, has};
ghost use Rattle.wire_codec.specs.Runs.{names_in};
ghost use Rattle.wire_codec.specs.Judging.{run_len, stray_from};
ghost use Rattle.wire_codec.specs.Code.Lent.{context_seen};

use crate::cause::Cause;
use crate::fault::Fault;
use crate::left::check;
use crate::listing::Listing;
use crate::rules::{LentContext, count_of};
use crate::runs::{Run, run_len};

// How many originals of a site a context has.
#[derive(Clone, Copy)]
struct SiteCount {
    site: u16,
    count: u32,
}

// That of this site, which isn't looked up again where it is the one before.
fn count_after(context: &LentContext, before: SiteCount, site: u16) -> SiteCount
    requires { before.count ≡ count_in context.now.counts before.site }
    ensures site { result.site ≡ site }
    ensures count { result.count ≡ count_in context.now.counts site }
{
    if before.site == site {
        before
    } else {
        SiteCount {
            site,
            count: count_of(context, site),
        }
    }
}

// Whether the count reaches the last name of the run, one of its site, and so each of them.
fn reaches(context: &LentContext, known: SiteCount, run: &Run) -> bool
    requires { known.count ≡ count_in context.now.counts run.now.first.site }
    ensures { result ≡ list_all (λ e. has (context_seen context.now) (Original e.0)) (names_in run.now) }
{
    let _ = context;
    run.known();
    run.last_number() <= known.count
}

/// Whether each run has originals of the context alone; the first one begins at `begin`.
///
/// The names rise, so each count is looked up once.
pub(crate) fn originals(context: &LentContext, listing: Listing, begin: u32) -> Result<(), Fault>
    requires { begin + run_len listing * length context.now.runs < 2 ^ 32 }
    ensures { result ≡ stray_from listing (context_seen context.now) begin context.now.runs }
{
    let mut at = begin;
    let mut known = SiteCount {
        site: 0,
        count: count_of(context, 0),
    };
    for run in context.runs.again() {
        known = count_after(context, known, run.site());
        check(reaches(context, known, &run), Cause::Stray, at)?;
        at += run_len(listing) as u32;
    }
    Ok(())
}
