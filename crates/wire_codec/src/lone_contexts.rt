//! Contexts by themselves, as bytes: spelled and judged as in frames of version 2.

ghost use Rattle.std.specs.Prelude.{◌≡◌, ◌≤◌, ◌<◌, ◌+◌, ◌*◌, ◌++◌, ◌^◌, ℕ, List, length, Ok, Err, IfOk, IsOk, OnOk, OnErr};
ghost use Rattle.std.specs.List.{flat_map};
ghost use Rattle.context_vector.specs.Contexts.{ContextData, AreCounts};
ghost use Rattle.context_diff.specs.declared.op.TheConstants.{UNDO_ENTRIES};
ghost use Rattle.wire_codec.specs.declared.version.Version.TheVariants.{Two};
ghost use Rattle.wire_codec.specs.declared.listing.Listing.TheVariants.{Runs};
ghost use Rattle.wire_codec.specs.Runs.{names_in, runs_of};
ghost use Rattle.wire_codec.specs.Spelling.{context_bytes};
ghost use Rattle.wire_codec.specs.Judging.{count_len, run_len, stray_from};
ghost use Rattle.wire_codec.specs.Contexts.{IsShort, names_begin, judge_context, is_length, HasContext, context_judgement_of, AsksForMore, TellsOfContext};
ghost use Rattle.wire_codec.specs.Code.Lent.{context_seen, context_as};

use crate::cause::Cause;
use crate::context_answers::DecodedContext;
use crate::fault::Fault;
use crate::left::Left;
use crate::listing::Listing;
use crate::originals::originals;
use crate::rules::{LentContext, context};
use crate::run_writing::{count, put_names};
use crate::runs::RUN_LEN;
use crate::sections::COUNT_LEN_TWO;
use crate::vectors::vector_of;
use crate::version::Version;
use crate::writing::put_counts;
use context_vector::Vector;
use op_name::Memory;
use std::alloc::Global;

// Whether each run at the end of the context, which ends at `stop`, has originals of it alone.
fn stray(context: &LentContext, stop: u32) -> Result<(), Fault>
    requires { runs_of Runs (flat_map names_in context.now.runs) ≡ context.now.runs }
    ensures { result ≡ stray_from Runs (context_seen context.now) (names_begin (context_seen context.now) stop)
        (runs_of Runs (context_seen context.now).entries) }
{
    let begin = stop.saturating_sub(context.runs.size(Listing::Runs));
    originals(context, Listing::Runs, begin)
}

// The context that the bytes begin with, and how many bytes it has.
#[tactic(auto, unfolding(crate::specs::Contexts::judge_context))]
fn judge<'a>(bytes: &'a [u8]) -> Result<(LentContext<'a>, u32), Fault>
    requires { length bytes.now < 2 ^ 32 }
    ensures { context_as result ≡ judge_context bytes.now }
{
    let mut left = Left::new(0, bytes);
    let context = context(&mut left, Version::Two)?;
    let stop = left.at();
    stray(&context, stop)?;
    Ok((context, stop))
}

fn is_length(cause: Cause) -> bool
    ensures { result ≡ is_length cause }
{
    match cause {
        Cause::Length => true,
        Cause::TooLong | Cause::Kind | Cause::Range | Cause::Char | Cause::Order => false,
        Cause::Zero | Cause::Own | Cause::Target | Cause::Stray => false,
    }
}

// What is answered where there is no context.
fn refused(fault: Fault) -> DecodedContext
    ensures exact { context_judgement_of result ≡ Err fault }
    ensures asks { AsksForMore result }
{
    if is_length(fault.cause) {
        DecodedContext::More {
            field: fault.offset,
        }
    } else {
        DecodedContext::Bad {
            cause: fault.cause,
            offset: fault.offset,
        }
    }
}

// What is answered to a judgement, the context as a vector of its own.
fn decoded(
    alloc: Global,
    judged: Result<(LentContext, u32), Fault>,
) -> Result<DecodedContext, Memory>
    requires { IfOk judged (λ p. AreCounts 0 p.0.counts) }
    ensures exact { IfOk result (λ d. context_judgement_of d ≡ context_as judged.entry) }
    ensures asks { IfOk result AsksForMore }
    ensures memory { OnErr result (IsOk judged.entry) }
{
    Ok(match judged {
        Ok((context, used)) => DecodedContext::Got {
            vector: vector_of(alloc, &context)?,
            used,
        },
        Err(fault) => refused(fault),
    })
}

/// What the bytes begin with: a context as in a frame of version 2, too few bytes to tell, or a fault, of which the first in the order of
/// the rules is answered. Fields are judged as they come, and the undone names once all of them are there: each is an original of the
/// context.
///
/// It answers `Memory` where the vector found none, so only where the bytes begin with a context.
pub fn decode_context(alloc: Global, bytes: &[u8]) -> Result<DecodedContext, Memory>
    requires { length bytes.now < 2 ^ 32 }
    ensures exact { IfOk result (λ d. context_judgement_of d ≡ judge_context bytes.now) }

    // What the answer says: the first bytes are this context, they end before there is one, or there is a fault in the bytes,
    // and no continuation of them begins with a context.
    ensures tells { IfOk result (TellsOfContext bytes.now) }

    // Each context is found, whatever follows it.
    ensures only { (c : ContextData) (rest : List ℕ) → IsShort c → bytes.now ≡ context_bytes Two c ++ rest
        → IfOk result (λ d. context_judgement_of d ≡ Ok (c, length (context_bytes Two c))) }

    ensures memory { OnErr result (HasContext bytes.now) }
{
    decoded(alloc, judge(bytes))
}

fn context_len(context: &Vector, runs: u32) -> usize
    requires { runs ≤ UNDO_ENTRIES }
    ensures { result ≡ 4 + count_len Two * length context.now.set.counts + run_len Runs * runs }
{
    4 + COUNT_LEN_TWO * context.sites() as usize + RUN_LEN * runs as usize
}

/// Appends the one spelling of the context, as it stands in a frame of version 2.
///
/// On `Memory` nothing is appended: room for all of it is made first.
pub fn encode_context(context: &Vector, out: &mut Vec<u8>) -> Result<(), Memory>
    requires { length context.now.set.entries ≤ UNDO_ENTRIES }
    ensures ok { OnOk result (out.new.items ≡ out.old.items ++ context_bytes Two context.now.set) }
    ensures err { OnErr result (out.new.items ≡ out.old.items) }
{
    context.known();
    let entries = context.named()?;
    let runs = count(Listing::Runs, entries.as_slice());
    out.reserve(context_len(context, runs))?;
    put_counts(out, Version::Two, context);
    put_names(out, Listing::Runs, runs, entries.as_slice());
    Ok(())
}
