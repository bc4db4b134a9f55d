//! States: the members of a site as bytes.

ghost use Rattle.std.specs.Prelude.{◌≡◌, ◌<◌, ◌+◌, ◌*◌, ◌++◌, ◌^◌, ℕ, List, length, Ok, IfOk, IsOk, OnOk, OnErr};
ghost use Rattle.context_vector.specs.Contexts.{ContextData, AreCounts};
ghost use Rattle.wire_codec.specs.declared.listing.Listing.TheVariants.{LongRuns};
ghost use Rattle.wire_codec.specs.Judging.{run_len, stray_from};
ghost use Rattle.wire_codec.specs.States.{state_bytes, IsState, unless_stray, judge_named, judge_state, HasState, state_scan_of, state_judgement_of, SaysOfState, TellsOfState};
ghost use Rattle.wire_codec.specs.Code.Lent.{context_seen, state_as};

use crate::cause::Cause;
use crate::fault::{Fault, Unread};
use crate::left::Left;
use crate::limits::SITES_OF_TWO;
use crate::listing::{self, Listing};
use crate::originals::originals;
use crate::rules::LentContext;
use crate::run_reading::runs_of;
use crate::runs::LONG_RUN_LEN;
use crate::sections::{COUNT_LEN_TWO, Counts};
use crate::state_answers::{DecodedState, StateScan};
use crate::vectors::vector_of;
use crate::version::Version;
use op_name::Memory;
use std::alloc::Global;

// The state that ends at `stop`, unless an undone name is no original of it; the first run begins at `begin`.
fn unless_stray<'a>(
    context: LentContext<'a>,
    begin: u32,
    stop: u32,
) -> Result<(LentContext<'a>, u32), Unread>
    requires { begin + run_len LongRuns * length context.runs < 2 ^ 32 }
    ensures { state_as result
        ≡ unless_stray (context_seen context.entry) stop (stray_from LongRuns (context_seen context.entry) begin context.entry.runs) }
{
    match originals(&context, Listing::LongRuns, begin) {
        Ok(()) => Ok((context, stop)),
        Err(fault) => Err(Unread::Bad(fault)),
    }
}

// The state of these counts and of the runs that the bytes, which begin at this offset, begin with.
#[tactic(auto, unfolding(crate::specs::States::judge_named))]
fn named<'a>(counts: Counts<'a>, at: u32, bytes: &'a [u8]) -> Result<(LentContext<'a>, u32), Unread>
    requires { at + length bytes.now < 2 ^ 32 }
    ensures { state_as result ≡ judge_named counts.entry at bytes.now }
{
    if bytes.len() < 4 {
        return Err(Unread::More(u64::from(at) + 4));
    }
    let (front, rest) = bytes.split_at(4);
    let len = u32::from_be_bytes([front[0], front[1], front[2], front[3]]);
    let section = LONG_RUN_LEN * len as usize;
    if bytes.len() < 4 + section {
        return Err(Unread::More(u64::from(at) + (4 + section) as u64));
    }
    let mut left = Left::new(at + 4, &rest[..section]);
    match runs_of(&mut left, Listing::LongRuns, len) {
        Ok(runs) => unless_stray(
            LentContext { counts, runs },
            at + 4,
            at + (4 + section as u32),
        ),
        Err(fault) => Err(Unread::Bad(fault)),
    }
}

// The state that the bytes begin with, and how many bytes it has.
#[tactic(auto, unfolding(crate::specs::States::judge_state))]
fn judge<'a>(bytes: &'a [u8]) -> Result<(LentContext<'a>, u32), Unread>
    requires { length bytes.now < 2 ^ 32 }
    ensures { state_as result ≡ judge_state bytes.now }
{
    if bytes.len() < 2 {
        return Err(Unread::More(2));
    }
    let (first, rest) = bytes.split_at(2);
    let sites = u16::from_be_bytes([first[0], first[1]]);
    if sites > SITES_OF_TWO {
        return Err(Unread::Bad(Fault {
            cause: Cause::Range,
            offset: 0,
        }));
    }
    let counts = COUNT_LEN_TWO * usize::from(sites);
    if bytes.len() < 2 + counts {
        return Err(Unread::More((2 + counts) as u64));
    }
    let (section, rest) = rest.split_at(counts);
    let mut left = Left::new(2, section);
    match listing::counts_of(&mut left, Version::Two, sites) {
        Ok(listed) => named(listed, 2 + counts as u32, rest),
        Err(fault) => Err(Unread::Bad(fault)),
    }
}

// What is answered to a judgement, without its state.
fn scanned(judged: Result<(LentContext, u32), Unread>) -> StateScan
    ensures { result ≡ state_scan_of (state_as judged.entry) }
{
    match judged {
        Ok((_, used)) => StateScan::State { used },
        Err(Unread::More(at_least)) => StateScan::More { at_least },
        Err(Unread::Bad(fault)) => StateScan::Bad {
            cause: fault.cause,
            offset: fault.offset,
        },
    }
}

// What is answered to a judgement, the state as a vector of its own.
fn decoded(
    alloc: Global,
    judged: Result<(LentContext, u32), Unread>,
) -> Result<DecodedState, Memory>
    requires { IfOk judged (λ p. AreCounts 0 p.0.counts) }
    ensures exact { IfOk result (λ d. state_judgement_of d ≡ state_as judged.entry) }
    ensures memory { OnErr result (IsOk judged.entry) }
{
    Ok(match judged {
        Ok((context, used)) => DecodedState::Got {
            vector: vector_of(alloc, &context)?,
            used,
        },
        Err(Unread::More(at_least)) => DecodedState::More { at_least },
        Err(Unread::Bad(fault)) => DecodedState::Bad {
            cause: fault.cause,
            offset: fault.offset,
        },
    })
}

/// What the bytes begin with: a state, too few bytes to tell, or a fault, of which the first in the order of the rules is
/// answered. A list of the state is judged once it is there whole.
///
/// It takes no memory.
pub fn scan_state(bytes: &[u8]) -> StateScan
    requires { length bytes.now < 2 ^ 32 }
    ensures exact { result ≡ state_scan_of (judge_state bytes.now) }

    // What the answer says: a state is there, more bytes are asked for than there are, or there is a fault in the bytes,
    // and no continuation of them begins with a state.
    ensures says { SaysOfState bytes.now result }

    // Each state is found, whatever follows it.
    ensures only { (c : ContextData) (rest : List ℕ) → IsState c → bytes.now ≡ state_bytes c ++ rest
        → result ≡ state_scan_of (Ok (c, length (state_bytes c))) }
{
    scanned(judge(bytes))
}

/// What the bytes begin with, as `scan_state` answers, and the set of members that the state is.
///
/// It answers `Memory` where the set found none, so only where the bytes begin with a state.
pub fn decode_state(alloc: Global, bytes: &[u8]) -> Result<DecodedState, Memory>
    requires { length bytes.now < 2 ^ 32 }
    ensures exact { IfOk result (λ d. state_judgement_of d ≡ judge_state bytes.now) }

    // What the answer says: the first bytes are this state, more bytes are asked for than there are, or there is a fault
    // in the bytes, and no continuation of them begins with a state.
    ensures tells { IfOk result (TellsOfState bytes.now) }

    // Each state is found, whatever follows it.
    ensures only { (c : ContextData) (rest : List ℕ) → IsState c → bytes.now ≡ state_bytes c ++ rest
        → IfOk result (λ d. state_judgement_of d ≡ Ok (c, length (state_bytes c))) }

    ensures memory { OnErr result (HasState bytes.now) }
{
    decoded(alloc, judge(bytes))
}
