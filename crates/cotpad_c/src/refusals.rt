//! Why an edit isn't made, why a log or a message isn't taken, and why a set has no text, as a host is told.

ghost use Rattle.std.specs.Prelude.{◌≡◌, ◌≢◌};
ghost use Rattle.peer_exchange.specs.declared.peer.Peer.TheVariants.{Memory};
ghost use Rattle.past_view.specs.declared.past.AtBad.TheVariants as bad;
ghost use Rattle.cotpad_c.specs.declared.status.TheConstants.{OK, NO_MEMORY, TOO_SHORT, NO_SET};
ghost use Rattle.cotpad_c.specs.Pasts.{past_status, past_told};
ghost use Rattle.cotpad_c.specs.Refusals.{log_status, log_told, bytes_status, bytes_told, peer_status, peer_told};
ghost use Rattle.cotpad_c.specs.Statuses.{refusal, stop_number, number_of, IsMade};

use crate::operation::{CotpadMember, member_told, site_told};
use crate::status;
use crate::verdict::{CotpadVerdict, at_offset, malformed, unfit};
use context_diff::Op;
use cot_site::Local;
use op_name::Member;
use participant::Stopped;
use past_view::AtBad;
use peer_exchange::{Peer, PeerCause};
use session_log::LogBad;

/// The number of how an edit ended.
pub(crate) fn edit_number(done: &Result<Op, Stopped>) -> u32
    ensures { result ≡ number_of done.now }
{
    match done {
        Ok(_) => status::OK,
        Err(why) => stop_number(*why),
    }
}

/// The number of how a run of edits ended.
pub(crate) fn end_number(end: Result<(), Stopped>) -> u32
    ensures { result ≡ number_of end }
{
    match end {
        Ok(()) => status::OK,
        Err(why) => stop_number(why),
    }
}

// The number of why edits stopped.
fn stop_number(why: Stopped) -> u32
    ensures { result ≡ stop_number why }
{
    match why {
        Stopped::Refused { why } => refusal(why),
        Stopped::Unsettled => status::UNSETTLED,
    }
}

// The number of a refusal.
fn refusal(why: Local) -> u32
    ensures { result ≡ refusal why }
{
    match why {
        Local::Memory => status::NO_MEMORY,
        Local::PlaceOut { .. } => status::PLACE_OUT,
        Local::Unknown { .. } => status::UNKNOWN,
        Local::NotInForce { .. } => status::NOT_IN_FORCE,
        Local::InForce { .. } => status::IN_FORCE,
        Local::GenerationFull => status::GENERATION_FULL,
        Local::NumberFull => status::NUMBER_FULL,
        Local::ContextFull { .. } => status::CONTEXT_FULL,
    }
}

/// Tells why a log isn't loaded.
pub(crate) fn log_refused(bad: LogBad, why: &mut CotpadVerdict) -> u32
    ensures status { result ≡ log_status bad }
    ensures told { why.new ≡ log_told why.old bad }
    ensures not_done { result ≢ OK }
{
    match bad {
        LogBad::Header => {
            *why = at_offset(0);
            status::NO_HEAD
        }
        LogBad::Cut { offset } => {
            *why = at_offset(offset);
            status::CUT
        }
        LogBad::Bad { offset, cause } => {
            *why = malformed(cause, offset);
            status::MALFORMED
        }
        LogBad::Refused {
            offset,
            member,
            verdict,
        } => {
            *why = unfit(member, verdict, offset);
            status::REFUSED
        }
        LogBad::Memory => status::NO_MEMORY,
    }
}

/// Tells why a message isn't taken.
pub(crate) fn peer_refused(refusal: Peer, why: &mut CotpadVerdict) -> u32
    ensures status { result ≡ peer_status refusal }
    ensures told { why.new ≡ peer_told why.old refusal }
    ensures memory { result ≡ NO_MEMORY → refusal ≡ Memory }
    ensures not_done { result ≢ OK }
    ensures not_short { result ≢ TOO_SHORT }
{
    match refusal {
        Peer::Bytes { offset, cause } => {
            *why = bytes_told(offset, cause);
            bytes_status(cause)
        }
        Peer::Op { member, verdict } => {
            *why = unfit(member, verdict, 0);
            status::REFUSED
        }
        Peer::Memory => status::NO_MEMORY,
    }
}

fn bytes_status(cause: PeerCause) -> u32
    ensures status { result ≡ bytes_status cause }
    ensures not_memory { result ≢ NO_MEMORY }
    ensures not_done { result ≢ OK }
    ensures not_short { result ≢ TOO_SHORT }
{
    match cause {
        PeerCause::Head => status::NO_HEAD,
        PeerCause::Frame(_) => status::MALFORMED,
        PeerCause::Cut => status::CUT,
        PeerCause::Extra => status::EXTRA,
        PeerCause::Limit => status::TOO_LONG,
    }
}

fn bytes_told(offset: u32, cause: PeerCause) -> CotpadVerdict
    ensures { result ≡ bytes_told offset cause }
{
    match cause {
        PeerCause::Frame(why) => malformed(why, offset),
        PeerCause::Head | PeerCause::Cut | PeerCause::Extra | PeerCause::Limit => at_offset(offset),
    }
}

/// Tells why a set has no text.
pub(crate) fn past_refused(cause: AtBad, why: &mut CotpadMember) -> u32
    ensures status { result ≡ past_status cause }
    ensures told { why.new ≡ past_told why.old cause }
    ensures memory { result ≡ NO_MEMORY → cause ≡ bad.Memory }
    ensures not_made { ¬ IsMade result }
    ensures not_unspelled { result ≢ NO_SET }
{
    match cause {
        AtBad::Unknown { member } => {
            *why = member_told(member);
            status::UNKNOWN
        }
        AtBad::Stray { name } => {
            *why = member_told(Member::Original(name));
            status::STRAY
        }
        AtBad::NotClosed { site } => {
            *why = site_told(site);
            status::NOT_CLOSED
        }
        AtBad::Memory => status::NO_MEMORY,
    }
}
