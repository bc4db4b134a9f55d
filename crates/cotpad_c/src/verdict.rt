//! Verdicts as a host reads them.

ghost use Rattle.std.specs.Prelude.{◌≡◌};
ghost use Rattle.cotpad_c.specs.Verdicts.{blank, told, incomplete, malformed, at_offset, of_member, unfit};

use crate::cause::cause_number;
use crate::kinds::{
    FORGED, INCOMPLETE, INTEGRATED, MALFORMED, NOT_CLOSED, PLACE_OUT, REPEAT, WAITS,
};
use crate::operation::{CotpadMember, CotpadOperation, member_told, no_member, no_operation};
use cot_site::Verdict;
use op_name::Member;
use wire_codec::Cause;

/// What became of a delivery.
#[repr(C)]
#[derive(Clone, Copy)]
pub struct CotpadVerdict {
    pub kind: u32,
    pub cause: u32,
    pub offset: u32,
    pub used: u32,
    pub operation: CotpadOperation,
    pub missing: CotpadMember,
    pub site: u32,
    pub place: u32,
    pub cells: u32,
}

fn blank() -> CotpadVerdict
    ensures { result ≡ blank }
{
    CotpadVerdict {
        kind: 0,
        cause: 0,
        offset: 0,
        used: 0,
        operation: no_operation(),
        missing: no_member(),
        site: 0,
        place: 0,
        cells: 0,
    }
}

/// The verdict on the operation, whose frame has so many bytes.
pub(crate) fn told(operation: CotpadOperation, used: u32, verdict: Verdict) -> CotpadVerdict
    ensures { result ≡ told operation used verdict }
{
    let mut out = blank();
    out.used = used;
    out.operation = operation;
    match verdict {
        Verdict::Integrated => out.kind = INTEGRATED,
        Verdict::Waits { missing } => {
            out.kind = WAITS;
            out.missing = member_told(missing);
        }
        Verdict::Repeat => out.kind = REPEAT,
        Verdict::Forged { .. } => out.kind = FORGED,
        Verdict::NotClosed { site } => {
            out.kind = NOT_CLOSED;
            out.site = u32::from(site);
        }
        Verdict::PlaceOut { place, cells } => {
            out.kind = PLACE_OUT;
            out.place = place;
            out.cells = cells;
        }
    }
    out
}

/// More bytes are wanted.
pub(crate) fn incomplete(offset: u32) -> CotpadVerdict
    ensures { result ≡ incomplete offset }
{
    let mut out = blank();
    out.kind = INCOMPLETE;
    out.offset = offset;
    out
}

/// A fault is at the offset.
pub(crate) fn malformed(cause: Cause, offset: u32) -> CotpadVerdict
    ensures { result ≡ malformed cause offset }
{
    let mut out = blank();
    out.kind = MALFORMED;
    out.cause = cause_number(cause);
    out.offset = offset;
    out
}

/// A place among bytes, and nothing else.
pub(crate) fn at_offset(offset: u32) -> CotpadVerdict
    ensures { result ≡ at_offset offset }
{
    let mut out = blank();
    out.offset = offset;
    out
}

/// The verdict on an operation of which the member alone is told.
pub(crate) fn of_member(member: Member, verdict: Verdict) -> CotpadVerdict
    ensures { result ≡ of_member member verdict }
{
    let mut operation = no_operation();
    operation.member = member_told(member);
    told(operation, 0, verdict)
}

/// The verdict for which an operation isn't taken, and its place among the bytes.
pub(crate) fn unfit(member: Member, verdict: Verdict, offset: u32) -> CotpadVerdict
    ensures { result ≡ unfit member verdict offset }
{
    let mut out = of_member(member, verdict);
    out.offset = offset;
    out
}
