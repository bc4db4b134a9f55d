//! Operations as bytes, from one site to another.

ghost use Rattle.std.specs.Prelude.{◌≡◌, true, OnOk, IfErr};
ghost use Rattle.context_diff.specs.Operations.{IsWellFormed};
ghost use Rattle.context_diff.specs.Ops.{data_of};
ghost use Rattle.cot_site.specs.Sites.{state_of};
ghost use Rattle.cot_site.specs.States.{judged, delivered};
ghost use Rattle.cot_site.specs.Releases.{settled};
ghost use Rattle.uses.specs.Mail.{is_taken, last_first, AreTaken, IsReceived, IsUnreceived, IsUnsent, IsPartlySent};

use crate::stop::Stop;
use context_diff::Op;
use cot_site::{Site, Verdict};
use op_name::Memory;
use std::alloc::Global;
use wire_codec::{Decoded, decode2, encode2};

/// Sends all operations that a site has integrated, the last one first. At the other site each waits until those that it
/// depends on are there. One that is there already is a repeat and changes nothing; `peer_exchange` sends only what is
/// missing.
pub(crate) fn send_all(alloc: Global, from: &Site, to: &mut Site) -> Result<(), Stop>
    ensures state { OnOk result (state_of to.new ≡ last_first (state_of to.old) from.now.history) }
    ensures taken { OnOk result (AreTaken (state_of to.old) from.now.history) }
    ensures refused { IfErr result (IsPartlySent from.now.history (state_of to.old) (state_of to.new)) }
{
    let book = from.book();
    book.known();
    let mut left = book.len();
    while left > 0 {
        left -= 1;
        match book.op(left) {
            Some(op) => send(alloc, op, to)?,
            None => unreachable!(),
        }
    }
    Ok(())
}

/// Sends a well-formed operation.
fn send(alloc: Global, op: &Op, to: &mut Site) -> Result<(), Stop>
    requires { IsWellFormed (data_of op.now) }
    ensures state { OnOk result (state_of to.new ≡ settled (delivered (state_of to.old) (data_of op.now))) }
    ensures taken { OnOk result (is_taken (judged (state_of to.old) (data_of op.now)) ≡ true) }
    ensures refused { IfErr result (IsUnsent (data_of op.now) (state_of to.old) (state_of to.new)) }
{
    let mut frame = Vec::new(alloc);
    encode2(op, &mut frame)?;
    receive(alloc, to, &frame)
}

/// Takes in the operation whose frame the bytes begin with, whoever sent them, and ignores what follows. Then releases
/// every waiting operation that is ready.
fn receive(alloc: Global, site: &mut Site, bytes: &[u8]) -> Result<(), Stop>
    ensures taken { OnOk result (IsReceived bytes.now (state_of site.old) (state_of site.new)) }
    ensures refused { IfErr result (IsUnreceived bytes.now (state_of site.old) (state_of site.new)) }
{
    match decode2(alloc, bytes) {
        Ok(Decoded::Got { op, .. }) => take_in(alloc, site, &op),
        Ok(_) => Err(Stop::NoFrame),
        Err(Memory) => Err(Stop::Memory),
    }
}

/// Takes in a well-formed operation, and then releases every waiting operation that is ready. One that is refused at its
/// release is dropped without an error.
fn take_in(alloc: Global, site: &mut Site, op: &Op) -> Result<(), Stop>
    requires { IsWellFormed (data_of op.now) }
    ensures state { OnOk result (state_of site.new ≡ settled (delivered (state_of site.old) (data_of op.now))) }
    ensures taken { OnOk result (is_taken (judged (state_of site.old) (data_of op.now)) ≡ true) }
    ensures refused { IfErr result (IsUnsent (data_of op.now) (state_of site.old) (state_of site.new)) }
    ensures memory { IfErr result (λ why. why ≡ Stop.Memory → is_taken (judged (state_of site.old) (data_of op.now)) ≡ true) }
{
    match site.deliver(op) {
        Ok(verdict) if is_taken(&verdict) => {
            let mut released = Vec::new(alloc);
            site.settle(&mut released)?;
            Ok(())
        }
        Ok(_) => Err(Stop::Refused),
        Err(Memory) => Err(Stop::Memory),
    }
}

/// Whether an operation with this verdict is taken in: it is integrated, waits, or was there already.
fn is_taken(verdict: &Verdict) -> bool
    ensures { result ≡ is_taken verdict.now }
{
    matches!(
        verdict,
        Verdict::Integrated | Verdict::Waits { .. } | Verdict::Repeat
    )
}
