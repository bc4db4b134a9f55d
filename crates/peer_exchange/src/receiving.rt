//! Taking in the frames of a message.

ghost use Rattle.std.specs.Prelude.{◌≡◌, ◌≤◌, List, [], ◌∷◌, Ok, false, length, OnOk, OnErr, IfOk, IfErr, IfSome};
ghost use Rattle.context_diff.specs.Operations.{OpData, IsWellFormed};
ghost use Rattle.context_diff.specs.Ops.{data_of};
ghost use Rattle.cot_site.specs.Sites.{state_of};
ghost use Rattle.wire_codec.specs.declared.version.Version.TheVariants.{Two};
ghost use Rattle.wire_codec.specs.Answers.{HasFrame};
ghost use Rattle.peer_exchange.specs.declared.messages.TheConstants.{MAX_MESSAGE};
ghost use Rattle.peer_exchange.specs.Messages.{IsThird};
ghost use Rattle.peer_exchange.specs.Taking.{all_taken_in};
ghost use Rattle.peer_exchange.specs.Code.Receiving.{IsOneUntaken, AreUntaken, IsFirstOf, no_frame};

use crate::peer::Peer;
use context_diff::Op;
use cot_site::{Release, Site};
use op_name::Memory;
use participant::{Taking, is_had, take_in};
use std::alloc::Global;
use wire_codec::{Decoded, decode2};

// Takes in an operation that a peer sent, unless its verdict refuses it. The list is only room.
fn take_next(site: &mut Site, op: Op, room: &mut Vec<Release>) -> Result<(), Peer>
    requires { IsWellFormed (data_of op) }
    ensures taken { OnOk result (all_taken_in (state_of site.old) (data_of op ∷ []) ≡ Ok (state_of site.new)) }
    ensures untaken { IfErr result (IsOneUntaken (state_of site.old) (data_of op) (state_of site.new)) }
{
    let mut op = op;
    take_lent(site, &mut op, room)
}

// The same of an operation that the caller gives up: a match with many exits over an owned one makes its proof long.
fn take_lent(site: &mut Site, op: &mut Op, room: &mut Vec<Release>) -> Result<(), Peer>
    requires { IsWellFormed (data_of op.old) }
    ensures taken { OnOk result (all_taken_in (state_of site.old) (data_of op.old ∷ []) ≡ Ok (state_of site.new)) }
    ensures untaken { IfErr result (IsOneUntaken (state_of site.old) (data_of op.old) (state_of site.new)) }
{
    room.clear();
    match take_in(site, op, Taking::Had, room) {
        Ok(verdict) => {
            if is_had(&verdict) {
                Ok(())
            } else {
                Err(Peer::Op {
                    member: op.member(),
                    verdict,
                })
            }
        }
        Err(_) => Err(Peer::Memory),
    }
}

// Whether no frame is there: the end mark begins with a length of 0.
fn ends(bytes: &[u8]) -> bool
    ensures { result ≡ no_frame bytes.now }
{
    bytes.len() < 4 || u32::from_be_bytes([bytes[0], bytes[1], bytes[2], bytes[3]]) == 0
}

// The first operation of the frames, and how many bytes its frame has; None before the end mark.
fn first(alloc: Global, bytes: &[u8]) -> Result<Option<(Op, u32)>, Memory>
    requires { (os : List OpData) × IsThird bytes.now os }
    ensures first { IfOk result (λ p. (os : List OpData) → IsThird bytes.now os → IsFirstOf bytes.now os p) }
    ensures within { IfOk result (λ p. IfSome p (λ q. (1 ≤ q.1) × (q.1 ≤ length bytes.now))) }
    ensures needed { OnErr result (no_frame bytes.now ≡ false) }
{
    if ends(bytes) {
        return Ok(None);
    }
    match decode2(alloc, bytes)? {
        Decoded::Got { op, used } => Ok(Some((op, used))),
        Decoded::More { .. } | Decoded::Bad { .. } => unreachable!(),
    }
}

/// Takes in the operations of these frames, one after the other, and answers how many they are.
pub(crate) fn take_frames(alloc: Global, site: &mut Site, bytes: &[u8]) -> Result<u32, Peer>
    requires frames { (os : List OpData) × IsThird bytes.now os }
    requires short { length bytes.now ≤ MAX_MESSAGE }
    ensures taken { IfOk result (λ n. (os : List OpData) × IsThird bytes.now os × (n ≡ length os)
        × (all_taken_in (state_of site.old) os ≡ Ok (state_of site.new))) }
    ensures untaken { IfErr result (λ why. (os : List OpData) × IsThird bytes.now os
        × AreUntaken (state_of site.old) os (state_of site.new) why) }
    ensures needed { OnErr result (HasFrame Two bytes.now) }
{
    let mut room = Vec::new(alloc);
    let mut left = bytes;
    let mut count = 0;
    loop {
        match first(alloc, left) {
            Ok(Some(next)) => {
                let (op, used) = next;
                take_next(site, op, &mut room)?;
                let (_, rest) = left.split_at(used as usize);
                left = rest;
                count += 1;
            }
            Ok(None) => return Ok(count),
            Err(Memory) => return Err(Peer::Memory),
        }
    }
}
