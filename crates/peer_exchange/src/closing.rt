//! The joiner's answer to the server, and the end of the exchange at the server.

ghost use Rattle.std.specs.Prelude.{◌≡◌, ◌≤◌, Err, length, IfOk, IfErr, OnErr};
ghost use Rattle.cot_site.specs.Releases.{IsLater};
ghost use Rattle.cot_site.specs.Sites.{state_of};
ghost use Rattle.wire_codec.specs.declared.version.Version.TheVariants.{Two};
ghost use Rattle.wire_codec.specs.Answers.{HasFrame};
ghost use Rattle.peer_exchange.specs.declared.messages.TheConstants.{MAX_MESSAGE};
ghost use Rattle.peer_exchange.specs.Refusals.{IsWhole};
ghost use Rattle.peer_exchange.specs.Closing.{IsClosed, IsFinished, IsUnclosed, IsUnfinished};
ghost use Rattle.peer_exchange.specs.Code.Receiving.{IsToldUpTo};

use crate::messages::Which;
use crate::offering::{HEAD, put_third, whole};
use crate::peer::Peer;
use crate::receiving::take_frames;
use context_vector::Vector;
use cot_site::Site;
use op_name::Memory;
use std::alloc::Global;
use wire_codec::{DecodedState, decode_state};

// The state that a whole second message tells, and the place at which its frames begin.
fn told(alloc: Global, second: &[u8]) -> Result<(Vector, u32), Memory>
    requires whole { IsWhole Which.Second second.now }
    requires short { length second.now ≤ MAX_MESSAGE }
    ensures { IfOk result (λ p. IsToldUpTo second.now p.0.set p.1) }
{
    let (_, rest) = second.split_at(HEAD.len());
    match decode_state(alloc, rest)? {
        DecodedState::Got { vector, used } => Ok((vector, HEAD.len() as u32 + used)),
        DecodedState::More { .. } | DecodedState::Bad { .. } => unreachable!(),
    }
}

/// Takes in the operations of a second message, and appends the third one, which answers it: the frames of what the
/// server lacks. It answers how many frames it took in, and how many it sends.
///
/// Each operation is judged; one that is integrated or a repeat is delivered, and what it frees is released. The first
/// that is neither ends the call: it isn't held, and those before it stay integrated. So do they out of memory.
pub fn close(
    alloc: Global,
    site: &mut Site,
    second: &[u8],
    out: &mut Vec<u8>,
) -> Result<(u32, u32), Peer>
    requires { length second.now ≤ MAX_MESSAGE }
    ensures closed { IfOk result (IsClosed (state_of site.old) second.now (state_of site.new) out.old.items out.new.items) }
    ensures refused { IfErr result (IsUnclosed (state_of site.old) second.now (state_of site.new)) }
    // The old history stays the first part of the new one, whatever the answer.
    ensures later { IsLater (state_of site.old) (state_of site.new) }
    ensures err { OnErr result (out.new.items ≡ out.old.items) }
{
    site.known();
    whole(Which::Second, second)?;
    let (state, at) = told(alloc, second)?;
    let (_, frames) = second.split_at(at as usize);
    let taken = take_frames(alloc, site, frames)?;
    let start = out.len();
    match put_third(site.book(), &state, out) {
        Ok(sent) => Ok((taken, sent)),
        Err(Memory) => {
            out.truncate(start);
            Err(Peer::Memory)
        }
    }
}

/// Takes in the operations of a third message, as `close` does, and answers how many they are. A message without frames
/// takes no memory.
pub fn finish(alloc: Global, site: &mut Site, third: &[u8]) -> Result<u32, Peer>
    requires { length third.now ≤ MAX_MESSAGE }
    ensures finished { IfOk result (IsFinished (state_of site.old) third.now (state_of site.new)) }
    ensures refused { IfErr result (IsUnfinished (state_of site.old) third.now (state_of site.new)) }
    ensures needed { result ≡ Err Peer.Memory → HasFrame Two third.now }
    // The old history stays the first part of the new one, whatever the answer.
    ensures later { IsLater (state_of site.old) (state_of site.new) }
{
    site.known();
    whole(Which::Third, third)?;
    match take_frames(alloc, site, third) {
        Ok(taken) => Ok(taken),
        Err(why) => Err(why),
    }
}
