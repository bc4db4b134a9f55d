//! The joiner's first message, and the server's answer to it.

ghost use Rattle.std.specs.Prelude.{◌≡◌, ◌≢◌, ◌++◌, ◌≤◌, length, take, IfOk, IfErr, OnOk, OnErr};
ghost use Rattle.context_vector.specs.Contexts.{has};
ghost use Rattle.peer_exchange.specs.declared.messages.TheConstants.{MAX_MESSAGE};
ghost use Rattle.peer_exchange.specs.Joins.{unseen};
ghost use Rattle.peer_exchange.specs.Messages.{telling, first_message, third_message, second_message, IsFirst, IsAnswered};
ghost use Rattle.peer_exchange.specs.Refusals.{IsWhole, IsUnread};

use crate::lacking::put_lacked;
use crate::measuring::measure;
use crate::messages::{Measure, PeerCause, Which};
use crate::peer::Peer;
use context_diff::Book;
use context_vector::Vector;
use cot_site::Site;
use op_name::Memory;
use std::alloc::Global;
use wire_codec::{DecodedState, decode_state, encode_state};

/// The bytes with which a message that tells a state begins: states and frames of version 2 follow.
pub(crate) const HEAD: &[u8] = b"COTVEC2\n";

const END_MARK: &[u8] = b"\x00\x00\x00\x00";

/// Appends the first message: what the site has.
pub fn offer(site: &Site, out: &mut Vec<u8>) -> Result<(), Memory>
    ensures ok { OnOk result (out.new.items ≡ out.old.items ++ first_message site.now.history) }
    ensures err { OnErr result (out.new.items ≡ out.old.items) }
{
    let start = out.len();
    let done = put_telling(site.vector(), out);
    if done.is_err() {
        out.truncate(start);
    }
    done
}

// Appends the message that tells a state; out of memory, it may leave some of it.
fn put_telling(state: &Vector, out: &mut Vec<u8>) -> Result<(), Memory>
    ensures ok { OnOk result (out.new.items ≡ out.old.items ++ telling state.now.set) }
    ensures err { OnErr result (take (length out.old.items) out.new.items ≡ out.old.items) }
{
    out.extend_from_slice(HEAD)?;
    encode_state(state, out)
}

/// Appends the third message of a site for a state, and answers how many frames it has. Out of memory, it may leave some
/// of it after what `out` held.
pub(crate) fn put_third(book: &Book, state: &Vector, out: &mut Vec<u8>) -> Result<u32, Memory>
    ensures count { IfOk result (λ n. n ≡ length (unseen (has state.now.set) book.now.ops)) }
    ensures ok { OnOk result (out.new.items ≡ out.old.items ++ third_message book.now.ops state.now.set) }
    ensures err { OnErr result (take (length out.old.items) out.new.items ≡ out.old.items) }
{
    let count = put_lacked(book, state, out)?;
    out.extend_from_slice(END_MARK)?;
    Ok(count)
}

// The same for the second message.
fn put_second(site: &Site, state: &Vector, out: &mut Vec<u8>) -> Result<u32, Memory>
    ensures count { IfOk result (λ n. n ≡ length (unseen (has state.now.set) site.now.history)) }
    ensures ok { OnOk result (out.new.items ≡ out.old.items ++ second_message site.now.history state.now.set) }
    ensures err { OnErr result (take (length out.old.items) out.new.items ≡ out.old.items) }
{
    put_telling(site.vector(), out)?;
    put_third(site.book(), state, out)
}

/// Tells whether bytes are one whole message, and if not, why.
pub(crate) fn whole(which: Which, bytes: &[u8]) -> Result<(), Peer>
    requires { length bytes.now ≤ MAX_MESSAGE }
    ensures whole { OnOk result (IsWhole which bytes.now) }
    ensures refused { IfErr result (IsUnread which bytes.now) }
    ensures memory { IfErr result (λ why. why ≢ Peer.Memory) }
{
    match measure(which, bytes) {
        Measure::Whole { used } if used as usize == bytes.len() => Ok(()),
        Measure::Whole { used } => Err(Peer::Bytes {
            offset: used,
            cause: PeerCause::Extra,
        }),
        Measure::More { .. } => Err(Peer::Bytes {
            offset: bytes.len() as u32,
            cause: PeerCause::Cut,
        }),
        Measure::Bad { offset, cause } => Err(Peer::Bytes { offset, cause }),
    }
}

// The state that a whole first message tells.
fn told(alloc: Global, first: &[u8]) -> Result<Vector, Memory>
    requires whole { IsWhole Which.First first.now }
    requires short { length first.now ≤ MAX_MESSAGE }
    ensures { IfOk result (λ v. IsFirst first.now v.set) }
{
    let (_, state) = first.split_at(HEAD.len());
    match decode_state(alloc, state)? {
        DecodedState::Got { vector, .. } => Ok(vector),
        DecodedState::More { .. } | DecodedState::Bad { .. } => unreachable!(),
    }
}

/// Appends the second message, which answers the first one of a joiner: what the site has, and the frames of what the
/// joiner lacks. It answers how many frames they are.
pub fn answer(alloc: Global, site: &Site, first: &[u8], out: &mut Vec<u8>) -> Result<u32, Peer>
    requires { length first.now ≤ MAX_MESSAGE }
    ensures answered { IfOk result (IsAnswered site.now.history first.now out.old.items out.new.items) }
    ensures refused { IfErr result (IsUnread Which.First first.now) }
    ensures err { OnErr result (out.new.items ≡ out.old.items) }
{
    whole(Which::First, first)?;
    let state = told(alloc, first)?;
    let start = out.len();
    match put_second(site, &state, out) {
        Ok(count) => Ok(count),
        Err(Memory) => {
            out.truncate(start);
            Err(Peer::Memory)
        }
    }
}
