//! The frames that another site lacks.

ghost use Rattle.std.specs.Prelude.{◌≡◌, ◌++◌, ◌≤◌, [], ◌∷◌, false, length, take, IfOk, OnOk, OnErr};
ghost use Rattle.context_vector.specs.Contexts.{has};
ghost use Rattle.context_diff.specs.Operations.{member_of, IsWellFormed};
ghost use Rattle.context_diff.specs.Ops.{data_of};
ghost use Rattle.peer_exchange.specs.Joins.{unseen};
ghost use Rattle.peer_exchange.specs.Messages.{lacked_frames};

use context_diff::{Book, Op};
use context_vector::Vector;
use op_name::Memory;
use wire_codec::encode2;

/// Appends the frames of the operations whose members the state lacks, in the book's order, and answers how many they
/// are. Out of memory it may leave some of them after what `out` held.
pub(crate) fn put_lacked(book: &Book, state: &Vector, out: &mut Vec<u8>) -> Result<u32, Memory>
    ensures count { IfOk result (λ n. n ≡ length (unseen (has state.now.set) book.now.ops)) }
    ensures ok { OnOk result (out.new.items ≡ out.old.items ++ lacked_frames state.now.set book.now.ops) }
    ensures err { OnErr result (take (length out.old.items) out.new.items ≡ out.old.items) }
{
    book.known();
    let mut count = 0;
    for i in 0..book.len() {
        match book.op(i) {
            Some(op) => count += put_if_lacked(op, state, out)?,
            None => unreachable!(),
        }
    }
    Ok(count)
}

// Appends the frame of an operation whose member the state lacks, and answers whether that is 1 frame or 0.
fn put_if_lacked(op: &Op, state: &Vector, out: &mut Vec<u8>) -> Result<u32, Memory>
    requires { IsWellFormed (data_of op.now) }
    ensures count { IfOk result (λ n. n ≡ length (unseen (has state.now.set) (data_of op.now ∷ []))) }
    ensures few { IfOk result (λ n. n ≤ 1) }
    ensures ok { OnOk result (out.new.items ≡ out.old.items ++ lacked_frames state.now.set (data_of op.now ∷ [])) }
    ensures needed { OnErr result (has state.now.set (member_of (data_of op.now)) ≡ false) }
    ensures err { OnErr result (out.new.items ≡ out.old.items) }
{
    if state.contains(&op.member()) {
        return Ok(0);
    }
    encode2(op, out)?;
    Ok(1)
}
