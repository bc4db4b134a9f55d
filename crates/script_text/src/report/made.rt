//! The report line of a local operation that became a message.

ghost use Rattle.std.specs.Prelude.{◌≡◌, ◌++◌, OnOk, OnErr, length, take};
ghost use Rattle.context_diff.specs.Ops.{data_of};
ghost use Rattle.site_answers.specs.Names.{name_text, group_text};
ghost use Rattle.script_text.specs.Report.{made_words, op_text, turn_word};

use context_diff::Op;
use op_name::{Memory, Name};
use site_answers::{put, put_group, put_name};

/// Appends the report line of a local operation that became message `message`: `op M insert NAME`,
/// `op M delete NAME`, `op M undo NAME/G` or `op M redo NAME/G`, and a line feed.
///
/// A refused call leaves `out` as it was.
pub fn op_line(message: u32, op: &Op, out: &mut Vec<u8>) -> Result<(), Memory>
    ensures ok { OnOk result (out.new.items ≡ out.old.items ++ op_text message (data_of op.now)) }
    ensures err { OnErr result (out.new.items ≡ out.old.items) }
{
    let start = out.len();
    let done = op_parts(message, op, out);
    put::take_back(out, start, done)
}

// The same, but a refused call may leave some of it after what `out` held.
fn op_parts(message: u32, op: &Op, out: &mut Vec<u8>) -> Result<(), Memory>
    ensures ok { OnOk result (out.new.items ≡ out.old.items ++ op_text message (data_of op.now)) }
    ensures err { OnErr result (take (length out.old.items) out.new.items ≡ out.old.items) }
{
    put::number(out, b"op ", u64::from(message))?;
    put::text(out, b" ")?;
    put_made(op, out)?;
    put::text(out, b"\n")
}

/// Appends what a local operation did: `insert NAME`, `delete NAME`, `undo NAME/G` or `redo NAME/G`. A refused call
/// leaves `out` as it was.
pub fn put_made(op: &Op, out: &mut Vec<u8>) -> Result<(), Memory>
    ensures ok { OnOk result (out.new.items ≡ out.old.items ++ made_words (data_of op.now)) }
    ensures err { OnErr result (out.new.items ≡ out.old.items) }
{
    match op {
        Op::Insert { name, .. } => put_original(b"insert ", *name, out),
        Op::Delete { name, .. } => put_original(b"delete ", *name, out),
        Op::Undo {
            target,
            generation,
            ..
        } => put_turn(*target, *generation, out),
    }
}

// A word and a name.
fn put_original(word: &[u8], name: Name, out: &mut Vec<u8>) -> Result<(), Memory>
    ensures ok { OnOk result (out.new.items ≡ out.old.items ++ (word.now ++ name_text name)) }
    ensures err { OnErr result (out.new.items ≡ out.old.items) }
{
    let start = out.len();
    let done = original_parts(word, name, out);
    put::take_back(out, start, done)
}

// The same, but a refused call may leave some of it after what `out` held.
fn original_parts(word: &[u8], name: Name, out: &mut Vec<u8>) -> Result<(), Memory>
    ensures ok { OnOk result (out.new.items ≡ out.old.items ++ (word.now ++ name_text name)) }
    ensures err { OnErr result (take (length out.old.items) out.new.items ≡ out.old.items) }
{
    put::text(out, word)?;
    put_name(name, out)
}

// `undo NAME/G` at an odd generation, `redo NAME/G` at an even one
fn put_turn(target: Name, generation: u16, out: &mut Vec<u8>) -> Result<(), Memory>
    ensures ok { OnOk result (out.new.items ≡ out.old.items ++ (turn_word generation ++ group_text target generation)) }
    ensures err { OnErr result (out.new.items ≡ out.old.items) }
{
    let start = out.len();
    let done = turn_parts(target, generation, out);
    put::take_back(out, start, done)
}

// The same, but a refused call may leave some of it after what `out` held.
fn turn_parts(target: Name, generation: u16, out: &mut Vec<u8>) -> Result<(), Memory>
    ensures ok { OnOk result (out.new.items ≡ out.old.items ++ (turn_word generation ++ group_text target generation)) }
    ensures err { OnErr result (take (length out.old.items) out.new.items ≡ out.old.items) }
{
    put::text(out, turn_word(generation).as_bytes())?;
    put_group(target, generation, out)
}

fn turn_word(generation: u16) -> &'static str
    ensures { result.now ≡ turn_word generation }
{
    if generation % 2 == 0 {
        "redo "
    } else {
        "undo "
    }
}
