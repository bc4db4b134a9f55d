//! Names and members as texts.

ghost use Rattle.std.specs.Prelude.{◌≡◌, ◌++◌, OnOk, OnErr, length, take};
ghost use Rattle.site_answers.specs.Names.{name_text, group_text, member_text};

use crate::put;
use op_name::{Member, Memory, Name};

/// Appends a name: `S.N`. A refused call leaves `out` as it was.
pub fn put_name(name: Name, out: &mut Vec<u8>) -> Result<(), Memory>
    ensures ok { OnOk result (out.new.items ≡ out.old.items ++ name_text name) }
    ensures err { OnErr result (out.new.items ≡ out.old.items) }
{
    let start = out.len();
    let done = name_parts(name, out);
    put::take_back(out, start, done)
}

// The same, but a refused call may leave some of it after what `out` held; so with all that end in `parts`.
fn name_parts(name: Name, out: &mut Vec<u8>) -> Result<(), Memory>
    ensures ok { OnOk result (out.new.items ≡ out.old.items ++ name_text name) }
    ensures err { OnErr result (take (length out.old.items) out.new.items ≡ out.old.items) }
{
    put::number(out, b"", u64::from(name.site))?;
    put::number(out, b".", u64::from(name.number))
}

/// Appends the group of an original at a generation: `S.N/G`. A refused call leaves `out` as it was.
pub fn put_group(name: Name, generation: u16, out: &mut Vec<u8>) -> Result<(), Memory>
    ensures ok { OnOk result (out.new.items ≡ out.old.items ++ group_text name generation) }
    ensures err { OnErr result (out.new.items ≡ out.old.items) }
{
    let start = out.len();
    let done = group_parts(name, generation, out);
    put::take_back(out, start, done)
}

fn group_parts(name: Name, generation: u16, out: &mut Vec<u8>) -> Result<(), Memory>
    ensures ok { OnOk result (out.new.items ≡ out.old.items ++ group_text name generation) }
    ensures err { OnErr result (take (length out.old.items) out.new.items ≡ out.old.items) }
{
    put::number(out, b"", u64::from(name.site))?;
    put::number(out, b".", u64::from(name.number))?;
    put::number(out, b"/", u64::from(generation))
}

/// Appends a member: `S.N` for an original, `S.N/G` for a group. A refused call leaves `out` as it was.
pub fn put_member(member: Member, out: &mut Vec<u8>) -> Result<(), Memory>
    ensures ok { OnOk result (out.new.items ≡ out.old.items ++ member_text member) }
    ensures err { OnErr result (out.new.items ≡ out.old.items) }
{
    match member {
        Member::Original(name) => put_name(name, out),
        Member::Group(name, generation) => put_group(name, generation, out),
    }
}
