//! The words of reasons for which a local operation is refused.

ghost use Rattle.std.specs.Prelude.{◌≡◌, ◌≢◌, ◌++◌, OnOk, OnErr, codes, decimal, length, take};
ghost use Rattle.site_answers.specs.Names.{name_text};
ghost use Rattle.site_answers.specs.Words.{reason_text};

use crate::local::Local;
use crate::members::put_name;
use crate::put;
use op_name::{Memory, Name};

/// Appends the reason of a refused local operation in words, with what it names. A refused call leaves `out` as it
/// was.
pub fn put_reason(why: Local, out: &mut Vec<u8>) -> Result<(), Memory>
    requires { why ≢ Local.Memory }
    ensures ok { OnOk result (out.new.items ≡ out.old.items ++ reason_text why) }
    ensures err { OnErr result (out.new.items ≡ out.old.items) }
{
    match why {
        Local::PlaceOut { place, visible } => put_place(place, visible, out),
        Local::Unknown { name } => put_unknown(name, out),
        Local::NotInForce { generation } => {
            put::number(out, b"notinforce ", u64::from(generation))
        }
        Local::InForce { generation } => put::number(out, b"inforce ", u64::from(generation)),
        Local::GenerationFull => put::text(out, b"generationfull"),
        Local::NumberFull => put::text(out, b"numberfull"),
        Local::ContextFull { entries } => put::number(out, b"contextfull ", u64::from(entries)),
        Local::Memory => unreachable!(),
    }
}

// `place V VISIBLE`
fn put_place(place: u32, visible: u32, out: &mut Vec<u8>) -> Result<(), Memory>
    ensures ok { OnOk result (out.new.items ≡ out.old.items ++ (codes "place " ++ (decimal place ++ (codes " " ++ decimal visible)))) }
    ensures err { OnErr result (out.new.items ≡ out.old.items) }
{
    let start = out.len();
    let done = place_parts(place, visible, out);
    put::take_back(out, start, done)
}

// The same, but a refused call may leave some of it after what `out` held.
fn place_parts(place: u32, visible: u32, out: &mut Vec<u8>) -> Result<(), Memory>
    ensures ok { OnOk result (out.new.items ≡ out.old.items ++ (codes "place " ++ (decimal place ++ (codes " " ++ decimal visible)))) }
    ensures err { OnErr result (take (length out.old.items) out.new.items ≡ out.old.items) }
{
    put::number(out, b"place ", u64::from(place))?;
    put::number(out, b" ", u64::from(visible))
}

// `unknown NAME`
fn put_unknown(name: Name, out: &mut Vec<u8>) -> Result<(), Memory>
    ensures ok { OnOk result (out.new.items ≡ out.old.items ++ (codes "unknown " ++ name_text name)) }
    ensures err { OnErr result (out.new.items ≡ out.old.items) }
{
    let start = out.len();
    let done = unknown_parts(name, out);
    put::take_back(out, start, done)
}

// The same, but a refused call may leave some of it after what `out` held.
fn unknown_parts(name: Name, out: &mut Vec<u8>) -> Result<(), Memory>
    ensures ok { OnOk result (out.new.items ≡ out.old.items ++ (codes "unknown " ++ name_text name)) }
    ensures err { OnErr result (take (length out.old.items) out.new.items ≡ out.old.items) }
{
    put::text(out, b"unknown ")?;
    put_name(name, out)
}
