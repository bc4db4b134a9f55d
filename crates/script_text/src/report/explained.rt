//! The lines of `explain`.

ghost use Rattle.std.specs.Prelude.{◌≡◌, ◌<◌, ◌∷◌, [], ◌++◌, OnOk, OnErr, length, take, codes, decimal, slice_index};
ghost use Rattle.hex.specs.Hex.{upper_digits};
ghost use Rattle.script_text.specs.Explained.{hex_digits, hex_width, scalar_text, insert_text, form_text, about_text, base_text, step_text};

use op_name::{Member, Memory};
use site_answers::{put, put_member};
use ttf_form::Form;

/// The digits of base 16.
const DIGITS: &[u8; 16] = b"0123456789ABCDEF";

/// Appends the line of a member's base form: `K base MEMBER FORM` and a line feed, where K is the line's number and `chars`
/// are the characters that the member inserts, none where it inserts nothing.
///
/// A refused call leaves `out` as it was.
pub fn base_line(
    number: u64,
    member: Member,
    chars: &[char],
    form: &Form,
    out: &mut Vec<u8>,
) -> Result<(), Memory>
    ensures ok { OnOk result (out.new.items ≡ out.old.items ++ base_text number member chars.now form.now) }
    ensures err { OnErr result (out.new.items ≡ out.old.items) }
{
    let start = out.len();
    let done = base_parts(number, member, chars, form, out);
    put::take_back(out, start, done)
}

// The same, but a refused call may leave some of it after what `out` held; so with all that end in `parts`.
fn base_parts(
    number: u64,
    member: Member,
    chars: &[char],
    form: &Form,
    out: &mut Vec<u8>,
) -> Result<(), Memory>
    ensures ok { OnOk result (out.new.items ≡ out.old.items ++ base_text number member chars.now form.now) }
    ensures err { OnErr result (take (length out.old.items) out.new.items ≡ out.old.items) }
{
    put::number(out, b"", number)?;
    put::text(out, b" base")?;
    put_about(member, chars, form, out)
}

/// Appends the line of a step, which includes the form of line `over` in that of line `left`: `K step LEFT OVER MEMBER
/// FORM` and a line feed, where K is the line's number and `chars` are the characters that the member inserts.
///
/// A refused call leaves `out` as it was.
pub fn step_line(
    number: u64,
    left: u64,
    over: u64,
    member: Member,
    chars: &[char],
    form: &Form,
    out: &mut Vec<u8>,
) -> Result<(), Memory>
    ensures ok { OnOk result (out.new.items ≡ out.old.items ++ step_text number left over member chars.now form.now) }
    ensures err { OnErr result (out.new.items ≡ out.old.items) }
{
    let start = out.len();
    let done = step_parts(number, left, over, member, chars, form, out);
    put::take_back(out, start, done)
}

fn step_parts(
    number: u64,
    left: u64,
    over: u64,
    member: Member,
    chars: &[char],
    form: &Form,
    out: &mut Vec<u8>,
) -> Result<(), Memory>
    ensures ok { OnOk result (out.new.items ≡ out.old.items ++ step_text number left over member chars.now form.now) }
    ensures err { OnErr result (take (length out.old.items) out.new.items ≡ out.old.items) }
{
    put::number(out, b"", number)?;
    put::number(out, b" step ", left)?;
    put::number(out, b" ", over)?;
    put_about(member, chars, form, out)
}

// What the line is about: a blank, `MEMBER FORM` and a line feed. A refused call leaves `out` as it was.
fn put_about(member: Member, chars: &[char], form: &Form, out: &mut Vec<u8>) -> Result<(), Memory>
    ensures ok { OnOk result (out.new.items ≡ out.old.items ++ about_text member chars.now form.now) }
    ensures err { OnErr result (out.new.items ≡ out.old.items) }
{
    let start = out.len();
    let done = about_parts(member, chars, form, out);
    put::take_back(out, start, done)
}

fn about_parts(member: Member, chars: &[char], form: &Form, out: &mut Vec<u8>) -> Result<(), Memory>
    ensures ok { OnOk result (out.new.items ≡ out.old.items ++ about_text member chars.now form.now) }
    ensures err { OnErr result (take (length out.old.items) out.new.items ≡ out.old.items) }
{
    put::text(out, b" ")?;
    put_member(member, out)?;
    put::text(out, b" ")?;
    put_form(chars, form, out)?;
    put::text(out, b"\n")
}

/// Appends the form of a member that inserts these characters: `ins PLACE U+HEX` of one character, with its number in at least
/// four digits, `run PLACE LEN` of more, with how many they are, or `cover PLACE`, which puts none. A refused call leaves `out`
/// as it was.
pub fn put_form(chars: &[char], form: &Form, out: &mut Vec<u8>) -> Result<(), Memory>
    ensures ok { OnOk result (out.new.items ≡ out.old.items ++ form_text chars.now form.now) }
    ensures err { OnErr result (out.new.items ≡ out.old.items) }
{
    match form {
        Form::Ins(ins) => put_insert(ins.place, chars, out),
        Form::Cover(cover) => put::number(out, b"cover ", u64::from(cover.place)),
    }
}

// `ins PLACE U+HEX` of one character, `run PLACE LEN` of others.
fn put_insert(place: u32, chars: &[char], out: &mut Vec<u8>) -> Result<(), Memory>
    ensures ok { OnOk result (out.new.items ≡ out.old.items ++ insert_text place chars.now) }
    ensures err { OnErr result (out.new.items ≡ out.old.items) }
{
    let start = out.len();
    let done = insert_parts(place, chars, out);
    put::take_back(out, start, done)
}

fn insert_parts(place: u32, chars: &[char], out: &mut Vec<u8>) -> Result<(), Memory>
    ensures ok { OnOk result (out.new.items ≡ out.old.items ++ insert_text place chars.now) }
    ensures err { OnErr result (take (length out.old.items) out.new.items ≡ out.old.items) }
{
    if let [ch] = chars {
        put::number(out, b"ins ", u64::from(place))?;
        return put_scalar(*ch, out);
    }
    put::number(out, b"run ", u64::from(place))?;
    put::number(out, b" ", chars.len() as u64)
}

// A blank and `U+HEX`. A refused call leaves `out` as it was.
fn put_scalar(ch: char, out: &mut Vec<u8>) -> Result<(), Memory>
    ensures ok { OnOk result (out.new.items ≡ out.old.items ++ (codes " " ++ scalar_text ch)) }
    ensures err { OnErr result (out.new.items ≡ out.old.items) }
{
    let start = out.len();
    let done = scalar_parts(ch, out);
    put::take_back(out, start, done)
}

fn scalar_parts(ch: char, out: &mut Vec<u8>) -> Result<(), Memory>
    ensures ok { OnOk result (out.new.items ≡ out.old.items ++ (codes " " ++ scalar_text ch)) }
    ensures err { OnErr result (take (length out.old.items) out.new.items ≡ out.old.items) }
{
    put::text(out, b" U+")?;
    let number = u32::from(ch);
    put_hex(number, hex_width(number), out)
}

// How many digits are written of a character's number: all, and four at least.
fn hex_width(number: u32) -> u32
    ensures { result ≡ hex_width number }
{
    if number < 0x1_0000 {
        4
    } else if number < 0x10_0000 {
        5
    } else {
        6
    }
}

// The last `count` digits of a number in base 16. A refused call leaves `out` as it was.
fn put_hex(number: u32, count: u32, out: &mut Vec<u8>) -> Result<(), Memory>
    ensures ok { OnOk result (out.new.items ≡ out.old.items ++ hex_digits count number) }
    ensures err { OnErr result (out.new.items ≡ out.old.items) }
{
    let start = out.len();
    let done = hex_parts(number, count, out);
    put::take_back(out, start, done)
}

fn hex_parts(number: u32, count: u32, out: &mut Vec<u8>) -> Result<(), Memory>
    ensures ok { OnOk result (out.new.items ≡ out.old.items ++ hex_digits count number) }
    ensures err { OnErr result (take (length out.old.items) out.new.items ≡ out.old.items) }
{
    if count == 0 {
        return Ok(());
    }
    hex_parts(number / 16, count - 1, out)?;
    put_digit(number % 16, out)
}

// The digit of a number below 16. A refused call leaves `out` as it was.
fn put_digit(number: u32, out: &mut Vec<u8>) -> Result<(), Memory>
    requires { number < 16 }
    ensures ok { OnOk result (out.new.items ≡ out.old.items ++ slice_index upper_digits number ∷ []) }
    ensures err { OnErr result (out.new.items ≡ out.old.items) }
{
    out.reserve(1)?;
    out.push_reserved(DIGITS[number as usize]);
    Ok(())
}
