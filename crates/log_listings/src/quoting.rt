//! Texts between quotes, each on one line.

ghost use Rattle.std.specs.Prelude.{◌≡◌, ◌<◌, ◌∷◌, [], ◌++◌, encode_utf8, OnOk};
ghost use Rattle.std.specs.List.{flat_map};
ghost use Rattle.log_listings.specs.Quotes.{digit_of, few_digits, escaped, quoted_character, quoted};

use op_name::Memory;
use site_answers::put;

/// The digits of base 16.
const DIGITS: &[u8; 16] = b"0123456789abcdef";

/// Appends a text between quotes.
pub(crate) fn put_quoted(chars: &[char], out: &mut Vec<u8>) -> Result<(), Memory>
    ensures { OnOk result (out.new.items ≡ out.old.items ++ quoted chars.now) }
{
    put::text(out, b"\"")?;
    put_characters(chars, out)?;
    put::text(out, b"\"")
}

// Appends characters as they stand between quotes.
fn put_characters(chars: &[char], out: &mut Vec<u8>) -> Result<(), Memory>
    ensures { OnOk result (out.new.items ≡ out.old.items ++ flat_map quoted_character chars.now) }
{
    for ch in chars {
        put_character(*ch, out)?;
    }
    Ok(())
}

// Appends a character as it stands between quotes.
#[tactic(auto, unfolding(crate::specs::Quotes::quoted_character))]
fn put_character(ch: char, out: &mut Vec<u8>) -> Result<(), Memory>
    ensures { OnOk result (out.new.items ≡ out.old.items ++ quoted_character ch) }
{
    match ch {
        '\n' => put::text(out, b"\\n"),
        '\t' => put::text(out, b"\\t"),
        '\r' => put::text(out, b"\\r"),
        '"' => put::text(out, b"\\\""),
        '\\' => put::text(out, b"\\\\"),
        '\0'..='\x1f' | '\x7f' => put_escaped(u32::from(ch), out),
        _ => put_itself(ch, out),
    }
}

// Appends the number of a control character.
fn put_escaped(number: u32, out: &mut Vec<u8>) -> Result<(), Memory>
    requires { number < 256 }
    ensures { OnOk result (out.new.items ≡ out.old.items ++ escaped number) }
{
    put::text(out, b"\\u{")?;
    put_digits(number, out)?;
    put::text(out, b"}")
}

// Appends a number in base 16, by as few digits as do.
fn put_digits(number: u32, out: &mut Vec<u8>) -> Result<(), Memory>
    requires { number < 256 }
    ensures { OnOk result (out.new.items ≡ out.old.items ++ few_digits number) }
{
    if number < 16 {
        put_digit(number, out)
    } else {
        put_digit(number / 16, out)?;
        put_digit(number % 16, out)
    }
}

// Appends the digit of a number.
fn put_digit(number: u32, out: &mut Vec<u8>) -> Result<(), Memory>
    requires { number < 16 }
    ensures { OnOk result (out.new.items ≡ out.old.items ++ digit_of number ∷ []) }
{
    out.push(DIGITS[number as usize])?;
    Ok(())
}

// Appends the bytes of a character.
fn put_itself(ch: char, out: &mut Vec<u8>) -> Result<(), Memory>
    ensures { OnOk result (out.new.items ≡ out.old.items ++ encode_utf8 ch) }
{
    let mut bytes = [0; 4];
    out.extend_from_slice(ch.encode_utf8(&mut bytes).as_bytes())?;
    Ok(())
}
