//! The shown characters as text.

ghost use Rattle.std.specs.Prelude.{◌≡◌, ◌++◌, length, take, vec_len, encode_utf8, encode_utf8_all, OnOk, OnErr};
ghost use Rattle.visible_view.specs.View.{shown_text};
ghost use Rattle.visible_view.specs.Code.{flagged};

use op_name::Memory;
use tombstone_text::Cells;

/// Appends the characters of the shown cells in UTF-8, in one pass over the flags and characters of the chunks that
/// show any. When out of memory, `out` is as it was.
pub fn write_text(cells: &Cells, out: &mut Vec<u8>) -> Result<(), Memory>
    ensures ok { OnOk result (out.new.items ≡ out.old.items ++ shown_text cells.now.cells cells.now.text) }
    ensures err { OnErr result (out.new.items ≡ out.old.items) }
{
    let start = out.len();
    match push_shown(cells, out) {
        Ok(()) => Ok(()),
        Err(memory) => {
            out.truncate(start);
            Err(memory)
        }
    }
}

/// Appends the characters of the shown cells; when out of memory, those of some of them.
fn push_shown(cells: &Cells, out: &mut Vec<u8>) -> Result<(), Memory>
    ensures ok { OnOk result (out.new.items ≡ out.old.items ++ shown_text cells.now.cells cells.now.text) }
    ensures err { OnErr result (take (vec_len out.old) out.new.items ≡ out.old.items) }
{
    cells.known();
    for i in 0..cells.chunk_count() {
        if cells.chunk_shown(i) > 0 {
            push_flagged(cells.chunk_flags(i), cells.chunk_text(i), out)?;
        }
    }
    Ok(())
}

/// Appends the characters that stand beside a flag that is 1; when out of memory, some of these.
fn push_flagged(flags: &[u8], text: &[char], out: &mut Vec<u8>) -> Result<(), Memory>
    requires { length text.now ≡ length flags.now }
    ensures ok { OnOk result (out.new.items ≡ out.old.items ++ encode_utf8_all (flagged flags.now text.now)) }
    ensures err { OnErr result (take (vec_len out.old) out.new.items ≡ out.old.items) }
{
    for at in 0..flags.len() {
        if flags[at] == 1 {
            push_char(text[at], out)?;
        }
    }
    Ok(())
}

/// Appends the bytes of a character.
fn push_char(ch: char, out: &mut Vec<u8>) -> Result<(), Memory>
    ensures ok { OnOk result (out.new.items ≡ out.old.items ++ encode_utf8 ch) }
    ensures err { OnErr result (out.new.items ≡ out.old.items) }
{
    let mut bytes = [0; 4];
    out.extend_from_slice(ch.encode_utf8(&mut bytes).as_bytes())?;
    Ok(())
}
