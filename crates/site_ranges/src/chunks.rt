//! The characters of a range of the shown cells, chunk by chunk.

ghost use Rattle.std.specs.Prelude.{◌≡◌, ◌+◌, ◌<◌, ◌≤◌, ◌++◌, filter, length, take, encode_utf8, encode_utf8_all, OnOk, OnErr};
ghost use Rattle.ttf_form.specs.Cells.{cell_shown, chars_where};
ghost use Rattle.visible_view.specs.Code.{flagged};
ghost use Rattle.site_ranges.specs.Ranges.{range_of};
ghost use Rattle.site_ranges.specs.Code.Chunks.{shown_at, shown_from};

use op_name::Memory;
use tombstone_text::Cells;

/// Appends in UTF-8 the characters of so many shown cells, from the shown cell `place` on. The first one's chunk is found by the kept
/// numbers of shown cells; of the others only those up to the end of the range are looked at. When out of memory, `out` is as it was.
pub(crate) fn write_shown(
    cells: &Cells,
    place: u32,
    count: u32,
    out: &mut Vec<u8>,
) -> Result<(), Memory>
    requires { place + count ≤ length (filter cell_shown cells.now.cells) }
    ensures ok { OnOk result (out.new.items ≡ out.old.items
        ++ encode_utf8_all (range_of place count (chars_where cell_shown cells.now.cells cells.now.text))) }
    ensures needed { OnErr result (1 ≤ count) }
    ensures err { OnErr result (out.new.items ≡ out.old.items) }
{
    if count == 0 {
        return Ok(());
    }
    cells.known();
    let start = out.len();
    let (first, before) = cells.shown_chunk(place);
    match push_from(cells, first, before, count, out) {
        Ok(()) => Ok(()),
        Err(memory) => {
            out.truncate(start);
            Err(memory)
        }
    }
}

// Appends the characters of so many shown cells of the chunks from the first one on, after so many others; when out of memory, those
// of some of them.
fn push_from(
    cells: &Cells,
    first: u32,
    skipped: u32,
    count: u32,
    out: &mut Vec<u8>,
) -> Result<(), Memory>
    ensures ok { OnOk result (out.new.items ≡ out.old.items
        ++ encode_utf8_all (range_of skipped count (shown_from cells.now first))) }
    ensures err { OnErr result (take (length out.old.items) out.new.items ≡ out.old.items) }
{
    cells.known();
    let mut before = skipped;
    let mut left = count;
    for i in first..cells.chunk_count() {
        if left == 0 {
            return Ok(());
        }
        push_chunk(cells, i, before, left, out)?;
        let shown = cells.chunk_shown(i);
        left = left.saturating_sub(shown.saturating_sub(before));
        before = before.saturating_sub(shown);
    }
    Ok(())
}

// Appends the characters of so many shown cells of a chunk, after so many others, as far as it has them; when out of memory, those of
// some of them.
fn push_chunk(
    cells: &Cells,
    i: u32,
    skipped: u32,
    count: u32,
    out: &mut Vec<u8>,
) -> Result<(), Memory>
    requires { i < length cells.now.chunks }
    ensures ok { OnOk result (out.new.items ≡ out.old.items
        ++ encode_utf8_all (range_of skipped count (shown_at cells.now i))) }
    ensures err { OnErr result (take (length out.old.items) out.new.items ≡ out.old.items) }
{
    cells.known();
    if cells.chunk_shown(i) <= skipped {
        return Ok(());
    }
    push_flagged(
        cells.chunk_flags(i),
        cells.chunk_text(i),
        skipped,
        count,
        out,
    )
}

// Appends so many of the characters that stand beside a flag that is 1, after so many others; when out of memory, some of these.
fn push_flagged(
    flags: &[u8],
    text: &[char],
    skipped: u32,
    count: u32,
    out: &mut Vec<u8>,
) -> Result<(), Memory>
    requires { length text.now ≡ length flags.now }
    ensures ok { OnOk result (out.new.items ≡ out.old.items
        ++ encode_utf8_all (range_of skipped count (flagged flags.now text.now))) }
    ensures err { OnErr result (take (length out.old.items) out.new.items ≡ out.old.items) }
{
    let mut before = skipped;
    let mut left = count;
    for at in 0..flags.len() {
        if left == 0 {
            return Ok(());
        }
        if flags[at] == 1 {
            if before > 0 {
                before -= 1;
            } else {
                push_char(text[at], out)?;
                left -= 1;
            }
        }
    }
    Ok(())
}

// Appends the bytes of a character.
fn push_char(ch: char, out: &mut Vec<u8>) -> Result<(), Memory>
    ensures ok { OnOk result (out.new.items ≡ out.old.items ++ encode_utf8 ch) }
    ensures err { OnErr result (out.new.items ≡ out.old.items) }
{
    let mut bytes = [0; 4];
    out.extend_from_slice(ch.encode_utf8(&mut bytes).as_bytes())?;
    Ok(())
}
