//! The shown characters of one chunk: those that stand beside a flag that is 1.

ghost use Rattle.std.specs.Prelude.{◌≡◌, ◌<◌, ◌≤◌, length, take, MatchOption};
ghost use Rattle.tombstone_text.specs.Measures.{weight, weight_of};
ghost use Rattle.visible_view.specs.Code.{flagged};
ghost use Rattle.text_positions.specs.Offsets.{HasNoPlace, IsFirstPlace};

use tombstone_text::Measure;

/// What the first shown characters of a chunk weigh, so many of them, or all where there are fewer.
pub(crate) fn weigh_first(flags: &[u8], text: &[char], measure: Measure, count: u32) -> u64
    requires beside { length text.now ≡ length flags.now }
    requires short { length flags.now ≤ 1024 }
    ensures { result ≡ weight_of measure (take count (flagged flags.now text.now)) }
{
    let mut left = count;
    let mut total = 0;
    for at in 0..flags.len() {
        if flags[at] == 1 {
            if left > 0 {
                total += weigh(text[at], measure);
                left -= 1;
            }
        }
    }
    total
}

/// After how many shown characters of a chunk the place with this offset is: the first such place. None exactly where there is none.
pub(crate) fn find(flags: &[u8], text: &[char], measure: Measure, offset: u64) -> Option<u32>
    requires beside { length text.now ≡ length flags.now }
    requires short { length flags.now ≤ 1024 }
    ensures { let cs = flagged flags.now text.now in
        MatchOption result (HasNoPlace measure cs offset) (IsFirstPlace measure cs offset) }
{
    let mut count = 0;
    let mut total = 0;
    for at in 0..flags.len() {
        if flags[at] == 1 {
            if total < offset {
                total += weigh(text[at], measure);
                count += 1;
            }
        }
    }
    if total == offset { Some(count) } else { None }
}

// What a character weighs.
fn weigh(character: char, measure: Measure) -> u64
    ensures { result ≡ weight measure character }
{
    match measure {
        Measure::Bytes => character.len_utf8() as u64,
        Measure::Units => {
            if u32::from(character) < 0x1_0000 {
                1
            } else {
                2
            }
        }
        Measure::Lines => u64::from(character == '\n'),
    }
}
