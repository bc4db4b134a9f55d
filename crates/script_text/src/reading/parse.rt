//! Reading a line.

ghost use Rattle.std.specs.Prelude.{◌≡◌, ◌≢◌, ℕ, List, ◌<◌, ◌≤◌, ◌↔◌, length, Some, Err, IfOk};
ghost use Rattle.std.specs.Str.{IsUtf8};
ghost use Rattle.script_text.specs.Fields.{IsText};
ghost use Rattle.script_text.specs.Lines.{IsLine, IsInRange, HasContent, spelling};
ghost use Rattle.script_text.specs.Answers.{Answers, LineAnswers, IsReadAs, line_in};

use crate::reading::field::cut_at_blank;
use crate::reading::line::{Line, LineBad};
use crate::reading::rows::row;
use std::alloc::Global;

/// The greatest number of bytes of a line, its line feed not counted.
pub const LONGEST: usize = 262_144;

/// Reads one line, without its line feed.
///
/// A line is spelled in one way: its word, then its fields, with exactly one blank before each; a number is `0`
/// or decimal digits that don't start with 0; a text is all that is left of the line. Only the hexadecimal digits
/// of `raw` and `raw2`, which are of either case, and lines that do nothing have several spellings.
pub fn parse_line(alloc: Global, bytes: &[u8]) -> Result<Line, LineBad>
    ensures exact { Answers bytes.now result }

    // Both ways: what is read is spelled so, and what is spelled so is read.
    ensures found { IfOk result (λ line. IsText bytes.now × IsLine bytes.now line) }
    ensures only { (line : Line) → IsText bytes.now → IsLine bytes.now line → IsReadAs result line }

    // How long an input is plays no part here.
    ensures limit { result ≢ Err LineBad.Limit }

    ensures long { (result ≡ Err LineBad.Long) ↔ (LONGEST < length bytes.now) }
    ensures utf8 { (result ≡ Err LineBad.Utf8) ↔ ((length bytes.now ≤ LONGEST) × (IsUtf8 bytes.now → ⊥)) }
    // Out of memory only where there is a text or bytes to keep.
    ensures memory { result ≡ Err LineBad.Memory → (line : Line) × IsText bytes.now × IsLine bytes.now line × HasContent line }

    ensures form { result ≡ Err LineBad.Form → IsText bytes.now × ((line : Line) → IsLine bytes.now line → ⊥) }
{
    if bytes.len() > LONGEST {
        return Err(LineBad::Long);
    }
    let Ok(text) = str::from_utf8(bytes) else {
        return Err(LineBad::Utf8);
    };
    text_line(alloc, text)
}

#[tactic(auto, unfolding(crate::specs::Answers::line_in))]
fn text_line(alloc: Global, text: &str) -> Result<Line, LineBad>
    ensures { LineAnswers result (line_in text.now) }
{
    if text.is_empty() || text.starts_with('#') {
        return Ok(Line::Blank);
    }
    if text == "sync" {
        return Ok(Line::Sync);
    }
    match cut_at_blank(text) {
        Some((word, fields)) => row(alloc, word, fields),
        None => Err(LineBad::Form),
    }
}

/// A law: a line is found in bytes exactly if they spell it; each line in range has a spelling, which is UTF-8, and no
/// bytes spell two lines.
pub fn each_line_has_a_spelling()
    ensures found { (bytes : List ℕ) (line : Line) → (line_in bytes ≡ Some line) ↔ IsLine bytes line }
    ensures spelled { (line : Line) → IsInRange line → IsLine (spelling line) line }
    ensures utf8 { (line : Line) → IsInRange line → IsUtf8 (spelling line) }
    ensures one { (bytes : List ℕ) (l m : Line) → IsLine bytes l → IsLine bytes m → l ≡ m }
{}
