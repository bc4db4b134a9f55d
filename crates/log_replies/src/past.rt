//! The command `at`.

ghost use Rattle.std.specs.Prelude.{◌≡◌, ◌≢◌, ◌++◌, IfOk, OnOk};
ghost use Rattle.cot_site.specs.Sites.{state_of};
ghost use Rattle.past_view.specs.declared.past.AtBad.TheVariants as bad;
ghost use Rattle.script_text.specs.Sets.{set_or_empty};
ghost use Rattle.log_replies.specs.Answers.{IsAppended};
ghost use Rattle.log_replies.specs.PastTexts.{IsShownAt, IsShownAtIn, at_bad_words, refused_at_text};

use crate::addressing::fits_numbers;
use crate::replying::Replies;
use context_vector::Vector;
use cot_site::Site;
use lane_rank::utf8_len;
use op_name::Memory;
use past_view::{AtBad, text_at};
use script_text::{read_set, shown_lines};
use site_answers::{put, put_member, put_name};
use std::alloc::Global;

/// Loads a log as site 0, and writes the lines of the text at the set of members that the two lists spell.
#[derive(Drop)]
pub struct ShowingPast<'a> {
    pub counts: &'a str,
    pub groups: &'a str,
}

impl<'a> Replies for ShowingPast<'a> {
    ghost replies = { λ l. IsShownAt (set_or_empty l.counts.now l.groups.now) };

    ghost number = { λ _. 0 };

    ghost replies_to = { λ l. IsShownAtIn (set_or_empty l.counts.now l.groups.now) };

    ghost in_range = { λ _. Unit {0} };

    fn site(&self) -> u16 {
        0
    }

    fn reply(&self, alloc: Global, site: &mut Site, out: &mut Vec<u8>) -> Result<bool, Memory> {
        show_spelled(alloc, site, self.counts, self.groups, out)
    }

    ghost by_log = { λ _ bytes reply it. it };
}

// Appends the lines of the text at the set that the two lists spell, or why it has none. Answers whether it has none.
fn show_spelled(
    alloc: Global,
    site: &Site,
    counts: &str,
    groups: &str,
    out: &mut Vec<u8>,
) -> Result<bool, Memory>
    ensures { IfOk result (λ refused.
        IsAppended (IsShownAtIn (set_or_empty counts.now groups.now)) refused (state_of site.now) out.old.items out.new.items) }
{
    let at = read_set(alloc, counts, groups)?;
    show_past(alloc, site, &at, out)
}

// The same of a set.
fn show_past(alloc: Global, site: &Site, at: &Vector, out: &mut Vec<u8>) -> Result<bool, Memory>
    ensures { IfOk result (λ refused. IsAppended (IsShownAtIn at.now.set) refused (state_of site.now) out.old.items out.new.items) }
{
    let mut text = Vec::new(alloc);
    match text_at(site, at, &mut text) {
        Ok(()) => {
            let text = text.as_slice();
            fits_numbers(text)?;
            shown_lines(utf8_len(text), text, out)?;
            Ok(false)
        }
        Err(why) => {
            refuse_past(why, out)?;
            Ok(true)
        }
    }
}

// Appends the line of a set that has no text; a lack of memory has none.
fn refuse_past(why: AtBad, out: &mut Vec<u8>) -> Result<(), Memory>
    ensures line { OnOk result (out.new.items ≡ out.old.items ++ refused_at_text why) }
    ensures known { OnOk result (why ≢ bad.Memory) }
{
    put::text(out, b"refused at ")?;
    put_words(why, out)?;
    put::text(out, b"\n")
}

// Appends why a set has no text.
fn put_words(why: AtBad, out: &mut Vec<u8>) -> Result<(), Memory>
    ensures words { OnOk result (out.new.items ≡ out.old.items ++ at_bad_words why) }
    ensures known { OnOk result (why ≢ bad.Memory) }
{
    match why {
        AtBad::Unknown { member } => {
            put::text(out, b"unknown ")?;
            put_member(member, out)
        }
        AtBad::Stray { name } => {
            put::text(out, b"stray ")?;
            put_name(name, out)
        }
        AtBad::NotClosed { site } => put::number(out, b"notclosed ", u64::from(site)),
        AtBad::Memory => Err(Memory),
    }
}
