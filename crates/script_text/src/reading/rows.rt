//! Rows of the table of lines: a word, and the fields that follow it.

ghost use Rattle.std.specs.Prelude.{◌≡◌, Some, None, MatchOption, chars, ℕ};
ghost use Rattle.script_text.specs.Fields.{pair_by, site_of, number_of, text_of, name_of, octets_of};
ghost use Rattle.script_text.specs.Rows.{sites_row, ins_row, run_row, nl_row, del_row, undo_row, redo_row, give_row, all_row, raw_row, raw2_row, show_row, state_row, plain_table, table, row_in};
ghost use Rattle.script_text.specs.Answers.{FormAnswers, LineAnswers};

use crate::reading::chars::Chars;
use crate::reading::field::{characters, count, cut_at_blank, name, number, site};
use crate::reading::line::{Line, LineBad};
use crate::reading::octets::Octets;
use op_name::Name;
use std::alloc::Global;

/// The line that a word and the fields after it spell.
pub(crate) fn row(alloc: Global, word: &str, fields: &str) -> Result<Line, LineBad>
    ensures { LineAnswers result (row_in table word.now fields.now) }
{
    match word {
        "ins" => ins_line(alloc, fields),
        "run" => run_line(alloc, fields),
        "raw" => raw_line(alloc, fields),
        "raw2" => raw2_line(alloc, fields),
        _ => match plain_row(word, fields) {
            Some(line) => Ok(line),
            None => Err(LineBad::Form),
        },
    }
}

// A line that has no text and no bytes, so that nothing of it is kept.
fn plain_row(word: &str, fields: &str) -> Option<Line>
    ensures { result ≡ row_in plain_table word.now fields.now }
{
    match word {
        "sites" => sites_line(fields),
        "nl" => nl_line(fields),
        "del" => del_line(fields),
        "undo" => undo_line(fields),
        "redo" => redo_line(fields),
        "give" => give_line(fields),
        "all" => all_line(fields),
        "show" => show_line(fields),
        "state" => state_line(fields),
        _ => None,
    }
}

#[tactic(auto, unfolding(crate::specs::Rows::ins_row))]
fn ins_line(alloc: Global, fields: &str) -> Result<Line, LineBad>
    ensures { LineAnswers result (ins_row fields.now) }
{
    let Some((site, place, text)) = site_place_and_text(fields) else {
        return Err(LineBad::Form);
    };
    let Ok(text) = Chars::of_text(alloc, text) else {
        return Err(LineBad::Memory);
    };
    Ok(Line::Ins { site, place, text })
}

#[tactic(auto, unfolding(crate::specs::Rows::run_row))]
fn run_line(alloc: Global, fields: &str) -> Result<Line, LineBad>
    ensures { LineAnswers result (run_row fields.now) }
{
    let Some((site, place, text)) = site_place_and_text(fields) else {
        return Err(LineBad::Form);
    };
    let Ok(text) = Chars::of_text(alloc, text) else {
        return Err(LineBad::Memory);
    };
    Ok(Line::Run { site, place, text })
}

#[tactic(auto, unfolding(crate::specs::Rows::raw_row))]
fn raw_line(alloc: Global, fields: &str) -> Result<Line, LineBad>
    ensures { LineAnswers result (raw_row fields.now) }
{
    match site_and_octets(alloc, fields) {
        Ok((site, bytes)) => Ok(Line::Raw { site, bytes }),
        Err(why) => Err(why),
    }
}

#[tactic(auto, unfolding(crate::specs::Rows::raw2_row))]
fn raw2_line(alloc: Global, fields: &str) -> Result<Line, LineBad>
    ensures { LineAnswers result (raw2_row fields.now) }
{
    match site_and_octets(alloc, fields) {
        Ok((site, bytes)) => Ok(Line::Raw2 { site, bytes }),
        Err(why) => Err(why),
    }
}

#[tactic(auto, unfolding(crate::specs::Rows::sites_row))]
fn sites_line(fields: &str) -> Option<Line>
    ensures { result ≡ sites_row fields.now }
{
    let count = count(fields)?;
    Some(Line::Sites { count })
}

#[tactic(auto, unfolding(crate::specs::Rows::nl_row))]
fn nl_line(fields: &str) -> Option<Line>
    ensures { result ≡ nl_row fields.now }
{
    let (site, place) = site_and_number(fields)?;
    Some(Line::Nl { site, place })
}

#[tactic(auto, unfolding(crate::specs::Rows::del_row))]
fn del_line(fields: &str) -> Option<Line>
    ensures { result ≡ del_row fields.now }
{
    let (site, place) = site_and_number(fields)?;
    Some(Line::Del { site, place })
}

#[tactic(auto, unfolding(crate::specs::Rows::undo_row))]
fn undo_line(fields: &str) -> Option<Line>
    ensures { result ≡ undo_row fields.now }
{
    let (site, name) = site_and_name(fields)?;
    Some(Line::Undo { site, name })
}

#[tactic(auto, unfolding(crate::specs::Rows::redo_row))]
fn redo_line(fields: &str) -> Option<Line>
    ensures { result ≡ redo_row fields.now }
{
    let (site, name) = site_and_name(fields)?;
    Some(Line::Redo { site, name })
}

#[tactic(auto, unfolding(crate::specs::Rows::give_row))]
fn give_line(fields: &str) -> Option<Line>
    ensures { result ≡ give_row fields.now }
{
    let (site, message) = site_and_number(fields)?;
    Some(Line::Give { site, message })
}

#[tactic(auto, unfolding(crate::specs::Rows::all_row))]
fn all_line(fields: &str) -> Option<Line>
    ensures { result ≡ all_row fields.now }
{
    let site = site(fields)?;
    Some(Line::All { site })
}

#[tactic(auto, unfolding(crate::specs::Rows::show_row))]
fn show_line(fields: &str) -> Option<Line>
    ensures { result ≡ show_row fields.now }
{
    let site = site(fields)?;
    Some(Line::Show { site })
}

#[tactic(auto, unfolding(crate::specs::Rows::state_row))]
fn state_line(fields: &str) -> Option<Line>
    ensures { result ≡ state_row fields.now }
{
    let site = site(fields)?;
    Some(Line::State { site })
}

fn site_and_number(fields: &str) -> Option<(u16, u32)>
    ensures { result ≡ pair_by 32 site_of number_of fields.now }
{
    let (first, second) = cut_at_blank(fields)?;
    Some((site(first)?, number(second)?))
}

fn site_and_name(fields: &str) -> Option<(u16, Name)>
    ensures { result ≡ pair_by 32 site_of name_of fields.now }
{
    let (first, second) = cut_at_blank(fields)?;
    Some((site(first)?, name(second)?))
}

fn site_and_octets(alloc: Global, fields: &str) -> Result<(u16, Octets), LineBad>
    ensures { FormAnswers result (pair_by 32 site_of octets_of fields.now) }
{
    let Some((site, hex)) = site_and_rest(fields) else {
        return Err(LineBad::Form);
    };
    match Octets::of_hex(alloc, hex) {
        Ok(bytes) => Ok((site, bytes)),
        Err(why) => Err(why),
    }
}

fn site_and_rest(fields: &str) -> Option<(u16, &str)>
    ensures { MatchOption result (pair_by 32 site_of Some fields.now ≡ None)
        (λ p. pair_by 32 site_of Some fields.now ≡ Some (p.0, p.1.now)) }
{
    let (first, second) = cut_at_blank(fields)?;
    Some((site(first)?, second))
}

fn place_and_text(fields: &str) -> Option<(u32, &str)>
    ensures { MatchOption result (pair_by 32 number_of text_of fields.now ≡ None)
        (λ p. pair_by 32 number_of text_of fields.now ≡ Some (p.0, chars p.1.now)) }
{
    let (place, text) = cut_at_blank(fields)?;
    Some((number(place)?, characters(text)?))
}

fn site_place_and_text(fields: &str) -> Option<(u16, u32, &str)>
    ensures { MatchOption result (pair_by 32 site_of (pair_by 32 number_of text_of) fields.now ≡ None)
        (λ p. pair_by 32 site_of (pair_by 32 number_of text_of) fields.now ≡ Some (p.0, (p.1, chars p.2.now))) }
{
    let (first, second) = cut_at_blank(fields)?;
    let site = site(first)?;
    let (place, text) = place_and_text(second)?;
    Some((site, place, text))
}
