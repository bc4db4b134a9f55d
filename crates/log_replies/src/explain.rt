//! The command `explain`.

ghost use Rattle.std.specs.Prelude.{◌≡◌, ◌++◌, IfOk, OnOk};
ghost use Rattle.cot_site.specs.Sites.{state_of};
ghost use Rattle.log_replies.specs.Answers.{IsAppended};
ghost use Rattle.log_replies.specs.Explaining.{IsExplained, IsExplainedIn, about, letters_by, line_text, lines_text, unknown_text};

use crate::replying::Replies;
use context_diff::Book;
use cot_site::Site;
use fixed_replay::letters_of;
use op_name::{Member, Memory};
use script_text::{base_line, step_line};
use site_answers::put_member;
use std::alloc::Global;
use trace_explain::{TraceLine, ends_in_executed_form, trace};

/// Loads a log as site 0, and writes the steps that derive the form in which this member was executed there.
#[derive(Drop)]
pub struct Explaining {
    pub member: Member,
}

impl Replies for Explaining {
    ghost replies = { λ e. IsExplained e.member };

    ghost number = { λ _. 0 };

    ghost replies_to = { λ e. IsExplainedIn e.member };

    ghost in_range = { λ _. Unit {0} };

    fn site(&self) -> u16 {
        0
    }

    fn reply(&self, alloc: Global, site: &mut Site, out: &mut Vec<u8>) -> Result<bool, Memory> {
        explain_member(alloc, site, &self.member, out)
    }

    ghost by_log = { λ _ bytes reply it. it };
}

// Appends the steps of the member, or the line that it isn't integrated. Answers whether it isn't.
fn explain_member(
    alloc: Global,
    site: &Site,
    member: &Member,
    out: &mut Vec<u8>,
) -> Result<bool, Memory>
    ensures { IfOk result (λ refused. IsAppended (IsExplainedIn member.now) refused (state_of site.now) out.old.items out.new.items) }
{
    let book = site.book();
    book.known();
    ends_in_executed_form();
    let mut lines = Vec::new(alloc);
    if trace(alloc, book, member, &mut lines)? {
        put_lines(book, &lines, out)?;
        Ok(false)
    } else {
        refuse_unknown(*member, out)?;
        Ok(true)
    }
}

// Appends the lines of a trace in the book, numbered from 1.
fn put_lines(book: &Book, lines: &[TraceLine], out: &mut Vec<u8>) -> Result<(), Memory>
    ensures { OnOk result (out.new.items ≡ out.old.items ++ lines_text book.now.ops 1 lines.now) }
{
    let mut number = 0;
    for line in lines {
        number += 1;
        put_line(book, number, line, out)?;
    }
    Ok(())
}

// Appends a line of a trace in the book, which has this number.
fn put_line(book: &Book, number: u64, line: &TraceLine, out: &mut Vec<u8>) -> Result<(), Memory>
    ensures { OnOk result (out.new.items ≡ out.old.items ++ line_text (letters_by book.now.ops (about line.now)) number line.now) }
{
    match line {
        TraceLine::Base { member, form } => {
            let letters = letters_by(book, member);
            base_line(number, *member, letters, form, out)
        }
        TraceLine::Step {
            left,
            over,
            member,
            form,
        } => {
            let letters = letters_by(book, member);
            step_line(number, *left, *over, *member, letters, form, out)
        }
    }
}

// The characters that a member of the book brings: that of an insert, none of a delete or a group.
fn letters_by<'a>(book: &'a Book, member: &Member) -> &'a [char]
    ensures { result.now ≡ letters_by book.now.ops member.now }
{
    book.known();
    match member {
        Member::Original(name) => match book.original(name) {
            Some(op) => letters_of(op),
            None => &[],
        },
        Member::Group(_, _) => &[],
    }
}

// Appends the line that a member isn't integrated.
fn refuse_unknown(member: Member, out: &mut Vec<u8>) -> Result<(), Memory>
    ensures { OnOk result (out.new.items ≡ out.old.items ++ unknown_text member) }
{
    out.extend_from_slice(b"refused unknown ")?;
    put_member(member, out)?;
    out.extend_from_slice(b"\n")?;
    Ok(())
}
