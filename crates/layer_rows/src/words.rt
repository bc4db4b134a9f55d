//! The words of a line, read from the left.

ghost use Rattle.std.specs.Prelude.{IfSome};
ghost use Rattle.op_name.specs.Members.{IsMember};

use context_diff::{Letters, LettersBad};
use context_vector::Vector;
use op_name::{LETTERS, Member, Memory, Name};
use std::alloc::Global;
use ttf_form::{Cover, Form, Ins, Mark};

/// The words that are left of a line, one blank between any two.
#[derive(Drop)]
pub(crate) struct Words<'a> {
    rest: &'a str,
}

/// A name as `SITE.NUMBER`; None too where a part is out of range.
fn name_of(word: &str) -> Option<Name> {
    let (site, number) = parts_of(word)?;
    match Name::new(site, number) {
        Ok(name) => Some(name),
        Err(_) => None,
    }
}

/// The two numbers of `SITE.NUMBER`.
fn parts_of(word: &str) -> Option<(u16, u32)> {
    let (site, number) = word.split_once('.')?;
    match (site.parse::<u16>(), number.parse::<u32>()) {
        (Ok(site), Ok(number)) => Some((site, number)),
        _ => None,
    }
}

/// A name with a generation, as `SITE.NUMBER/GENERATION`.
fn turn_of(word: &str) -> Option<(Name, u16)> {
    let (name, generation) = word.split_once('/')?;
    match (name_of(name), generation.parse::<u16>()) {
        (Some(name), Ok(generation)) => Some((name, generation)),
        _ => None,
    }
}

/// A member: the name of an original, or a group as `SITE.NUMBER/GENERATION`.
fn member_of(word: &str) -> Option<Member>
    ensures { IfSome result IsMember }
{
    if let Some(name) = name_of(word) {
        return Some(Member::Original(name));
    }
    match turn_of(word) {
        Some((name, generation)) if 1 <= generation => Some(Member::Group(name, generation)),
        _ => None,
    }
}

/// Appends the characters of a text: those of the word, or of `COUNT*CHARACTER` so many of the one.
fn put_text(word: &str, text: &mut Vec<char>) -> Result<(), Memory> {
    if let Some((count, ch)) = repeat_of(word) {
        for _ in 0..count {
            text.push(ch)?;
        }
        return Ok(());
    }
    for ch in word.chars() {
        text.push(ch)?;
    }
    Ok(())
}

/// The number and the character of `COUNT*CHARACTER`.
fn repeat_of(word: &str) -> Option<(u32, char)> {
    let (count, ch) = word.split_once('*')?;
    match (count.parse::<u32>(), character_of(ch)) {
        (Ok(count), Some(ch)) => Some((count, ch)),
        _ => None,
    }
}

/// A word of one character.
fn character_of(word: &str) -> Option<char> {
    let mut all = word.chars();
    match (all.next(), all.next()) {
        (Some(ch), None) => Some(ch),
        _ => None,
    }
}

/// The insert of so many cells, of the name's site; None where there are none, or more than `LETTERS`.
pub(crate) fn ins_of(place: u32, len: u16, name: Name) -> Option<Ins> {
    if len < 1 || LETTERS < len {
        return None;
    }
    let site = name.site;
    Some(Ins {
        place,
        site,
        len,
        name,
    })
}

/// Adds each member of a list, with all below it. Answers whether the list could be read.
fn raise_all(set: &mut Vector, list: &str) -> Result<bool, Memory> {
    for word in list.split(',') {
        let Some(member) = member_of(word) else {
            return Ok(false);
        };
        set.raise(&member)?;
    }
    Ok(true)
}

impl<'a> Words<'a> {
    pub(crate) fn new(line: &'a str) -> Words<'a> {
        Words { rest: line }
    }

    /// Whether no word is left.
    pub(crate) fn is_done(&self) -> bool {
        self.rest.is_empty()
    }

    /// The next word, empty at the end.
    pub(crate) fn word(&mut self) -> &'a str {
        match self.rest.split_once(' ') {
            Some((word, rest)) => {
                self.rest = rest;
                word
            }
            None => {
                let word = self.rest;
                self.rest = "";
                word
            }
        }
    }

    pub(crate) fn number(&mut self) -> Option<u32> {
        match self.word().parse::<u32>() {
            Ok(number) => Some(number),
            Err(_) => None,
        }
    }

    /// A site, an author or a generation.
    pub(crate) fn short(&mut self) -> Option<u16> {
        match self.word().parse::<u16>() {
            Ok(number) => Some(number),
            Err(_) => None,
        }
    }

    /// A word of one character.
    pub(crate) fn character(&mut self) -> Option<char> {
        character_of(self.word())
    }

    /// A text of any length: its characters, or `COUNT*CHARACTER`.
    pub(crate) fn text(&mut self, alloc: Global) -> Result<Vec<char>, Memory> {
        let mut text = Vec::new(alloc);
        put_text(self.word(), &mut text)?;
        Ok(text)
    }

    /// The text of an insert, of 1 to `LETTERS` characters.
    pub(crate) fn letters(&mut self, alloc: Global) -> Result<Option<Letters>, Memory> {
        let text = self.text(alloc)?;
        match Letters::new(alloc, &text) {
            Ok(letters) => Ok(Some(letters)),
            Err(LettersBad::Memory) => Err(Memory),
            Err(_) => Ok(None),
        }
    }

    /// Two numbers that may be the parts of a name.
    pub(crate) fn parts(&mut self) -> Option<(u16, u32)> {
        parts_of(self.word())
    }

    pub(crate) fn name(&mut self) -> Option<Name> {
        name_of(self.word())
    }

    /// A cell: `NAME+OFFSET`, or `NAME`, the first one of its insert.
    pub(crate) fn cell(&mut self) -> Option<(Name, u16)> {
        let word = self.word();
        let (name, offset) = word.split_once('+').unwrap_or((word, "0"));
        match (name_of(name), offset.parse::<u16>()) {
            (Some(name), Ok(offset)) => Some((name, offset)),
            _ => None,
        }
    }

    /// A name with a generation.
    pub(crate) fn turn(&mut self) -> Option<(Name, u16)> {
        turn_of(self.word())
    }

    pub(crate) fn member(&mut self) -> Option<Member>
        ensures { IfSome result IsMember }
    {
        member_of(self.word())
    }

    /// A set: a list of members, each there with all below it, or `-`.
    pub(crate) fn set(&mut self, alloc: Global) -> Result<Option<Vector>, Memory> {
        let list = self.word();
        let mut set = Vector::new(alloc);
        if list == "-" || raise_all(&mut set, list)? {
            return Ok(Some(set));
        }
        Ok(None)
    }

    /// A mark: `own GENERATION`, or `by NAME/GENERATION`.
    pub(crate) fn mark(&mut self) -> Option<Mark> {
        match self.word() {
            "own" => {
                let generation = self.short()?;
                Some(Mark::Own { generation })
            }
            "by" => {
                let (name, generation) = turn_of(self.word())?;
                Some(Mark::By { name, generation })
            }
            _ => None,
        }
    }

    /// `PLACE NAME`, an insert of one cell.
    fn ins(&mut self) -> Option<Ins> {
        let place = self.number()?;
        let name = self.name()?;
        ins_of(place, 1, name)
    }

    /// `PLACE LENGTH NAME`, an insert of so many cells.
    fn run(&mut self) -> Option<Ins> {
        let place = self.number()?;
        let len = self.short()?;
        let name = self.name()?;
        ins_of(place, len, name)
    }

    /// `PLACE MARK`.
    pub(crate) fn cover(&mut self) -> Option<Cover> {
        let place = self.number()?;
        let mark = self.mark()?;
        Some(Cover { place, mark })
    }

    /// A form: `ins PLACE NAME`, `run PLACE LENGTH NAME` or `cover PLACE MARK`.
    pub(crate) fn form(&mut self) -> Option<Form> {
        match self.word() {
            "ins" => {
                let ins = self.ins()?;
                Some(Form::Ins(ins))
            }
            "run" => {
                let ins = self.run()?;
                Some(Form::Ins(ins))
            }
            "cover" => {
                let cover = self.cover()?;
                Some(Form::Cover(cover))
            }
            _ => None,
        }
    }
}
