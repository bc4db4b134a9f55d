//! Forms that were found while operations were executed.

ghost use Rattle.std.specs.Prelude.{◌≡◌, ◌∷◌, ◌<◌, ◌≤◌, ◌-◌, ◌↔◌, [], Some, Contains, IfOk, IsTrue, length, take, slice_get};
ghost use Rattle.context_vector.specs.Contexts.{has};
ghost use Rattle.context_vector.specs.Equality.{context_eq};
ghost use Rattle.context_diff.specs.Histories.{members_in};
ghost use Rattle.form_cache.specs.Entries.{form_at, used};
ghost use Rattle.form_cache.specs.Keys.{key_eq};
ghost use Rattle.cot_site.specs.Code.Notes.{set_at, teller, entry_of, entries_of, first_of, knew, note_of, AgreeAt, AreTold};
ghost use Rattle.cot_site.specs.declared.notes.Note.{Note};

use context_diff::Book;
use context_vector::Vector;
use form_cache::Key;
use op_name::{Member, Memory, Name};
use std::alloc::Global;
use std::collections::VecDeque;
use std::marker::Model;
use ttf_form::{Cover, Form};

/// The greatest number of forms that a site notes.
pub const CACHED_FORMS: u32 = 64;

/// A set of members that the book tells, so that it costs nothing to name it.
#[derive(Clone, Copy, Debug)]
pub enum At {
    /// The members before the operation at this place of the book.
    Before(u32),
    /// The context of the operation at this place of the book, with the operation itself.
    With(u32),
}

/// The form of an original at a set of members.
#[derive(Clone, Copy, Debug)]
pub struct Note {
    pub name: Name,
    pub at: At,
    pub form: Form,
}

/// At most `CACHED_FORMS` notes. The next to be dropped is the last one.
#[derive(Drop)]
pub struct Notes {
    list: VecDeque<Note>,
}

impl Model for Notes {
    ghost use Rattle.std.specs.Prelude.{List, ◌≤◌};
    ghost use Rattle.std.specs.VecDeque.{deque_len, deque_capacity};
    ghost use Rattle.cot_site.specs.declared.notes.Note.{Note};
    ghost use Rattle.cot_site.specs.declared.notes.TheConstants.{CACHED_FORMS};

    ghost Value = { List Note };

    ghost view = { λ n. n.list.items };

    ghost invariant = { λ n. (deque_len n.list ≤ CACHED_FORMS) × (CACHED_FORMS ≤ deque_capacity n.list) };
}

impl Notes {
    /// No notes, and room for all that may come.
    pub fn new(alloc: Global) -> Result<Notes, Memory>
        ensures { IfOk result (λ n. n ≡ []) }
    {
        let list = VecDeque::with_capacity(alloc, CACHED_FORMS as usize)?;
        Ok(Notes { list })
    }

    /// Nothing but what the type keeps.
    pub fn known(&self)
        ensures { length self.now ≤ CACHED_FORMS }
    {
        let _ = &self.list;
    }

    /// Notes the form of the original at the set, first of all. Where there are `CACHED_FORMS` notes, the last one is dropped.
    pub fn keep(&mut self, name: &Name, at: At, form: &Form)
        ensures { self.new ≡ note_of name.now at form.now ∷ take (CACHED_FORMS - 1) self.old }
    {
        self.list.truncate(CACHED_FORMS as usize - 1);
        let form = match form {
            Form::Ins(ins) => Form::Ins(*ins),
            Form::Cover(cover) => Form::Cover(Cover {
                place: cover.place,
                mark: cover.mark,
            }),
        };
        self.list.push_front_reserved(Note {
            name: *name,
            at,
            form,
        });
    }

    /// Drops all notes.
    pub fn clear(&mut self)
        ensures { self.new ≡ [] }
    {
        self.list.clear();
    }

    /// The form of the first note that is of the key's member at the key's context; the note is put first. None exactly where
    /// there is none. It looks through the book once for each note of the member.
    pub fn get(&mut self, book: &Book, key: &Key) -> Option<Form>
        requires { AreTold book.now.ops self.old }
        ensures form { result ≡ form_at (entries_of book.now.ops self.old) key.now }
        ensures entries { entries_of book.now.ops self.new ≡ used (entries_of book.now.ops self.old) key.now }
        ensures among { (n : Note) → Contains self.new n → Contains self.old n }
    {
        let at = self.place_of(book, key)?;
        match self.list.remove(at) {
            Some(note) => {
                let form = note.form;
                self.list.push_front_reserved(note);
                Some(form)
            }
            None => unreachable!(),
        }
    }

    // The place of the first note of the key.
    fn place_of(&self, book: &Book, key: &Key) -> Option<usize>
        requires { AreTold book.now.ops self.now }
        ensures { result ≡ first_of book.now.ops key.now 0 self.now }
    {
        for at in 0..self.list.len() {
            if is_of(book, &self.list[at], key) {
                return Some(at);
            }
        }
        None
    }
}

// Whether the note is of the key's member at the key's context.
fn is_of(book: &Book, note: &Note, key: &Key) -> bool
    requires { teller note.now.at < length book.now.ops }
    ensures { result ≡ key_eq key.now (entry_of book.now.ops note.now).0 }
{
    key.member == Member::Original(note.name) && is_set(book, note.at, &key.context)
}

// Whether the members are those of the set.
fn is_set(book: &Book, at: At, members: &Vector) -> bool
    requires { teller at < length book.now.ops }
    ensures { result ≡ context_eq members.now.set (set_at book.now.ops at) }
{
    book.known();
    members.known();
    if !book.have().covers(members) {
        return false;
    }
    for place in 0..book.len() {
        if !agree_at(book, at, members, place) {
            return false;
        }
    }
    true
}

// Whether the members and the set both have the member at this place of the book, or neither has.
fn agree_at(book: &Book, at: At, members: &Vector, place: u32) -> bool
    requires told { teller at < length book.now.ops }
    requires place { place < length book.now.ops }
    ensures { IsTrue result ↔ AgreeAt book.now.ops members.now.set (set_at book.now.ops at) place }
{
    match book.member(place) {
        Some(member) => members.contains(&member) == has_at(book, at, place, &member),
        None => unreachable!(),
    }
}

// Whether the set has the member at this place of the book.
fn has_at(book: &Book, at: At, place: u32, member: &Member) -> bool
    requires told { teller at < length book.now.ops }
    requires there { slice_get (members_in book.now.ops) place ≡ Some member.now }
    ensures { result ≡ has (set_at book.now.ops at) member.now }
{
    book.known();
    match at {
        At::Before(end) => place < end,
        At::With(own) => place == own || knew(book, own, member),
    }
}

// Whether the context of the operation at this place of the book has the member.
fn knew(book: &Book, place: u32, member: &Member) -> bool
    ensures { result ≡ knew (slice_get book.now.ops place) member.now }
{
    match book.op(place) {
        Some(op) => op.context().contains(member),
        None => false,
    }
}
