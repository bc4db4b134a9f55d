//! The text of an insert.

ghost use Rattle.std.specs.Prelude.{◌≡◌, ◌∷◌, [], length, IfErr, IfOk, IsTrue};
ghost use Rattle.std.specs.Char.{IsScalar};
ghost use Rattle.std.specs.Str.{all_scalars};
ghost use Rattle.context_diff.specs.Operations.{IsLetters};
ghost use Rattle.context_diff.specs.Letters.{IsManyLetters, IsUnmade, letters_eq, letters_per, letters_equiv, letters_input, letters_alike};

use op_name::{LETTERS, Memory};
use std::alloc::Global;
use std::hash::{Hash, Hasher};
use std::marker::Model;
use std::rc::Rc;
use std::slice;

/// The text of an insert: 1 to `LETTERS` characters. One alone stands in the value itself; of more, copies share one list. Contracts see
/// the list of their codes.
#[derive(Drop)]
pub struct Letters {
    kept: Kept,
}

// One character, or two and more.
#[derive(Drop)]
pub(crate) enum Kept {
    One(char),
    More(Rc<Vec<char>>),
}

impl Model for Letters {
    ghost use Rattle.std.specs.Prelude.{List, ℕ};
    ghost use Rattle.context_diff.specs.Operations.{IsLetters};
    ghost use Rattle.context_diff.specs.Code.Letters.{codes_of};

    ghost Value = { List ℕ };

    ghost view = { λ l. codes_of l.kept };

    ghost invariant = { λ l. IsLetters (codes_of l.kept) };
}

/// Why characters are no text of an insert.
#[derive(Clone, Copy, Debug, PartialEq, Eq)]
pub enum LettersBad {
    /// There is none.
    Empty,
    /// There are more than `LETTERS`.
    Long,
    /// Out of memory.
    Memory,
}

impl Letters {
    /// These characters. No character is `Empty`, more than `LETTERS` are `Long`; one alone takes no memory.
    pub fn new(alloc: Global, chars: &[char]) -> Result<Letters, LettersBad>
        ensures text { IfOk result (λ l. l ≡ chars.now) }
        ensures cause { IfErr result (IsUnmade chars.now) }
    {
        match chars {
            [] => Err(LettersBad::Empty),
            [one] => Ok(Letters::one(*one)),
            _ if chars.len() > LETTERS as usize => Err(LettersBad::Long),
            _ => Letters::shared(alloc, chars),
        }
    }

    /// One character. It takes no memory.
    pub fn one(ch: char) -> Letters
        ensures { result ≡ ch ∷ [] }
    {
        Letters {
            kept: Kept::One(ch),
        }
    }

    // Two and more characters, in a list that copies share.
    fn shared(alloc: Global, chars: &[char]) -> Result<Letters, LettersBad>
        requires { IsManyLetters chars.now }
        ensures text { IfOk result (λ l. l ≡ chars.now) }
        ensures cause { IfErr result (λ why. why ≡ LettersBad.Memory) }
    {
        are_characters(chars);
        let list = match Vec::from_slice(alloc, chars) {
            Ok(list) => list,
            Err(_) => return Err(LettersBad::Memory),
        };
        match Rc::new(alloc, list) {
            Ok(list) => Ok(Letters {
                kept: Kept::More(list),
            }),
            Err(_) => Err(LettersBad::Memory),
        }
    }

    /// The characters.
    pub fn as_slice(&self) -> &[char]
        ensures { result.now ≡ self.now }
    {
        match &self.kept {
            Kept::One(ch) => slice::from_ref(ch),
            Kept::More(list) => list.as_ref().as_slice(),
        }
    }

    /// The number of characters.
    pub fn len(&self) -> u16
        ensures { result ≡ length self.now }
    {
        self.known();
        self.as_slice().len() as u16
    }

    /// Nothing but what the type keeps: there are 1 to `LETTERS` characters.
    pub fn known(&self)
        ensures { IsLetters self.now }
    {
        let _ = &self.kept;
    }

    /// The same text once more: no list is copied.
    pub fn try_clone(&self) -> Result<Letters, Memory>
        ensures { IfOk result (λ l. l ≡ self.now) }
    {
        Ok(match &self.kept {
            Kept::One(ch) => Letters::one(*ch),
            Kept::More(list) => Letters {
                kept: Kept::More(list.clone()?),
            },
        })
    }
}

impl PartialEq for Letters {
    ghost eq = { letters_eq };

    ghost laws = { letters_per };

    fn eq(&self, other: &Letters) -> bool {
        self.as_slice() == other.as_slice()
    }
}

impl Eq for Letters {
    ghost laws = { letters_equiv };
}

impl Hash for Letters {
    ghost hash_input = { letters_input };

    ghost respects_eq = { letters_alike };

    fn hash<H: Hasher>(&self, state: &mut H) {
        self.as_slice().hash(state);
    }
}

// Nothing but what their type says: all are characters.
fn are_characters(chars: &[char])
    ensures { IsTrue (all_scalars chars.now) }
{
    for ch in chars {
        is_character(*ch);
    }
}

// Nothing but what the type of a character says.
fn is_character(ch: char)
    ensures { IsScalar ch }
{}
