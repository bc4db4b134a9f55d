//! Characters that a line inserts.

ghost use Rattle.std.specs.Prelude.{◌≡◌, ℕ, List, chars, IfOk};

use op_name::Memory;
use std::alloc::Global;
use std::marker::Model;

/// The characters that a line inserts, in their order.
#[derive(Debug, Drop)]
pub struct Chars {
    list: Vec<char>,
}

impl Model for Chars {
    ghost Value = { List ℕ };

    ghost view = { λ c. c.list.items };
}

impl Chars {
    /// The characters of a text.
    pub(crate) fn of_text(alloc: Global, text: &str) -> Result<Chars, Memory>
        ensures { IfOk result (λ c. c ≡ chars text.now) }
    {
        let list = text.chars().collect(alloc)?;
        Ok(Chars { list })
    }

    /// The characters, first to last.
    pub fn as_slice(&self) -> &[char]
        ensures { result.now ≡ self.now }
    {
        self.list.as_slice()
    }
}
