//! What a trace has so far.

ghost use Rattle.std.specs.Prelude.{◌≡◌, ◌++◌, ◌∷◌, [], Some, OnOk, if◌then◌else◌};
ghost use Rattle.form_cache.specs.Keys.{KeyData, key_eq};
ghost use Rattle.trace_explain.specs.Listings.{listed_next, no_lines};
ghost use Rattle.trace_explain.specs.Code.Listed.{data_of};

use crate::line::TraceLine;
use form_cache::Key;
use op_name::Memory;
use std::alloc::Global;
use std::collections::HashMap;
use ttf_form::Form;

/// The line of a member at a context: its number, from 1, and its form.
#[derive(Clone, Copy, Debug)]
pub struct Listed {
    pub number: u64,
    pub form: Form,
}

/// The lines so far, and for each pair of a member and a context that is listed the line that serves it.
#[derive(Drop)]
pub struct Listing {
    pub lines: Vec<TraceLine>,
    pub listed: HashMap<Key, Listed>,
}

impl Listing {
    /// The listing without lines. It takes no memory.
    pub fn new(alloc: Global) -> Listing
        ensures { data_of result ≡ no_lines }
    {
        Listing {
            lines: Vec::new(alloc),
            listed: HashMap::new(alloc),
        }
    }

    /// The line that serves the pair, if it is listed.
    pub fn find(&self, key: &Key) -> Option<Listed>
        ensures { result ≡ (data_of self.now).at key.now }
    {
        self.listed.get(key).copied()
    }

    /// The number and the form of a line with this form, if it comes next.
    pub fn next(&self, form: &Form) -> Listed
        ensures { result ≡ listed_next (data_of self.now) form.now }
    {
        Listed {
            number: self.lines.len() as u64 + 1,
            form: *form,
        }
    }

    /// Appends a line, which serves the pair from now on with this number and form.
    pub fn push(&mut self, key: Key, line: &TraceLine, listed: &Listed) -> Result<(), Memory>
        ensures lines { OnOk result (self.new.lines.items ≡ self.old.lines.items ++ line.now ∷ []) }
        ensures served { OnOk result ((q : KeyData)
            → (data_of self.new).at q ≡ (if key_eq key q then Some listed.now else (data_of self.old).at q)) }
    {
        self.lines.reserve(1)?;
        self.listed.insert(key, *listed)?;
        self.lines.push_reserved(*line);
        Ok(())
    }

    /// The lines.
    pub fn lines(&self) -> &[TraceLine]
        ensures { result.now ≡ self.now.lines.items }
    {
        &self.lines
    }
}
