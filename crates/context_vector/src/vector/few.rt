//! At most four counts, in the value itself.

ghost use Rattle.std.specs.Prelude.{◌≡◌, ◌<◌, ◌≤◌, ◌↔◌, ◌++◌, ◌∷◌, [], length, IsTrue, IfSome};

use super::count::Count;
use std::marker::Model;

/// The number of counts that fit in the value itself.
pub const FEW: usize = 4;

/// At most `FEW` counts. They take no memory.
#[derive(Debug, Drop)]
pub struct Few {
    counts: [Count; FEW],
    /// How many of them there are: what stands behind them tells nothing.
    len: u32,
}

impl Model for Few {
    ghost use Rattle.std.specs.Prelude.{◌≡◌, ℕ, ◌≤◌, List, length, take};
    ghost use Rattle.context_vector.specs.declared.vector.few.TheConstants.{FEW};

    ghost Value = { List (ℕ × ℕ) };

    ghost view = { λ f. take f.len f.counts };

    ghost invariant = { λ f. (f.len ≤ FEW) × (length f.counts ≡ FEW) };
}

impl Few {
    /// No counts.
    pub fn new() -> Few
        ensures { result ≡ [] }
    {
        Few {
            counts: [Count::new(0, 0); FEW],
            len: 0,
        }
    }

    /// These counts, if there are few.
    pub fn of(list: &[Count]) -> Option<Few>
        ensures { IfSome result (λ f. f ≡ list.now) }
    {
        if list.len() > FEW {
            return None;
        }
        let mut few = Few::new();
        for count in list {
            few.push(*count);
        }
        Some(few)
    }

    /// The same counts once more.
    pub fn copy(&self) -> Few
        ensures { result ≡ self.now }
    {
        Few {
            counts: self.counts,
            len: self.len,
        }
    }

    /// The counts.
    pub fn as_slice(&self) -> &[Count]
        ensures { result.now ≡ self.now }
    {
        &self.counts[..self.len as usize]
    }

    /// Whether no more fit.
    pub fn is_full(&self) -> bool
        ensures full { IsTrue result ↔ (FEW ≤ length self.now) }
    {
        self.len as usize == FEW
    }

    /// Appends a count.
    pub fn push(&mut self, count: Count)
        requires { length self.old < FEW }
        ensures { self.new ≡ self.old ++ count ∷ [] }
    {
        self.counts[self.len as usize] = count;
        self.len += 1;
    }
}
