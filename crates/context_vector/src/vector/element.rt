//! What stands in lists that vectors share.

ghost use Rattle.std.specs.Prelude.{◌≡◌, true};

use super::count::Count;
use super::word::Word;

/// An element of a list that vectors may share in pieces. Elements that are equal are the same (`exact`).
pub trait Element: PartialEq + Copy + Drop {
    /// A number by which lists are cut, rising in them: no clause speaks of where they are.
    fn key(&self) -> u64;

    ghost exact: { (a b : Self) → Self.eq a b ≡ true → a ≡ b };
}

impl Element for Count {
    ghost use Rattle.context_vector.specs.Equality.{counts_decide};

    ghost exact = { λ a b e. (counts_decide a b).0 e };

    fn key(&self) -> u64 {
        u64::from(self.site())
    }
}

impl Element for Word {
    ghost use Rattle.context_vector.specs.Equality.{counts_decide};

    ghost exact = { λ a b e. (counts_decide a b).0 e };

    fn key(&self) -> u64 {
        u64::from(Word::key(self))
    }
}
