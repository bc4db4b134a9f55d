//! Inclusion of one form in another.

ghost use Rattle.std.specs.Prelude.{◌≡◌, ℕ, ◌+◌, ◌≤◌, ◌↔◌, IsTrue};

/// The greatest number of cells that a state may have, and so the greatest place.
pub const CELLS: u32 = 4_294_967_295;

/// Forms that can be changed by the inclusion of one another, for states of which the contracts need not
/// know anything.
///
/// Each form has a place, a number of cells that it adds (its extent), a bound (the number of cells of the
/// states it is meant for allows it), and may be apart from another form. `over a b` is `a` after the
/// inclusion of `b`, both of which are meant for one state.
///
/// Among the laws, `tp2` says that a form that is brought over two others doesn't depend on which of them
/// came first; the others say that an inert form changes none, and that inclusion keeps apartness, inertness
/// and the extent, and raises the bound by the extent of what is included.
pub trait Include: Drop {
    ghost Apart: { Self → Self → Type 0 };

    ghost place: { Self → ℕ };

    ghost extent: { Self → ℕ };

    ghost IsBounded: { Self → ℕ → Type 0 };

    ghost IsInert: { Self → Type 0 };

    ghost over: { Self → Self → Self };

    /// This form after the inclusion of `other`, which is meant for the same state. The sum of this form's
    /// place and the other's extent must be at most `CELLS`.
    fn include(&self, other: &Self) -> Self
        requires { place self.now + extent other.now ≤ CELLS }
        ensures { result ≡ over self.now other.now };

    /// Whether the inclusion of this form changes no form.
    fn inert(&self) -> bool
        ensures { IsTrue result ↔ IsInert self.now };

    ghost tp2: { (o a b : Self) → Apart o a → Apart o b → Apart a b → over (over o a) (over b a) ≡ over (over o b) (over a b) };

    ghost inert_law: { (a b : Self) → IsInert b → over a b ≡ a };

    ghost apart_sym: { (a b : Self) → Apart a b → Apart b a };

    ghost apart_over: { (a b c : Self) → Apart a b → Apart (over a c) b };

    ghost inert_over: { (a b : Self) → IsInert a → IsInert (over a b) };

    ghost extent_over: { (a b : Self) → extent (over a b) ≡ extent a };

    ghost bound_place: { (a : Self) (n : ℕ) → IsBounded a n → place a ≤ n };

    ghost bound_over: { (a b : Self) (n : ℕ) → IsBounded a n → IsBounded (over a b) (n + extent b) };
}
