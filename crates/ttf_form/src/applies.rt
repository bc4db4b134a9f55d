//! Applying forms to states.

ghost use Rattle.std.specs.Prelude.{◌≡◌, ℕ, List, length, ◌↔◌};
ghost use Rattle.op_name.specs.NameData.{NameData};
ghost use Rattle.ttf_form.specs.Names.{NewNames, IsPutAmong};

use crate::include::Include;

/// Forms with a kind of state that they are applied to. A state has cells, each a name with an offset.
///
/// The laws: a form fits a state exactly if it is bounded by the number of the state's cells and adds no name
/// that is there (`fits`); two forms that are apart and fit one state may be applied in either order, each
/// brought over the other, with the same result (`fits_after` and `tp1`); a form adds as many cells as its
/// extent, and applying it puts them side by side somewhere among the others, which stay in their order (`kept`);
/// and inclusion changes none of the cells that a form adds.
pub trait Applies: Include {
    ghost State: { Type 0 };

    ghost cells: { State → List (NameData × ℕ) };

    ghost added: { Self → List (NameData × ℕ) };

    ghost Fits: { State → Self → Type 0 };

    ghost apply: { State → Self → State };

    ghost fits: { (s : State) (a : Self) → Fits s a ↔ (Self.IsBounded a (length (cells s)) × NewNames (cells s) (added a)) };

    ghost fits_after: { (s : State) (a b : Self) → Self.Apart a b → Fits s a → Fits s b → Fits (apply s a) (Self.over b a) };

    ghost tp1: { (s : State) (a b : Self) → Self.Apart a b → Fits s a → Fits s b
        → apply (apply s a) (Self.over b a) ≡ apply (apply s b) (Self.over a b) };

    ghost kept: { (a : Self) → (length (added a) ≡ Self.extent a)
        × ((s : State) → Fits s a → IsPutAmong (cells s) (added a) (cells (apply s a))) };

    ghost added_over: { (a b : Self) → added (Self.over a b) ≡ added a };
}
