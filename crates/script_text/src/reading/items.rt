//! The items of a list.

ghost use Rattle.std.specs.Prelude.{◌≡◌, ◌∷◌, [], Some, None, MatchOption};
ghost use Rattle.script_text.specs.Fields.{cut};
ghost use Rattle.script_text.specs.Sets.{items_of};

use std::marker::Model;

/// What stands between the commas of a list, taken from the front.
#[derive(Drop)]
pub(crate) struct Items<'a> {
    /// What wasn't taken yet, if something wasn't.
    left: Option<&'a str>,
}

impl<'a> Model for Items<'a> {
    ghost use Rattle.std.specs.Prelude.{ℕ, List, option_map};
    ghost use Rattle.script_text.specs.Code.Items.{left_items};

    ghost Value = { List (List ℕ) };

    ghost view = { λ i. left_items (option_map (λ t. t.now) i.left) };
}

impl<'a> Items<'a> {
    /// The items of a list; none of `-`.
    #[tactic(auto, unfolding(crate::specs::Sets::items_of))]
    pub(crate) fn of(text: &'a str) -> Items<'a>
        ensures { result ≡ items_of text.now }
    {
        if text == "-" {
            Items { left: None }
        } else {
            Items { left: Some(text) }
        }
    }

    /// Takes the first item; None exactly where none is left.
    pub(crate) fn next(&mut self) -> Option<&'a str>
        ensures { MatchOption result (self.old ≡ []) (λ item. self.old ≡ item.now ∷ self.new) }
    {
        match self.left {
            Some(text) => match cut_at_comma(text) {
                Some((item, rest)) => {
                    self.left = Some(rest);
                    Some(item)
                }
                None => {
                    self.left = None;
                    Some(text)
                }
            },
            None => None,
        }
    }
}

/// What stands before the first comma and after it.
fn cut_at_comma(text: &str) -> Option<(&str, &str)>
    ensures { MatchOption result (cut 44 text.now ≡ None) (λ p. cut 44 text.now ≡ Some (p.0.now, p.1.now)) }
{
    text.split_once(',')
}
