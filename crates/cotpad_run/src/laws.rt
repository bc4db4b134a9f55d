//! The laws that stand beside each answer.

ghost use Rattle.std.specs.Prelude.{◌≡◌, List};
ghost use Rattle.context_diff.specs.Operations.{OpData};
ghost use Rattle.context_diff.specs.Histories.{IsValid, Same};
ghost use Rattle.context_diff.specs.Replays.{text_of};
ghost use Rattle.cotpad_run.specs.Limits.{AreTheLimits};

/// Two valid histories that have the same operations have the same text. It does nothing.
pub(crate) fn same_operations()
    ensures { (h k : List OpData) → IsValid h → IsValid k → Same h k → text_of h ≡ text_of k }
{}

/// The limits are these numbers. It does nothing.
pub(crate) fn limits_have_numbers()
    ensures { AreTheLimits }
{}
