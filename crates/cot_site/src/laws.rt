//! Laws of verdicts, releases and local commands: each says what its definitions give, and does nothing.

ghost use Rattle.cot_site.specs.Laws.{VerdictsAreExact, IntegratedOperationsAreNext, ReleasesNeverWait, NoReleaseWaits, EachReleaseIsTheFirst, ReleasesAreFew, ReleasesSettle, SettledStatesStay, ReleasesKeepHistories, SettledStatesHaveNoneReady, ReleasesAreExact, LocalOperationsAreNext, PlacesAreInRange, ExecutedFormsShowTheHistory, FormListsAreThere, OneListOfForms, FormListsStay, FormListsShowTheHistories};

/// A well-formed operation has exactly one verdict over a valid history, the one whose words hold.
pub fn verdicts_are_exact()
    ensures { VerdictsAreExact }
{}

/// An operation is integrated exactly where it may come next in the history, and no other of its name waits.
pub fn integrated_operations_are_next()
    ensures { IntegratedOperationsAreNext }
{}

/// A released operation doesn't wait again.
pub fn releases_never_wait()
    ensures { ReleasesNeverWait }
{}

/// Nor does any that is released on the way to the settled state.
pub fn no_release_waits()
    ensures { NoReleaseWaits }
{}

/// Each release takes the first operation that is ready after the releases before it.
pub fn each_release_is_the_first()
    ensures { EachReleaseIsTheFirst }
{}

/// There are at most as many releases as operations that wait.
pub fn releases_are_few()
    ensures { ReleasesAreFew }
{}

/// After all releases no waiting operation is ready.
pub fn releases_settle()
    ensures { ReleasesSettle }
{}

/// A settled state has no release.
pub fn settled_states_stay()
    ensures { SettledStatesStay }
{}

/// Each release leaves a sound state of the same site, where what was integrated stays so, in its order.
pub fn releases_keep_histories()
    ensures { ReleasesKeepHistories }
{}

/// A sound state is settled exactly where no waiting operation is ready: its member is integrated, or its context
/// lacks nothing.
pub fn settled_states_have_none_ready()
    ensures { SettledStatesHaveNoneReady }
{}

/// What is released is the first ready operation, with its verdict and effect, in the words of both.
pub fn releases_are_exact()
    ensures { ReleasesAreExact }
{}

/// What a site makes may come next in its history.
pub fn local_operations_are_next()
    ensures { LocalOperationsAreNext }
{}

/// In a history of at most 4,294,967,295 cells, as that of each site is, no place is refused for being out of the range of places.
pub fn places_are_in_range()
    ensures { PlacesAreInRange }
{}

/// What the executed forms of a valid history show is what the history shows: the text, where the characters of the history's inserts
/// stand beside the cells, the places of the shown characters, and their number. So a session can as well be read with forms in the
/// place of replays.
pub fn executed_forms_show_the_history()
    ensures { ExecutedFormsShowTheHistory }
{}

/// Lists of forms stand beside all states: beside a valid history one derived form of each operation, at the
/// members before it.
pub fn form_lists_are_there()
    ensures { FormListsAreThere }
{}

/// Beside a valid history stands exactly one list of forms: the derived forms that its operations have, as those
/// in which a site executed them, are that list.
pub fn one_list_of_forms()
    ensures { OneListOfForms }
{}

/// When a history grows by an operation, the forms that stood beside it stay.
pub fn form_lists_stay()
    ensures { FormListsStay }
{}

/// With lists of forms beside the states, a site sees through its list what its history shows: the places of the
/// shown characters, and the characters.
pub fn form_lists_show_the_histories()
    ensures { FormListsShowTheHistories }
{}
