//! Laws of the fixed replay: each says what its definitions give, and does nothing.

ghost use Rattle.fixed_replay.specs.Laws.{ExecutedIsReplayed, AnyOrderIsReplayed, HistoriesHaveForms, FormsStay, BaseFormsStay, ReplayAlongAnyList, OperationsSayBaseForms, ReplayShowsTheText, LettersFit, CharactersStay, OriginalsAreToldApart, SameOperationsSameText};

/// The forms of a valid history, executed in the order of its operations, give the cells of its fixed
/// replay, each with the generation of its insert, and shown exactly if it is shown in the history.
pub fn executed_is_replayed()
    ensures { ExecutedIsReplayed }
{}

/// In any other order in which all members of a valid history may be executed, each after its causes, their
/// forms give the same.
pub fn any_order_is_replayed()
    ensures { AnyOrderIsReplayed }
{}

/// Each valid history has its forms.
pub fn histories_have_forms()
    ensures { HistoriesHaveForms }
{}

/// When a history grows by an operation, its forms are those that it had, followed by a form of the new
/// operation at the members that were known.
pub fn forms_stay()
    ensures { FormsStay }
{}

/// The base form of a member of a history stays when the history grows.
pub fn base_forms_stay()
    ensures { BaseFormsStay }
{}

/// Along any causal list of members of a valid history, the replay of the inserts in that very order gives
/// the cells of the executed forms.
pub fn replay_along_any_list()
    ensures { ReplayAlongAnyList }
{}

/// The base forms that the operations of a valid history say are its base forms.
pub fn operations_say_base_forms()
    ensures { OperationsSayBaseForms }
{}

/// The shown cells of a fixed replay are the shown cells of the history, and the characters beside them give
/// its text.
pub fn replay_shows_the_text()
    ensures { ReplayShowsTheText }
{}

/// A form of an operation adds as many cells as the operation brings characters. Where the operation is
/// integrated, its characters go to the place of its form, and the text beside the cells stays that of the
/// history.
pub fn characters_stay()
    ensures fit { LettersFit }
    ensures stay { CharactersStay }
{}

/// Two originals of a valid history differ in their names, and in rank or site.
pub fn originals_are_told_apart()
    ensures { OriginalsAreToldApart }
{}

/// Two lists of operations with the same originals, each at the same generation, have the same text, if
/// their originals differ in their names, and in rank or site. Names have to differ, since a cell's character is
/// looked up by its name: where two inserts had one name, both cells would show that of the first in the list.
pub fn same_operations_same_text()
    ensures { SameOperationsSameText }
{}
