//! Laws of joins, of taking in, and of whole exchanges: each says what its definitions give, and does nothing.

ghost use Rattle.peer_exchange.specs.Joins.{JoinsAreValid, LackedOperationsAreNext, EqualMembersAreAlike, BothSidesAreJoined};
ghost use Rattle.peer_exchange.specs.Joins.{JoinsCommute, JoinsAssociate, JoinsAreIdempotent, AnyExchangesMeet};
ghost use Rattle.peer_exchange.specs.Taking.{NextOperationsAreTaken, BothSidesTakeAll, NewOperationsAreAppended, UnrefusedExchangesJoin};
ghost use Rattle.peer_exchange.specs.Taking.{TakingInKeepsHistories, LackedOperationsAreTaken};
ghost use Rattle.peer_exchange.specs.GoingOn.{GoingOnAfterMemory};
ghost use Rattle.peer_exchange.specs.Again.{ClosingAgainChangesNothing, ClosingLaterChangesNothing};
ghost use Rattle.peer_exchange.specs.Gaining.{TakingInGains, EditingMeanwhileLosesNothing, EditingMeanwhileIsNotRefused};
ghost use Rattle.peer_exchange.specs.Exchanges.{MessagesAreWhole, MessagesTellOneThing, UnrefusedCallsJoin, AgreeingSitesMeet};
ghost use Rattle.peer_exchange.specs.Exchanges.{AgreeingSitesAreNotRefused, SecondExchangesAreEmpty};
ghost use Rattle.peer_exchange.specs.Lengths.{ShortHistoriesHaveShortMessages};

/// The join of valid histories that agree is valid.
pub fn joins_are_valid()
    ensures { JoinsAreValid }
{}

/// What a valid history lacks of another one that agrees with it comes next, operation by operation, in the order of the other.
pub fn lacked_operations_are_next()
    ensures { LackedOperationsAreNext }
{}

/// Valid histories that agree and have the same members have the same operations and the same text.
pub fn equal_members_are_alike()
    ensures { EqualMembersAreAlike }
{}

/// Whichever history takes in the other, the join has the members of both and no others, and none that the other join lacks.
pub fn both_sides_are_joined()
    ensures { BothSidesAreJoined }
{}

/// Joining is commutative.
pub fn joins_commute()
    ensures { JoinsCommute }
{}

/// Joining is associative.
pub fn joins_associate()
    ensures { JoinsAssociate }
{}

/// Joining is idempotent.
pub fn joins_are_idempotent()
    ensures { JoinsAreIdempotent }
{}

/// After any exchanges between any sites, those with the same members have the same operations and the same text.
pub fn any_exchanges_meet()
    ensures { AnyExchangesMeet }
{}

/// Where nothing waits, operations that come next one after the other are all integrated.
pub fn next_operations_are_taken()
    ensures { NextOperationsAreTaken }
{}

/// Two sites that agree and at which nothing waits take in all that they lack, and then have the join.
pub fn both_sides_take_all()
    ensures { BothSidesTakeAll }
{}

/// Where nothing waits, operations of new members that are taken in without refusal are all integrated.
pub fn new_operations_are_appended()
    ensures { NewOperationsAreAppended }
{}

/// Two sites at which nothing waits, and which refuse nothing of each other, then have the join, whether they agree or not.
pub fn unrefused_exchanges_join()
    ensures { UnrefusedExchangesJoin }
{}

/// Taking in keeps what a site integrated as the first part of its history.
pub fn taking_in_keeps_histories()
    ensures { TakingInKeepsHistories }
{}

/// A site takes in without refusal what it lacks of a history that agrees with all that it has and holds, also where operations
/// wait.
pub fn lacked_operations_are_taken()
    ensures { LackedOperationsAreTaken }
{}

/// Each message that a call writes is whole, as `measure` says.
pub fn messages_are_whole()
    ensures { MessagesAreWhole }
{}

/// A message tells one state, and has one list of operations.
pub fn messages_tell_one_thing()
    ensures { MessagesTellOneThing }
{}

/// Where nothing waits at either site, and none of the four calls refuses, each site has its old history and after it what it
/// lacked of the other, so the join of both.
pub fn unrefused_calls_join()
    ensures { UnrefusedCallsJoin }
{}

/// Where they agree besides, both then have the same operations and show the same text.
pub fn agreeing_sites_meet()
    ensures { AgreeingSitesMeet }
{}

/// Where no name has one content at the one site and other content at the other, among what is integrated and what waits,
/// each of the four calls refuses only when it is out of memory.
pub fn agreeing_sites_are_not_refused()
    ensures { AgreeingSitesAreNotRefused }
{}

/// A second exchange at once sends no frame in either direction, and changes neither site.
pub fn second_exchanges_are_empty()
    ensures { SecondExchangesAreEmpty }
{}

/// Two sites at which nothing waits, and which have at most 256 operations together, have no message that is longer than
/// messages may be.
pub fn short_histories_have_short_messages()
    ensures { ShortHistoriesHaveShortMessages }
{}

/// However often `close` or `finish` is out of memory, the same call with the same bytes then takes in, refuses, answers and
/// writes what it would have at first.
pub fn going_on_after_memory()
    ensures { GoingOnAfterMemory }
{}

/// After a `close` or a `finish` that answered, the same call with the same message leaves the site as it is. It is refused only
/// out of memory, and else answers and writes the same.
pub fn closing_again_changes_nothing()
    ensures { ClosingAgainChangesNothing }
{}

/// Nor does the same message change any later state of the site at which nothing is ready.
pub fn closing_later_changes_nothing()
    ensures { ClosingLaterChangesNothing }
{}

/// Also where operations wait, a site that took in a message keeps its history, and has the member of each operation of the message, and
/// each insert and delete itself; whatever else is new there waited before, and so did whatever waits then.
pub fn taking_in_gains()
    ensures { TakingInGains }
{}

/// Where both sides go on editing during an exchange, the joiner gets the members that the server had when it answered, the server all that
/// the joiner has after it closed, and each keeps what it did meanwhile.
pub fn editing_meanwhile_loses_nothing()
    ensures { EditingMeanwhileLosesNothing }
{}

/// Also where both sides go on editing during an exchange, each of its four calls refuses only when it is out of memory, if no name
/// has one content at the joiner when it closes and other content at the server when it finishes, among what is integrated and what
/// waits.
pub fn editing_meanwhile_is_not_refused()
    ensures { EditingMeanwhileIsNotRefused }
{}
