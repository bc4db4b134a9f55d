//! The exchange of two sites: what each lacks of the other, and what both have afterwards.
//!
//! The *join* of two histories is the one, followed by what it lacks of the other, in the other's order. Where two sites
//! agree, that is, know no name by different contents, each takes in all that it lacks, and both then have the join.
//!
//! An exchange is three messages. `measure` says of the bytes of one how long it is, as far as they tell, and a
//! `MessageReader` does so as they come in. `offer` writes the joiner's first message, and `answer` the server's second one;
//! `close` takes that in at the joiner and writes the third, which `finish` takes in at the server.
#![tactic(auto)]

mod closing;
mod lacking;
mod laws;
mod measuring;
mod messages;
mod offering;
mod peer;
mod reader;
mod receiving;
mod stages;

pub use closing::{close, finish};
pub use laws::{
    agreeing_sites_are_not_refused, agreeing_sites_meet, any_exchanges_meet, both_sides_are_joined,
    both_sides_take_all, closing_again_changes_nothing, closing_later_changes_nothing,
    editing_meanwhile_is_not_refused, editing_meanwhile_loses_nothing, equal_members_are_alike,
    going_on_after_memory, joins_are_idempotent, joins_are_valid, joins_associate, joins_commute,
    lacked_operations_are_next, lacked_operations_are_taken, messages_are_whole,
    messages_tell_one_thing, new_operations_are_appended, next_operations_are_taken,
    second_exchanges_are_empty, short_histories_have_short_messages, taking_in_gains,
    taking_in_keeps_histories, unrefused_calls_join, unrefused_exchanges_join,
};
pub use measuring::measure;
pub use messages::{MAX_MESSAGE, Measure, PeerCause, Which};
pub use offering::{answer, offer};
pub use peer::Peer;
pub use reader::MessageReader;
