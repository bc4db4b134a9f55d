//! One site of a group text.
//!
//! A `Site` *is* its number, a valid history of integrated operations, and a list of operations that wait for
//! members of their contexts. It answers each delivered operation with exactly one verdict, makes local
//! operations, and shows the one text of its history.
#![tactic(auto)]

mod judging;
mod laws;
mod notes;
mod replica;
mod site;

pub use laws::{
    each_release_is_the_first, executed_forms_show_the_history, form_lists_are_there,
    form_lists_show_the_histories, form_lists_stay, integrated_operations_are_next,
    local_operations_are_next, no_release_waits, one_list_of_forms, places_are_in_range,
    releases_are_exact, releases_are_few, releases_keep_histories, releases_never_wait,
    releases_settle, settled_states_have_none_ready, settled_states_stay, verdicts_are_exact,
};
pub use notes::CACHED_FORMS;
pub use site::Site;
pub use site_answers::{Local, Release, Verdict};
