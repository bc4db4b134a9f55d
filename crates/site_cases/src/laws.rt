//! Each law once, as a caller has it.

use cot_site::{
    each_release_is_the_first, executed_forms_show_the_history, form_lists_are_there,
    form_lists_show_the_histories, form_lists_stay, integrated_operations_are_next,
    local_operations_are_next, no_release_waits, one_list_of_forms, releases_are_exact,
    releases_are_few, releases_keep_histories, releases_never_wait, releases_settle,
    settled_states_have_none_ready, settled_states_stay, verdicts_are_exact,
};
use fixed_replay::{
    any_order_is_replayed, base_forms_stay, executed_is_replayed, forms_stay, histories_have_forms,
    operations_say_base_forms, originals_are_told_apart, replay_along_any_list,
    replay_shows_the_text, same_operations_same_text,
};
use script_text::{each_line_has_a_spelling, lines_stay_the_same};
use session_replay::{
    deliveries_settle, derived_reports_are_there, local_operations_settle, no_release_says_waits,
    one_derived_report, one_transcript, sessions_stay_sound, transcripts_are_there,
};
use transform_rec::{
    derivations_name_members, next_operation_keeps_forms, no_entries_are_forms,
    same_operations_same_form,
};
use ttf_form::Form;

#[test]
fn laws_of_sites() {
    verdicts_are_exact();
    integrated_operations_are_next();
    releases_never_wait();
    no_release_waits();
    each_release_is_the_first();
    releases_are_few();
    releases_are_exact();
    releases_settle();
    settled_states_stay();
    releases_keep_histories();
    settled_states_have_none_ready();
    local_operations_are_next();
    executed_forms_show_the_history();
    form_lists_are_there();
    one_list_of_forms();
    form_lists_stay();
    form_lists_show_the_histories();
}

#[test]
fn laws_of_the_replay() {
    histories_have_forms();
    operations_say_base_forms();
    forms_stay();
    base_forms_stay();
    executed_is_replayed();
    any_order_is_replayed();
    replay_along_any_list();
    originals_are_told_apart();
    replay_shows_the_text();
    same_operations_same_text();
}

#[test]
fn laws_of_forms() {
    same_operations_same_form::<Form>();
    derivations_name_members::<Form>();
    no_entries_are_forms::<Form>();
    next_operation_keeps_forms::<Form>();
}

#[test]
fn laws_of_scripts() {
    each_line_has_a_spelling();
    lines_stay_the_same();
    sessions_stay_sound();
    local_operations_settle();
    deliveries_settle();
    no_release_says_waits();
    transcripts_are_there();
    one_transcript();
    derived_reports_are_there();
    one_derived_report();
}
