//! The laws of the fixed replay.
//!
//! A history of inserts, deletes and undos has one fixed replay: its inserts in the order of rank and
//! site, each put into its interval between two neighbours. This crate has no value of its own: it shows that whatever order
//! a site executes its operations in, as long as causes come first, the cells are those of that replay,
//! and that two histories of the same operations show the same text. `plain_text` computes that text from
//! the operations, in the words of the definition.
#![tactic(auto)]

mod laws;
mod letters;
mod plain;

pub use laws::{
    any_order_is_replayed, base_forms_stay, characters_stay, executed_is_replayed, forms_stay,
    histories_have_forms, operations_say_base_forms, originals_are_told_apart,
    replay_along_any_list, replay_shows_the_text, same_operations_same_text,
};
pub use letters::letters_of;
pub use plain::{plain_characters, plain_text};
