//! Sites whose histories begin differently and are alike.
//!
//! A site that was opened from a checkpoint has the flat history of the one that was written, and goes on as the site with
//! the whole history would. This crate has no value of its own: it shows that two such sites give the same verdicts,
//! release the same, make the same operations and show the same, as long as what comes was made after all that the histories begin with.
#![tactic(auto)]

mod laws;

pub use laws::{
    alike_histories_give_one_verdict, alike_sites_make_the_same, alike_sites_release_the_same,
    alike_sites_show_the_same, alike_sites_take_the_same, flat_sites_are_alike,
    old_operations_change_nothing,
};
