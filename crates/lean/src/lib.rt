//! The lean form of the new code: one check for all of it, called by a counter, instead of comparisons behind pieces.
//! Its parts are made one after the other, counted, and laid out; as a weave it has the promises.
#![tactic(auto)]

mod begin;
mod blocks;
mod check;
mod code;
mod counts;
mod leave;
mod piece;
mod promises;
mod steps;
mod tick;
mod turn;
mod weaver;

pub use code::lean_code;
pub use promises::{
    lean_adrift, lean_caught, lean_caught_early, lean_clean, lean_displaced, lean_kept,
    lean_kept_in_step, lean_landed, lean_strayed, lean_tests_adrift, lean_tests_caught,
    lean_tests_caught_early, lean_tests_clean, lean_tests_displaced, lean_tests_faults,
    lean_tests_faults_clean, lean_tests_have_words, lean_tests_kept, lean_tests_landed,
    lean_tests_no_silent_slip, lean_tests_no_wrong_end, lean_tests_places, lean_tests_strayed,
    lean_tests_undisturbed, lean_tests_writable, lean_undisturbed,
};
pub use weaver::LeanWeaver;
