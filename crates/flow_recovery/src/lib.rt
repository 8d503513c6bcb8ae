//! Where the blocks of a test begin, and where indirect jumps may lead.
#![tactic(auto)]

mod classes;
mod constants;
mod found;
mod named;
mod pointers;
mod reach;
mod recovery;
mod sets;
mod stored;
mod words;

pub use classes::{has_target, is_end, is_indirect};
pub use reach::reached;
pub use recovery::{entered, has_indirect, leaders};
