//! The code words of a file as text, in the order of their addresses: the command `list` prints it.
#![tactic(auto)]

mod found;
mod home;
mod laws;
mod line;
mod listing;
mod place;
mod roles;

pub use found::Found;
pub use laws::{listings_assemble, words_assemble};
pub use listing::list_text;
pub use place::{nearest, role_at, word_text};
pub use roles::role_text;
