//! Items get their places, and become words: first they are counted, then their words are laid out.
#![tactic(auto)]

mod count;
mod error;
mod layout;
mod parts;
mod roles;
mod search;
mod sink;
mod write;

pub use count::Count;
pub use error::LinkError;
pub use layout::{Layout, Linked, lay, link};
pub use parts::parts_join;
pub use roles::Roles;
pub use search::place_of;
pub use sink::ItemSink;
pub use write::{distance_between, upper_part};
