//! What the words of the command line ask for: an order, or the first reason why they ask for none.
//! Also the definitions of the printed texts.
#![tactic(auto)]

mod argument;
mod arguments;
mod changes;
mod commands;
mod error;
mod given;
mod keys;
mod lean;
mod name;
mod options;
mod orders;
mod reason;
mod shape;
mod turns;
mod value;
mod words;
mod wrong;

pub use commands::{COMMANDS, CommandRow, place_among};
pub use error::WordsError;
pub use keys::{KeyRow, Value};
pub use name::{Name, Names};
pub use orders::{Command, Key, Order, Reason, Topic, Watch};
pub use shape::fault;
pub use words::order;
