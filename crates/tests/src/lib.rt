//! Tests: which ELF files are read and admitted, where their code and their data are, and the types that say so.
#![tactic(auto)]

mod admit;
mod cut;
mod found;
mod laws;
mod options;
mod range;
mod test;
mod words;

pub use admit::AdmitError;
pub use cut::is_cut_by_any;
pub use found::{code_ranges, lies_in_any};
pub use laws::{admission_has_one_answer, data_ranges_are_joined};
pub use options::{Entries, LEAN_EVERY, LEAN_INST_MAX, LEAN_ROUND, Options};
pub use range::{Range, Ranges, Span, is_code_address};
pub use test::{CodeWord, CodeWords, Test};
pub use words::{rest_of, word_in};
