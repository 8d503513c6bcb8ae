//! Words as text: the name and the operands of an instruction, as assemblers for RISC-V take them.
#![tactic(auto)]

mod forms;
mod hex;
mod names;
mod text;

pub use forms::{Form, form_of};
pub use hex::{Address, Word};
pub use names::name_of;
pub use text::text_of;
