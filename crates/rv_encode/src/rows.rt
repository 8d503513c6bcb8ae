//! The word of an instruction by the row of its kind.
ghost use Rattle.std.specs.Prelude.{◌≡◌};
ghost use Rattle.machine.specs.Table.{encode_of};

use crate::format::{
    branch_format, immediate_format, jump_format, no_fields, register_format, shift_format,
    store_format, upper_format, word_shift_format,
};
use machine::rows;
use rv_isa::{Ins, Kind};

// The word of the instruction by the row of its kind. Each kind has one row.
macro_rules! row_of_kind {
    ($ins:ident; $($kind:ident $format:ident $mask:literal $fixed:literal $($value:ident)?,)*) => {
        match $ins.kind {
            $(Kind::$kind => $format($fixed, $ins),)*
        }
    };
}

/// The word of an instruction of any kind.
#[inline(always)]
#[tactic(auto, unfolding(machine::specs::Table::encode_of))]
pub fn any_row(ins: &Ins) -> Option<u32>
    ensures { result ≡ encode_of ins.now }
{
    rows!(system upper branch load store immediate shift register word multiply => row_of_kind ins)
}
