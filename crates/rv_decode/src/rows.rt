//! The row of a word.
ghost use Rattle.std.specs.Prelude.{◌≡◌};
ghost use Rattle.rv_decode.specs.Rows.{first_fit, lists_of, listed_at};

use crate::table::{Row, Table};
use rv_isa::Field;

/// The rows of a table at the place of a word.
pub fn rows_at(table: &'static Table, word: u32) -> &'static [Row]
    ensures { result.now ≡ listed_at (lists_of table.now) word }
{
    table[Field::<2, 5>::get(word) as usize][Field::<12, 3>::get(word) as usize]
}

/// The first of these rows that a word fits.
pub fn first_row(rows: &[Row], word: u32) -> Option<Row>
    ensures { result ≡ first_fit rows.now word }
{
    for row in rows {
        if word & row.mask == row.fixed {
            return Some(*row);
        }
    }
    None
}
