//! The new code of a test, part by part: the prologue, then each block's entry, pieces and leave. Passes make a part,
//! which is handed on with its role before the next. Blocks alone give its bytes and marks; then its words are written.
#![tactic(auto)]

ghost use Rattle.weave.specs.Admitted.{BlocksFit};
ghost use Rattle.weave.specs.WholeCode.{ItemsAreWhole};

mod code;
mod count;
mod each;
mod leave;
mod new_weaver;
mod part;
mod pieces;
mod prologue;
mod size;
mod walk;
mod weaver;
mod weaving;

pub use code::{Woven, counted, roles, woven_code, written};
pub use each::weave_halves;
pub use leave::{end_address, is_end};
pub use new_weaver::copied;
pub use part::PartSink;
pub use pieces::{Piece, piece, woven_piece};
pub use prologue::put_zeros;
pub use walk::weave;
pub use weaver::Weaver;
pub use weaving::Weaving;

/// The blocks of an admitted test can be woven.
pub fn blocks_fit()
    ensures { BlocksFit }
{}

/// With the data ranges, the distance and the entry of a file, the parts handed on are its new code, except the stub.
pub fn items_are_whole()
    ensures { ItemsAreWhole }
{}
