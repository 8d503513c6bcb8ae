//! The instructions in the bodies of functions.
ghost use Rattle.std.specs.Prelude.{◌≡◌, ◌*◌, ◌<◌, pos, ◌-ℤ◌};
ghost use Rattle.test_gen.specs.Code.{register_from as register_from_of, body_instruction as body_instruction_of};

use crate::instruction::instruction;
use rv_isa::profile::LAST_ORIGINAL;
use rv_isa::{Ins, Kind};

/// The registers that bodies name. The others hold the place in `main`, and the data.
const BODY_REGISTERS: [u8; 7] = [5, 6, 7, 10, 11, 12, LAST_ORIGINAL];

/// The register that a random word chooses by its bits from a place on.
fn register_from(place: u32, word: u64) -> u8
    requires { place < 64 }
    ensures value { result ≡ register_from_of place word }
    ensures bound { result < 32 }
{
    BODY_REGISTERS[((word >> place) % 7) as usize]
}

/// The body instruction of a random word: its low bits choose the form, others the registers and the number.
#[tactic(auto, unfolding(crate::specs::Code::body_instruction))]
pub fn body_instruction(word: u64) -> Ins
    ensures { result ≡ body_instruction_of word }
{
    let rd = register_from(8, word);
    let rs1 = register_from(16, word);
    let rs2 = register_from(24, word);
    let number = ((word >> 32) % 256) as i64;
    let forms = [
        instruction(Kind::Add, rd, rs1, rs2, 0),
        instruction(Kind::Sub, rd, rs1, rs2, 0),
        instruction(Kind::Xor, rd, rs1, rs2, 0),
        instruction(Kind::Mul, rd, rs1, rs2, 0),
        instruction(Kind::Addi, rd, rs1, 0, number - 128),
        instruction(Kind::Divu, rd, rs1, rs2, 0),
        instruction(Kind::Ld, rd, 2, 0, 8 * number),
        instruction(Kind::Sd, 0, 2, rs2, 8 * number),
    ];
    forms[(word % 8) as usize]
}
