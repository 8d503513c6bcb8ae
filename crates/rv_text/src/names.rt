//! The names of instructions.
ghost use Rattle.std.specs.Prelude.{◌≡◌};
ghost use Rattle.rv_text.specs.Names.{name_of};

use rv_isa::Kind;

/// The names of the kinds, in the order in which `Kind` has these.
const NAMES: [&str; 66] = [
    "zero", "lui", "auipc", "jal", "jalr", "beq", "bne", "blt", "bge", "bltu", "bgeu", "lb", "lh",
    "lw", "ld", "lbu", "lhu", "lwu", "sb", "sh", "sw", "sd", "addi", "slti", "sltiu", "xori",
    "ori", "andi", "slli", "srli", "srai", "add", "sub", "sll", "slt", "sltu", "xor", "srl", "sra",
    "or", "and", "fence", "ecall", "ebreak", "addiw", "slliw", "srliw", "sraiw", "addw", "subw",
    "sllw", "srlw", "sraw", "mul", "mulh", "mulhsu", "mulhu", "div", "divu", "rem", "remu", "mulw",
    "divw", "divuw", "remw", "remuw",
];

/// The name of an instruction in lower case (RISC-V unprivileged manual, listings), and `zero` for the zero word.
#[tactic(auto, unfolding(crate::specs::Names::name_of))]
pub fn name_of(kind: Kind) -> &'static str
    ensures { result.now ≡ name_of kind }
{
    NAMES[kind as usize]
}
