//! The rules on a code word: an instruction, registers up to x13, no breakpoint, no constant out of reach.
ghost use Rattle.std.specs.Prelude.{◌≡◌, ◌&&◌};
ghost use Rattle.machine.specs.Table.{decode_of};
ghost use Rattle.machine.specs.Step.{target};
ghost use Rattle.machine.specs.Offsets.{distance_between};
ghost use Rattle.tests.specs.Admission.Terms.{if_high, high_register};
ghost use Rattle.tests.specs.Admission.Rules.{high_in, is_ebreak, is_far};
ghost use Rattle.machine.specs.Operands.{is_auipc};
ghost use Rattle.test_admission.specs.Faults.{faults, is_at_fault};

use rv_decode::decode;
use rv_isa::profile::LAST_ORIGINAL;
use rv_isa::{Ins, Kind, Reg};

/// Distances from here up to the same below 2^64 are out of reach.
const REACH: u64 = 1 << 28;

/// A rule on code words.
#[derive(Clone, Copy, PartialEq, Eq)]
pub enum CodeRule {
    /// The word is not an instruction.
    Unknown,
    /// The instruction reads or writes a register above x13.
    Registers,
    /// The instruction is EBREAK.
    Breakpoint,
    /// The instruction is an AUIPC, and its result is out of reach of this base.
    Constant(u64),
    /// Any of these, with this base.
    Any(u64),
}

/// The register, where it is above x13.
fn if_high(register: Option<Reg>) -> Option<Reg>
    ensures { result ≡ if_high register }
{
    let register = register?;
    if register.number() > LAST_ORIGINAL {
        Some(register)
    } else {
        None
    }
}

/// The first register above x13 that an instruction writes or reads, in the order rd, rs1, rs2.
fn high_register(instruction: &Ins) -> Option<Reg>
    ensures { result ≡ high_register instruction.now }
{
    let (first, second) = instruction.reads();
    if_high(instruction.writes()).or(if_high(first).or(if_high(second)))
}

/// The first register above x13 that the instruction of a word writes or reads.
pub fn high_in(word: u32) -> Option<Reg>
    ensures { result ≡ high_in (decode_of word) }
{
    let instruction = decode(word)?;
    high_register(&instruction)
}

/// Whether the address of an instruction plus its immediate, modulo 2^64, is out of reach of a base: the distance, read
/// as signed, is below -2^28 or at least 2^28.
#[tactic(auto, using(crate::proofs::Far::far_apart))]
fn is_far(instruction: &Ins, address: u64, base: u64) -> bool
    ensures { result ≡ is_far (distance_between base (target instruction.now address)) }
{
    let target = address.wrapping_add(instruction.imm.cast_unsigned());
    let distance = target.wrapping_sub(base);
    REACH <= distance && distance <= u64::MAX - REACH
}

/// Whether an instruction is an AUIPC whose result is out of reach of a base.
fn is_far_constant(instruction: &Ins, address: u64, base: u64) -> bool
    ensures { result ≡ (is_auipc instruction.now.kind && is_far (distance_between base (target instruction.now address))) }
{
    matches!(instruction.kind, Kind::Auipc) && is_far(instruction, address, base)
}

/// Whether the word at an address is at fault by a rule.
pub fn is_at_fault(rule: CodeRule, address: u64, word: u32) -> bool
    ensures { result ≡ is_at_fault rule address word }
{
    let Some(instruction) = decode(word) else {
        return matches!(rule, CodeRule::Unknown | CodeRule::Any(_));
    };
    match rule {
        CodeRule::Unknown => false,
        CodeRule::Registers => high_register(&instruction).is_some(),
        CodeRule::Breakpoint => matches!(instruction.kind, Kind::Ebreak),
        CodeRule::Constant(base) => is_far_constant(&instruction, address, base),
        CodeRule::Any(base) => {
            high_register(&instruction).is_some()
                || matches!(instruction.kind, Kind::Ebreak)
                || is_far_constant(&instruction, address, base)
        }
    }
}
