//! Whether two machines have equal original values.
ghost use Rattle.std.specs.Prelude.{◌≡◌, map};
ghost use Rattle.std.specs.List.{list_all};
ghost use Rattle.tests.specs.Admission.DataRanges.{range_of};
ghost use Rattle.machine.specs.Memory.{byte_at};
ghost use Rattle.campaign.specs.Right.{same_regs as same_regs_of, same_bytes as same_bytes_of, same_values as same_values_of};

use crate::draw::register;
use qed_model::Range;
use rv_isa::profile::ORIGINALS;
use rv_step::Machine;

/// Whether x1 to x13 agree.
fn same_regs(a: &Machine, b: &Machine) -> bool
    ensures { result ≡ same_regs_of a.now.state b.now.state }
{
    for number in 1..u64::from(ORIGINALS) + 1 {
        let register = register(number - 1);
        if a.reg(register) != b.reg(register) {
            return false;
        }
    }
    true
}

/// The byte at an address; 0 if there is none.
#[tactic(auto, unfolding(machine::specs::Memory::byte_at))]
pub(crate) fn byte(machine: &Machine, address: u64) -> u8
    ensures { result ≡ byte_at machine.now.state.memory address }
{
    match machine.byte(address) {
        Some(byte) => byte,
        None => 0,
    }
}

/// Whether the bytes of a range agree.
fn same_bytes(a: &Machine, b: &Machine, range: &Range) -> bool
    ensures { result ≡ same_bytes_of a.now.state.memory b.now.state.memory (range_of range.now) }
{
    let (start, end) = (range.start, range.end);
    for address in start..end {
        if byte(a, address) != byte(b, address) {
            return false;
        }
    }
    true
}

/// Whether the bytes of all ranges agree.
fn same_data(a: &Machine, b: &Machine, ranges: &[Range]) -> bool
    ensures { result ≡ list_all (same_bytes_of a.now.state.memory b.now.state.memory) (map range_of ranges.now) }
{
    for range in ranges {
        if !same_bytes(a, b, range) {
            return false;
        }
    }
    true
}

/// Whether x1 to x13 and the data words of these ranges agree.
pub fn same_values(a: &Machine, b: &Machine, ranges: &[Range]) -> bool
    ensures { result ≡ same_values_of a.now.state b.now.state (map range_of ranges.now) }
{
    same_regs(a, b) && same_data(a, b, ranges)
}
