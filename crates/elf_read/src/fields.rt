//! Little-endian numbers in bytes.
ghost use Rattle.std.specs.Prelude.{◌≡◌, ◌+◌, ◌≤◌, length};
ghost use Rattle.machine.specs.Numbers.{field};

use byteorder::{ByteOrder, LittleEndian};

/// The number in two bytes.
#[tactic(auto, unfolding(machine::specs::Numbers::field))]
pub fn u16_at(bytes: &[u8], at: usize) -> u16
    requires { at + 2 ≤ length bytes.now }
    ensures { result ≡ field at 2 bytes.now }
{
    LittleEndian::read_u16(bytes.split_at(at).1)
}

/// The number in four bytes.
#[tactic(auto, unfolding(machine::specs::Numbers::field))]
pub fn u32_at(bytes: &[u8], at: usize) -> u32
    requires { at + 4 ≤ length bytes.now }
    ensures { result ≡ field at 4 bytes.now }
{
    LittleEndian::read_u32(bytes.split_at(at).1)
}

/// The number in eight bytes.
#[tactic(auto, unfolding(machine::specs::Numbers::field))]
pub fn u64_at(bytes: &[u8], at: usize) -> u64
    requires { at + 8 ≤ length bytes.now }
    ensures { result ≡ field at 8 bytes.now }
{
    LittleEndian::read_u64(bytes.split_at(at).1)
}
