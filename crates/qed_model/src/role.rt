//! The roles of the words of the new code.

use rv_isa::Reg;

/// The role of a word of the new code. Addresses are those of the input, in bytes; a comparison is
/// of x1 to x13 with their pairs, or of x14 with x30.
#[derive(Clone, Copy, Debug, PartialEq, Eq)]
pub enum Role {
    /// The words that run first.
    Start,
    /// The test of the signature, at the entry of an address.
    Entry(u64),
    /// The instruction at an address, on the originals.
    Original(u64),
    /// The instruction at an address, on the pairs.
    Mirror(u64),
    /// A comparison just before the instruction at an address uses the register.
    Guard(Reg, u64),
    /// A comparison behind the piece whose first and last instructions stand at these addresses.
    Compare(Reg, u64, u64),
    /// A visit of a data word behind the piece whose first and last instructions stand at these addresses.
    Visit(u64, u64),
    /// The leave of the block that ends at an address, or falls through to it.
    Leave(u64),
    /// A comparison within a leave.
    LeaveGuard(Reg, u64),
    /// The comparison of all data words before the end.
    Sweep,
    /// A comparison before the end.
    End(Reg),
    /// The zero word behind the code.
    Stub,
    /// In the lean form, at the entry of an address: counts the steps of the block, or calls the check.
    Tick(u64),
    /// The one check of the lean form: compares the signature with the address of the calling
    /// block, finds the next data word, and starts the count again.
    Check,
    /// A comparison in the check.
    CheckCompare(Reg),
    /// The visits of data words in the check.
    CheckVisit,
    /// In the check: looks the entry of the signature up twice, and goes there.
    LookUp,
    /// Tests before an ECALL whether the signature is the address where the block begins.
    Sign(u64),
}

/// Words of one role, one behind the other.
#[derive(Clone, Copy, Debug)]
pub struct RoleRow {
    pub role: Role,
    /// How many bytes they have; may be 0.
    pub bytes: u64,
}
