//! The registers of this project's profile, by what they are for (docs/PROFILE.md), and the size of a page.

/// How many original registers there are: x1 to x13, which the test uses.
pub const ORIGINALS: u8 = 13;

/// The last original register.
pub const LAST_ORIGINAL: u8 = 13;

/// How far the pair of an original register stands behind it: x17 duplicates x1.
pub const PAIR_DISTANCE: u8 = 16;

/// x14 holds the distance from the original half of memory to the duplicate half, in bytes.
pub const DISTANCE: u8 = 14;

/// x15 holds the address of the next visited data word; in the lean form it counts steps.
pub const CURSOR: u8 = 15;

/// x16 holds the signature.
pub const SIGNATURE: u8 = 16;

/// x30 is a temporary of the checks.
pub const TEMPORARY: u8 = 30;

/// x31 is their second temporary.
pub const SPARE: u8 = 31;

/// The bytes of a page (RISC-V privileged manual, "Sv39").
pub const PAGE: u64 = 4096;
