//! Parts of bytes of a file.
ghost use Rattle.std.specs.Prelude.{◌≡◌, ◌+◌, ◌<◌, ◌^◌, drop, slice_index};
ghost use Rattle.tests.specs.Words.{word_in};

/// The byte at a place, 0 behind the last.
fn byte_at(bytes: &[u8], place: usize) -> u8
    ensures { result ≡ slice_index bytes.now place }
{
    if place < bytes.len() { bytes[place] } else { 0 }
}

/// The bytes from a number on, none where it is too great.
#[tactic(auto, using(std::proofs::lemmas::List::drop_all))]
pub fn rest_of(bytes: &[u8], number: u64) -> &[u8]
    ensures { result.now ≡ drop number bytes.now }
{
    let skipped = number as usize;
    if skipped < bytes.len() {
        &bytes[skipped..]
    } else {
        &[]
    }
}

/// The little-endian word of four bytes from one of some bytes on, where zeros follow them.
pub fn word_in(bytes: &[u8], place: usize) -> u32
    requires { place + 3 < 2 ^ 64 }
    ensures { result ≡ word_in bytes.now place }
{
    let first = byte_at(bytes, place);
    let second = byte_at(bytes, place + 1);
    let third = byte_at(bytes, place + 2);
    let fourth = byte_at(bytes, place + 3);
    u32::from(first)
        + 256 * (u32::from(second) + 256 * (u32::from(third) + 256 * u32::from(fourth)))
}
