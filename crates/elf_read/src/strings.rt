//! String tables.
ghost use Rattle.std.specs.Prelude.{◌≡◌, ◌+◌, ◌<◌, ◌≤◌, List, ℕ, drop, take, length, IfOk};
ghost use Rattle.tests.specs.Files.Rules.{name_at, is_unended};
ghost use Rattle.elf_read.specs.Strings.{IsLastZero, IsNextZero, AreNextZeros};

use elf_types::{Bytes, Shared};
use std::alloc::{AllocError, Global};
use std::marker::Model;

/// How many bytes of a string table have one entry in the list of its zero bytes.
const STRIDE: usize = 16;

/// A string table: names one after the other, each with a zero byte behind it.
///
/// The bytes are looked through once. Then each name is found in a time that does not grow with its length.
#[derive(Drop)]
pub struct Strings<'a> {
    bytes: &'a [u8],
    /// One past the last zero byte, or 0 where there is none.
    end: u64,
    /// The place of the first zero byte at or behind each multiple of `STRIDE`, as many as there was memory for.
    zeros: Vec<usize>,
}

impl<'a> Model for Strings<'a> {
    ghost Value = { List ℕ };

    ghost view = { λ s. s.bytes.now };

    ghost invariant = { λ s. record { last : IsLastZero s.bytes.now s.end; next : AreNextZeros s.bytes.now s.zeros.items } };
}

// One past the last zero byte, which mostly is the last byte, or 0 where there is none.
fn zeros_end(bytes: &[u8]) -> u64
    ensures { IsLastZero bytes.now result }
{
    for behind in 0..bytes.len() {
        let end = bytes.len() - behind;
        if bytes[end - 1] == 0 {
            return end as u64;
        }
    }
    0
}

// The place of the first zero byte at or behind a place, up to an end.
fn next_zero(bytes: &[u8], from: usize, to: usize) -> usize
    requires order { from ≤ to }
    requires within { to ≤ length bytes.now }
    ensures { IsNextZero bytes.now from to result }
{
    for at in from..to {
        if bytes[at] == 0 {
            return at;
        }
    }
    to
}

// The place of the first zero byte at or behind each multiple of the stride, as many as there is memory for.
fn next_zeros(alloc: Global, bytes: &[u8]) -> Vec<usize>
    ensures { AreNextZeros bytes.now result.items }
{
    let mut zeros = Vec::new(alloc);
    let mut at = 0;
    for block in 0..bytes.len() / STRIDE + 1 {
        at = next_zero(bytes, at.max(block * STRIDE), bytes.len());
        if zeros.push(at).is_err() {
            return zeros;
        }
    }
    zeros
}

// The place of the first zero byte at or behind a place, or the end of the table.
fn name_end(bytes: &[u8], zeros: &[usize], place: usize) -> usize
    requires within { place ≤ length bytes.now }
    requires zeros { AreNextZeros bytes.now zeros.now }
    ensures { IsNextZero bytes.now place (length bytes.now) result }
{
    let block = place / STRIDE + 1;
    if block >= zeros.len() {
        return next_zero(bytes, place, bytes.len());
    }
    let edge = block * STRIDE;
    let near = next_zero(bytes, place, edge);
    if near < edge {
        return near;
    }
    zeros[block]
}

// Where a name begins, and how many bytes it has. One that is empty, or has no end, begins at the first byte.
#[tactic(auto, using(crate::proofs::NextZero::name_zero, crate::proofs::NextZero::name_past, crate::proofs::NextZero::name_none, crate::proofs::NextZero::name_found))]
fn span(bytes: &[u8], zeros: &[usize], place: u32) -> (usize, usize)
    requires { AreNextZeros bytes.now zeros.now }
    ensures within { result.0 + result.1 ≤ length bytes.now }
    ensures name { take result.1 (drop result.0 bytes.now) ≡ name_at bytes.now place }
{
    let start = place as usize;
    if start == 0 {
        return (0, 0);
    }
    if start >= bytes.len() {
        return (0, 0);
    }
    let end = name_end(bytes, zeros, start);
    if end == bytes.len() {
        return (0, 0);
    }
    (start, end - start)
}

impl<'a> Strings<'a> {
    /// The string table that these bytes are.
    pub fn new(alloc: Global, bytes: &'a [u8]) -> Strings<'a>
        ensures { result ≡ bytes.now }
    {
        Strings {
            bytes,
            end: zeros_end(bytes),
            zeros: next_zeros(alloc, bytes),
        }
    }

    /// Whether a name has no end. This takes the same time for each name.
    #[tactic(auto, using(crate::proofs::LastZero::unended_past))]
    pub fn is_unended(&self, place: u32) -> bool
        ensures { result ≡ is_unended self.now place }
    {
        place != 0 && u64::from(place) >= self.end
    }

    /// The name at a place; the one at place 0, and one without an end, is empty. Its length takes no longer to find
    /// where the name is long.
    pub fn name(&self, place: u32) -> &'a [u8]
        ensures { result.now ≡ name_at self.now place }
    {
        let (from, count) = self.span(place);
        &self.bytes[from..from + count]
    }

    // Where the name at a place begins, and how many bytes it has.
    fn span(&self, place: u32) -> (usize, usize)
        ensures within { result.0 + result.1 ≤ length self.now }
        ensures name { take result.1 (drop result.0 self.now) ≡ name_at self.now place }
    {
        span(self.bytes, &self.zeros, place)
    }
}

/// The names of a string table, which share a copy of its bytes.
#[derive(Drop)]
pub struct Names<'a> {
    strings: Strings<'a>,
    table: Shared,
}

impl<'a> Model for Names<'a> {
    ghost Value = { List ℕ };

    ghost view = { λ n. n.strings };

    ghost invariant = { λ n. n.table ≡ n.strings };
}

impl<'a> Names<'a> {
    /// The names of a string table.
    pub fn new(alloc: Global, strings: Strings<'a>) -> Result<Names<'a>, AllocError>
        ensures { IfOk result (λ names. names ≡ strings.entry) }
    {
        let table = Shared::copied(alloc, strings.bytes)?;
        Ok(Names { strings, table })
    }

    /// The name at a place, as in `Strings::name`.
    pub fn name(&self, place: u32) -> Result<Bytes, AllocError>
        ensures { IfOk result (λ name. name ≡ name_at self.now place) }
    {
        let (from, count) = self.strings.span(place);
        let name = self.table.part(from, count)?;
        Ok(name)
    }
}
