//! From items to words: each word is written where there is room for it.
ghost use Rattle.std.specs.Prelude.{◌≡◌, ◌+◌, ◌*◌, ◌-◌, ◌^◌, ◌<◌, ◌≤◌, ◌++◌, [], ◌∷◌, true, false, length, map, Some, pos, ◌≤ℤ◌, vec_len, vec_capacity};
ghost use Rattle.std.specs.List.{list_all};
ghost use Rattle.rv_isa.specs.declared.profile.TheConstants.{TEMPORARY};
ghost use Rattle.machine.specs.Table.{ins, decode_of};
ghost use Rattle.qed_model.specs.Weave.Placed.{size_of, sum_of_sizes, go_words, instructions_from, leads_to, EntriesAscend};
ghost use Rattle.machine.specs.Offsets.{distance_between as distance_of, upper_part as upper_of, lower_part as lower_of};
ghost use Rattle.relinker.specs.Link.{is_encoded, AreWords};

use crate::search::entry;
use qed_model::{EntryRow, Item};
use rv_encode::encode;
use rv_isa::profile::TEMPORARY;
use rv_isa::{Ins, Kind, Reg, register};

/// The distance from one address to another, modulo 2^64 and read as signed.
pub fn distance_between(from: u64, to: u64) -> i64
    ensures { result ≡ distance_of from to }
{
    to.wrapping_sub(from).cast_signed()
}

/// The part of a distance that AUIPC adds, a multiple of 4096; the rest is from -2048 to 2047.
pub fn upper_part(distance: i64) -> i64
    requires { distance ≤ℤ pos (2 ^ 63 - 2049) }
    ensures { result ≡ upper_of distance }
{
    ((distance + 2048) >> 12) * 4096
}

fn instruction(kind: Kind, rd: Reg, rs1: Reg, imm: i64) -> Ins
    ensures { result ≡ ins kind rd rs1 0 imm }
{
    Ins {
        kind,
        rd,
        rs1,
        rs2: register(0),
        imm,
    }
}

/// The two instructions that set a register to a constant at a distance from where they stand.
#[tactic(auto, using(crate::proofs::Reach::near_upper))]
fn constant(r: Reg, distance: i64) -> (Ins, Ins)
    requires { is_encoded (ins Kind.Auipc r 0 0 (upper_of distance)) ≡ true }
    ensures first { result.0 ≡ ins Kind.Auipc r 0 0 (upper_of distance) }
    ensures second { result.1 ≡ ins Kind.Addi r r 0 (lower_of distance) }
{
    let upper = upper_part(distance);
    (
        instruction(Kind::Auipc, r, register(0), upper),
        instruction(Kind::Addi, r, r, distance - upper),
    )
}

/// The far jump, by way of x30.
#[tactic(auto, using(crate::proofs::Reach::near_upper))]
fn far_jump(distance: i64) -> (Ins, Ins)
    requires { is_encoded (ins Kind.Auipc TEMPORARY 0 0 (upper_of distance)) ≡ true }
    ensures first { result.0 ≡ ins Kind.Auipc TEMPORARY 0 0 (upper_of distance) }
    ensures second { result.1 ≡ ins Kind.Jalr 0 TEMPORARY 0 (lower_of distance) }
{
    let upper = upper_part(distance);
    (
        instruction(Kind::Auipc, register(TEMPORARY), register(0), upper),
        instruction(
            Kind::Jalr,
            register(0),
            register(TEMPORARY),
            distance - upper,
        ),
    )
}

/// The word of an instruction that has one.
#[inline(always)]
fn word(ins: &Ins) -> u32
    requires { is_encoded ins.now ≡ true }
    ensures decode { decode_of result ≡ Some ins.now }
    ensures bound { result < 2 ^ 32 }
{
    encode(ins).unwrap()
}

/// Appends the word of an instruction. There is room for it.
#[tactic(auto, using(crate::proofs::Words::push_word))]
#[inline(always)]
fn put(words: &mut Vec<u32>, ins: &Ins)
    requires encoded { is_encoded ins.now ≡ true }
    requires room { vec_len words.old < vec_capacity words.old }
    requires small { AreWords words.old.items }
    ensures decode { map decode_of words.new.items ≡ map decode_of words.old.items ++ (Some ins.now ∷ []) }
    ensures small { AreWords words.new.items }
    ensures len { vec_len words.new ≡ vec_len words.old + 1 }
    ensures capacity { vec_capacity words.old ≤ vec_capacity words.new }
{
    words.push_reserved(word(ins));
}

/// Appends the words of two instructions. There is room for them.
#[inline(always)]
fn put_two(words: &mut Vec<u32>, pair: (Ins, Ins))
    requires encoded { list_all is_encoded (pair.0 ∷ pair.1 ∷ []) ≡ true }
    requires room { vec_len words.old + 2 ≤ vec_capacity words.old }
    requires small { AreWords words.old.items }
    ensures decode { map decode_of words.new.items ≡ map decode_of words.old.items ++ (Some pair.0 ∷ Some pair.1 ∷ []) }
    ensures small { AreWords words.new.items }
    ensures len { vec_len words.new ≡ vec_len words.old + 2 }
    ensures capacity { vec_capacity words.old ≤ vec_capacity words.new }
{
    let (first, second) = pair;
    put(words, &first);
    put(words, &second);
}

/// The targets of jumps to entries, and their form.
#[derive(Clone, Copy)]
pub(crate) struct Jumps<'a> {
    pub(crate) rows: &'a [EntryRow],
    /// The target of jumps to addresses without a row.
    pub(crate) last: u64,
    pub(crate) far: bool,
    ghost ascend: { EntriesAscend rows.now },
}

/// Appends the words of an item at an address, and returns how many bytes they take. There is room for them.
fn put_item(words: &mut Vec<u32>, jumps: &Jumps<'_>, item: &Item, at: u64) -> u64
    requires encoded { list_all is_encoded (instructions_from jumps.now.far (leads_to jumps.now.rows.now jumps.now.last) at (item.now ∷ [])) ≡ true }
    requires room { 4 * vec_len words.old + size_of jumps.now.far item.now ≤ 4 * vec_capacity words.old }
    requires small { AreWords words.old.items }
    ensures decode { map decode_of words.new.items ≡ map decode_of words.old.items
        ++ map Some (instructions_from jumps.now.far (leads_to jumps.now.rows.now jumps.now.last) at (item.now ∷ [])) }
    ensures small { AreWords words.new.items }
    ensures len { 4 * vec_len words.new ≡ 4 * vec_len words.old + size_of jumps.now.far item.now }
    ensures capacity { vec_capacity words.old ≤ vec_capacity words.new }
    ensures size { result ≡ size_of jumps.now.far item.now }
    ensures bound { result ≤ 8 }
{
    match item {
        Item::Mark(_) => 0,
        Item::Plain(ins) => {
            put(words, ins);
            4
        }
        Item::Constant(r, value) => {
            put_two(words, constant(*r, distance_between(at, *value)));
            8
        }
        Item::Go(address) => {
            let distance = distance_between(at, entry(jumps.rows, jumps.last, *address));
            if jumps.far {
                put_two(words, far_jump(distance));
                8
            } else {
                put(
                    words,
                    &instruction(Kind::Jal, register(0), register(0), distance),
                );
                4
            }
        }
    }
}

/// Appends the words of items from `base` on, and returns where they end. There is room for them.
/// Most items are plain: the loop makes their words without a call.
pub(crate) fn put_items(words: &mut Vec<u32>, jumps: &Jumps<'_>, items: &[Item], base: u64) -> u64
    requires low { base + sum_of_sizes jumps.now.far items.now < 2 ^ 63 }
    requires encoded { list_all is_encoded (instructions_from jumps.now.far (leads_to jumps.now.rows.now jumps.now.last) base items.now) ≡ true }
    requires room { 4 * vec_len words.old + sum_of_sizes jumps.now.far items.now ≤ 4 * vec_capacity words.old }
    requires small { AreWords words.old.items }
    ensures at { result ≡ base + sum_of_sizes jumps.now.far items.now }
    ensures decode { map decode_of words.new.items ≡ map decode_of words.old.items
        ++ map Some (instructions_from jumps.now.far (leads_to jumps.now.rows.now jumps.now.last) base items.now) }
    ensures small { AreWords words.new.items }
    ensures len { 4 * vec_len words.new ≡ 4 * vec_len words.old + sum_of_sizes jumps.now.far items.now }
    ensures capacity { vec_capacity words.old ≤ vec_capacity words.new }
{
    let mut at = base;
    for item in items {
        at += match item {
            Item::Plain(ins) => {
                put(words, ins);
                4
            }
            _ => put_item(words, jumps, item, at),
        };
    }
    at
}

/// Appends the zero word. There is room for it.
#[tactic(auto, using(crate::proofs::Words::stub_word))]
pub(crate) fn put_stub(words: &mut Vec<u32>)
    requires room { vec_len words.old < vec_capacity words.old }
    requires small { AreWords words.old.items }
    ensures decode { map decode_of words.new.items ≡ map decode_of words.old.items ++ (Some (ins Kind.Illegal 0 0 0 (pos 0)) ∷ []) }
    ensures small { AreWords words.new.items }
{
    put(
        words,
        &instruction(Kind::Illegal, register(0), register(0), 0),
    );
}
