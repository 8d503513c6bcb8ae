//! A piece: a store stands in both halves before the next instruction.
ghost use Rattle.std.specs.Prelude.{◌≡◌, ◌+◌, ◌*◌, ◌^◌, ◌<◌, ◌≤◌, [], ◌∷◌, ◌++◌, OnOk, length};
ghost use Rattle.rv_isa.specs.declared.profile.TheConstants.{LAST_ORIGINAL};
ghost use Rattle.rv_isa.specs.Kind.{class_of};
ghost use Rattle.qed_model.specs.Weave.LeanCode.{is_store as is_store_of};
ghost use Rattle.qed_model.specs.Weave.Lean.{guard_address, guard_value, mirrored_store};
ghost use Rattle.qed_model.specs.Weave.LeanParts.{store_parts, both_parts, parts_with};
ghost use Rattle.weave_core.specs.Blocks.{AllFit};
ghost use Rattle.weave.specs.Handed.{Comes, Handed};

use mirror_forms::Mirror;
use passes::{Emit, plain, put_guard};
use qed_model::{Item, Role};
use relinker::ItemSink;
use rv_isa::profile::{DISTANCE, SPARE, TEMPORARY};
use rv_isa::{Class, Ins, Kind, register};
use std::alloc::AllocError;
use weave::{PartSink, weave_halves};

/// Whether an instruction stores.
pub(crate) fn is_store(ins: &Ins) -> bool
    ensures { result ≡ is_store_of (class_of ins.now.kind) }
{
    matches!(ins.class(), Class::Store)
}

/// Gives x30 a store's address in the other half by the pair of its base, and fires if the base is not that of x30.
fn put_guard_address(ins: &Ins, out: &mut Emit) -> Result<(), AllocError>
    requires { ins.now.rs1 ≤ LAST_ORIGINAL }
    ensures { OnOk result (out.new ≡ out.old ++ guard_address ins.now) }
{
    let (zero, half) = (register(0), register(DISTANCE));
    let (address, base) = (register(TEMPORARY), register(SPARE));
    out.put(&[
        plain(Kind::Add, address, ins.rs1.pair(), half, 0),
        plain(Kind::Sub, base, address, half, 0),
        plain(Kind::Beq, zero, ins.rs1, base, 8),
        plain(Kind::Ebreak, zero, zero, zero, 0),
    ])?;
    Ok(())
}

/// The guard of the value of a store, where it is another register than the base, and the store.
fn put_original_store(ins: &Ins, out: &mut Emit) -> Result<(), AllocError>
    requires { ins.now.rs2 ≤ LAST_ORIGINAL }
    ensures { OnOk result (out.new ≡ out.old ++ (guard_value ins.now ++ Item.Plain ins.now ∷ [])) }
{
    if ins.rs2 != ins.rs1 {
        put_guard(out, ins.rs2)?;
    }
    out.push(Item::Plain(*ins))?;
    Ok(())
}

/// The store on the pairs, by the address in x30.
fn put_mirrored_store(ins: &Ins, out: &mut Emit) -> Result<(), AllocError>
    requires { ins.now.rs2 ≤ LAST_ORIGINAL }
    ensures { OnOk result (out.new ≡ out.old ++ mirrored_store ins.now ∷ []) }
{
    let (zero, address) = (register(0), register(TEMPORARY));
    out.push(plain(ins.kind, zero, address, ins.rs2.pair(), ins.imm))?;
    Ok(())
}

/// Hands on a store at an input address.
fn weave_store<S: ItemSink>(ins: &Ins, at: u64, to: &mut PartSink<S>) -> Result<(), AllocError>
    requires rs1 { ins.now.rs1 ≤ LAST_ORIGINAL }
    requires rs2 { ins.now.rs2 ≤ LAST_ORIGINAL }
    requires come { Comes (S.took to.old.sink) to.old.items (store_parts ins.now at) }
    ensures { OnOk result (Handed (S.took to.old.sink) (S.took to.new.sink) to.new.items (store_parts ins.now at)) }
{
    put_guard_address(ins, &mut to.items)?;
    to.end(Role::Guard(ins.rs1, at))?;
    put_original_store(ins, &mut to.items)?;
    to.end(Role::Original(at))?;
    put_mirrored_store(ins, &mut to.items)?;
    to.end(Role::Mirror(at))?;
    Ok(())
}

/// Hands on instructions without a store: all original parts, and all mirror parts.
fn weave_run<S: ItemSink>(
    diverse: bool,
    run: &[Ins],
    at: u64,
    to: &mut PartSink<S>,
) -> Result<(), AllocError>
    requires fits { AllFit run.now }
    requires low { at + 4 * length run.now < 2 ^ 64 }
    requires come { Comes (S.took to.old.sink) to.old.items (both_parts diverse run.now at) }
    ensures { OnOk result (Handed (S.took to.old.sink) (S.took to.new.sink) to.new.items (both_parts diverse run.now at)) }
{
    weave_halves(&Mirror { diverse }, run, at, to)
}

/// Hands on instructions without a store, and the store behind them.
fn weave_through<S: ItemSink>(
    diverse: bool,
    run: &[Ins],
    store: &Ins,
    at: u64,
    to: &mut PartSink<S>,
) -> Result<(), AllocError>
    requires fits { AllFit run.now }
    requires rs1 { store.now.rs1 ≤ LAST_ORIGINAL }
    requires rs2 { store.now.rs2 ≤ LAST_ORIGINAL }
    requires low { at + 4 * length run.now < 2 ^ 64 }
    requires come { Comes (S.took to.old.sink) to.old.items (both_parts diverse run.now at ++ store_parts store.now (at + 4 * length run.now)) }
    ensures { OnOk result (Handed (S.took to.old.sink) (S.took to.new.sink) to.new.items
        (both_parts diverse run.now at ++ store_parts store.now (at + 4 * length run.now))) }
{
    weave_run(diverse, run, at, to)?;
    weave_store(store, at + 4 * run.len() as u64, to)?;
    Ok(())
}

/// Hands on a piece whose first instruction stands at an input address.
pub(crate) fn weave_piece<S: ItemSink>(
    diverse: bool,
    list: &[Ins],
    first: u64,
    to: &mut PartSink<S>,
) -> Result<(), AllocError>
    requires fits { AllFit list.now }
    requires low { first + 4 * length list.now < 2 ^ 64 }
    requires come { Comes (S.took to.old.sink) to.old.items (parts_with diverse [] first list.now) }
    ensures { OnOk result (Handed (S.took to.old.sink) (S.took to.new.sink) to.new.items (parts_with diverse [] first list.now)) }
{
    let mut rest = list;
    let mut run = 0usize;
    let mut at = first;
    for ins in list {
        if is_store(ins) {
            weave_through(diverse, &rest[..run], ins, at, to)?;
            rest = &rest[run + 1..];
            at += 4 * (run as u64 + 1);
            run = 0;
        } else {
            run += 1;
        }
    }
    weave_run(diverse, rest, at, to)?;
    Ok(())
}
