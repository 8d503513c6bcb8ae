//! Places that are closed.
ghost use Rattle.std.specs.Prelude.{◌≡◌, ◌↔◌, ◌&&◌, ◌||◌, not, false};
ghost use Rattle.rv_isa.specs.Kind.{class_of};
ghost use Rattle.machine.specs.Step.{Fetched, Known};
ghost use Rattle.rv_step.specs.Known.{instruction_of};
ghost use Rattle.rv_isa.specs.Operation.{pair};
ghost use Rattle.qed_model.specs.Promise.Closed.{is_closed, uses as uses_register, uses_as, guards_other, guard_bytes, is_on_pairs as on_pairs, is_checked};
ghost use Rattle.qed_model.specs.Promise.Closed.{IsOpen};
ghost use Rattle.fault_inject.specs.Closed.{is_closed_place};

use qed_model::Place;
use rv_isa::profile::{LAST_ORIGINAL, PAIR_DISTANCE, TEMPORARY};
use rv_isa::{Class, Ins, Kind, Reg};
use rv_step::Machine;

/// Whether an instruction uses a register: as the base of an access, as a stored value, in a branch
/// on x0 to x13, or as the source of an ADDI into x30.
fn uses(ins: &Ins, r: Reg) -> bool
    ensures { result ≡ uses_as (class_of ins.now.kind) r ins.now }
{
    match ins.class() {
        Class::Load => ins.rs1 == r,
        Class::Store => ins.rs1 == r || ins.rs2 == r,
        Class::Branch => {
            ins.rs1.number() <= LAST_ORIGINAL
                && ins.rs2.number() <= LAST_ORIGINAL
                && (ins.rs1 == r || ins.rs2 == r)
        }
        Class::Compute => ins.kind == Kind::Addi && ins.rd.number() == TEMPORARY && ins.rs1 == r,
        _ => false,
    }
}

/// Whether an instruction compares another of x1 to x13 with its pair: BEQ skips the next word if
/// they are equal, BNE goes elsewhere if they differ.
#[tactic(auto, unfolding(qed_model::specs::Promise::Closed::guards_other))]
fn guards_another(ins: &Ins, r: Reg) -> bool
    ensures { result ≡ guards_other r (Known ins.now) }
{
    let other = ins.rs1.number();
    (ins.kind == Kind::Beq && ins.imm == 8 || ins.kind == Kind::Bne)
        && ins.rs2.number() == other + PAIR_DISTANCE
        && ins.rs1 != r
        && 1 <= other
        && other <= LAST_ORIGINAL
}

/// How many bytes a guard that finds no difference takes.
fn guard_length(ins: &Ins) -> u64
    ensures { result ≡ guard_bytes (Known ins.now) }
{
    if ins.kind == Kind::Bne { 4 } else { 8 }
}

/// The number of the register that holds the duplicate of this one.
fn pair_number(r: Reg) -> u8
    ensures { result ≡ pair r }
{
    if r.number() == 0 {
        0
    } else {
        r.number() + PAIR_DISTANCE
    }
}

/// Whether an instruction is a branch on the pairs of another's registers.
fn is_on_pairs(ins: &Ins, other: &Ins) -> bool
    ensures { result ≡ on_pairs other.now (Known ins.now) }
{
    ins.class() == Class::Branch
        && ins.rs1.number() == pair_number(other.rs1)
        && ins.rs2.number() == pair_number(other.rs2)
}

/// Whether an instruction is a branch that the next instruction checks.
#[tactic(auto, unfolding(qed_model::specs::Promise::Closed::is_checked))]
fn is_checked_by(ins: &Ins, behind: Option<Ins>) -> bool
    ensures { (f : Fetched) → behind ≡ instruction_of f → result ≡ is_checked (Known ins.now) f }
{
    match behind {
        Some(check) => ins.class() == Class::Branch && is_on_pairs(&check, ins),
        None => false,
    }
}

/// Whether an instruction, if there is one, uses a register.
fn is_used_by(ins: Option<Ins>, r: Reg) -> bool
    ensures { (f : Fetched) → ins ≡ instruction_of f → result ≡ uses_register r f }
{
    match ins {
        Some(ins) => uses(&ins, r),
        None => false,
    }
}

/// Whether a register is closed: used without a check behind, or used behind the guard of another.
fn closes(used: bool, checked: bool, guarded: bool, used_behind: bool) -> bool
    ensures { result ≡ ((used && not checked) || (guarded && used_behind)) }
{
    used && !checked || guarded && used_behind
}

/// Whether a register is closed: it is one of x1 to x13, and the next instruction uses it without a
/// check behind, or guards another and the use comes behind that guard.
fn register_closed(machine: &Machine, r: Reg) -> bool
    ensures { result ≡ is_closed machine.now.state r }
{
    if r.number() < 1 || LAST_ORIGINAL < r.number() {
        return false;
    }
    match machine.next() {
        Some(ins) => {
            let checked = is_checked_by(&ins, machine.ahead(4));
            let used_behind = is_used_by(machine.ahead(guard_length(&ins)), r);
            closes(uses(&ins, r), checked, guards_another(&ins, r), used_behind)
        }
        None => false,
    }
}

/// Whether a place is closed: between the guard of a register and the use that it guards, when a wrong value may reach
/// memory or a branch before any check. Only x1 to x13 are ever closed; every other register and every word is open.
pub fn closed(machine: &Machine, place: &Place) -> bool
    ensures exact { result ≡ is_closed_place machine.now.state place.now }
    ensures open { (result ≡ false) ↔ IsOpen machine.now.state place.now }
{
    match *place {
        Place::Reg(r) => register_closed(machine, r),
        Place::Word(_) => false,
    }
}
