//! The roles of the items of new code.
ghost use Rattle.std.specs.Prelude.{◌≡◌, ◌∷◌, ◌++◌, [], None, List, IfOk, OnOk};
ghost use Rattle.qed_model.specs.declared.item.Item.{Item};
ghost use Rattle.qed_model.specs.declared.role.Role.{Role};
ghost use Rattle.qed_model.specs.Weave.Parts.{compares as compares_of, comparison_role as comparison_role_of, role_in as role_in_of, item_rows};
ghost use Rattle.qed_model.specs.Weave.Sequences.{stub};
ghost use Rattle.relinker.specs.Counted.{HasRoles};

use crate::ItemSink;
use crate::count::size;
use passes::Emit;
use qed_model::{Item, Role, RoleRow};
use rv_isa::profile::PAIR_DISTANCE;
use rv_isa::{Kind, Reg};
use std::alloc::{AllocError, Global};

/// The register that an item compares with its pair.
fn compares(item: &Item) -> Option<Reg>
    ensures { result ≡ compares_of item.now }
{
    match item {
        Item::Plain(ins) => match ins.kind {
            Kind::Beq if ins.rs2.number() == ins.rs1.number() + PAIR_DISTANCE => Some(ins.rs1),
            _ => None,
        },
        _ => None,
    }
}

/// The role of a comparison of a register with its pair, within a part of a role.
fn comparison_role(of: &Role, r: Reg) -> Role
    ensures { result ≡ comparison_role_of of.now r }
{
    match *of {
        Role::Original(at) => Role::Guard(r, at),
        Role::Visit(first, last) => Role::Compare(r, first, last),
        Role::Leave(at) => Role::LeaveGuard(r, at),
        Role::Sweep => Role::End(r),
        Role::Check => Role::CheckCompare(r),
        _ => *of,
    }
}

/// The role of an item in a part, by the registers that this item and the one before compare.
fn role_in(of: &Role, before: Option<Reg>, here: Option<Reg>) -> Role
    ensures { result ≡ role_in_of of.now before here }
{
    match before.or(here) {
        Some(r) => comparison_role(of, r),
        None => *of,
    }
}

/// Appends the roles of the items of a part.
#[tactic(auto, using(crate::proofs::RoleRows::rows_none))]
fn push_part(
    rows: &mut Vec<RoleRow>,
    far: bool,
    of: &Role,
    items: &[Item],
) -> Result<(), AllocError>
    ensures { OnOk result (rows.new.items ≡ rows.old.items ++ item_rows far of.now None items.now) }
{
    let mut before = None;
    for item in items {
        let role = role_in(of, before, compares(item));
        let bytes = size(far, item);
        rows.push(RoleRow { role, bytes })?;
        before = compares(item);
    }
    Ok(())
}

/// The roles of items: rows of bytes with their role, in the order of the items.
#[derive(Debug, Drop)]
pub struct Roles {
    pub(crate) far: bool,
    pub(crate) rows: Vec<RoleRow>,
}

impl Roles {
    /// No items, of the near or of the far form.
    pub fn new(alloc: Global, far: bool) -> Roles
        ensures form { result.far ≡ far }
        ensures none { HasRoles result [] }
    {
        Roles {
            far,
            rows: Vec::new(alloc),
        }
    }

    /// The rows of all items that were taken, and of the stub behind them.
    ///
    /// Errors: want of memory.
    pub fn finish(mut self) -> Result<Vec<RoleRow>, AllocError>
        ensures { IfOk result (λ rows. (done : List (Role × List Item))
            → HasRoles self done → HasRoles (record { far = self.far; rows = rows }) (done ++ (Role.Stub, stub) ∷ [])) }
    {
        self.rows.push(RoleRow {
            role: Role::Stub,
            bytes: 4,
        })?;
        Ok(self.rows)
    }
}

impl ItemSink for Roles {
    ghost use Rattle.std.specs.Prelude.{◌≡◌};
    ghost use Rattle.relinker.specs.Counted.{HasRoles};

    ghost took = { λ roles form done rest. (roles.far ≡ form.0) × HasRoles roles done };

    fn take(&mut self, role: Role, items: &Emit) -> Result<(), AllocError> {
        push_part(&mut self.rows, self.far, &role, items.items())?;
        Ok(())
    }
}
