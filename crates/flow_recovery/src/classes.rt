//! Classes of instruction, as blocks see them.
ghost use Rattle.std.specs.Prelude.{◌≡◌};
ghost use Rattle.tests.specs.Admission.Leaders.{has_target, is_end, is_indirect};
ghost use Rattle.tests.specs.Admission.Reached.{is_jump};

use rv_isa::Class;

/// Whether it leads to a known address: JAL and branches.
pub fn has_target(class: Class) -> bool
    ensures { result ≡ has_target class }
{
    matches!(class, Class::Jump | Class::Branch)
}

/// Whether a block ends with it: branches, JAL, JALR, ECALL and the zero word.
pub fn is_end(class: Class) -> bool
    ensures { result ≡ is_end class }
{
    matches!(
        class,
        Class::Branch | Class::Jump | Class::JumpReg | Class::End | Class::Illegal
    )
}

/// Whether it leads to an address in a register: JALR.
pub fn is_indirect(class: Class) -> bool
    ensures { result ≡ is_indirect class }
{
    matches!(class, Class::JumpReg)
}

/// Whether it writes the address behind it to a register: JAL and JALR.
pub(crate) fn is_jump(class: Class) -> bool
    ensures { result ≡ is_jump class }
{
    matches!(class, Class::Jump | Class::JumpReg)
}
