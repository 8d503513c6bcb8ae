//! What the definitions say of each other.
ghost use Rattle.machine.specs.Operands.{OperandsGoByFormat};

/// Which registers an instruction reads and writes is what its format says, but for x0 and for FENCE, which name none.
#[tactic(auto, using(crate::proofs::Operands::by_format))]
pub fn operands_go_by_format()
    ensures { OperandsGoByFormat }
{}
