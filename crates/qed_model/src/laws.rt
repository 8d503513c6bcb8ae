//! Laws between the definitions.
ghost use Rattle.qed_model.specs.Promise.InStep.{PromisesFollow};
ghost use Rattle.qed_model.specs.Weave.Output.{InputHasOneOutput};
ghost use Rattle.qed_model.specs.Weave.Woven.{RolesCover};

/// With given options, given bytes have one output.
pub fn input_has_one_output()
    ensures { InputHasOneOutput }
{}

/// Each item of the new code has one role, in either form.
pub fn roles_cover()
    ensures { RolesCover }
{}

/// A promise that holds while the input is steady for its own steps also holds while it is steady
/// for as many steps as the output makes.
#[tactic(auto, using(crate::proofs::Following::promises_follow))]
pub fn promises_follow()
    ensures { PromisesFollow }
{}
