//! How harts stand together.
ghost use Rattle.std.specs.Prelude.{◌≡◌};
ghost use Rattle.qed_model.specs.Promise.Kept.{is_trapped};
ghost use Rattle.rv_step.specs.Known.{does_step};
ghost use Rattle.harts.specs.Standing.{is_fired, stands};

use qed_model::Outcome;
use rv_step::Hart;

fn is_fired(outcome: Outcome) -> bool
    ensures { result ≡ is_fired outcome }
{
    matches!(outcome, Outcome::Fired)
}

fn is_trapped(outcome: Outcome) -> bool
    ensures { result ≡ is_trapped outcome }
{
    matches!(outcome, Outcome::Trapped(_, _))
}

/// Whether this is the outcome of a hart that goes on.
pub fn is_going(outcome: Outcome) -> bool
    ensures { result ≡ does_step outcome }
{
    matches!(outcome, Outcome::Going)
}

/// Whether a hart has fired.
pub fn any_fired(harts: &[Hart]) -> bool
    ensures { result ≡ stands is_fired harts.now }
{
    harts.iter().any(|hart| is_fired(hart.outcome()))
}

/// Whether a hart has trapped.
pub fn any_trapped(harts: &[Hart]) -> bool
    ensures { result ≡ stands is_trapped harts.now }
{
    harts.iter().any(|hart| is_trapped(hart.outcome()))
}

/// Whether a hart goes on.
pub fn any_going(harts: &[Hart]) -> bool
    ensures { result ≡ stands does_step harts.now }
{
    harts.iter().any(|hart| is_going(hart.outcome()))
}
