//! What the strikes of a campaign are drawn from.

/// Places of one kind.
#[derive(Clone, Copy, Debug, PartialEq, Eq)]
pub enum Places {
    /// x1 to x13.
    Registers,
    /// The data words.
    Words,
}

/// What a campaign strikes: the places, and after which steps.
#[derive(Clone, Copy, Debug, PartialEq, Eq)]
pub struct Aim {
    /// None means registers and data words.
    pub only: Option<Places>,
    /// The least step.
    pub from: u64,
    /// The step behind the greatest; None means the step at which the output stops.
    pub to: Option<u64>,
}

/// The strikes that a seed draws.
#[derive(Clone, Copy, Debug, PartialEq, Eq)]
pub struct Draws {
    pub seed: u64,
    /// How many strikes to draw.
    pub count: u64,
    /// How many changes each strike has.
    pub changes: u64,
    pub aim: Aim,
}
