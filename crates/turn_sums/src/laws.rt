//! Facts about steps of turns: each is the contract of a function that does nothing.
ghost use Rattle.turn_sums.specs.Step.{StepIsOne, StepBoundsPasses};

/// The turns of a loop change a cell by at most one step.
pub fn step_is_one()
    ensures { StepIsOne }
{}

/// A cell that counts by a step, within a range at the head, bounds how often the head is passed.
pub fn step_bounds_passes()
    ensures { StepBoundsPasses }
{}
