//! Facts about counters: each is the contract of a function that does nothing.
ghost use Rattle.graph_laws.specs.Counter.{CounterBoundsPasses, FallingCounterBoundsPasses, RisingSumsBoundTurns, FallingSumsBoundTurns, ChosenSumsAreAttained, ForwardSumsRise, ForwardSumsFall};

/// A cell whose sum over each turn is at least a step bounds how often the head is passed.
pub fn counter_bounds_passes()
    ensures { CounterBoundsPasses }
{}

/// The same of a cell that falls by at least a step in each turn.
pub fn falling_counter_bounds_passes()
    ensures { FallingCounterBoundsPasses }
{}

/// Labels of sums show that each turn rises by at least the step.
pub fn rising_sums_bound_turns()
    ensures { RisingSumsBoundTurns }
{}

/// Labels of sums show that each turn falls by at least the step.
pub fn falling_sums_bound_turns()
    ensures { FallingSumsBoundTurns }
{}

/// Labels of sums that are each what some edge gives are sums of turns: the least of them is the least sum.
pub fn chosen_sums_are_attained()
    ensures { ChosenSumsAreAttained }
{}

/// Where no inner loop changes the cell, labels that meet the checks on the edges but those back to heads meet
/// them on all.
pub fn forward_sums_rise()
    ensures { ForwardSumsRise }
{}

/// The same of a cell that falls.
pub fn forward_sums_fall()
    ensures { ForwardSumsFall }
{}
