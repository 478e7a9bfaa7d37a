//! Facts about cells that count: each is the contract of a function that does nothing.
ghost use Rattle.counter_bound.specs.Laws.{CellsCountByOneStep, HeadBoundIsOne, BoundsAreCounters};

/// A cell counts by at most one step.
pub fn cells_count_by_one_step()
    ensures { CellsCountByOneStep }
{}

/// A head has at most one bound by its cells.
pub fn head_bound_is_one()
    ensures { HeadBoundIsOne }
{}

/// The counter of a bound shows its passes.
pub fn bounds_are_counters()
    ensures { BoundsAreCounters }
{}
