//! Facts about the operations on values: each is the contract of a function that does nothing.
ghost use Rattle.value_ops.specs.Laws.{ResultsAreCovered, OperationsAreMonotone, ApplyIsOne, ApplyIsMonotone};

/// The result for a word of each side is a word of the result, with any carry.
pub fn results_are_covered()
    ensures { ResultsAreCovered }
{}

/// Of less, and over more thresholds, the result is at most what it was.
pub fn operations_are_monotone()
    ensures { OperationsAreMonotone }
{}

/// The result of an operation is one: what `apply` as a function of the thresholds and the sides gives.
pub fn apply_is_one()
    ensures { ApplyIsOne }
{}

/// `apply` as a function covers the results of words, and of less, and over more thresholds, gives less.
pub fn apply_is_monotone()
    ensures { ApplyIsMonotone }
{}
