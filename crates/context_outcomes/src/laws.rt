//! Facts about outcomes: each is the contract of a function that does nothing.
ghost use Rattle.context_outcomes.specs.Laws.{BoundedHaveNoReasons, NeededAreTold, PlainHaveBounds, UnmatchedAreNotMatched};

/// A context has a bound exactly where its list of reasons is empty.
pub fn bounded_have_no_reasons()
    ensures { BoundedHaveNoReasons }
{}

/// The plain context of a plain subprogram has the subprogram's bound.
pub fn plain_have_bounds()
    ensures { PlainHaveBounds }
{}

/// Where the line of an asserted loop isn't matched, not all are.
pub fn unmatched_are_not_matched()
    ensures { UnmatchedAreNotMatched }
{}

/// So many different contexts that are needed have as many outcomes, so that no list of at most 4,096 is one where more are
/// needed.
pub fn needed_are_told()
    ensures { NeededAreTold }
{}
