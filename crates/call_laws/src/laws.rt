//! Laws on graphs of calls: each is the contract of a function that does nothing.
ghost use Rattle.call_laws.specs.Calls.{FollowedCallsEnd};
ghost use Rattle.call_laws.specs.Needed.{NeededAreLeast, FoundAreTheNeeded};
ghost use Rattle.call_laws.specs.Plain.{PlainReachTheFit};
ghost use Rattle.call_laws.specs.Reason.{BoundedCallTheBounded, UnboundedReachAReason};
ghost use Rattle.call_laws.specs.Result.{ResultsAreOne, ResultsOrCycles, ResultsReachNoCycle};
ghost use Rattle.call_laws.specs.Rising.{RisingListsAreOne, ReasonListsAreOne};

/// Calls that are followed only out of call cycles lead to no cycle, and each chain of them ends.
pub fn followed_calls_end()
    ensures { FollowedCallsEnd }
{}

/// A subprogram comes to at most one result, where the rule looks at nothing but its callees' results.
pub fn results_are_one()
    ensures { ResultsAreOne }
{}

/// A subprogram comes to a result or reaches a call cycle.
pub fn results_or_cycles()
    ensures { ResultsOrCycles }
{}

/// What comes to a result reaches no call cycle.
pub fn results_reach_no_cycle()
    ensures { ResultsReachNoCycle }
{}

/// The least set of what is fit with all its callees is what reaches no call cycle and leads only to what is fit.
pub fn plain_reach_the_fit()
    ensures { PlainReachTheFit }
{}

/// What has the roots and all that its members ask for has all that is needed.
pub fn needed_are_least()
    ensures { NeededAreLeast }
{}

/// A list of needed ones that has the roots and all that its members ask for has exactly what is needed.
pub fn found_are_the_needed()
    ensures { FoundAreTheNeeded }
{}

/// A context has no reason exactly where it has none of its own and each context that it calls has none.
pub fn bounded_call_the_bounded()
    ensures { BoundedCallTheBounded }
{}

/// A context has a reason exactly where it leads to one that has a reason of its own.
pub fn unbounded_reach_a_reason()
    ensures { UnboundedReachAReason }
{}

/// Strictly rising lists of numbers with the same members are one list.
pub fn rising_lists_are_one()
    ensures { RisingListsAreOne }
{}

/// A context has one list of reasons.
pub fn reason_lists_are_one()
    ensures { ReasonListsAreOne }
{}
