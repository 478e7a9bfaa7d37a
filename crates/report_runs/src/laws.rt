//! What outcomes say of runs: each law is the contract of a function that does nothing.
ghost use Rattle.report_runs.specs.Laws.{CodeBinds, OutcomesHoldOfRuns};

/// Each run from a root that meets the assertions is followed up to its first gap: by the due graph, and by the graphs of
/// the contexts of its frames, each of which passes the heads of its loops at most as often as their bounds say and
/// spends at most the bound of its context. From a root that is told with a bound each such run meets no gap, and spends
/// at most that bound.
pub fn outcomes_hold_of_runs()
    ensures { OutcomesHoldOfRuns }
{}

/// Assertions that speak of code of an accepted image are bound to it: the targets that they list are code.
pub fn code_binds()
    ensures { CodeBinds }
{}
