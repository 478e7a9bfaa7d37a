//! What outcomes say of runs: each law is the contract of a function that does nothing.
ghost use Rattle.outcome_runs.specs.Laws.{
  BoundedRootsMeetNoGap,
  BoundedRunsSpend,
  OutcomesAreAsserted,
  OutcomesAreContexts,
  OutcomesAreFilled,
  OutcomesAreSound,
  OutcomesAreTold,
  OutcomesCount,
  RunsSpendOutcomes,
};

/// The outcomes of a program's contexts, with what shows them: where each call leads, and where the context of each root stands.
pub fn outcomes_are_told()
    ensures { OutcomesAreTold }
{}

/// The contexts of outcomes have their graphs filled in: calls, entries, edges and costs are those of their facts.
pub fn outcomes_are_filled()
    ensures { OutcomesAreFilled }
{}

/// Their counters bound their heads, and the bounds that are told are bounds of all walks that keep those of the heads.
pub fn outcomes_are_sound()
    ensures { OutcomesAreSound }
{}

/// The bounds of heads that no counter shows are asserted.
pub fn outcomes_are_asserted()
    ensures { OutcomesAreAsserted }
{}

/// Their facts are those of contexts: each is entered with its arguments, and what a call hands on is among the arguments of the
/// context to which it leads.
pub fn outcomes_are_contexts()
    ensures { OutcomesAreContexts }
{}

/// A run from a root whose context has a bound never stands at a gap.
pub fn bounded_roots_meet_no_gap()
    ensures { BoundedRootsMeetNoGap }
{}

/// Their counters count: each program point in a loop whose head has one leaves its cell, or adds to it what the counter says.
pub fn outcomes_count()
    ensures { OutcomesCount }
{}

/// Each frame of a run from a root that meets the assertions walks the graph of its context keeping the bounds of its heads, and
/// has spent at most the bound that is told of it, at each place and at its pop, up to the first gap.
pub fn runs_spend_outcomes()
    ensures { RunsSpendOutcomes }
{}

/// So each frame of a whole run from a root whose context has a bound has spent at most the bound of its context, at each place
/// and at its pop.
pub fn bounded_runs_spend()
    ensures { BoundedRunsSpend }
{}
